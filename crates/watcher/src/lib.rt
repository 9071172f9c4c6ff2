// The watcher's calls over a lent table. Each replaces one entry by what its event makes of it, and tells how the entry then is.
#![tactic(auto)]

pub mod checks;
pub mod entries;

ghost use Rattle.std.specs.Prelude.{◌≡◌};
ghost use Rattle.model.specs.declared.Event.TheVariants.{Beat, Look, Reset};
ghost use Rattle.model.specs.Answers.{watched};
ghost use Rattle.model.specs.Watching.{fresh_of, event_reply, event_table, status_reply};

use checks::{bad_entry, bad_event};
use entries::{after, told, waiting};
use model::{Entry, Event, Refusal, Watched};

// An entry that no call has reset yet.
pub fn fresh() -> Entry
    ensures { result ≡ fresh_of 0 }
{
    waiting(0)
}

#[tactic(auto, unfolding(model::specs::Watching::event_reply, model::specs::Watching::event_table))]
fn happen(table: &mut [Entry], entry: usize, event: Event) -> Result<Watched, Refusal>
    ensures { (watched result ≡ event_reply table.old entry event)
        × (table.new ≡ event_table table.old entry event) }
{
    if bad_entry(table.len(), entry) || bad_event(event) {
        return Err(Refusal::BadEntry);
    }
    let e = after(table[entry], event);
    table[entry] = e;
    Ok(told(e))
}

pub fn beat(table: &mut [Entry], entry: usize, value: u32) -> Result<Watched, Refusal>
    ensures { (watched result ≡ event_reply table.old entry (Beat value))
        × (table.new ≡ event_table table.old entry (Beat value)) }
{
    happen(table, entry, Event::Beat(value))
}

pub fn look(table: &mut [Entry], entry: usize) -> Result<Watched, Refusal>
    ensures { (watched result ≡ event_reply table.old entry Look)
        × (table.new ≡ event_table table.old entry Look) }
{
    happen(table, entry, Event::Look)
}

pub fn reset(table: &mut [Entry], entry: usize, window: u32) -> Result<Watched, Refusal>
    ensures { (watched result ≡ event_reply table.old entry (Reset window))
        × (table.new ≡ event_table table.old entry (Reset window)) }
{
    happen(table, entry, Event::Reset(window))
}

#[tactic(auto, unfolding(model::specs::Watching::status_reply))]
pub fn status(table: &[Entry], entry: usize) -> Result<Watched, Refusal>
    ensures { watched result ≡ status_reply table.now entry }
{
    if bad_entry(table.len(), entry) {
        return Err(Refusal::BadEntry);
    }
    Ok(told(table[entry]))
}

// The watcher's table as numbers, three for each entry, as C holds it.
#![tactic(auto)]

ghost use Rattle.std.specs.Prelude.{◌≡◌, ◌+◌, ◌<◌, length};
ghost use Rattle.model.specs.Answers.{watched};
ghost use Rattle.tables.specs.Numbers.{entry_from, bad_table, mark_set, mark_after, entry_over, numbers_reply, numbers_status, numbers_table};

use model::{Entry, Event, Refusal, Watched};
use watcher::checks::{bad_entry, bad_event};
use watcher::entries::{after, told};

// An entry's numbers.
const ENTRY: usize = 3;

// By index, as it is written: of a slice written as chunks the library says nothing.
fn entry_from(table: &[u32], at: usize) -> Entry
    requires { at + 2 < length table.now }
    ensures { result ≡ entry_from table.now at }
{
    Entry {
        left: table[at],
        window: table[at + 1],
        waiting: table[at + 2] != 0,
    }
}

fn bad_table(length: usize, entry: usize) -> bool
    ensures { result ≡ bad_table length entry }
{
    length % ENTRY != 0 || bad_entry(length / ENTRY, entry)
}

fn mark_set(event: Event, old: u32) -> u32
    ensures { result ≡ mark_set event old }
{
    match event {
        Event::Beat(_) | Event::Look => old,
        Event::Reset(_) => 1,
    }
}

fn mark_after(event: Event, old: u32, waits: bool) -> u32
    ensures { result ≡ mark_after event old waits }
{
    if waits { mark_set(event, old) } else { 0 }
}

fn put_entry(table: &mut [u32], at: usize, e: Entry, mark: u32)
    requires { at + 2 < length table.old }
    ensures { table.new ≡ entry_over table.old at e mark }
{
    // One by one: `copy_from_slice` asks at each call whether the two overlap.
    table[at] = e.left;
    table[at + 1] = e.window;
    table[at + 2] = mark;
}

// What an event makes of an entry's numbers.
#[tactic(auto, unfolding(crate::specs::Numbers::numbers_reply, crate::specs::Numbers::numbers_table))]
pub fn happen(table: &mut [u32], entry: u32, event: Event) -> Result<Watched, Refusal>
    ensures { (watched result ≡ numbers_reply table.old entry event)
        × (table.new ≡ numbers_table table.old entry event) }
{
    if bad_table(table.len(), entry as usize) || bad_event(event) {
        return Err(Refusal::BadEntry);
    }
    let at = ENTRY * entry as usize;
    let e = after(entry_from(table, at), event);
    let mark = mark_after(event, table[at + 2], e.waiting);
    put_entry(table, at, e, mark);
    Ok(told(e))
}

#[tactic(auto, unfolding(crate::specs::Numbers::numbers_status))]
pub fn seen(table: &[u32], entry: u32) -> Result<Watched, Refusal>
    ensures { watched result ≡ numbers_status table.now entry }
{
    if bad_table(table.len(), entry as usize) {
        return Err(Refusal::BadEntry);
    }
    Ok(told(entry_from(table, ENTRY * entry as usize)))
}

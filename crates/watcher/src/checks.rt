// Refusal 13: what is asked of a table's size, of an entry's index and of an event, before all else.
ghost use Rattle.std.specs.Prelude.{◌≡◌};
ghost use Rattle.model.specs.Watching.{bad_entry, bad_event};

use model::Event;
use model::limits::{MOST_TICKS, TABLE_ENTRIES};

pub fn bad_entry(size: usize, entry: usize) -> bool
    ensures { result ≡ bad_entry size entry }
{
    TABLE_ENTRIES < size || size <= entry
}

pub fn bad_event(event: Event) -> bool
    ensures { result ≡ bad_event event }
{
    match event {
        Event::Beat(value) => MOST_TICKS < value,
        Event::Look => false,
        Event::Reset(window) => window == 0,
    }
}

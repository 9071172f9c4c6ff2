// The rules on one entry, which goes in and out by value.
ghost use Rattle.std.specs.Prelude.{◌≡◌, false, Ok};
ghost use Rattle.model.specs.declared.Event.TheVariants.{Beat, Look};
ghost use Rattle.model.specs.Answers.{watched};
ghost use Rattle.model.specs.Watching as rules;
ghost use Rattle.model.specs.Watching.{health_of, has_failed, with_left, fresh_of, bad_event};

use model::{Entry, Event, Health, Watched};

// A fresh or reset entry.
pub fn waiting(window: u32) -> Entry
    ensures { result ≡ fresh_of window }
{
    Entry {
        left: 2,
        window,
        waiting: true,
    }
}

fn with_left(e: Entry, left: u32) -> Entry
    ensures { result ≡ with_left left e }
{
    Entry {
        left,
        waiting: false,
        ..e
    }
}

fn health_of(e: Entry) -> Health
    ensures { result ≡ health_of e }
{
    if e.waiting {
        return Health::Waiting;
    }
    match e.left {
        0 => Health::Failed,
        1 => Health::Suspect,
        _ => Health::Well,
    }
}

fn has_failed(e: Entry) -> bool
    ensures { result ≡ has_failed (health_of e) }
{
    !e.waiting && e.left == 0
}

pub fn beaten(e: Entry, value: u32) -> Entry
    requires { bad_event (Beat value) ≡ false }
    ensures { result ≡ rules.after (Beat value) e }
{
    if has_failed(e) {
        e
    } else {
        with_left(e, value + 2)
    }
}

pub fn looked(e: Entry) -> Entry
    ensures { result ≡ rules.after Look e }
{
    // Two returns: by `saturating_sub`, or with `||`, the machine code of a beat or a look is longer.
    if e.waiting {
        return e;
    }
    if e.left == 0 {
        return e;
    }
    with_left(e, e.left - 1)
}

// What an event makes of an entry; a reset forgets what the entry was.
pub fn after(e: Entry, event: Event) -> Entry
    requires { bad_event event ≡ false }
    ensures { result ≡ rules.after event e }
{
    match event {
        Event::Beat(value) => beaten(e, value),
        Event::Look => looked(e),
        Event::Reset(window) => waiting(window),
    }
}

// How an entry is, and what is left.
pub fn told(e: Entry) -> Watched
    ensures { watched (Ok result) ≡ rules.told e }
{
    Watched {
        health: health_of(e),
        left: e.left,
    }
}

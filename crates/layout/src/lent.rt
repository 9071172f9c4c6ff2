// What is lent down the passes.
ghost use Rattle.std.specs.Prelude.{◌≡◌, ◌+◌, ◌≤◌, min};
ghost use Rattle.layout.specs.Lent.{meeting_count};

use model::Settings;
use placing::clock::State;

// The places of the table of meetings: an IF is laid as at least three records, so a file has fewer.
pub const MEETINGS: usize = 1821;

// The records of an equalised file up to `to`, and the settings, which are a copy: behind a reference they would be read again after each
// byte that is written. Its methods stand in this crate, so the struct does too.
#[derive(Clone, Copy)]
pub struct Source<'a> {
    pub file: &'a [u8],
    pub to: usize,
    pub rack: Settings,
}

// A state, and the next place of the table of meetings. Past the last there is none: a result with so many IFs is too long to be written.
#[derive(Drop)]
pub struct Clock {
    pub state: State,
    pub place: usize,
    ghost few: { place ≤ meeting_count },
}

impl Clock {
    // The next place, taken.
    pub fn take_place(&mut self) -> usize
        ensures { (result ≡ self.old.place) × (self.new.state ≡ self.old.state) × (self.new.place ≡ min (self.old.place + 1) meeting_count) }
    {
        let k = self.place;
        if k < MEETINGS {
            self.place = k + 1;
        }
        k
    }
}

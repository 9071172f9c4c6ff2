// The tick at which each record of a laid file starts, put into a table by one pass.
ghost use Rattle.std.specs.Prelude.{◌≡◌};
ghost use Rattle.model.specs.Records.{kind_at, IF};
ghost use Rattle.listing.specs.Starts.{Entered, Statement, BlockStarted, StatementStarted};

use model::Settings;
use reading::blocks::closes;
use records::{kind_at, kinds, record_at};
use timing::ticks::step_ticks;

// The tick at which the records from `next` on start.
#[derive(Clone, Copy)]
pub struct Place {
    pub tick: u32,
    pub next: usize,
}

// A laid file's records up to `to`, and the settings. Its methods stand here, so the struct does too.
#[derive(Clone, Copy)]
pub struct Source<'a> {
    pub file: &'a [u8],
    pub to: usize,
    pub rack: &'a Settings,
}

impl Source<'_> {
    // The IF at i: both sides start at the next tick, as ELSE does, and END where the later one ends.
    #[cycle(starting)]
    fn start_branch(&self, i: usize, at: u32, out: &mut [u32]) -> Place
        requires { (Statement self.now.file.now i self.now.to self.now.rack.now at out.old) × (kind_at self.now.file.now i ≡ IF) }
        ensures { StatementStarted self.now.file.now i self.now.to self.now.rack.now at out.old out.new result }
    {
        let inside = at + 1;
        out[i] = at;
        let one = self.start_block(i + 1, inside, out);
        let middle = one.next;
        out[middle] = inside;
        let two = self.start_block(middle + 1, inside, out);
        let last = two.next;
        let end = one.tick.max(two.tick);
        out[last] = end;
        Place {
            tick: end,
            next: last + 1,
        }
    }

    // The statement at i.
    #[cycle(starting)]
    fn start_statement(&self, i: usize, at: u32, out: &mut [u32]) -> Place
        requires { Statement self.now.file.now i self.now.to self.now.rack.now at out.old }
        ensures { StatementStarted self.now.file.now i self.now.to self.now.rack.now at out.old out.new result }
    {
        let r = record_at(self.file, i);
        if r.kind == kinds::IF {
            return self.start_branch(i, at, out);
        }
        out[i] = at;
        Place {
            tick: at + step_ticks(*self.rack, r),
            next: i + 1,
        }
    }

    // The block at `from`, up to the record that closes it.
    #[cycle(starting)]
    pub fn start_block(&self, from: usize, at: u32, out: &mut [u32]) -> Place
        requires { Entered self.now.file.now from self.now.to self.now.rack.now at out.old }
        ensures { BlockStarted self.now.file.now from self.now.to self.now.rack.now at out.old out.new result }
    {
        let mut tick = at;
        let mut next = from;
        // The index goes past whole statements, so a `for` over it is no plainer.
        while next < self.to {
            if closes(kind_at(self.file, next)) {
                return Place { tick, next };
            }
            let e = self.start_statement(next, tick, out);
            tick = e.tick;
            next = e.next;
        }
        Place { tick, next }
    }
}

// The time of a block, over the range of its records.
ghost use Rattle.std.specs.Prelude.{◌<◌};
ghost use Rattle.reading.specs.Ranges.{Ranged};
ghost use Rattle.timing.specs.Blocks.{BlockTimes, SequenceTimes, StatementTimes};

use crate::ticks::{branch_time, loop_time, step_ticks, within};
use model::Settings;
use reading::blocks::{closes, opens};
use records::{kind_at, kinds, record_at};

// The time of a statement or of a sequence of them, and the index of the record after it.
#[derive(Clone, Copy)]
pub struct Step {
    pub ticks: u32,
    pub next: usize,
}

// A file's records up to `to`, and a copy of the settings that they are timed with. Methods stand in the crate of their type, so each pass
// over a file has such a struct of its own.
#[derive(Clone, Copy)]
pub struct Source<'a> {
    pub file: &'a [u8],
    pub to: usize,
    pub rack: Settings,
}

impl Source<'_> {
    // The statement at i, unless it takes longer than the period. Where the records form no block any answer will do; a sound file never leads there.
    #[cycle(timing_blocks)]
    fn statement_time(&self, i: usize, depth: usize) -> Option<Step>
        requires { (Ranged self.now.file.now i self.now.to) × (i < self.now.to) }
        ensures { StatementTimes self.now.file.now i self.now.to depth self.now.rack result }
    {
        // Read ahead of the kind: after the test for a block this would keep that test and the match by kind from being one jump.
        let rack = self.rack;
        let r = record_at(self.file, i);
        if !opens(r.kind) {
            let ticks = within(rack.period, u64::from(step_ticks(rack, r)))?;
            let next = i + 1;
            return Some(Step { ticks, next });
        }
        if depth == 0 {
            return None;
        }
        let first = self.sequence_time(i + 1, depth - 1)?;
        if self.to <= first.next {
            return None;
        }
        if r.kind != kinds::IF {
            let ticks = loop_time(rack.period, r, Some(first.ticks))?;
            let next = first.next + 1;
            return Some(Step { ticks, next });
        }
        let second = self.sequence_time(first.next + 1, depth - 1)?;
        if self.to <= second.next {
            return None;
        }
        let ticks = branch_time(rack.period, Some(first.ticks), Some(second.ticks))?;
        let next = second.next + 1;
        Some(Step { ticks, next })
    }

    // The statements from `from` up to the record that closes their block, or to `to`. The sum is given up once it passes the period.
    #[cycle(timing_blocks)]
    fn sequence_time(&self, from: usize, depth: usize) -> Option<Step>
        requires { Ranged self.now.file.now from self.now.to }
        ensures { SequenceTimes self.now.file.now from self.now.to depth self.now.rack result }
    {
        let period = self.rack.period;
        let mut ticks: u32 = 0;
        let mut next = from;
        // The index goes past whole statements, so a `for` over it is no plainer.
        while next < self.to {
            if closes(kind_at(self.file, next)) {
                return Some(Step { ticks, next });
            }
            let one = self.statement_time(next, depth)?;
            if period - ticks < one.ticks {
                return None;
            }
            ticks += one.ticks;
            next = one.next;
        }
        Some(Step { ticks, next })
    }
}

// The block that fills the records from `from` up to `to`.
pub fn block_time(file: &[u8], from: usize, to: usize, depth: usize, rack: Settings) -> Option<u32>
    requires { Ranged file.now from to }
    ensures { BlockTimes file.now from to depth rack result }
{
    let source = Source { file, to, rack };
    let whole = source.sequence_time(from, depth)?;
    Some(whole.ticks)
}

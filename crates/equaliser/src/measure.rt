// The first pass: a block's time, the records that it is equalised to, and what its IFs and loops are padded by.
ghost use Rattle.std.specs.Prelude.{true, ◌≡◌, ◌+◌, ◌^◌, ◌≤◌};
ghost use Rattle.model.specs.Records.{kind_at, record_at, IF};
ghost use Rattle.records.specs.Records.{record_of};
ghost use Rattle.records.specs.Blocks.{skip_records};
ghost use Rattle.reading.specs.Closing.{opens_block};
ghost use Rattle.equaliser.specs.Sizes.{Small, PlainSize, BlockAsks, BlockSize, StatementAsks, StatementSize};

use crate::pads::Pad;
use model::Settings;
use model::limits::TASK_RECORDS;
use reading::blocks::{closes, opens};
use records::skips::skip_records;
use records::{Record, kind_at, kinds, record_at};
use timing::ticks::{branch_time, loop_time, step_ticks, within};

// The time of a statement or a block, the records written by its end, the ticks of SKIP that wait there, and the index of the record after it.
// What waits has 64 bits, since it is added before the sum is held against the period.
#[derive(Clone, Copy)]
pub struct Extent {
    pub ticks: u32,
    pub records: usize,
    pub wait: u64,
    pub next: usize,
}

impl Extent {
    // The records of a block once a SKIP of `pad` ticks ends it.
    pub fn padded_records(self, pad: u32) -> usize
        requires { Small self }
        ensures { (result ≡ self.records + skip_records (self.wait + pad)) × (result ≤ 1026) }
    {
        self.records + skip_records(self.wait + u64::from(pad))
    }
}

// The record r, which opens no block, after waiting ticks of SKIP and before the record `next`.
fn measure_plain(rack: &Settings, r: Record, wait: u64, next: usize) -> Option<Extent>
    requires { wait ≤ 2 ^ 32 }
    ensures { PlainSize rack.now r wait next result }
{
    let ticks = within(rack.period, u64::from(step_ticks(*rack, r)))?;
    if r.kind == kinds::SKIP {
        let wait = wait + u64::from(r.count);
        return Some(Extent {
            ticks,
            records: 0,
            wait,
            next,
        });
    }
    let records = skip_records(wait) + 1;
    Some(Extent {
        ticks,
        records,
        wait: 0,
        next,
    })
}

// A task's records up to `to`, and the settings that it is timed with. Its methods stand here, so the struct does too.
#[derive(Clone, Copy)]
pub struct Source<'a> {
    pub file: &'a [u8],
    pub to: usize,
    pub rack: &'a Settings,
}

impl Source<'_> {
    // The WHILE at i, with the record r, after waiting ticks of SKIP.
    #[cycle(measuring)]
    fn measure_loop(
        &self,
        i: usize,
        r: Record,
        wait: u64,
        pads: &mut [Pad; TASK_RECORDS],
    ) -> Option<Extent>
        requires { (StatementAsks self.now.file.now i self.now.to wait) × (record_of r ≡ record_at self.now.file.now i)
            × (opens_block (kind_at self.now.file.now i) ≡ true) × (kind_at self.now.file.now i ≡ IF → ⊥) }
        ensures { StatementSize self.now.file.now i self.now.to self.now.rack.now wait pads.old pads.new result }
    {
        let body = self.measure_block(i + 1, pads)?;
        let ticks = loop_time(self.rack.period, r, Some(body.ticks))?;
        pads[i] = Pad {
            first: body.ticks,
            second: 0,
        };
        let sides = body.padded_records(0) + skip_records(u64::from(body.ticks));
        let records = skip_records(wait) + (5 + sides);
        Some(Extent {
            ticks,
            records,
            wait: 0,
            next: body.next + 1,
        })
    }

    // The IF at i, after waiting ticks of SKIP.
    #[cycle(measuring)]
    fn measure_branch(&self, i: usize, wait: u64, pads: &mut [Pad; TASK_RECORDS]) -> Option<Extent>
        requires { (StatementAsks self.now.file.now i self.now.to wait) × (kind_at self.now.file.now i ≡ IF) }
        ensures { StatementSize self.now.file.now i self.now.to self.now.rack.now wait pads.old pads.new result }
    {
        let first = self.measure_block(i + 1, pads)?;
        let second = self.measure_block(first.next + 1, pads)?;
        let ticks = branch_time(self.rack.period, Some(first.ticks), Some(second.ticks))?;
        let pad = Pad {
            first: second.ticks.saturating_sub(first.ticks),
            second: first.ticks.saturating_sub(second.ticks),
        };
        pads[i] = pad;
        let sides = first.padded_records(pad.first) + second.padded_records(pad.second);
        let records = skip_records(wait) + (3 + sides);
        Some(Extent {
            ticks,
            records,
            wait: 0,
            next: second.next + 1,
        })
    }

    // The statement at i, after waiting ticks of SKIP.
    #[cycle(measuring)]
    fn measure_statement(
        &self,
        i: usize,
        wait: u64,
        pads: &mut [Pad; TASK_RECORDS],
    ) -> Option<Extent>
        requires { StatementAsks self.now.file.now i self.now.to wait }
        ensures { StatementSize self.now.file.now i self.now.to self.now.rack.now wait pads.old pads.new result }
    {
        let r = record_at(self.file, i);
        if !opens(r.kind) {
            return measure_plain(self.rack, r, wait, i + 1);
        }
        if r.kind == kinds::IF {
            return self.measure_branch(i, wait, pads);
        }
        self.measure_loop(i, r, wait, pads)
    }

    // The block at `from`, up to the record that closes it. The sum is given up once it passes the period.
    #[cycle(measuring)]
    pub fn measure_block(&self, from: usize, pads: &mut [Pad; TASK_RECORDS]) -> Option<Extent>
        requires { BlockAsks self.now.file.now from self.now.to }
        ensures { BlockSize self.now.file.now from self.now.to self.now.rack.now pads.old pads.new result }
    {
        let mut all = Extent {
            ticks: 0,
            records: 0,
            wait: 0,
            next: from,
        };
        // The index goes past whole statements, so a `for` over it is no plainer.
        while all.next < self.to {
            if closes(kind_at(self.file, all.next)) {
                break;
            }
            let one = self.measure_statement(all.next, all.wait, pads)?;
            if self.rack.period - all.ticks < one.ticks {
                return None;
            }
            all = Extent {
                ticks: all.ticks + one.ticks,
                records: all.records + one.records,
                ..one
            };
        }
        Some(all)
    }
}

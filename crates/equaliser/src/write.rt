// The second pass: the equalised block, over the front of a lent buffer. Each block and what follows it is lent the rest of the buffer. What pads
// the sides of an IF and how long a loop's body lasts was kept by the first pass, so this one needs no settings.
ghost use Rattle.std.specs.Prelude.{true, ◌≡◌};
ghost use Rattle.model.specs.Records.{kind_at, record_at, IF};
ghost use Rattle.records.specs.Records.{record_of};
ghost use Rattle.reading.specs.Closing.{opens_block};
ghost use Rattle.equaliser.specs.Written.{BlockFits, BlockWritten, StatementFits, StatementWritten};

use crate::pads::Pad;
use crate::pieces::{put_loop_head, put_loop_tail};
use model::limits::TASK_RECORDS;
use reading::blocks::{closes, opens};
use records::skips::put_skip;
use records::{Record, kind_at, kinds, put_bare, put_record, record_at};

// The index of the record after a statement or a block, the bytes written for it, and the ticks of SKIP that wait after it.
#[derive(Clone, Copy)]
pub struct Written {
    pub next: usize,
    pub bytes: usize,
    pub wait: u32,
}

// A task's records up to `to`, and what the first pass kept for them.
#[derive(Clone, Copy)]
pub struct Plan<'a> {
    pub file: &'a [u8],
    pub to: usize,
    pub pads: &'a [Pad; TASK_RECORDS],
}

impl Plan<'_> {
    // The loop that the WHILE at i, with the record r, becomes.
    #[cycle(writing)]
    fn write_loop(&self, i: usize, r: Record, out: &mut [u8]) -> Written
        requires { (StatementFits self.now.file.now i self.now.to 0 self.now.pads.now out.old) × (record_of r ≡ record_at self.now.file.now i)
            × (opens_block (kind_at self.now.file.now i) ≡ true) × (kind_at self.now.file.now i ≡ IF → ⊥) }
        ensures { StatementWritten self.now.file.now i self.now.to 0 self.now.pads.now out.old out.new result }
    {
        put_loop_head(out, r);
        let body = self.write_block(i + 1, 0, &mut out[24..]);
        let at = 24 + body.bytes;
        let bytes = at + put_loop_tail(&mut out[at..], self.pads[i].first);
        Written {
            next: body.next + 1,
            bytes,
            wait: 0,
        }
    }

    // The IF at i, with the record r.
    #[cycle(writing)]
    fn write_branch(&self, i: usize, r: Record, out: &mut [u8]) -> Written
        requires { (StatementFits self.now.file.now i self.now.to 0 self.now.pads.now out.old) × (record_of r ≡ record_at self.now.file.now i)
            × (kind_at self.now.file.now i ≡ IF) }
        ensures { StatementWritten self.now.file.now i self.now.to 0 self.now.pads.now out.old out.new result }
    {
        put_record(out, r);
        let first = self.write_block(i + 1, self.pads[i].first, &mut out[12..]);
        let middle = 12 + first.bytes;
        put_bare(&mut out[middle..], kinds::ELSE, 0, 0);
        let start = middle + 12;
        let second = self.write_block(first.next + 1, self.pads[i].second, &mut out[start..]);
        let last = start + second.bytes;
        put_bare(&mut out[last..], kinds::END, 0, 0);
        Written {
            next: second.next + 1,
            bytes: last + 12,
            wait: 0,
        }
    }

    // The IF or the loop at i, with the record r.
    #[cycle(writing)]
    fn write_inner(&self, i: usize, r: Record, out: &mut [u8]) -> Written
        requires { (StatementFits self.now.file.now i self.now.to 0 self.now.pads.now out.old) × (record_of r ≡ record_at self.now.file.now i)
            × (opens_block (kind_at self.now.file.now i) ≡ true) }
        ensures { StatementWritten self.now.file.now i self.now.to 0 self.now.pads.now out.old out.new result }
    {
        if r.kind == kinds::IF {
            return self.write_branch(i, r, out);
        }
        self.write_loop(i, r, out)
    }

    // The statement at i, after `waited` ticks of SKIP.
    #[cycle(writing)]
    fn write_statement(&self, i: usize, waited: u32, out: &mut [u8]) -> Written
        requires { StatementFits self.now.file.now i self.now.to waited self.now.pads.now out.old }
        ensures { StatementWritten self.now.file.now i self.now.to waited self.now.pads.now out.old out.new result }
    {
        let r = record_at(self.file, i);
        if r.kind == kinds::SKIP {
            let wait = waited + r.count;
            return Written {
                next: i + 1,
                bytes: 0,
                wait,
            };
        }
        let at = put_skip(out, waited);
        if opens(r.kind) {
            let w = self.write_inner(i, r, &mut out[at..]);
            return Written {
                next: w.next,
                bytes: at + w.bytes,
                wait: 0,
            };
        }
        put_record(&mut out[at..], r);
        Written {
            next: i + 1,
            bytes: at + 12,
            wait: 0,
        }
    }

    // The block at `from`, up to the record that closes it, with a SKIP of `pad` ticks at its end.
    #[cycle(writing)]
    pub fn write_block(&self, from: usize, pad: u32, out: &mut [u8]) -> Written
        requires { BlockFits self.now.file.now from self.now.to pad self.now.pads.now out.old }
        ensures { BlockWritten self.now.file.now from self.now.to pad self.now.pads.now out.old out.new result }
    {
        let mut all = Written {
            next: from,
            bytes: 0,
            wait: 0,
        };
        // The index goes past whole statements, so a `for` over it is no plainer.
        while all.next < self.to {
            if closes(kind_at(self.file, all.next)) {
                break;
            }
            let one = self.write_statement(all.next, all.wait, &mut out[all.bytes..]);
            all = Written {
                bytes: all.bytes + one.bytes,
                ..one
            };
        }
        let bytes = all.bytes + put_skip(&mut out[all.bytes..], all.wait + pad);
        Written {
            bytes,
            wait: 0,
            ..all
        }
    }
}

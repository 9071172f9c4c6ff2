// The records that equalising adds, over the front of a lent buffer.
ghost use Rattle.std.specs.Prelude.{◌≡◌, ◌≤◌, length};
ghost use Rattle.model.specs.Records.{over};
ghost use Rattle.records.specs.Records.{record_of};
ghost use Rattle.records.specs.Blocks.{Wrote};
ghost use Rattle.equaliser.specs.Written.{loop_head, loop_tail};

use records::skips::put_skip;
use records::{Record, kinds, put_bare, put_record};

// TIMES and IF with the test of a WHILE: 24 bytes.
pub fn put_loop_head(out: &mut [u8], r: Record)
    requires { 24 ≤ length out.old }
    ensures { out.new ≡ over (loop_head (record_of r)) out.old }
{
    let times = Record {
        kind: kinds::TIMES,
        target: 0,
        ..r
    };
    put_record(out, times);
    let test = Record {
        kind: kinds::IF,
        count: 0,
        ..times
    };
    put_record(&mut out[12..], test);
}

// What follows the body: ELSE, a SKIP of the body's time and both ENDs; the bytes written.
pub fn put_loop_tail(out: &mut [u8], body: u32) -> usize
    requires { length (loop_tail body) ≤ length out.old }
    ensures { Wrote (loop_tail body) out.old out.new result }
{
    put_bare(out, kinds::ELSE, 0, 0);
    let at = 12 + put_skip(&mut out[12..], body);
    put_bare(&mut out[at..], kinds::END, 0, 0);
    let last = at + 12;
    put_bare(&mut out[last..], kinds::END, 0, 0);
    last + 12
}

// The pieces of a laid file, over the front of a lent buffer.
ghost use Rattle.std.specs.Prelude.{◌≡◌, ◌+◌, ◌*◌, ◌-◌, ◌≤◌, length};
ghost use Rattle.model.specs.Records.{rec, over};
ghost use Rattle.model.specs.Trees.{skip};
ghost use Rattle.model.specs.Times.{time, longest};
ghost use Rattle.model.specs.Layout.{commands, before, idles, fill, last_value};
ghost use Rattle.records.specs.Records.{record_of};
ghost use Rattle.records.specs.Blocks.{Wrote};
ghost use Rattle.placing.specs.States.{too_many, Layable, Laying, Fillable};
ghost use Rattle.placing.specs.Placed.{bytes_of, Room, Lays, step_bytes, StepLaid, EndFits, EndLaid, tail_bytes};

use crate::clock::State;
use model::Settings;
use records::skips::{put_skip, skip_records};
use records::{Record, kinds, put_bare, put_record};

// The bytes of the records laid from one state to another.
pub fn bytes_between(from: State, to: State) -> usize
    requires { (from.records ≤ to.records) × (to.records ≤ too_many) }
    ensures { result ≡ 12 * (to.records - from.records) }
{
    12 * (to.records - from.records)
}

// The SKIP up to the next multiple of the window, and its commands; the bytes written.
pub fn put_commands(rack: &Settings, s: State, out: &mut [u8]) -> usize
    requires { (Laying rack.now s) × (length (bytes_of s (skip s.ticks_left (commands rack.now (s.tick + s.ticks_left)))) ≤ length out.old) }
    ensures { Wrote (bytes_of s (skip s.ticks_left (commands rack.now (s.tick + s.ticks_left)))) out.old out.new result }
{
    let at = put_skip(out, s.wait + s.ticks_left);
    put_bare(&mut out[at..], kinds::BEAT, 1, 0);
    let last = at + 12;
    if 0 < s.windows_left {
        return last;
    }
    put_bare(&mut out[last..], kinds::SAVE, 0, 0);
    last + 12
}

// What stands before a step of d ticks; the bytes written.
fn put_before(rack: &Settings, s: State, d: u32, out: &mut [u8]) -> usize
    requires { (Laying rack.now s) × (1 ≤ d) × (d ≤ longest rack.now) × (length (bytes_of s (before rack.now s.tick d)) ≤ length out.old) }
    ensures { Wrote (bytes_of s (before rack.now s.tick d)) out.old out.new result }
{
    if s.ticks_left < d {
        return put_commands(rack, s, out);
    }
    0
}

// A step of d ticks with the record r, and what stands before it. Out of line, the state would go through memory at each step.
#[inline(always)]
pub fn put_step(rack: &Settings, from: State, d: u32, r: Record, out: &mut [u8]) -> State
    requires { (Laying rack.now from) × (1 ≤ d) × (d ≤ longest rack.now) × (length (step_bytes rack.now from d (record_of r)) ≤ length out.old) }
    ensures { StepLaid rack.now from d (record_of r) out.old out.new result }
{
    let at = put_before(rack, from, d, out);
    let s = from.readied(rack, d);
    let last = at + put_skip(&mut out[at..], s.wait);
    put_record(&mut out[last..], r);
    from.stepped(rack, d)
}

// So many single ticks of SKIP, window by window.
pub fn put_skips(rack: &Settings, from: State, count: u32, out: &mut [u8]) -> State
    requires { (Laying rack.now from) × (from.tick + time rack.now (idles rack.now count from.tick) ≤ rack.now.period)
        × (Room (idles rack.now count from.tick) from out.old) }
    ensures { Lays rack.now (idles rack.now count from.tick) from out.old out.new result }
{
    let mut s = from;
    let mut k = count;
    // A turn takes a window, whatever is left of it, so there is no count to go by.
    while s.ticks_left < k {
        let at = bytes_between(from, s);
        let next = s.commanded(rack);
        put_commands(rack, s, &mut out[at..]);
        k -= s.ticks_left;
        s = next;
    }
    s.idled(k)
}

// Single ticks of SKIP up to the tick `end`, window by window: the commands take of these ticks, where `put_skips` adds them to its count.
fn put_filling(rack: &Settings, from: State, end: u32, out: &mut [u8]) -> State
    requires { (Fillable rack.now from end) × (Room (fill rack.now (end - from.tick) from.tick end) from out.old) }
    ensures { Lays rack.now (fill rack.now (end - from.tick) from.tick end) from out.old out.new result }
{
    let mut s = from;
    // A window at a turn, as above.
    while s.ticks_left < end - s.tick {
        let at = bytes_between(from, s);
        let next = s.commanded(rack);
        put_commands(rack, s, &mut out[at..]);
        s = next;
    }
    s.idled(end - s.tick)
}

// The end of a side of an IF that is laid up to s: SKIPs to the tick `end`, and the record that closes it; the state after it.
pub fn close_side(rack: &Settings, s: State, end: u32, kind: u8, out: &mut [u8]) -> State
    requires { EndFits rack.now s end (rec kind 0 0 0 0 0) out.old }
    ensures { EndLaid rack.now s end (rec kind 0 0 0 0 0) out.old out.new result }
{
    let f = put_filling(rack, s, end, out);
    let at = bytes_between(s, f);
    let last = at + put_skip(&mut out[at..], f.wait);
    put_bare(&mut out[last..], kind, 0, 0);
    f.back(0, f.records + skip_records(u64::from(f.wait)) + 1)
}

// The value of the last BEAT, which starts at that tick: the windows that the rest of the period takes.
fn last_value(rack: &Settings, tick: u32) -> u32
    requires { (Layable rack.now) × (tick + rack.now.beat ≤ rack.now.period) }
    ensures { result ≡ last_value rack.now tick }
{
    (rack.period - (tick + rack.beat) + (rack.window - 1)) / rack.window
}

// The tail of the file: SKIPs to the next multiple of the window, and the last BEAT.
pub fn put_tail(rack: &Settings, s: State, out: &mut [u8])
    requires { (Laying rack.now s) × (s.tick + s.ticks_left + rack.now.beat ≤ rack.now.period) × (length (tail_bytes rack.now s) ≤ length out.old) }
    ensures { out.new ≡ over (tail_bytes rack.now s) out.old }
{
    let bound = s.tick + s.ticks_left;
    let at = put_skip(out, s.wait + s.ticks_left);
    put_bare(&mut out[at..], kinds::BEAT, last_value(rack, bound), 0);
}

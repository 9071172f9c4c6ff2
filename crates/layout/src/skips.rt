// Loops whose bodies have SKIPs alone: all their rounds are one SKIP.
ghost use Rattle.std.specs.Prelude.{◌≡◌, ◌+◌, ◌≤◌, ◌<◌, min};
ghost use Rattle.model.specs.Limits.{most_ticks};
ghost use Rattle.placing.specs.States.{Laying};
ghost use Rattle.reading.specs.Ranges.{Ranged};
ghost use Rattle.records.specs.Records.{record_of};
ghost use Rattle.layout.specs.Idling.{AllIdle, IdleAt, IdleEnds, SkipsFit, SkipsLaid, check_rec};

use model::Settings;
use placing::clock::State;
use placing::pieces::{bytes_between, put_skips, put_step};
use reading::blocks::closes;
use records::{Record, kinds, record_at};

// A statement, or the body of a loop, that has SKIPs alone: it takes so many ticks in all rounds, told up to one more than the period,
// and `next` is the record after the statement, or the END of the body.
#[derive(Clone, Copy)]
pub struct Idle {
    pub ticks: u32,
    pub next: usize,
}

// So many ticks, or one more than the period.
fn capped(period: u32, ticks: u64) -> u32
    requires { period ≤ most_ticks }
    ensures { result ≡ min ticks (period + 1) }
{
    if u64::from(period) < ticks {
        return period + 1;
    }
    ticks as u32
}

// The rounds of a loop whose body starts at i, if that has SKIPs alone.
pub fn idle_rounds(file: &[u8], i: usize, to: usize, count: u32, period: u32) -> Option<Idle>
    requires { (Ranged file.now i to) × (period ≤ most_ticks) }
    ensures { AllIdle file.now i to count period result }
{
    let mut sum: u32 = 0;
    for next in i..to {
        let r = record_at(file, next);
        if closes(r.kind) {
            let ticks = capped(period, u64::from(count) * u64::from(sum));
            return Some(Idle { ticks, next });
        }
        if r.kind != kinds::SKIP {
            return None;
        }
        sum = capped(period, u64::from(sum) + u64::from(r.count));
    }
    None
}

// The statement at i with the record r, if it is a SKIP or such a loop.
pub fn idle_at(file: &[u8], i: usize, to: usize, r: Record, period: u32) -> Option<Idle>
    requires { (Ranged file.now i to) × (i < to) × (period ≤ most_ticks) }
    ensures { IdleAt file.now i to (record_of r) period result }
{
    match r.kind {
        kinds::SKIP => Some(Idle {
            ticks: r.count,
            next: i + 1,
        }),
        kinds::TIMES => {
            let body = idle_rounds(file, i + 1, to, r.count, period)?;
            Some(Idle {
                ticks: body.ticks,
                next: body.next + 1,
            })
        }
        _ => None,
    }
}

// The CHECK of the loop with the record r.
pub fn check_of(r: Record) -> Record
    ensures { record_of result ≡ check_rec (record_of r) }
{
    Record {
        kind: kinds::CHECK,
        op: r.op,
        target: 0,
        left: r.left,
        value: r.value,
        count: 0,
    }
}

// Such a loop: so many ticks of SKIP, and its CHECK.
pub fn measure_idle(rack: &Settings, from: State, ticks: u32) -> State
    requires { Laying rack.now from }
    ensures { IdleEnds rack.now ticks from result }
{
    let s = from.filled(rack, ticks);
    if rack.period < s.tick {
        return s;
    }
    s.stepped(rack, 1)
}

// A SKIP or such a loop, with the record r, over the front of a lent buffer.
pub fn write_idle(rack: &Settings, from: State, ticks: u32, r: Record, out: &mut [u8]) -> State
    requires { SkipsFit rack.now ticks (record_of r) from out.old }
    ensures { SkipsLaid rack.now ticks (record_of r) from out.old out.new result }
{
    let s = put_skips(rack, from, ticks, out);
    if r.kind == kinds::SKIP {
        return s;
    }
    let at = bytes_between(from, s);
    put_step(rack, s, 1, check_of(r), &mut out[at..])
}

// The times of single statements, each up to the period, and the longest step.
ghost use Rattle.std.specs.Prelude.{◌≡◌, ℕ, ◌+◌, ◌%◌, ◌^◌, ◌≤◌, max, eqb};
ghost use Rattle.model.specs.Limits.{by_variable};
ghost use Rattle.model.specs.Times.{longest};
ghost use Rattle.records.specs.Records.{record_of};
ghost use Rattle.timing.specs.Times.{Gives, set_ticks, step_ticks, round_ticks, loop_ticks};

use model::Settings;
use model::limits::BY_VARIABLE;
use records::{Record, kinds};

// t ticks, unless they are above the period.
pub fn within(period: u32, t: u64) -> Option<u32>
    ensures { Gives period t result }
{
    if u64::from(period) < t {
        return None;
    }
    Some(t as u32)
}

// The longest of the steps that are no commands.
pub fn longest_step(rack: Settings) -> u32
    ensures { result ≡ longest rack }
{
    rack.set.max(rack.multiply).max(rack.read.max(rack.write))
}

// Whether a SET of that operation multiplies.
fn multiplies(op: u8) -> bool
    ensures { result ≡ eqb (op % by_variable) 3 }
{
    op % BY_VARIABLE == 3
}

fn set_ticks(rack: Settings, op: u8) -> u32
    ensures { result ≡ set_ticks rack op }
{
    if multiplies(op) {
        return rack.multiply;
    }
    rack.set
}

// The ticks of a record of that kind, which opens and closes no block.
pub fn kind_ticks(kind: u8, rack: Settings, r: Record) -> u32
    requires { r.kind ≡ kind }
    ensures { result ≡ step_ticks rack (record_of r) }
{
    match kind {
        kinds::SKIP => r.count,
        kinds::SET => set_ticks(rack, r.op),
        kinds::READ => rack.read,
        kinds::WRITE => rack.write,
        kinds::BEAT => rack.beat,
        kinds::SAVE => rack.save,
        _ => 1,
    }
}

pub fn step_ticks(rack: Settings, r: Record) -> u32
    ensures { result ≡ step_ticks rack (record_of r) }
{
    kind_ticks(r.kind, rack, r)
}

// An IF whose sides take these times.
pub fn branch_time(period: u32, a: Option<u32>, b: Option<u32>) -> Option<u32>
    ensures { (t u : ℕ) → Gives period t a → Gives period u b → Gives period (1 + max t u) result }
{
    within(period, u64::from(a?.max(b?)) + 1)
}

// A round of a loop of that kind: WHILE tests before each.
fn round_ticks(kind: u8, body: u32) -> u64
    ensures { (result ≡ round_ticks kind body) × (result ≤ 2 ^ 32) }
{
    if kind == kinds::WHILE {
        return u64::from(body) + 1;
    }
    u64::from(body)
}

// A loop whose body takes this time.
pub fn loop_time(period: u32, r: Record, body: Option<u32>) -> Option<u32>
    ensures { 1 ≤ r.count → (t : ℕ) → Gives period t body → Gives period (loop_ticks (record_of r) t) result }
{
    let each = round_ticks(r.kind, body?);
    within(period, u64::from(r.count) * each + 1)
}

// Which kinds a form has, and which numbers a record may hold. Tests are joined by & and |, which the definitions' shapes answer.
ghost use Rattle.std.specs.Prelude.{◌≡◌, ◌<◌, ◌%◌, cond, ◌&&◌, [], ◌∷◌, eqb, leb};
ghost use Rattle.model.specs.Limits.{by_variable, most_ticks};
ghost use Rattle.model.specs.Refusals.{between, variable, port, unused, kind_fits, op_fits, set_fits, test_fits, fields_fit};
ghost use Rattle.records.specs.Records.{record_of};

use model::Form;
use model::limits::{BY_VARIABLE, MOST_ROUNDS, MOST_TICKS, PORTS, VARIABLES};
use records::{Record, kinds};

// The first numbers that name no variable and no port.
const NO_VARIABLE: u8 = VARIABLES as u8;

const WIDE_NO_VARIABLE: u32 = VARIABLES as u32;

const NO_PORT: u8 = PORTS as u8;

pub fn kind_fits(form: Form, kind: u8) -> bool
    ensures { result ≡ kind_fits form kind }
{
    match form {
        Form::Task => (1 <= kind) & (kind <= 8),
        Form::Equalised => ((1 <= kind) & (kind <= 6)) | ((8 <= kind) & (kind <= 9)),
        Form::Laid => ((1 <= kind) & (kind <= 6)) | (kind == 8) | ((10 <= kind) & (kind <= 12)),
    }
}

fn skip_fits(r: Record) -> bool
    ensures { result ≡ (unused (r.op ∷ r.target ∷ r.left ∷ r.value ∷ []) && between 1 most_ticks r.count) }
{
    (r.op == 0)
        & (r.target == 0)
        & (r.left == 0)
        & (r.value == 0)
        & (1 <= r.count)
        & (r.count <= MOST_TICKS)
}

// An operation or a relation up to n, with its right value.
fn op_fits(n: u8, op: u8, value: u32) -> bool
    requires { n < by_variable }
    ensures { result ≡ op_fits n op value }
{
    if BY_VARIABLE <= op {
        return (op <= BY_VARIABLE + n) & (value < WIDE_NO_VARIABLE);
    }
    op <= n
}

// The left variable of a SET with that operation: a copy names none.
fn left_fits(op: u8, left: u8) -> bool
    ensures { result ≡ cond (eqb (op % by_variable) 0) (unused (left ∷ [])) (variable left) }
{
    if op % BY_VARIABLE == 0 {
        return left == 0;
    }
    left < NO_VARIABLE
}

fn set_fits(r: Record) -> bool
    ensures { result ≡ (set_fits (record_of r) && unused (r.count ∷ [])) }
{
    op_fits(3, r.op, r.value) & (r.target < NO_VARIABLE) & left_fits(r.op, r.left) & (r.count == 0)
}

fn port_fits(r: Record) -> bool
    ensures { result ≡ (unused (r.op ∷ r.value ∷ r.count ∷ []) && variable r.target && port r.left) }
{
    (r.op == 0) & (r.value == 0) & (r.count == 0) & (r.target < NO_VARIABLE) & (r.left < NO_PORT)
}

fn test_fits(r: Record) -> bool
    ensures { result ≡ test_fits (record_of r) }
{
    op_fits(5, r.op, r.value) & (r.target == 0) & (r.left < NO_VARIABLE)
}

fn beat_fits(r: Record) -> bool
    ensures { result ≡ (unused (r.op ∷ r.target ∷ r.left ∷ r.count ∷ []) && leb r.value most_ticks) }
{
    (r.op == 0) & (r.target == 0) & (r.left == 0) & (r.count == 0) & (r.value <= MOST_TICKS)
}

// ELSE, END and SAVE: all bytes but the kind are unused.
fn bare_fits(r: Record) -> bool
    ensures { result ≡ unused (r.op ∷ r.target ∷ r.left ∷ r.value ∷ r.count ∷ []) }
{
    (r.op == 0) & (r.target == 0) & (r.left == 0) & (r.value == 0) & (r.count == 0)
}

pub fn fields_fit(r: Record) -> bool
    ensures { result ≡ fields_fit (record_of r) }
{
    let kind = r.kind;
    match kind {
        kinds::SKIP => skip_fits(r),
        kinds::SET => set_fits(r),
        kinds::READ | kinds::WRITE => port_fits(r),
        kinds::IF | kinds::CHECK => test_fits(r) & (r.count == 0),
        kinds::WHILE | kinds::TIMES => test_fits(r) & (1 <= r.count) & (r.count <= MOST_ROUNDS),
        kinds::BEAT => beat_fits(r),
        _ => bare_fits(r),
    }
}

// One step: tests, operations, and what a record that opens and closes no block does at its end.
ghost use Rattle.std.specs.Prelude.{◌≡◌, ◌<◌, ◌≤◌, true, length};
ghost use Rattle.model.specs.Limits.{port_count, by_variable, file_records, variable_count};
ghost use Rattle.model.specs.Refusals.{test_fits, set_fits, fields_fit};
ghost use Rattle.model.specs.Runs.{right_value, compares, holds, result_of};
ghost use Rattle.records.specs.Records.{record_of};
ghost use Rattle.reading.specs.Ranges.{test_of};
ghost use Rattle.stepping.specs.Machines.{held, set_result};
ghost use Rattle.stepping.specs.Steps.{ordered, Acts};

use crate::store::Store;
use model::limits::BY_VARIABLE;
use records::{Record, kinds};
use std::cmp::Ordering;

// How a compares with b: 0 for less, 1 for equal, 2 for more.
fn order(a: u32, b: u32) -> u32
    ensures { (result ≡ ordered a b) × (result ≤ 2) }
{
    match a.cmp(&b) {
        Ordering::Less => 0,
        Ordering::Equal => 1,
        Ordering::Greater => 2,
    }
}

// Three bits for each relation, from the lowest on: whether it holds of less, of equal and of more. A jump by the relation costs more.
const HOLDING: u32 = 0b110_100_011_001_101_010;

fn compare(relation: u8, a: u32, b: u32) -> bool
    requires { relation < 6 }
    ensures { result ≡ compares relation a b }
{
    let place = 3 * u32::from(relation) + order(a, b);
    (HOLDING >> place) % 2 == 1
}

// By the number of the operation, as `result_of` has it: an enum would be made from the byte for this one match.
#[tactic(auto, unfolding(model::specs::Runs::result_of))]
fn compute(op: u8, a: u32, b: u32) -> u32
    ensures { result ≡ result_of op a b }
{
    match op {
        0 => b,
        1 => a.wrapping_add(b),
        2 => a.wrapping_sub(b),
        _ => a.wrapping_mul(b),
    }
}

impl Store {
    // The right value of a test or an operation: a number, or a variable's value.
    fn right_value(&self, op: u8, value: u32) -> u32
        requires { by_variable ≤ op → value < variable_count }
        ensures { result ≡ right_value op value (held self.now).variables }
    {
        if BY_VARIABLE <= op {
            return self.variable(value as usize);
        }
        value
    }

    // Whether the test in a record holds.
    #[tactic(auto, unfolding(model::specs::Runs::holds))]
    pub fn test_holds(&self, r: Record) -> bool
        requires { test_fits (record_of r) ≡ true }
        ensures { result ≡ holds (test_of (record_of r)) (held self.now).variables }
    {
        let a = self.variable(usize::from(r.left));
        let b = self.right_value(r.op, r.value);
        compare(r.op % BY_VARIABLE, a, b)
    }

    // The result of a SET's operation.
    pub fn set_value(&self, r: Record) -> u32
        requires { set_fits (record_of r) ≡ true }
        ensures { result ≡ set_result (record_of r) (held self.now).variables }
    {
        let a = self.variable(usize::from(r.left));
        let b = self.right_value(r.op, r.value);
        compute(r.op % BY_VARIABLE, a, b)
    }

    // What a record of that kind does at the tick where it ends, before the record `next`; whether it overran.
    pub fn act(&mut self, kind: u8, r: Record, next: usize, tick: u32, inputs: &[u32]) -> bool
        requires { (length inputs.now ≡ port_count) × (fields_fit (record_of r) ≡ true) × (next ≤ file_records) × (r.kind ≡ kind) }
        ensures { Acts inputs.now (record_of r) next tick self.old self.new result }
    {
        let target = usize::from(r.target);
        let left = usize::from(r.left);
        match kind {
            kinds::SET => {
                let x = self.set_value(r);
                self.assign(target, x);
                false
            }
            kinds::READ => {
                self.assign(target, inputs[left]);
                false
            }
            kinds::WRITE => {
                let x = self.variable(target);
                self.output(left, x);
                false
            }
            kinds::CHECK => self.test_holds(r),
            kinds::SAVE => {
                self.save(next as u32, tick);
                false
            }
            _ => false,
        }
    }
}

// A refusal as the paper's table has it.
ghost use Rattle.std.specs.Prelude.{◌≡◌, ◌≤◌, get_or};
ghost use Rattle.model.specs.Answers.{row};

use crate::{Refusal, Row};

fn numbered(number: u64, value: usize) -> Row
    ensures { (result.number ≡ number) × (result.value ≡ value) }
{
    Row { number, value }
}

impl From<Refusal> for Row {
    ghost from_gives = { λ x r. (r.number ≡ (row x).0) × (r.value ≡ get_or (row x).1 0 0) × (r.number ≤ 13) };

    fn from(x: Refusal) -> Row {
        match x {
            Refusal::BadLength(n) => numbered(1, n),
            Refusal::BadKind(i) => numbered(2, i),
            Refusal::BadField(i) => numbered(3, i),
            Refusal::BadStructure(i) => numbered(4, i),
            Refusal::TooDeep(i) => numbered(5, i),
            Refusal::BadSettings => numbered(6, 0),
            Refusal::ShortWindow => numbered(7, 0),
            Refusal::OverPeriod => numbered(8, 0),
            Refusal::NoRoom => numbered(9, 0),
            Refusal::BadBuffers => numbered(10, 0),
            Refusal::BadImage => numbered(11, 0),
            Refusal::LateStop => numbered(12, 0),
            Refusal::BadEntry => numbered(13, 0),
        }
    }
}

// What C hands over and gets as numbers: a file's form, and a refusal.
ghost use Rattle.std.specs.Prelude.{◌≡◌, get_or};
ghost use Rattle.model.specs.Answers.{row};
ghost use Rattle.packing.specs.Words.{form_of, refused_word};

use model::{Form, Refusal, Row};

// Where a refusal's mark and its number stand.
const REFUSED: u64 = 1 << 63;

const NUMBER: u64 = 1 << 56;

// C hands a form over as a number. A `From` would have to stand in `model`, which knows nothing of C.
pub fn form_of(x: u8) -> Form
    ensures { result ≡ form_of x }
{
    match x {
        0 => Form::Task,
        1 => Form::Equalised,
        _ => Form::Laid,
    }
}

// A refusal, which every call packs alike.
pub fn refused(x: Refusal) -> u64
    ensures { result ≡ refused_word (row x).0 (get_or (row x).1 0 0) }
{
    let row = Row::from(x);
    let value = row.value as u64;
    REFUSED + NUMBER * row.number + value.min(NUMBER - 1)
}

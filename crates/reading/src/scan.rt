// The first fault of a file: its length, and then 2 to 5 in turn at each record.
ghost use Rattle.std.specs.Prelude.{◌≡◌, ◌<◌};
ghost use Rattle.model.specs.Refusals.{max_records, max_depth};
ghost use Rattle.reading.specs.Scanning.{Scans, ScansRecords, Turns};

use crate::fields::{fields_fit, kind_fits};
use crate::nesting::{Blocks, nest};
use model::limits::{FILE_DEPTH, FILE_RECORDS, TASK_DEPTH, TASK_RECORDS};
use model::{Form, Refusal};
use records::{Record, record_at};

// The records of the longest file of a form, and how deep it may nest.
#[derive(Clone, Copy)]
struct Limits {
    records: usize,
    depth: usize,
}

fn limits_of(form: Form) -> Limits
    ensures { (result.records ≡ max_records form) × (result.depth ≡ max_depth form) }
{
    match form {
        Form::Task => Limits {
            records: TASK_RECORDS,
            depth: TASK_DEPTH,
        },
        Form::Equalised | Form::Laid => Limits {
            records: FILE_RECORDS,
            depth: FILE_DEPTH,
        },
    }
}

// Rows 2 to 5 at the record r with index i: its refusal, or the open blocks after it.
fn check_record(form: Form, r: Record, i: usize, around: Blocks) -> Result<Blocks, Refusal>
    requires { (around.depth < 17) × (around.waiting < 65536) }
    ensures { Turns form r i around result }
{
    if !kind_fits(form, r.kind) {
        return Err(Refusal::BadKind(i));
    }
    if !fields_fit(r) {
        return Err(Refusal::BadField(i));
    }
    let Some(next) = nest(r.kind, around) else {
        return Err(Refusal::BadStructure(i));
    };
    if limits_of(form).depth < next.depth {
        return Err(Refusal::TooDeep(i));
    }
    Ok(next)
}

// Rows 2 to 5, over the records of a file.
fn scan_records(form: Form, file: &[u8]) -> Result<(), Refusal>
    ensures { ScansRecords form file.now result }
{
    let n = file.len() / 12;
    let mut around = Blocks {
        depth: 0,
        waiting: 0,
    };
    for i in 0..n {
        around = check_record(form, record_at(file, i), i, around)?;
    }
    if around.depth == 0 {
        return Ok(());
    }
    Err(Refusal::BadStructure(n))
}

// Rows 1 to 5.
pub fn scan_file(form: Form, file: &[u8]) -> Result<(), Refusal>
    ensures { Scans form file.now result }
{
    if file.len() % 12 != 0 {
        return Err(Refusal::BadLength(file.len()));
    }
    if 12 * limits_of(form).records < file.len() {
        return Err(Refusal::BadLength(file.len()));
    }
    scan_records(form, file)
}

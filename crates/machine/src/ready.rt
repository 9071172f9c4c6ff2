// Rows 6, 1 to 5, 8 and 10 of the table, which every run tries first.
ghost use Rattle.std.specs.Prelude.{◌≡◌, ◌||◌};
ghost use Rattle.model.specs.Replies.{bad_lengths};
ghost use Rattle.machine.specs.Calls.{Readies};

use model::limits::{FILE_DEPTH, PORTS, VARIABLES};
use model::{Form, Refusal, Settings};
use timing::blocks::block_time;

// Whether a length is not the table's, or another cause of row 10 holds.
pub fn bad_buffers(
    variables: usize,
    inputs: usize,
    levels: usize,
    marks: usize,
    cause: bool,
) -> bool
    ensures { result ≡ (bad_lengths variables inputs levels marks || cause) }
{
    (variables != VARIABLES) | (inputs != PORTS) | (levels != PORTS) | (marks != PORTS) | cause
}

// The settings, or the first refusal of the rows. bad is row 10's cause.
pub fn ready(settings: &[u8], form: Form, file: &[u8], bad: bool) -> Result<Settings, Refusal>
    ensures { Readies settings.now form file.now bad result }
{
    let rack = reading::read(settings, form, file)?;
    let Some(_) = block_time(file, 0, file.len() / 12, FILE_DEPTH, rack) else {
        return Err(Refusal::OverPeriod);
    };
    if bad {
        return Err(Refusal::BadBuffers);
    }
    Ok(rack)
}

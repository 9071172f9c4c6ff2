// Rows 6 and 1 to 5 of the table: every call reads its settings and its file here first.
#![tactic(auto)]

pub mod blocks;
pub mod closings;
mod fields;
mod nesting;
mod scan;

ghost use Rattle.reading.specs.Answers.{Reads};

use model::{Form, Refusal, Settings};
use records::settings::decode;
use scan::scan_file;

// The settings, where the file has passed too, or the first refusal of the settings and the file.
pub fn read(settings: &[u8], form: Form, file: &[u8]) -> Result<Settings, Refusal>
    ensures { Reads settings.now form file.now result }
{
    let rack = decode(settings)?;
    scan_file(form, file)?;
    Ok(rack)
}

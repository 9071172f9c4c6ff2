// The listing of a task: its laid file, the tick at which each record starts, and the line of a record.
#![tactic(auto)]

pub mod lines;
mod starts;

ghost use Rattle.std.specs.Prelude.{◌≡◌};
ghost use Rattle.model.specs.Answers.{laid_out};
ghost use Rattle.model.specs.Limits.{file_length};
ghost use Rattle.model.specs.Replies.{prepare_reply, prepare_out};
ghost use Rattle.model.specs.Listing.{list_starts};

use model::limits::{FILE_LENGTH, FILE_RECORDS};
use model::{LaidOut, Refusal};
use preparation::prepare;
use records::settings::decode;
use starts::Source;

// The laid file, the tick at which each of its records starts, and the bytes and the total; or the refusal.
pub fn list_task(
    settings: &[u8],
    task: &[u8],
    laid: &mut [u8; FILE_LENGTH],
    starts: &mut [u32; FILE_RECORDS],
) -> Result<LaidOut, Refusal>
    ensures { (laid_out result ≡ prepare_reply settings.now task.now file_length)
        × (laid.new ≡ prepare_out settings.now task.now laid.old)
        × (starts.new ≡ list_starts settings.now task.now starts.old) }
{
    let done = prepare(settings, task, laid)?;
    // Good settings, since they were not refused.
    let rack = decode(settings)?;
    let source = Source {
        file: laid,
        to: done.bytes / 12,
        rack: &rack,
    };
    source.start_block(0, 0, starts);
    Ok(done)
}

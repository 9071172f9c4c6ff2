// The time of a file: a block's time is worked out from the times of the blocks inside it.
#![tactic(auto)]

pub mod blocks;
pub mod ticks;

ghost use Rattle.std.specs.Prelude.{◌≡◌};
ghost use Rattle.model.specs.Answers.{timed};
ghost use Rattle.model.specs.Replies.{time_reply};

use blocks::block_time;
use model::limits::FILE_DEPTH;
use model::{Form, Refusal};

// The file's time, or the first refusal of 6, 1 to 5 and 8.
pub fn time_file(settings: &[u8], form: Form, file: &[u8]) -> Result<u32, Refusal>
    ensures { timed result ≡ time_reply settings.now form file.now }
{
    let rack = reading::read(settings, form, file)?;
    block_time(file, 0, file.len() / 12, FILE_DEPTH, rack).ok_or(Refusal::OverPeriod)
}

// A task made ready to run: equalised, then laid out.
#![tactic(auto)]

ghost use Rattle.std.specs.Prelude.{◌≡◌, length};
ghost use Rattle.model.specs.Answers.{laid_out};
ghost use Rattle.model.specs.Replies.{prepare_reply, prepare_out};

use equaliser::equalise;
use layout::lay_out;
use model::{LaidOut, Refusal};

// A task of 256 records becomes at most 1,025.
const EQUALISED_LENGTH: usize = 12300;

// The laid file of a task over the front of out, or the first refusal. The equalised file is the call's own.
pub fn prepare(settings: &[u8], task: &[u8], out: &mut [u8]) -> Result<LaidOut, Refusal>
    ensures { (laid_out result ≡ prepare_reply settings.now task.now (length out.old))
        × (out.new ≡ prepare_out settings.now task.now out.old) }
{
    let mut equalised: [u8; EQUALISED_LENGTH] = [0; EQUALISED_LENGTH];
    let made = equalise(settings, task, &mut equalised)?;
    lay_out(settings, &equalised[..made.bytes], out)
}

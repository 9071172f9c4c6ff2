// A rehearsal of the whole chain of calls: the task as written on one set, its prepared form on another, whole or stopped once and taken
// up, and whether the two ends are alike. All that is lent is read only.
#![tactic(auto)]

mod ends;
mod runs;
mod second;

ghost use Rattle.std.specs.Prelude.{◌≡◌, length};
ghost use Rattle.model.specs.Limits.{variable_count};
ghost use Rattle.model.specs.declared.Form.TheVariants.{Task};
ghost use Rattle.model.specs.Replies.{run_reply};
ghost use Rattle.model.specs.Chain.{lend, run_end};
ghost use Rattle.model.specs.Answers.{rehearsed, and_then};
ghost use Rattle.model.specs.Rehearsal.{zero_outputs, set_of, bad_sets, Rehearses};
ghost use Rattle.rehearsal.specs.Promises.{laid_loan, second_of};

use model::limits::{FILE_LENGTH, VARIABLES};
use model::{Form, Refusal, Rehearsed};
use preparation::prepare;
use runs::run_set;
use second::Second;

// The task on the first set and the laid file on the second.
fn rehearse_laid(
    settings: &[u8],
    task: &[u8],
    file: &[u8],
    total: u32,
    one: &[u32],
    one_inputs: &[u32],
    two: &[u32],
    two_inputs: &[u32],
    stop: Option<u32>,
) -> Result<Rehearsed, Refusal>
    requires { (length one.now ≡ variable_count) × (length two.now ≡ variable_count) }
    ensures { let c = lend settings.now Task task.now one_inputs.now one.now zero_outputs in
        rehearsed result ≡ and_then (run_reply c) (second_of stop (run_end c) total
        (laid_loan settings.now file.now two.now two_inputs.now)) }
{
    let first = run_set(settings, Form::Task, task, one, one_inputs)?;
    let second = Second {
        settings,
        file,
        total,
        first: first.end,
        set: two,
        inputs: two_inputs,
    };
    match stop {
        None => second.whole(),
        Some(tick) => second.stopped(tick),
    }
}

fn bad_sets(one: usize, two: usize) -> bool
    ensures { result ≡ bad_sets one two }
{
    (one != VARIABLES) | (two != VARIABLES)
}

// The whole chain, with both sets as slices, as the calls of a run take them: the first refusal in it, or whether the ends are alike. The
// prepared form is stopped at that tick, if there is one.
pub fn rehearse(
    settings: &[u8],
    task: &[u8],
    one: &[u32],
    one_inputs: &[u32],
    two: &[u32],
    two_inputs: &[u32],
    stop: Option<u32>,
) -> Result<Rehearsed, Refusal>
    ensures { Rehearses settings.now task.now (set_of one.now one_inputs.now)
        (set_of two.now two_inputs.now) stop result }
{
    let mut laid: [u8; FILE_LENGTH] = [0; FILE_LENGTH];
    let made = prepare(settings, task, &mut laid)?;
    if bad_sets(one.len(), two.len()) {
        return Err(Refusal::BadBuffers);
    }
    rehearse_laid(
        settings,
        task,
        &laid[..made.bytes],
        made.total,
        one,
        one_inputs,
        two,
        two_inputs,
        stop,
    )
}

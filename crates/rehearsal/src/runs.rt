// A whole run with outputs of its own, and how it ended.
ghost use Rattle.std.specs.Prelude.{◌≡◌, length};
ghost use Rattle.model.specs.Limits.{variable_count};
ghost use Rattle.model.specs.Chain.{lend};
ghost use Rattle.model.specs.Rehearsal.{zero_outputs};
ghost use Rattle.model.specs.Answers.{bit};
ghost use Rattle.model.specs.Replies.{buffers_of};
ghost use Rattle.rehearsal.specs.Promises.{end_in, Finishes};

use crate::ends::Final;
use machine::run;
use model::limits::{PORTS, VARIABLES};
use model::{Form, Ran, Refusal};

// Where a run ended, and its tick.
#[derive(Clone, Copy)]
pub struct Finished {
    pub end: Final,
    pub tick: u32,
}

impl Finished {
    // A run that ended with these variables and outputs.
    pub fn new(
        ran: Ran,
        variables: [u32; VARIABLES],
        levels: [u32; PORTS],
        marks: [u8; PORTS],
    ) -> Finished
        ensures { (result.tick ≡ ran.tick) × (result.end.overran ≡ ran.overran)
            × (end_in result.end ≡ record { buffers = buffers_of variables levels marks; overran = bit ran.overran }) }
    {
        let overran = ran.overran;
        let end = Final {
            variables,
            levels,
            marks,
            overran,
        };
        Finished {
            end,
            tick: ran.tick,
        }
    }
}

// A set's whole run of a file.
pub fn run_set(
    settings: &[u8],
    form: Form,
    file: &[u8],
    set: &[u32],
    inputs: &[u32],
) -> Result<Finished, Refusal>
    requires { length set.now ≡ variable_count }
    ensures { Finishes (lend settings.now form file.now inputs.now set.now zero_outputs) result }
{
    let mut variables: [u32; VARIABLES] = [0; VARIABLES];
    variables.copy_from_slice(set);
    let mut levels: [u32; PORTS] = [0; PORTS];
    let mut marks: [u8; PORTS] = [0; PORTS];
    let ran = run(
        settings,
        form,
        file,
        &mut variables,
        inputs,
        &mut levels,
        &mut marks,
    )?;
    Ok(Finished::new(ran, variables, levels, marks))
}

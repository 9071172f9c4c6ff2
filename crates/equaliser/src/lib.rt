// The sides of every branch made to last equally long. One pass measures the result, and one writes it.
#![tactic(auto)]

mod measure;
mod pads;
mod pieces;
mod write;

ghost use Rattle.std.specs.Prelude.{◌≡◌, length};
ghost use Rattle.model.specs.Answers.{equalised};
ghost use Rattle.model.specs.Replies.{equalise_reply, equalise_out};
ghost use Rattle.model.specs.declared.Form.TheVariants.{Task};
ghost use Rattle.reading.specs.Ranges.{SoundFile};
ghost use Rattle.equaliser.specs.Answers.{EqualisesSound};

use measure::Source;
use model::limits::TASK_RECORDS;
use model::{Equalised, Form, Refusal, Settings};
use pads::Pad;
use records::no_room;
use write::Plan;

// A task that was read: refusals 8 and 9, or the equalised task over the front of out.
fn equalise_sound(task: &[u8], rack: &Settings, out: &mut [u8]) -> Result<Equalised, Refusal>
    requires { SoundFile Task task.now }
    ensures { EqualisesSound task.now rack.now out.old out.new result }
{
    let to = task.len() / 12;
    let none = Pad {
        first: 0,
        second: 0,
    };
    let mut pads = [none; TASK_RECORDS];
    let source = Source {
        file: task,
        to,
        rack,
    };
    let whole = source
        .measure_block(0, &mut pads)
        .ok_or(Refusal::OverPeriod)?;
    if no_room(out.len(), whole.padded_records(0)) {
        return Err(Refusal::NoRoom);
    }
    let plan = Plan {
        file: task,
        to,
        pads: &pads,
    };
    let w = plan.write_block(0, 0, out);
    Ok(Equalised {
        bytes: w.bytes,
        time: whole.ticks,
    })
}

// The equalised task over the front of out, or the first refusal of 6, 1 to 5, 8 and 9.
pub fn equalise(settings: &[u8], task: &[u8], out: &mut [u8]) -> Result<Equalised, Refusal>
    ensures { (equalised result ≡ equalise_reply settings.now task.now (length out.old))
        × (out.new ≡ equalise_out settings.now task.now out.old) }
{
    let rack = reading::read(settings, Form::Task, task)?;
    equalise_sound(task, &rack, out)
}

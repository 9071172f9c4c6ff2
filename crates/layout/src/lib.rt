// The equalised file unrolled, with heartbeats and checkpoints at their ticks. One pass measures the result, and one writes it.
#![tactic(auto)]

mod lent;
mod measure;
mod skips;
mod write;

ghost use Rattle.std.specs.Prelude.{◌≡◌, length};
ghost use Rattle.model.specs.declared.Form.TheVariants.{Equalised};
ghost use Rattle.model.specs.Answers.{laid_out};
ghost use Rattle.model.specs.Replies.{short_window, lay_out_reply, lay_out_out};
ghost use Rattle.reading.specs.Ranges.{SoundFile};
ghost use Rattle.layout.specs.Answers.{InRange, LaysOutSound};

use lent::MEETINGS;
use measure::measure_file;
use model::{Form, LaidOut, Refusal, Settings};
use records::no_room;
use records::skips::skip_records;
use timing::ticks::longest_step;
use write::write_file;

// Refusal 7.
fn short_window(rack: Settings) -> bool
    ensures { result ≡ short_window rack }
{
    u64::from(rack.window)
        < u64::from(rack.beat) + u64::from(rack.save) + u64::from(longest_step(rack))
}

// A file that was read: refusals 7, 8 and 9, or the laid file over the front of out.
fn lay_out_sound(file: &[u8], rack: Settings, out: &mut [u8]) -> Result<LaidOut, Refusal>
    requires { (SoundFile Equalised file.now) × (InRange rack) }
    ensures { LaysOutSound file.now rack out.old out.new result }
{
    if short_window(rack) {
        return Err(Refusal::ShortWindow);
    }
    let mut meets: [u32; MEETINGS] = [0; MEETINGS];
    let end = measure_file(file, &rack, &mut meets).ok_or(Refusal::OverPeriod)?;
    let total = u64::from(end.tick) + u64::from(end.ticks_left) + u64::from(rack.beat);
    if u64::from(rack.period) < total {
        return Err(Refusal::OverPeriod);
    }
    let records = end.records + skip_records(u64::from(end.wait) + u64::from(end.ticks_left)) + 1;
    if no_room(out.len(), records) {
        return Err(Refusal::NoRoom);
    }
    write_file(file, &rack, &meets, out);
    Ok(LaidOut {
        bytes: 12 * records,
        total: total as u32,
    })
}

// The laid file over the front of out, or the first refusal of 6, 1 to 5 and 7 to 9.
pub fn lay_out(settings: &[u8], equalised: &[u8], out: &mut [u8]) -> Result<LaidOut, Refusal>
    ensures { (laid_out result ≡ lay_out_reply settings.now equalised.now (length out.old))
        × (out.new ≡ lay_out_out settings.now equalised.now out.old) }
{
    let rack = reading::read(settings, Form::Equalised, equalised)?;
    lay_out_sound(equalised, rack, out)
}

// Runs of files of all three forms: whole, up to a tick, and taken up. Each buffer is a parameter of its own, as C lends it.
#![tactic(auto)]

mod ready;

ghost use Rattle.std.specs.Prelude.{◌≡◌, length, replicate};
ghost use Rattle.model.specs.Limits.{image_length, port_count};
ghost use Rattle.model.specs.Answers.{ran, stopped};
ghost use Rattle.model.specs.Replies.{run_reply, run_buffers, stop_reply, stop_buffers, stop_image, resume_reply, resume_buffers, restart_reply, restart_buffers};
ghost use Rattle.model.specs.Replies.{buffers_of, loan};
ghost use Rattle.machine.specs.Calls.{told, was_cut, ReadyToRun, RunWhole, StopsSound, Resumes};

use model::limits::IMAGE_LENGTH;
use model::{Form, Ran, Refusal, Settings, Stopped};
use ready::{bad_buffers, ready};
use running::tables::run_from;
use stepping::images::after_save;
use stepping::progress::{Halt, Place};
use stepping::store::{Image, Store};

// All levels and marks set to 0.
fn clear(levels: &mut [u32], marks: &mut [u8])
    requires { (length levels.old ≡ port_count) × (length marks.old ≡ port_count) }
    ensures { (levels.new ≡ replicate port_count 0) × (marks.new ≡ replicate port_count 0) }
{
    levels.fill(0);
    marks.fill(0);
}

// What a run answers that goes on to its end.
fn ended(end: Result<Place, Halt>) -> Ran
    ensures { result ≡ told end }
{
    match end {
        Ok(place) => Ran {
            tick: place.tick,
            overran: false,
        },
        Err(Halt::Cut(tick)) => Ran {
            tick,
            overran: false,
        },
        Err(Halt::Overran(tick)) => Ran {
            tick,
            overran: true,
        },
    }
}

fn was_cut(end: Result<Place, Halt>) -> bool
    ensures { result ≡ was_cut end }
{
    match end {
        Err(Halt::Cut(_)) => true,
        Err(Halt::Overran(_)) | Ok(_) => false,
    }
}

// The whole file, from the lent variables and outputs on.
fn run_whole(
    file: &[u8],
    rack: Settings,
    variables: &mut [u32],
    inputs: &[u32],
    levels: &mut [u32],
    marks: &mut [u8],
) -> Ran
    requires { ReadyToRun file.now rack variables.old inputs.now levels.old marks.old }
    ensures { RunWhole file.now rack inputs.now variables.old levels.old marks.old
        variables.new levels.new marks.new result }
{
    let mut store = Store::new();
    store.load_variables(variables);
    store.load_outputs(levels, marks);
    let end = run_from(file, 0, &rack, inputs, rack.period, 0, &mut store);
    store.leave(variables, levels, marks);
    ended(end)
}

// A whole run: its end tick and whether it overran, or the first refusal of 6, 1 to 5, 8 and 10.
pub fn run(
    settings: &[u8],
    form: Form,
    file: &[u8],
    variables: &mut [u32],
    inputs: &[u32],
    levels: &mut [u32],
    marks: &mut [u8],
) -> Result<Ran, Refusal>
    ensures { let c = loan settings.now form file.now variables.old inputs.now levels.old
        marks.old in
        ((ran result ≡ run_reply c) × (buffers_of variables.new levels.new marks.new ≡ run_buffers c)) }
{
    let bad = bad_buffers(
        variables.len(),
        inputs.len(),
        levels.len(),
        marks.len(),
        false,
    );
    let rack = ready(settings, form, file, bad)?;
    clear(levels, marks);
    let end = run_whole(file, rack, variables, inputs, levels, marks);
    Ok(end)
}

// Up to the stop tick, with a file that was read: refusal 12 where the run ends by then.
fn run_until_ready(
    file: &[u8],
    rack: Settings,
    variables: &mut [u32],
    inputs: &[u32],
    levels: &mut [u32],
    marks: &mut [u8],
    image: &mut [u8],
    stop: u32,
) -> Result<Stopped, Refusal>
    requires { (ReadyToRun file.now rack variables.old inputs.now levels.old marks.old) × (length image.old ≡ image_length) }
    ensures { StopsSound file.now rack inputs.now stop variables.old levels.old marks.old
        image.old
        variables.new levels.new marks.new image.new result }
{
    let mut store = Store::new();
    store.load_variables(variables);
    let end = run_from(file, 0, &rack, inputs, stop, 0, &mut store);
    if !was_cut(end) {
        return Err(Refusal::LateStop);
    }
    store.leave(variables, levels, marks);
    let saved = store.leave_image(image);
    Ok(Stopped { tick: stop, saved })
}

// A run stopped at a tick: whether there is an image, or the first refusal of 6, 1 to 5, 8, 10 and 12.
pub fn run_until(
    settings: &[u8],
    form: Form,
    file: &[u8],
    variables: &mut [u32],
    inputs: &[u32],
    levels: &mut [u32],
    marks: &mut [u8],
    image: &mut [u8],
    stop: u32,
) -> Result<Stopped, Refusal>
    ensures { let c = loan settings.now form file.now variables.old inputs.now levels.old
        marks.old in
        ((stopped result ≡ stop_reply c image.old stop)
        × (buffers_of variables.new levels.new marks.new ≡ stop_buffers c image.old stop)
        × (image.new ≡ stop_image c image.old stop)) }
{
    let bad = bad_buffers(
        variables.len(),
        inputs.len(),
        levels.len(),
        marks.len(),
        image.len() != IMAGE_LENGTH,
    );
    let rack = ready(settings, form, file, bad)?;
    run_until_ready(file, rack, variables, inputs, levels, marks, image, stop)
}

// From an image on, with a file that was read: refusal 11 where it cannot be taken up.
fn resume_ready(
    file: &[u8],
    rack: Settings,
    variables: &mut [u32],
    inputs: &[u32],
    levels: &mut [u32],
    marks: &mut [u8],
    image: &[u8],
) -> Result<Ran, Refusal>
    requires { (ReadyToRun file.now rack variables.old inputs.now levels.old marks.old) × (length image.now ≡ image_length) }
    ensures { Resumes file.now rack inputs.now variables.old levels.old marks.old
        image.now
        variables.new levels.new marks.new result }
{
    let last = Image::read(image);
    let index = last.index as usize;
    let tick = last.tick;
    if !after_save(file, index) {
        return Err(Refusal::BadImage);
    }
    if rack.period < tick {
        return Err(Refusal::BadImage);
    }
    let mut store = Store::new();
    store.load_variables(&last.variables);
    store.load_outputs(levels, marks);
    let limit = tick + rack.period;
    let end = run_from(file, index, &rack, inputs, limit, tick, &mut store);
    store.leave(variables, levels, marks);
    Ok(ended(end))
}

// A run taken up from an image: its end tick and whether it overran, or the first refusal of 6, 1 to 5, 8, 10 and 11.
pub fn resume(
    settings: &[u8],
    form: Form,
    file: &[u8],
    variables: &mut [u32],
    inputs: &[u32],
    levels: &mut [u32],
    marks: &mut [u8],
    image: &[u8],
) -> Result<Ran, Refusal>
    ensures { let c = loan settings.now form file.now variables.old inputs.now levels.old
        marks.old in
        ((ran result ≡ resume_reply c image.now)
        × (buffers_of variables.new levels.new marks.new ≡ resume_buffers c image.now)) }
{
    let bad = bad_buffers(
        variables.len(),
        inputs.len(),
        levels.len(),
        marks.len(),
        image.len() != IMAGE_LENGTH,
    );
    let rack = ready(settings, form, file, bad)?;
    resume_ready(file, rack, variables, inputs, levels, marks, image)
}

// A run taken up with no finished SAVE: from the first record and the first variables on, with the outputs as the stop left them.
pub fn restart(
    settings: &[u8],
    form: Form,
    file: &[u8],
    variables: &mut [u32],
    inputs: &[u32],
    levels: &mut [u32],
    marks: &mut [u8],
) -> Result<Ran, Refusal>
    ensures { let c = loan settings.now form file.now variables.old inputs.now levels.old
        marks.old in
        ((ran result ≡ restart_reply c) × (buffers_of variables.new levels.new marks.new ≡ restart_buffers c)) }
{
    let bad = bad_buffers(
        variables.len(),
        inputs.len(),
        levels.len(),
        marks.len(),
        false,
    );
    let rack = ready(settings, form, file, bad)?;
    let e = run_whole(file, rack, variables, inputs, levels, marks);
    Ok(e)
}

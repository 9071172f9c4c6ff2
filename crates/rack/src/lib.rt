// The calls as C makes them, by `rack_c`, with each buffer lent on its own. Each answers one number, in which `packing` puts what the paper returns.
#![tactic(auto)]

ghost use Rattle.std.specs.Prelude.{◌≡◌, length};
ghost use Rattle.model.specs.Replies.{time_reply, equalise_reply, equalise_out, lay_out_reply, lay_out_out, prepare_reply, prepare_out, loan, buffers_of};
ghost use Rattle.model.specs.Replies.{run_reply, run_buffers, stop_reply, stop_buffers, stop_image, resume_reply, resume_buffers, restart_reply, restart_buffers};
ghost use Rattle.model.specs.declared.Event.TheVariants.{Beat, Look, Reset};
ghost use Rattle.packing.specs.Words.{form_of, file_word, run_word, packed};
ghost use Rattle.tables.specs.Numbers.{numbers_reply, numbers_status, numbers_table};

use equaliser::equalise;
use layout::lay_out;
use machine::{restart, resume, run, run_until};
use model::Event;
use packing::answers::{
    equalised_word, laid_word, ran_word, stopped_word, time_word, watched_word,
};
use packing::words::form_of;
use preparation::prepare;
use tables::{happen, seen};
use timing::time_file;

// timing::time_file
pub fn rack_time(settings: &[u8], form: u8, file: &[u8]) -> u64
    ensures { result ≡ packed file_word (time_reply settings.now (form_of form) file.now) }
{
    let timed = time_file(settings, form_of(form), file);
    time_word(timed)
}

// equaliser::equalise
pub fn rack_equalise(settings: &[u8], task: &[u8], out: &mut [u8]) -> u64
    ensures { (result ≡ packed file_word (equalise_reply settings.now task.now (length out.old)))
        × (out.new ≡ equalise_out settings.now task.now out.old) }
{
    let made = equalise(settings, task, out);
    equalised_word(made)
}

// layout::lay_out
pub fn rack_lay_out(settings: &[u8], equalised: &[u8], out: &mut [u8]) -> u64
    ensures { (result ≡ packed file_word (lay_out_reply settings.now equalised.now (length out.old)))
        × (out.new ≡ lay_out_out settings.now equalised.now out.old) }
{
    let laid = lay_out(settings, equalised, out);
    laid_word(laid)
}

// preparation::prepare
pub fn rack_prepare(settings: &[u8], task: &[u8], out: &mut [u8]) -> u64
    ensures { (result ≡ packed file_word (prepare_reply settings.now task.now (length out.old)))
        × (out.new ≡ prepare_out settings.now task.now out.old) }
{
    let laid = prepare(settings, task, out);
    laid_word(laid)
}

// machine::run
pub fn rack_run(
    settings: &[u8],
    form: u8,
    file: &[u8],
    variables: &mut [u32],
    inputs: &[u32],
    levels: &mut [u32],
    marks: &mut [u8],
) -> u64
    ensures { let c = loan settings.now (form_of form) file.now variables.old inputs.now
        levels.old marks.old in
        ((result ≡ packed run_word (run_reply c)) × (buffers_of variables.new levels.new marks.new ≡ run_buffers c)) }
{
    let end = run(
        settings,
        form_of(form),
        file,
        variables,
        inputs,
        levels,
        marks,
    );
    ran_word(end)
}

// machine::run_until
pub fn rack_run_until(
    settings: &[u8],
    form: u8,
    file: &[u8],
    variables: &mut [u32],
    inputs: &[u32],
    levels: &mut [u32],
    marks: &mut [u8],
    image: &mut [u8],
    stop: u32,
) -> u64
    ensures { let c = loan settings.now (form_of form) file.now variables.old inputs.now
        levels.old marks.old in
        ((result ≡ packed run_word (stop_reply c image.old stop))
        × (buffers_of variables.new levels.new marks.new ≡ stop_buffers c image.old stop)
        × (image.new ≡ stop_image c image.old stop)) }
{
    let end = run_until(
        settings,
        form_of(form),
        file,
        variables,
        inputs,
        levels,
        marks,
        image,
        stop,
    );
    stopped_word(end)
}

// machine::resume
pub fn rack_resume(
    settings: &[u8],
    form: u8,
    file: &[u8],
    variables: &mut [u32],
    inputs: &[u32],
    levels: &mut [u32],
    marks: &mut [u8],
    image: &[u8],
) -> u64
    ensures { let c = loan settings.now (form_of form) file.now variables.old inputs.now
        levels.old marks.old in
        ((result ≡ packed run_word (resume_reply c image.now))
        × (buffers_of variables.new levels.new marks.new ≡ resume_buffers c image.now)) }
{
    let end = resume(
        settings,
        form_of(form),
        file,
        variables,
        inputs,
        levels,
        marks,
        image,
    );
    ran_word(end)
}

// machine::restart
pub fn rack_restart(
    settings: &[u8],
    form: u8,
    file: &[u8],
    variables: &mut [u32],
    inputs: &[u32],
    levels: &mut [u32],
    marks: &mut [u8],
) -> u64
    ensures { let c = loan settings.now (form_of form) file.now variables.old inputs.now
        levels.old marks.old in
        ((result ≡ packed run_word (restart_reply c)) × (buffers_of variables.new levels.new marks.new ≡ restart_buffers c)) }
{
    let restarted = restart(
        settings,
        form_of(form),
        file,
        variables,
        inputs,
        levels,
        marks,
    );
    ran_word(restarted)
}

// watcher::beat
pub fn rack_beat(table: &mut [u32], entry: u32, value: u32) -> u64
    ensures { (result ≡ packed file_word (numbers_reply table.old entry (Beat value)))
        × (table.new ≡ numbers_table table.old entry (Beat value)) }
{
    let seen = happen(table, entry, Event::Beat(value));
    watched_word(seen)
}

// watcher::look
pub fn rack_look(table: &mut [u32], entry: u32) -> u64
    ensures { (result ≡ packed file_word (numbers_reply table.old entry Look))
        × (table.new ≡ numbers_table table.old entry Look) }
{
    let seen = happen(table, entry, Event::Look);
    watched_word(seen)
}

// watcher::reset
pub fn rack_reset(table: &mut [u32], entry: u32, window: u32) -> u64
    ensures { (result ≡ packed file_word (numbers_reply table.old entry (Reset window)))
        × (table.new ≡ numbers_table table.old entry (Reset window)) }
{
    let seen = happen(table, entry, Event::Reset(window));
    watched_word(seen)
}

// watcher::status
pub fn rack_status(table: &[u32], entry: u32) -> u64
    ensures { result ≡ packed file_word (numbers_status table.now entry) }
{
    watched_word(seen(table, entry))
}

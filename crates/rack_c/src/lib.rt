// The library for C: each export is the call of `rack` of its name, with the same promise.
#![tactic(auto)]

ghost use Rattle.std.specs.Prelude.{◌≡◌, length};
ghost use Rattle.model.specs.Replies.{time_reply, equalise_reply, equalise_out, lay_out_reply, lay_out_out, prepare_reply, prepare_out, loan, buffers_of};
ghost use Rattle.model.specs.Replies.{run_reply, run_buffers, stop_reply, stop_buffers, stop_image, resume_reply, resume_buffers, restart_reply, restart_buffers};
ghost use Rattle.model.specs.declared.Event.TheVariants.{Beat, Look, Reset};
ghost use Rattle.packing.specs.Words.{form_of, file_word, run_word, packed};
ghost use Rattle.tables.specs.Numbers.{numbers_reply, numbers_status, numbers_table};

#[unsafe(no_mangle)]
pub extern "C" fn rack_time(settings: &[u8], form: u8, file: &[u8]) -> u64
    ensures { result ≡ packed file_word (time_reply settings.now (form_of form) file.now) }
{
    rack::rack_time(settings, form, file)
}

#[unsafe(no_mangle)]
pub extern "C" fn rack_equalise(settings: &[u8], task: &[u8], out: &mut [u8]) -> u64
    ensures { (result ≡ packed file_word (equalise_reply settings.now task.now (length out.old)))
        × (out.new ≡ equalise_out settings.now task.now out.old) }
{
    rack::rack_equalise(settings, task, out)
}

#[unsafe(no_mangle)]
pub extern "C" fn rack_lay_out(settings: &[u8], equalised: &[u8], out: &mut [u8]) -> u64
    ensures { (result ≡ packed file_word (lay_out_reply settings.now equalised.now (length out.old)))
        × (out.new ≡ lay_out_out settings.now equalised.now out.old) }
{
    rack::rack_lay_out(settings, equalised, out)
}

#[unsafe(no_mangle)]
pub extern "C" fn rack_prepare(settings: &[u8], task: &[u8], out: &mut [u8]) -> u64
    ensures { (result ≡ packed file_word (prepare_reply settings.now task.now (length out.old)))
        × (out.new ≡ prepare_out settings.now task.now out.old) }
{
    rack::rack_prepare(settings, task, out)
}

#[unsafe(no_mangle)]
pub extern "C" fn rack_run(
    settings: &[u8],
    form: u8,
    file: &[u8],
    variables: &mut [u32],
    inputs: &[u32],
    levels: &mut [u32],
    marks: &mut [u8],
) -> u64
    ensures { let c = loan settings.now (form_of form) file.now variables.old inputs.now
        levels.old marks.old in
        ((result ≡ packed run_word (run_reply c)) × (buffers_of variables.new levels.new marks.new ≡ run_buffers c)) }
{
    rack::rack_run(settings, form, file, variables, inputs, levels, marks)
}

#[unsafe(no_mangle)]
pub extern "C" fn rack_run_until(
    settings: &[u8],
    form: u8,
    file: &[u8],
    variables: &mut [u32],
    inputs: &[u32],
    levels: &mut [u32],
    marks: &mut [u8],
    image: &mut [u8],
    stop: u32,
) -> u64
    ensures { let c = loan settings.now (form_of form) file.now variables.old inputs.now
        levels.old marks.old in
        ((result ≡ packed run_word (stop_reply c image.old stop))
        × (buffers_of variables.new levels.new marks.new ≡ stop_buffers c image.old stop)
        × (image.new ≡ stop_image c image.old stop)) }
{
    rack::rack_run_until(
        settings, form, file, variables, inputs, levels, marks, image, stop,
    )
}

#[unsafe(no_mangle)]
pub extern "C" fn rack_resume(
    settings: &[u8],
    form: u8,
    file: &[u8],
    variables: &mut [u32],
    inputs: &[u32],
    levels: &mut [u32],
    marks: &mut [u8],
    image: &[u8],
) -> u64
    ensures { let c = loan settings.now (form_of form) file.now variables.old inputs.now
        levels.old marks.old in
        ((result ≡ packed run_word (resume_reply c image.now))
        × (buffers_of variables.new levels.new marks.new ≡ resume_buffers c image.now)) }
{
    rack::rack_resume(
        settings, form, file, variables, inputs, levels, marks, image,
    )
}

#[unsafe(no_mangle)]
pub extern "C" fn rack_restart(
    settings: &[u8],
    form: u8,
    file: &[u8],
    variables: &mut [u32],
    inputs: &[u32],
    levels: &mut [u32],
    marks: &mut [u8],
) -> u64
    ensures { let c = loan settings.now (form_of form) file.now variables.old inputs.now
        levels.old marks.old in
        ((result ≡ packed run_word (restart_reply c)) × (buffers_of variables.new levels.new marks.new ≡ restart_buffers c)) }
{
    rack::rack_restart(settings, form, file, variables, inputs, levels, marks)
}

#[unsafe(no_mangle)]
pub extern "C" fn rack_beat(table: &mut [u32], entry: u32, value: u32) -> u64
    ensures { (result ≡ packed file_word (numbers_reply table.old entry (Beat value)))
        × (table.new ≡ numbers_table table.old entry (Beat value)) }
{
    rack::rack_beat(table, entry, value)
}

#[unsafe(no_mangle)]
pub extern "C" fn rack_look(table: &mut [u32], entry: u32) -> u64
    ensures { (result ≡ packed file_word (numbers_reply table.old entry Look))
        × (table.new ≡ numbers_table table.old entry Look) }
{
    rack::rack_look(table, entry)
}

#[unsafe(no_mangle)]
pub extern "C" fn rack_reset(table: &mut [u32], entry: u32, window: u32) -> u64
    ensures { (result ≡ packed file_word (numbers_reply table.old entry (Reset window)))
        × (table.new ≡ numbers_table table.old entry (Reset window)) }
{
    rack::rack_reset(table, entry, window)
}

#[unsafe(no_mangle)]
pub extern "C" fn rack_status(table: &[u32], entry: u32) -> u64
    ensures { result ≡ packed file_word (numbers_status table.now entry) }
{
    rack::rack_status(table, entry)
}

// The list program: it reads the settings in rack.set and a task on standard input, and prints the task's listing, or why it is refused.
// Where a read or the write fails, the caller hears which, and why.
#![tactic(auto)]

mod files;
pub mod render;

ghost use Rattle.std.specs.Prelude.{OnOk, length};
ghost use Rattle.std.specs.Io.KnownBytes.{Appends};
ghost use Rattle.model.specs.Listing.{printed, printed_text};
ghost use Rattle.printing.specs.Inputs.{Within};

use files::read_all;
use render::render;
use std::fs::File;
use std::io;
use std::io::Write;
use std::rt::Files;
use thiserror::Error;

// Which read failed, or that the write did, and why.
#[derive(Debug, Drop, Error)]
pub enum Failure {
    #[error("cannot read rack.set: {0}")]
    Settings(io::Error),
    #[error("cannot read standard input: {0}")]
    Task(io::Error),
    #[error("cannot write: {0}")]
    Listing(io::Error),
}

// The start of rack.set: a file that is too long shows, and one that cannot be opened is as an empty one.
fn read_settings<R: Files>(rt: &R, settings: &mut [u8]) -> io::Result<usize>
    ensures { Within result (length settings.old) }
{
    match File::open(rt, "rack.set") {
        Ok(mut file) => read_all(&mut file, settings),
        Err(_) => Ok(0),
    }
}

// The start of standard input, at its end or as far as there is room.
fn read_task<R: Input>(rt: &R, task: &mut [u8]) -> io::Result<usize>
    ensures { Within result (length task.old) }
{
    read_all(&mut rt.reader(), task)
}

// Writes what is printed for these settings and this task.
fn write_listing<W: Write>(settings: &[u8], task: &[u8], out: &mut W) -> io::Result<()>
    ensures { OnOk result (Appends (W.contents out.old) (W.contents out.new)
        (printed_text (printed settings.now task.now))) }
{
    let mut page: [u8; 349568] = [0; 349568];
    let n = render(settings, task, &mut page);
    out.write_all(&page[..n])
}

pub fn print_listing<R: Files + Input + Print>(rt: &R) -> Result<(), Failure> {
    let mut settings: [u8; 32] = [0; 32];
    let given = read_settings(rt, &mut settings).map_err(Failure::Settings)?;
    // One byte more than the longest task, so that a longer one is refused by its length.
    let mut task: [u8; 3073] = [0; 3073];
    let read = read_task(rt, &mut task).map_err(Failure::Task)?;
    write_listing(&settings[..given], &task[..read], &mut io::writer(rt)).map_err(Failure::Listing)
}

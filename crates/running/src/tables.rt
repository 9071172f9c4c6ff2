// A file's records run by a table of their closings, which is made here.
ghost use Rattle.std.specs.Prelude.{◌+◌, ◌<◌, ◌≤◌};
ghost use Rattle.model.specs.Limits.{file_records};
ghost use Rattle.running.specs.Promises.{extent, Started, RecordsRan};

use crate::blocks::Program;
use model::Settings;
use model::limits::{FILE_RECORDS, TASK_RECORDS};
use reading::closings::fill;
use stepping::progress::{Halt, Place};
use stepping::store::Store;

// A place for each record, and one for the end.
const TASK_PLACES: usize = TASK_RECORDS + 1;

const FILE_PLACES: usize = FILE_RECORDS + 1;

// The records from `from` on, with a table of so many places.
fn run_by<const PLACES: usize>(
    file: &[u8],
    from: usize,
    rack: &Settings,
    inputs: &[u32],
    limit: u32,
    tick: u32,
    store: &mut Store,
) -> Result<Place, Halt>
    requires { (Started file.now from inputs.now limit tick) × (extent file.now < PLACES) × (PLACES ≤ file_records + 1) }
    ensures { RecordsRan file.now from (extent file.now) rack.now inputs.now limit tick store.old store.new result }
{
    let mut ends: [u16; PLACES] = [0; PLACES];
    let to = file.len() / 12;
    fill(file, to, &mut ends);
    let program = Program {
        file,
        ends: &ends,
        rack,
        inputs,
        limit,
    };
    program.run_records(from, to, tick, store)
}

// The records from `from` on. A file of no more records than a task has a short table, since clearing the longest takes as long as twenty
// steps.
pub fn run_from(
    file: &[u8],
    from: usize,
    rack: &Settings,
    inputs: &[u32],
    limit: u32,
    tick: u32,
    store: &mut Store,
) -> Result<Place, Halt>
    requires { Started file.now from inputs.now limit tick }
    ensures { RecordsRan file.now from (extent file.now) rack.now inputs.now limit tick store.old store.new result }
{
    if file.len() / 12 <= TASK_RECORDS {
        return run_by::<TASK_PLACES>(file, from, rack, inputs, limit, tick, store);
    }
    run_by::<FILE_PLACES>(file, from, rack, inputs, limit, tick, store)
}

// Where a run is, and one step of it: done, or cut where it does not end by the limit.
ghost use Rattle.std.specs.Prelude.{◌≡◌, ◌+◌, ◌<◌, ◌≤◌, true, length};
ghost use Rattle.model.specs.Limits.{port_count, file_records};
ghost use Rattle.model.specs.Refusals.{test_fits, fields_fit};
ghost use Rattle.model.specs.Runs.{single, last_test};
ghost use Rattle.records.specs.Records.{record_of};
ghost use Rattle.reading.specs.Ranges.{test_of};
ghost use Rattle.stepping.specs.Machines.{record_effect};
ghost use Rattle.stepping.specs.Steps.{Ran};

use crate::store::Store;
use records::Record;

// Where a run goes on: its tick, and the next record.
#[derive(Clone, Copy)]
pub struct Place {
    pub tick: u32,
    pub next: usize,
}

// Where a run ended before its last record: at that tick it was cut by the limit, or overran.
#[derive(Clone, Copy)]
pub enum Halt {
    Cut(u32),
    Overran(u32),
}

// The record at i, which is of that kind and opens and closes no block.
pub fn run_step(
    kind: u8,
    i: usize,
    r: Record,
    lasts: u32,
    inputs: &[u32],
    limit: u32,
    tick: u32,
    store: &mut Store,
) -> Result<Place, Halt>
    requires { (length inputs.now ≡ port_count) × (fields_fit (record_of r) ≡ true) × (i < file_records) × (tick ≤ limit) × (r.kind ≡ kind) }
    ensures { Ran limit (single lasts i (record_effect inputs.now (record_of r))) (i + 1) tick store.old store.new result }
{
    if limit - tick < lasts {
        return Err(Halt::Cut(tick));
    }
    let next = i + 1;
    let end = tick + lasts;
    if store.act(kind, r, next, end, inputs) {
        return Err(Halt::Overran(end));
    }
    Ok(Place { tick: end, next })
}

// The last test of the loop at i, before the record `next`.
pub fn run_last_test(
    i: usize,
    r: Record,
    next: usize,
    limit: u32,
    tick: u32,
    store: &Store,
) -> Result<Place, Halt>
    requires { (test_fits (record_of r) ≡ true) × (tick ≤ limit) }
    ensures { Ran limit (single 1 i (last_test (test_of (record_of r)))) next tick store.now store.now result }
{
    if limit <= tick {
        return Err(Halt::Cut(tick));
    }
    if store.test_holds(r) {
        return Err(Halt::Overran(tick + 1));
    }
    Ok(Place {
        tick: tick + 1,
        next,
    })
}

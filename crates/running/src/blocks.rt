// Records run up to a limit: a step that does not end by then is not done, and the run is cut there. An IF is a jump by the table of closings; a loop
// runs its body as records of their own.
ghost use Rattle.std.specs.Prelude.{◌≡◌, true, false, ◌+◌, ◌≤◌, ◌<◌, length};
ghost use Rattle.model.specs.Limits.{file_records, port_count};
ghost use Rattle.model.specs.Records.{kind_at, record_at, WHILE, TIMES};
ghost use Rattle.model.specs.Refusals.{fields_fit};
ghost use Rattle.model.specs.Runs.{single};
ghost use Rattle.records.specs.Records.{record_of};
ghost use Rattle.timing.specs.Times.{step_ticks};
ghost use Rattle.stepping.specs.Machines.{record_effect};
ghost use Rattle.stepping.specs.Steps.{Ran};
ghost use Rattle.running.specs.Promises.{is_loop, Begun, Reached, Statement, RecordsRan, StepsRan, OneRan, StatementRan, Inner, closing, closed, chosen};

use model::Settings;
use records::{Record, kinds, record_at};
use stepping::progress::{Halt, Place, run_last_test, run_step};
use stepping::store::Store;
use timing::ticks::kind_ticks;

// A file and the table of its closings, to be run on a rack with its inputs, up to a limit.
#[derive(Clone, Copy)]
pub struct Program<'a> {
    pub file: &'a [u8],
    pub ends: &'a [u16],
    pub rack: &'a Settings,
    pub inputs: &'a [u32],
    pub limit: u32,
}

fn loops(kind: u8) -> bool
    ensures { result ≡ is_loop kind }
{
    (kind == kinds::WHILE) | (kind == kinds::TIMES)
}

impl Program<'_> {
    // The ELSE or END that closes the block after k.
    fn last(&self, k: usize) -> usize
        requires { Inner self.now.file.now k self.now.ends.now }
        ensures { (result ≡ closing self.now.file.now k) × (result < 65536) }
    {
        usize::from(self.ends[k + 1])
    }

    // The record after it.
    fn behind(&self, k: usize) -> usize
        requires { Inner self.now.file.now k self.now.ends.now }
        ensures { result ≡ closed self.now.file.now k }
    {
        self.last(k) + 1
    }

    // Where the side starts that the test of the IF at i chooses.
    fn side(&self, i: usize, holds: bool) -> usize
        requires { Inner self.now.file.now i self.now.ends.now }
        ensures { result ≡ chosen self.now.file.now i holds }
    {
        if holds {
            return i + 1;
        }
        self.behind(i)
    }

    // The WHILE at i, with the record r.
    #[cycle(running_records)]
    fn run_while(&self, i: usize, r: Record, tick: u32, store: &mut Store) -> Result<Place, Halt>
        requires { (Statement self.now.file.now i self.now.ends.now self.now.inputs.now self.now.limit tick)
            × (record_of r ≡ record_at self.now.file.now i) × (kind_at self.now.file.now i ≡ WHILE) }
        ensures { StatementRan self.now.file.now i self.now.rack.now self.now.inputs.now self.now.limit tick store.old store.new result }
    {
        let body = i + 1;
        let to = self.last(i);
        let next = to + 1;
        let mut at = tick;
        for _ in 0..r.count {
            if self.limit <= at {
                return Err(Halt::Cut(at));
            }
            at += 1;
            if !store.test_holds(r) {
                return Ok(Place { tick: at, next });
            }
            at = self.run_records(body, to, at, store)?.tick;
        }
        run_last_test(i, r, next, self.limit, at, store)
    }

    // The TIMES at i, with the record r.
    #[cycle(running_records)]
    fn run_times(&self, i: usize, r: Record, tick: u32, store: &mut Store) -> Result<Place, Halt>
        requires { (Statement self.now.file.now i self.now.ends.now self.now.inputs.now self.now.limit tick)
            × (record_of r ≡ record_at self.now.file.now i) × (kind_at self.now.file.now i ≡ TIMES) }
        ensures { StatementRan self.now.file.now i self.now.rack.now self.now.inputs.now self.now.limit tick store.old store.new result }
    {
        let body = i + 1;
        let to = self.last(i);
        let next = to + 1;
        // No rounds of an empty body are walked.
        if to == body {
            return run_last_test(i, r, next, self.limit, tick, store);
        }
        let mut at = tick;
        for _ in 0..r.count {
            at = self.run_records(body, to, at, store)?.tick;
        }
        run_last_test(i, r, next, self.limit, at, store)
    }

    // The loop at i.
    #[cycle(running_records)]
    fn run_loop(&self, i: usize, tick: u32, store: &mut Store) -> Result<Place, Halt>
        requires { (Statement self.now.file.now i self.now.ends.now self.now.inputs.now self.now.limit tick)
            × (is_loop (kind_at self.now.file.now i) ≡ true) }
        ensures { StatementRan self.now.file.now i self.now.rack.now self.now.inputs.now self.now.limit tick store.old store.new result }
    {
        let r = record_at(self.file, i);
        if r.kind == kinds::WHILE {
            return self.run_while(i, r, tick, store);
        }
        self.run_times(i, r, tick, store)
    }

    // The record r at i, which is of that kind and opens and closes no block.
    fn run_kind(
        &self,
        kind: u8,
        i: usize,
        r: Record,
        tick: u32,
        store: &mut Store,
    ) -> Result<Place, Halt>
        requires { (length self.now.inputs.now ≡ port_count) × (fields_fit (record_of r) ≡ true) × (i < file_records) × (tick ≤ self.now.limit)
            × (r.kind ≡ kind) }
        ensures { Ran self.now.limit (single (step_ticks self.now.rack.now (record_of r)) i (record_effect self.now.inputs.now (record_of r))) (i + 1)
            tick store.old store.new result }
    {
        let lasts = kind_ticks(kind, *self.rack, r);
        run_step(kind, i, r, lasts, self.inputs, self.limit, tick, store)
    }

    // The same with a copy of the code for each of three kinds, so that one jump finds both the ticks and what is done.
    fn run_plain(&self, i: usize, r: Record, tick: u32, store: &mut Store) -> Result<Place, Halt>
        requires { (length self.now.inputs.now ≡ port_count) × (fields_fit (record_of r) ≡ true) × (i < file_records) × (tick ≤ self.now.limit) }
        ensures { Ran self.now.limit (single (step_ticks self.now.rack.now (record_of r)) i (record_effect self.now.inputs.now (record_of r))) (i + 1)
            tick store.old store.new result }
    {
        let kind = r.kind;
        match kind {
            kinds::SET => self.run_kind(kinds::SET, i, r, tick, store),
            kinds::READ => self.run_kind(kinds::READ, i, r, tick, store),
            kinds::WRITE => self.run_kind(kinds::WRITE, i, r, tick, store),
            _ => self.run_kind(kind, i, r, tick, store),
        }
    }

    // The record r at i, which is no loop: an END goes on, an ELSE and an IF are jumps, and any other is a step.
    fn run_one(&self, i: usize, r: Record, tick: u32, store: &mut Store) -> Result<Place, Halt>
        requires { (Reached self.now.file.now i self.now.ends.now self.now.inputs.now self.now.limit tick)
            × (record_of r ≡ record_at self.now.file.now i) × (is_loop r.kind ≡ false) }
        ensures { OneRan self.now.file.now i self.now.ends.now self.now.rack.now self.now.inputs.now self.now.limit tick store.old store.new result }
    {
        if r.kind == kinds::END {
            return Ok(Place { tick, next: i + 1 });
        }
        if r.kind == kinds::ELSE {
            let next = self.behind(i);
            return Ok(Place { tick, next });
        }
        if r.kind == kinds::IF {
            if self.limit <= tick {
                return Err(Halt::Cut(tick));
            }
            let holds = store.test_holds(r);
            let next = self.side(i, holds);
            return Ok(Place {
                tick: tick + 1,
                next,
            });
        }
        self.run_plain(i, r, tick, store)
    }

    // The records from `from` on, up to a loop, or up to `to`.
    fn run_steps(&self, from: usize, to: usize, tick: u32, store: &mut Store) -> Result<Place, Halt>
        requires { Begun self.now.file.now from to self.now.ends.now self.now.inputs.now self.now.limit tick }
        ensures { StepsRan self.now.file.now from to self.now.ends.now self.now.rack.now self.now.inputs.now self.now.limit tick store.old store.new result }
    {
        let mut at = Place { tick, next: from };
        // The index jumps, so a `for` over it is no plainer.
        while at.next < to {
            let r = record_at(self.file, at.next);
            if loops(r.kind) {
                return Ok(at);
            }
            at = self.run_one(at.next, r, at.tick, store)?;
        }
        Ok(at)
    }

    // The records from `from` on, up to `to`: the end of the file, or the END of the loop around them.
    #[cycle(running_records)]
    pub fn run_records(
        &self,
        from: usize,
        to: usize,
        tick: u32,
        store: &mut Store,
    ) -> Result<Place, Halt>
        requires { Begun self.now.file.now from to self.now.ends.now self.now.inputs.now self.now.limit tick }
        ensures { RecordsRan self.now.file.now from to self.now.rack.now self.now.inputs.now self.now.limit tick store.old store.new result }
    {
        let mut at = Place { tick, next: from };
        // The index jumps, so a `for` over it is no plainer.
        while at.next < to {
            at = self.run_steps(at.next, to, at.tick, store)?;
            if to <= at.next {
                return Ok(at);
            }
            at = self.run_loop(at.next, at.tick, store)?;
        }
        Ok(at)
    }
}

// The first pass: where laying a block ends, how many records it takes, and the tick where the sides of each IF meet. It is given up once
// the tick is above the period.
ghost use Rattle.std.specs.Prelude.{◌≡◌, ◌+◌, ◌≤◌, ◌<◌, true, ◌||◌, eqb};
ghost use Rattle.model.specs.declared.Form.TheVariants.{Equalised};
ghost use Rattle.model.specs.Records.{kind_at, record_at, IF, TIMES};
ghost use Rattle.placing.specs.States.{Layable};
ghost use Rattle.reading.specs.Ranges.{SoundFile};
ghost use Rattle.records.specs.Records.{record_of};
ghost use Rattle.layout.specs.Measured.{met_at, Meeting, Meets, Entered, Statement};
ghost use Rattle.layout.specs.Meetings.{Noting};
ghost use Rattle.layout.specs.Clocked.{InTime, StepStarts, StepEnds, BlockClocked, StatementClocked, FileClocked};

use crate::lent::{Clock, MEETINGS, Source};
use crate::skips::{idle_rounds, measure_idle};
use model::Settings;
use placing::clock::{State, counted};
use reading::blocks::closes;
use records::skips::skip_records;
use records::{Record, kind_at, kinds, record_at};
use timing::ticks::step_ticks;

// The state after a part of the file, the index of the record after it, and the next place of the table of meetings. Writing answers
// it; measuring answers the index, and leaves the state and the place on the clock.
#[derive(Clone, Copy)]
pub struct Passage {
    pub state: State,
    pub next: usize,
    pub ifs: usize,
}

// The clock of the later side, after the records that are counted up to there.
fn met(late: State, count: usize) -> State
    requires { count ≤ 5463 }
    ensures { result ≡ met_at late count }
{
    late.back(0, counted(count, 2 + skip_records(u64::from(late.wait))))
}

// Where the sides of an IF meet that end at these states, the second counted after the first: the earlier is filled up to the later.
fn meet(rack: &Settings, one: State, two: State) -> State
    requires { Meeting rack.now one two }
    ensures { Meets rack.now one two result }
{
    if one.tick < two.tick {
        return met(
            two,
            one.back(one.wait, two.records).fill_count(rack, two.tick),
        );
    }
    met(one, two.fill_count(rack, one.tick))
}

// The tick where the sides of an IF meet, noted at its place, if the table has that.
fn note(meets: &mut [u32; MEETINGS], k: usize, tick: u32)
    ensures { Noting k tick meets.old meets.new }
{
    if k < MEETINGS {
        meets[k] = tick;
    }
}

// Whether a record of that kind opens a block of an equalised file.
fn nests(kind: u8) -> bool
    ensures { result ≡ (eqb kind IF || eqb kind TIMES) }
{
    (kind == kinds::IF) | (kind == kinds::TIMES)
}

// The state, unless its tick is above the period.
fn in_time(period: u32, s: State) -> Option<State>
    ensures { InTime period s result }
{
    if period < s.tick {
        return None;
    }
    Some(s)
}

// A step, or a SKIP, with the record r.
fn measure_step(rack: &Settings, r: Record, from: State) -> State
    requires { StepStarts rack.now (record_of r) from }
    ensures { StepEnds rack.now (record_of r) from result }
{
    if r.kind == kinds::SKIP {
        return from.filled(rack, r.count);
    }
    from.stepped(rack, step_ticks(*rack, r))
}

impl<'a> Source<'a> {
    // The side of an IF at i: an empty one is not walked.
    #[cycle(measuring)]
    fn measure_side(
        &self,
        i: usize,
        clock: &mut Clock,
        meets: &mut [u32; MEETINGS],
    ) -> Option<usize>
        requires { (Entered self.now.file.now i self.now.to self.now.rack clock.old.state) × (i < self.now.to) }
        ensures { BlockClocked self.now.file.now i self.now.to self.now.rack clock.old clock.new meets.old meets.new result }
    {
        if closes(kind_at(self.file, i)) {
            return Some(i);
        }
        self.measure_block(i, clock, meets)
    }

    // The IF at i. Its second side starts at the tick of its first, and its records are counted after those.
    #[cycle(measuring)]
    fn measure_branch(
        &self,
        i: usize,
        clock: &mut Clock,
        meets: &mut [u32; MEETINGS],
    ) -> Option<usize>
        requires { (Statement self.now.file.now i self.now.to self.now.rack clock.old.state) × (kind_at self.now.file.now i ≡ IF) }
        ensures { StatementClocked self.now.file.now i self.now.to self.now.rack clock.old clock.new meets.old meets.new result }
    {
        let test = in_time(self.rack.period, clock.state.stepped(&self.rack, 1))?;
        let k = clock.take_place();
        clock.state = test;
        let mid = self.measure_side(i + 1, clock, meets)?;
        let one = clock.state;
        clock.state = test.back(0, one.records);
        let end = self.measure_side(mid + 1, clock, meets)?;
        let state = meet(&self.rack, one, clock.state);
        clock.state = state;
        note(meets, k, state.tick);
        Some(end + 1)
    }

    // The loop at i, with that count.
    #[cycle(measuring)]
    fn measure_rounds(
        &self,
        i: usize,
        count: u32,
        clock: &mut Clock,
        meets: &mut [u32; MEETINGS],
    ) -> Option<usize>
        requires { (Statement self.now.file.now i self.now.to self.now.rack clock.old.state) × (kind_at self.now.file.now i ≡ TIMES)
            × (count ≡ (record_at self.now.file.now i).count) }
        ensures { StatementClocked self.now.file.now i self.now.to self.now.rack clock.old clock.new meets.old meets.new result }
    {
        let mut next = i + 1;
        for _round in 0..count {
            next = self.measure_block(i + 1, clock, meets)?;
        }
        clock.state = in_time(self.rack.period, clock.state.stepped(&self.rack, 1))?;
        Some(next + 1)
    }

    // The IF or the loop at i.
    #[cycle(measuring)]
    fn measure_inner(
        &self,
        i: usize,
        clock: &mut Clock,
        meets: &mut [u32; MEETINGS],
    ) -> Option<usize>
        requires { (Statement self.now.file.now i self.now.to self.now.rack clock.old.state)
            × ((eqb (kind_at self.now.file.now i) IF || eqb (kind_at self.now.file.now i) TIMES) ≡ true) }
        ensures { StatementClocked self.now.file.now i self.now.to self.now.rack clock.old clock.new meets.old meets.new result }
    {
        let r = record_at(self.file, i);
        if r.kind == kinds::IF {
            return self.measure_branch(i, clock, meets);
        }
        let Some(idle) = idle_rounds(self.file, i + 1, self.to, r.count, self.rack.period) else {
            return self.measure_rounds(i, r.count, clock, meets);
        };
        clock.state = in_time(
            self.rack.period,
            measure_idle(&self.rack, clock.state, idle.ticks),
        )?;
        Some(idle.next + 1)
    }

    // The block at i, up to the record that closes it.
    #[cycle(measuring)]
    fn measure_block(
        &self,
        i: usize,
        clock: &mut Clock,
        meets: &mut [u32; MEETINGS],
    ) -> Option<usize>
        requires { Entered self.now.file.now i self.now.to self.now.rack clock.old.state }
        ensures { BlockClocked self.now.file.now i self.now.to self.now.rack clock.old clock.new meets.old meets.new result }
    {
        // Not kept on the clock: there each step would write it to memory and read it again.
        let mut state = clock.state;
        let mut next = i;
        // The index goes past whole blocks, so a `for` over it is no plainer.
        while next < self.to {
            let r = record_at(self.file, next);
            if closes(r.kind) {
                clock.state = state;
                return Some(next);
            }
            if nests(r.kind) {
                clock.state = state;
                next = self.measure_inner(next, clock, meets)?;
                state = clock.state;
                continue;
            }
            state = in_time(self.rack.period, measure_step(&self.rack, r, state))?;
            next += 1;
        }
        clock.state = state;
        Some(next)
    }
}

// The whole file, from tick 0 up to its last step.
pub fn measure_file(file: &[u8], rack: &Settings, meets: &mut [u32; MEETINGS]) -> Option<State>
    requires { (SoundFile Equalised file.now) × (Layable rack.now) }
    ensures { FileClocked file.now rack.now meets.old meets.new result }
{
    let state = in_time(rack.period, State::START.commanded(rack))?;
    let source = Source {
        file,
        to: file.len() / 12,
        rack: *rack,
    };
    let mut clock = Clock { state, place: 0 };
    source.measure_block(0, &mut clock, meets)?;
    Some(clock.state)
}

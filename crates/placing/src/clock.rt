// Where laying out stands, and what each piece makes of it. Nothing here divides: the ticks and windows left are counted down.
ghost use Rattle.std.specs.Prelude.{◌≡◌, ◌+◌, ◌^◌, ◌≤◌};
ghost use Rattle.model.specs.Trees.{skip};
ghost use Rattle.model.specs.Layout.{commands};
ghost use Rattle.model.specs.Times.{longest};
ghost use Rattle.placing.specs.States.{cap, Laying, After, Readied, Stepped, Idled, Skipped, Fillable, FillCounted, back_to};

use model::Settings;
use model::limits::FILE_RECORDS;
use records::skips::skip_records;

// One record more than a file can have: where counting stops.
pub const TOO_MANY: usize = FILE_RECORDS + 1;

#[derive(Clone, Copy)]
pub struct State {
    pub tick: u32,
    // The ticks left to the next multiple of the window; 0 at one, before its commands.
    pub ticks_left: u32,
    // The windows left from there to the next one with a SAVE.
    pub windows_left: u32,
    // The ticks of SKIP that wait for the next record.
    pub wait: u32,
    // The records laid, or one more than a file can have.
    pub records: usize,
}

// A count of records and more, which stops one past the longest file.
pub fn counted(records: usize, more: usize) -> usize
    requires { (records ≤ 2 ^ 20) × (more ≤ 2 ^ 20) }
    ensures { result ≡ cap (records + more) }
{
    let n = records + more;
    if FILE_RECORDS < n {
        return TOO_MANY;
    }
    n
}

// That laying out may go on from a state stands in each contract, and in no type with the settings in it: each answer would then have to say
// that they are the same ones, and a step may end above the period, where it may not go on.
impl State {
    // Tick 0, before its commands.
    pub const START: State = State {
        tick: 0,
        ticks_left: 0,
        windows_left: 0,
        wait: 0,
        records: 0,
    };

    // SKIPs up to the next multiple of the window, and its commands.
    pub fn commanded(self, rack: &Settings) -> State
        requires { Laying rack.now self }
        ensures { (After rack.now (skip self.ticks_left (commands rack.now (self.tick + self.ticks_left))) self result) × (longest rack.now ≤ result.ticks_left) }
    {
        let bound = self.tick + self.ticks_left;
        let skips = skip_records(u64::from(self.wait + self.ticks_left));
        if self.windows_left == 0 {
            return State {
                tick: bound + rack.beat + rack.save,
                ticks_left: rack.window - rack.beat - rack.save,
                windows_left: rack.spacing - 1,
                wait: 0,
                records: counted(self.records, skips + 2),
            };
        }
        State {
            tick: bound + rack.beat,
            ticks_left: rack.window - rack.beat,
            windows_left: self.windows_left - 1,
            wait: 0,
            records: counted(self.records, skips + 1),
        }
    }

    // What stands before a step of d ticks: it waits for the next multiple of the window where fewer are left.
    pub fn readied(self, rack: &Settings, d: u32) -> State
        requires { (Laying rack.now self) × (1 ≤ d) × (d ≤ longest rack.now) }
        ensures { Readied rack.now self d result }
    {
        if self.ticks_left < d {
            return self.commanded(rack);
        }
        self
    }

    // A step of d ticks, and what stands before it.
    pub fn stepped(self, rack: &Settings, d: u32) -> State
        requires { (Laying rack.now self) × (1 ≤ d) × (d ≤ longest rack.now) }
        ensures { Stepped rack.now self d result }
    {
        let s = self.readied(rack, d);
        State {
            tick: s.tick + d,
            ticks_left: s.ticks_left - d,
            wait: 0,
            records: counted(s.records, skip_records(u64::from(s.wait)) + 1),
            ..s
        }
    }

    // k single ticks of SKIP, no more than are left.
    pub fn idled(self, k: u32) -> State
        requires { (k ≤ self.ticks_left) × (self.tick ≤ 2 ^ 30) × (self.wait ≤ 2 ^ 30) × (k ≤ 2 ^ 30) }
        ensures { Idled self k result }
    {
        State {
            tick: self.tick + k,
            ticks_left: self.ticks_left - k,
            wait: self.wait + k,
            ..self
        }
    }

    // So many single ticks of SKIP, window by window; given up once the tick is above the period.
    pub fn filled(self, rack: &Settings, count: u32) -> State
        requires { Laying rack.now self }
        ensures { Skipped rack.now count self result }
    {
        let mut s = self;
        let mut k = count;
        // A turn takes a window, whatever is left of it, so there is no count to go by.
        while (s.ticks_left < k) & (s.tick <= rack.period) {
            k -= s.ticks_left;
            s = s.commanded(rack);
        }
        if rack.period < s.tick {
            return s;
        }
        s.idled(k)
    }

    // The records once single ticks of SKIP fill up to the tick `end`, with the SKIP that waits there; counted only while a file can have as many.
    pub fn fill_count(self, rack: &Settings, end: u32) -> usize
        requires { Fillable rack.now self end }
        ensures { FillCounted rack.now self end result }
    {
        let mut s = self;
        // A window at a turn, as above.
        while (s.ticks_left < end - s.tick) & (s.records < TOO_MANY) {
            s = s.commanded(rack);
        }
        s.records + skip_records(u64::from(s.wait + (end - s.tick)))
    }

    // The same clock, while so many ticks of SKIP wait, after so many records.
    pub fn back(self, wait: u32, records: usize) -> State
        ensures { result ≡ back_to self wait records }
    {
        State {
            wait,
            records,
            ..self
        }
    }
}

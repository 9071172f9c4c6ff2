// The types that the definitions of specs/ and the public calls share.
#![tactic(auto)]

pub mod limits;
pub mod refusals;

// The forms that a file of records can have.
#[derive(Clone, Copy)]
pub enum Form {
    Task,
    Equalised,
    Laid,
}

// The settings: the ticks of SET, READ, WRITE, BEAT, SAVE and of a SET that multiplies,
// the checkpoint spacing K in windows, the window H and the period P in ticks.
#[derive(Clone, Copy)]
pub struct Settings {
    pub set: u32,
    pub read: u32,
    pub write: u32,
    pub beat: u32,
    pub save: u32,
    pub multiply: u32,
    pub spacing: u32,
    pub window: u32,
    pub period: u32,
}

// Why a call is turned down: document 01's numbers 1 to 12 and those that document 02 adds, and the value returned with 1 to 5.
#[derive(Clone, Copy)]
pub enum Refusal {
    // 1: the length in bytes.
    BadLength(usize),
    // 2 to 5: the index of the record, or the record count where a block is left open.
    BadKind(usize),
    BadField(usize),
    BadStructure(usize),
    TooDeep(usize),
    // 6 to 13: the number alone.
    BadSettings,
    ShortWindow,
    OverPeriod,
    NoRoom,
    BadBuffers,
    BadImage,
    LateStop,
    BadEntry,
}

// A refusal's number, and the value returned with it; 0 where the number is returned alone.
#[derive(Clone, Copy)]
pub struct Row {
    pub number: u64,
    pub value: usize,
}

// equalise
#[derive(Clone, Copy)]
pub struct Equalised {
    pub bytes: usize,
    pub time: u32,
}

// lay_out and prepare
#[derive(Clone, Copy)]
pub struct LaidOut {
    pub bytes: usize,
    pub total: u32,
}

// run, resume and restart
#[derive(Clone, Copy)]
pub struct Ran {
    pub tick: u32,
    pub overran: bool,
}

// run_until: the stop tick, and whether an image was written
#[derive(Clone, Copy)]
pub struct Stopped {
    pub tick: u32,
    pub saved: bool,
}

// An entry of the watcher's table: the count and 2 more, the window, and whether it waits for its next beat. The count is told of an entry
// that waits too (`told` of specs/Watching.antt), so the flag is no Option.
#[derive(Clone, Copy)]
pub struct Entry {
    pub left: u32,
    pub window: u32,
    pub waiting: bool,
}

// What happens to an entry: a beat of a value, a look, and a reset with a window.
#[derive(Clone, Copy)]
pub enum Event {
    Beat(u32),
    Look,
    Reset(u32),
}

// How an entry is.
#[derive(Clone, Copy)]
pub enum Health {
    Waiting,
    Well,
    Suspect,
    Failed,
}

// beat, look, reset and status: how the entry is afterwards, and its count and 2 more
#[derive(Clone, Copy)]
pub struct Watched {
    pub health: Health,
    pub left: u32,
}

// The numbers that a line of a listing has after a record's name.
// No record has three; a line may, since what puts a line takes any count up to four.
#[derive(Clone, Copy)]
pub enum Numbers {
    None,
    One(u32),
    Two(u32, u32),
    Three(u32, u32, u32),
    Four(u32, u32, u32, u32),
}

// A line of a listing: the start tick and the kind of a record, and its numbers.
#[derive(Clone, Copy)]
pub struct Line {
    pub tick: u32,
    pub kind: u8,
    pub numbers: Numbers,
}

// rehearse: whether the ends are alike, the laid file's bytes and total, the end tick, and, of a run that was stopped, how it was taken up.
#[derive(Clone, Copy)]
pub struct Rehearsed {
    pub alike: bool,
    pub bytes: usize,
    pub total: u32,
    pub end: u32,
    pub taken_up: Option<TakenUp>,
}

// The stop tick, the tick of the image, if there was one, and the ticks run twice.
#[derive(Clone, Copy)]
pub struct TakenUp {
    pub stop: u32,
    pub image: Option<u32>,
    pub twice: u32,
}

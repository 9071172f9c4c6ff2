// The limits and lengths of documents 01 and 02, as specs/Limits.antt has them.
// A task's records, and the records and bytes of the longest file.
pub const TASK_RECORDS: usize = 256;

pub const FILE_RECORDS: usize = 5461;

pub const FILE_LENGTH: usize = 65532;
// How deep a task and any other file nests.
pub const TASK_DEPTH: usize = 8;

pub const FILE_DEPTH: usize = 16;
// Variables and ports.
pub const VARIABLES: usize = 16;

pub const PORTS: usize = 8;
// Added to an operation or a relation whose right value numbers a variable.
pub const BY_VARIABLE: u8 = 16;
// The longest period and window, count of a SKIP and value of a BEAT, and the most rounds of a loop.
pub const MOST_TICKS: u32 = 1000000;

pub const MOST_ROUNDS: u32 = 65535;
// The longest multiply.
pub const MOST_MULTIPLY: u32 = 65535;
// The bytes of narrow and of wide settings, and of an image.
pub const NARROW_LENGTH: usize = 12;

pub const WIDE_LENGTH: usize = 24;

pub const IMAGE_LENGTH: usize = 72;
// The entries of the watcher's table.
pub const TABLE_ENTRIES: usize = 32;

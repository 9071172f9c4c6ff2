// The kinds of records, byte 0 of each. Numbers, since any byte may stand there, and `kind_at` of the definitions compares bytes: an enum
// would carry a case for all others through every match behind the scan.
pub const SKIP: u8 = 1;

pub const SET: u8 = 2;

pub const READ: u8 = 3;

pub const WRITE: u8 = 4;

pub const IF: u8 = 5;

pub const ELSE: u8 = 6;

pub const WHILE: u8 = 7;

pub const END: u8 = 8;

pub const TIMES: u8 = 9;

pub const CHECK: u8 = 10;

pub const BEAT: u8 = 11;

pub const SAVE: u8 = 12;

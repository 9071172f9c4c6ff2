// Records of 12 bytes, read from a file and written to the front of a lent buffer.
#![tactic(auto)]

pub mod kinds;
pub mod settings;
pub mod skips;
pub mod words;

ghost use Rattle.std.specs.Prelude.{◌≡◌, ◌+◌, ◌*◌, ◌≤◌, length};
ghost use Rattle.model.specs.Records.{rec, kind_at, record_at, record_bytes, over};
ghost use Rattle.model.specs.Replies.{no_room};
ghost use Rattle.records.specs.Records.{record_of};

use model::limits::FILE_RECORDS;
use words::{put_word, word_at};

// A record's kind, its three other bytes and its two numbers.
#[derive(Clone, Copy)]
pub struct Record {
    pub kind: u8,
    pub op: u8,
    pub target: u8,
    pub left: u8,
    pub value: u32,
    pub count: u32,
}

// The kind of the record with index i.
pub fn kind_at(file: &[u8], i: usize) -> u8
    requires { 12 * i + 12 ≤ length file.now }
    ensures { result ≡ kind_at file.now i }
{
    file[12 * i]
}

// The record with index i.
pub fn record_at(file: &[u8], i: usize) -> Record
    requires { 12 * i + 12 ≤ length file.now }
    ensures { record_of result ≡ record_at file.now i }
{
    let at = 12 * i;
    Record {
        kind: file[at],
        op: file[at + 1],
        target: file[at + 2],
        left: file[at + 3],
        value: word_at(file, at + 4),
        count: word_at(file, at + 8),
    }
}

// A record's bytes, over the first 12 of the buffer.
pub fn put_record(out: &mut [u8], r: Record)
    requires { 12 ≤ length out.old }
    ensures { out.new ≡ over (record_bytes (record_of r)) out.old }
{
    out[0] = r.kind;
    out[1] = r.op;
    out[2] = r.target;
    out[3] = r.left;
    put_word(&mut out[4..], r.value);
    put_word(&mut out[8..], r.count);
}

// A record with no number but a value and a count, over the first 12 bytes of the buffer.
pub fn put_bare(out: &mut [u8], kind: u8, value: u32, count: u32)
    requires { 12 ≤ length out.old }
    ensures { out.new ≡ over (record_bytes (rec kind 0 0 0 value count)) out.old }
{
    let r = Record {
        kind,
        op: 0,
        target: 0,
        left: 0,
        value,
        count,
    };
    put_record(out, r);
}

// Whether a result of n records is longer than a buffer of room bytes, or than a file can be.
pub fn no_room(room: usize, n: usize) -> bool
    ensures { result ≡ no_room room n }
{
    if FILE_RECORDS < n {
        return true;
    }
    room < 12 * n
}

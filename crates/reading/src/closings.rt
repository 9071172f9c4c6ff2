// The table of closings: where the block that stands at each record ends.
ghost use Rattle.std.specs.Prelude.{◌≡◌, ◌+◌, ◌-◌, ◌≤◌};
ghost use Rattle.reading.specs.Closing.{ClosingsFrom, Closings, closing_in};
ghost use Rattle.reading.specs.Ranges.{Fillable};

use crate::blocks::{closes, opens};
use records::{kind_at, kinds};

// The closing at i, with those after it known.
fn closing_of(file: &[u8], i: usize, to: usize, ends: &[u16]) -> u16
    requires { (Fillable file.now to ends.now) × (i ≤ to) × (ClosingsFrom file.now (i + 1) to ends.now) }
    ensures { result ≡ closing_in file.now (to - i) i 0 }
{
    if to <= i {
        return i as u16;
    }
    let kind = kind_at(file, i);
    if closes(kind) {
        return i as u16;
    }
    let first = ends[i + 1];
    if !opens(kind) {
        return first;
    }
    let second = ends[first as usize + 1];
    let is_if = kind == kinds::IF;
    if is_if {
        return ends[second as usize + 1];
    }
    second
}

// For each record, and for the end, the index of the ELSE or END that closes the block that stands there, or the end: from the last
// record to the first.
pub fn fill(file: &[u8], to: usize, ends: &mut [u16])
    requires { Fillable file.now to ends.old }
    ensures { Closings file.now to ends.new }
{
    for i in (0..to + 1).rev() {
        let c = closing_of(file, i, to, ends);
        ends[i] = c;
    }
}

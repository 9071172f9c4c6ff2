// The line of a record: its start tick, its kind and the numbers that are printed after its name.
ghost use Rattle.std.specs.Prelude.{◌≡◌};
ghost use Rattle.model.specs.Listing.{numbers_of, line_at};
ghost use Rattle.records.specs.Records.{record_of};

use model::{Line, Numbers};
use records::{Record, kinds, record_at};

fn numbers_of(r: Record) -> Numbers
    ensures { result ≡ numbers_of (record_of r) }
{
    match r.kind {
        kinds::SKIP => Numbers::One(r.count),
        kinds::BEAT => Numbers::One(r.value),
        kinds::READ | kinds::WRITE => Numbers::Two(u32::from(r.target), u32::from(r.left)),
        kinds::SET | kinds::IF | kinds::CHECK => Numbers::Four(
            u32::from(r.op),
            u32::from(r.target),
            u32::from(r.left),
            r.value,
        ),
        _ => Numbers::None,
    }
}

// The line of the record with index i, which starts at the tick in the table, if the file and the table have one.
pub fn line_at(laid: &[u8], starts: &[u32], i: usize) -> Option<Line>
    ensures { result ≡ line_at laid.now starts.now i }
{
    if i >= laid.len() / 12 {
        return None;
    }
    let tick = *starts.get(i)?;
    let r = record_at(laid, i);
    Some(Line {
        tick,
        kind: r.kind,
        numbers: numbers_of(r),
    })
}

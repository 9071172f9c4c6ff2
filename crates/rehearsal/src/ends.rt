// What a run that ended leaves, compared with another.
ghost use Rattle.std.specs.Prelude.{◌≡◌};
ghost use Rattle.model.specs.Rehearsal.{same_end};
ghost use Rattle.rehearsal.specs.Promises.{end_in};

use model::limits::{PORTS, VARIABLES};

// What a run that ended leaves, and whether it overran.
#[derive(Clone, Copy, PartialEq, Eq)]
pub struct Final {
    pub variables: [u32; VARIABLES],
    pub levels: [u32; PORTS],
    pub marks: [u8; PORTS],
    pub overran: bool,
}

// Whether two ends are alike.
pub fn alike(a: Final, b: Final) -> bool
    ensures { result ≡ same_end (end_in a) (end_in b) }
{
    a == b
}

// Blocks among a file's records: which records open one, and which close one.
ghost use Rattle.std.specs.Prelude.{◌≡◌};
ghost use Rattle.reading.specs.Closing.{opens_block, closes_block};

use records::kinds;

// Whether a record of that kind opens a block.
pub fn opens(kind: u8) -> bool
    ensures { result ≡ opens_block kind }
{
    (kind == kinds::IF) | ((kind == kinds::WHILE) | (kind == kinds::TIMES))
}

// Whether a record of that kind closes one, or its first side.
pub fn closes(kind: u8) -> bool
    ensures { result ≡ closes_block kind }
{
    (kind == kinds::ELSE) | (kind == kinds::END)
}

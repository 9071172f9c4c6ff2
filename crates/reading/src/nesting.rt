// The open blocks of a scan, and what a record makes of them.
ghost use Rattle.std.specs.Prelude.{◌≡◌, List, ◌<◌};
ghost use Rattle.model.specs.Refusals.{Open, after_else, after_end, nest};
ghost use Rattle.reading.specs.Nesting.{blocks, nested};

use records::kinds;

// The open blocks: how many, and a bit for each, the innermost lowest, which is 1 for an IF that still waits for its ELSE.
#[derive(Clone, Copy)]
pub struct Blocks {
    pub depth: usize,
    pub waiting: u32,
}

// The open blocks after an ELSE, unless it stands where none may.
fn after_else(around: Blocks) -> Option<Blocks>
    ensures { (os : List Open) → around ≡ blocks os → result ≡ nested (after_else os) }
{
    if around.waiting % 2 == 0 {
        return None;
    }
    Some(Blocks {
        depth: around.depth,
        waiting: around.waiting - 1,
    })
}

fn after_end(around: Blocks) -> Option<Blocks>
    ensures { (os : List Open) → around ≡ blocks os → result ≡ nested (after_end os) }
{
    if around.depth == 0 {
        return None;
    }
    if around.waiting % 2 == 1 {
        return None;
    }
    Some(Blocks {
        depth: around.depth - 1,
        waiting: around.waiting / 2,
    })
}

// The open blocks after a record of that kind, unless it stands where none may.
pub fn nest(kind: u8, around: Blocks) -> Option<Blocks>
    requires { (around.depth < 17) × (around.waiting < 65536) }
    ensures { (os : List Open) → around ≡ blocks os → result ≡ nested (nest kind os) }
{
    match kind {
        kinds::IF => Some(Blocks {
            depth: around.depth + 1,
            waiting: 2 * around.waiting + 1,
        }),
        kinds::WHILE | kinds::TIMES => Some(Blocks {
            depth: around.depth + 1,
            waiting: 2 * around.waiting,
        }),
        kinds::ELSE => after_else(around),
        kinds::END => after_end(around),
        _ => Some(around),
    }
}

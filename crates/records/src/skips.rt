// The SKIP that waiting ticks become: its bytes, and how many records it is.
ghost use Rattle.std.specs.Prelude.{◌≡◌, ◌≤◌, length};
ghost use Rattle.records.specs.Blocks.{skip_records, skip_bytes, Wrote};

use crate::{kinds, put_bare};

// The SKIP that waiting ticks become, if there are any; the bytes written.
pub fn put_skip(out: &mut [u8], wait: u32) -> usize
    requires { length (skip_bytes wait) ≤ length out.old }
    ensures { Wrote (skip_bytes wait) out.old out.new result }
{
    if wait == 0 {
        return 0;
    }
    put_bare(out, kinds::SKIP, 0, wait);
    12
}

// The records that waiting ticks of SKIP become.
pub fn skip_records(ticks: u64) -> usize
    ensures { result ≡ skip_records ticks }
{
    if ticks == 0 {
        return 0;
    }
    1
}

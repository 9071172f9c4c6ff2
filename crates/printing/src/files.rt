// Reading a file to its end, or until the buffer is full.
ghost use Rattle.std.specs.Prelude.{◌≡◌, ◌<◌, length, take, IfOk, IfSome};
ghost use Rattle.std.specs.Io.KnownBytes.{Consumes, IsAtEnd};
ghost use Rattle.printing.specs.Inputs.{Within};

use std::io;
use std::io::Read;

// One read, which gets no bytes at the end.
fn read_once<R: Read>(reader: &mut R, buf: &mut [u8]) -> io::Result<usize>
    ensures within { Within result (length buf.old) }
    ensures bytes { IfOk result (λ n. Consumes (R.remaining reader.old) (R.remaining reader.new) (take n buf.new)) }
    ensures end { IfOk result (λ n. n ≡ 0 → 0 < length buf.old → IsAtEnd (R.remaining reader.new)) }
{
    reader.read(buf)
}

// Puts what the reader has left at the start of the buffer, as far as it has room, and says how many bytes that is. A read that fails is no end.
pub fn read_all<R: Read>(reader: &mut R, buf: &mut [u8]) -> io::Result<usize>
    ensures within { Within result (length buf.old) }
    ensures bytes { IfOk result (λ n. IfSome (R.remaining reader.old) (λ bytes. take n buf.new ≡ take (length buf.old) bytes)) }
{
    let mut done: usize = 0;
    // `read_to_end` would need the heap.
    while done < buf.len() {
        let n = read_once(reader, &mut buf[done..])?;
        if n == 0 {
            return Ok(done);
        }
        done += n;
    }
    Ok(done)
}

// The input: a buffer filled from it, and what is left of it.
ghost use Rattle.std.specs.Prelude.{◌≡◌, ℕ, ◌%◌, ◌<◌, List, length, take, IfOk};
ghost use Rattle.std.specs.Io.{ReadsAtMost};
ghost use Rattle.std.specs.Io.KnownBytes.{Consumes, IsAtEnd, ReadConsumes};

use std::io;
use std::io::{ErrorKind, Read};

// One read, again where a signal interrupted it.
fn read_again<R: Read>(reader: &mut R, buffer: &mut [u8]) -> io::Result<usize>
    ensures bound { ReadsAtMost result buffer.new }
    ensures bytes { ReadConsumes (R.remaining reader.old) (R.remaining reader.new) result buffer.new }
{
    // Counted and not `loop`: nothing but the reader says that it is not interrupted for ever.
    for _ in 0..u64::MAX {
        match reader.read(buffer) {
            Err(error) if error.kind() == ErrorKind::Interrupted => {}
            other => return other,
        }
    }
    reader.read(buffer)
}

// Reads until the buffer is full or the input ends, and answers how many bytes were read, which stand at the front of the buffer. How many
// bytes were read before a read that fails is not said.
pub fn fill<R: Read>(reader: &mut R, buffer: &mut [u8]) -> io::Result<usize>
    ensures bound { ReadsAtMost result buffer.new }
    ensures bytes { IfOk result (λ n. Consumes (R.remaining reader.old) (R.remaining reader.new) (take n buffer.new)) }
    ensures end { IfOk result (λ n. n < length buffer.new → IsAtEnd (R.remaining reader.new)) }
{
    let mut done = 0;
    // By a count and not a slice that loses its front: how many bytes were read is the answer.
    while done < buffer.len() {
        let n = read_again(reader, &mut buffer[done..])?;
        if n == 0 {
            break;
        }
        done += n;
    }
    Ok(done)
}

// How many bytes the rest of the input has beyond whole words.
pub fn rest<R: Read>(reader: &mut R) -> io::Result<usize>
    ensures { IfOk result (λ odd. (bytes : List ℕ)
        × Consumes (R.remaining reader.old) (R.remaining reader.new) bytes
        × (odd ≡ length bytes % 4)) }
{
    let mut odd = 0;
    // Counted and not `loop`: nothing but the reader says that its input ends.
    for _ in 0..u64::MAX {
        let mut buffer = [0u8; 4096];
        let n = fill(reader, &mut buffer)?;
        if n == 0 {
            break;
        }
        odd = (odd + n) % 4;
    }
    Ok(odd)
}

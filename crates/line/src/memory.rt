// Lent memory: copies into it, searches in it, and whether two parts hold the same.
ghost use Rattle.std.specs.Prelude.{◌≡◌, ◌+◌, ◌≤◌, drop, length};
ghost use Rattle.line.specs.Answer.{Wrote, copied, overlay};
ghost use Rattle.line.specs.Test.{before, same};

use crate::answer::Refusal;
use crate::test::{Is, seek};

// All of the bytes, at the start of the output.
pub fn copy(bytes: &[u8], out: &mut [u8]) -> Result<usize, Refusal>
    ensures { Wrote
        (copied bytes.now (length out.old))
        result out.old out.new }
{
    if out.len() < bytes.len() {
        return Err(Refusal::Size);
    }
    put(bytes, out);
    Ok(bytes.len())
}

// A loop: where `copy_from_slice` may not see that the two lie apart it becomes a call of `memmove`, which the archive for C would ask
// of those who link it.
fn put(bytes: &[u8], out: &mut [u8])
    requires { length bytes.now ≤ length out.old }
    ensures { out.new ≡ overlay bytes.now out.old }
{
    for (i, &byte) in bytes.iter().enumerate() {
        out[i] = byte;
    }
}

// The place of the first such byte, from a place on. Where there is none it is the end, or that place itself if it lies further on, so
// that a part up to it can be taken without asking: no Option.
pub fn find(bytes: &[u8], from: usize, byte: u8) -> usize
    ensures { result ≡ from + before byte (drop from bytes.now) }
{
    seek(bytes, from, Is { byte })
}

// The two hold the same bytes: `==`, under the name that README and contracts have.
pub fn is_same(bytes: &[u8], other: &[u8]) -> bool
    ensures { result ≡ same bytes.now other.now }
{
    bytes == other
}

//! Bytes that are appended to a buffer within its capacity.
ghost use Rattle.std.specs.Prelude.{◌+◌, ◌≤◌, length, vec_len, vec_capacity};
ghost use Rattle.vocabulary.specs.Buffer.{Appends};

/// Appends bytes for which the buffer has the capacity, so that it takes no memory.
#[inline]
pub fn append(bytes: &[u8], to: &mut Vec<u8>)
    requires { vec_len to.old + length bytes.now ≤ vec_capacity to.old }
    ensures { Appends to.old to.new bytes.now }
{
    for byte in bytes {
        to.push_reserved(*byte);
    }
}

ghost use Rattle.std.specs.Prelude.{◌≡◌, ◌⊎◌, ◌+◌, ◌*◌, ◌<◌, ◌≤◌, ◌^◌, max, min, length, take, vec_len, vec_capacity, IfOk, OnOk, OnErr, IsErrOf, IsOkUnless};
ghost use Rattle.std.specs.Io.KnownBytes.{Consumes, IsAtEnd};
ghost use Rattle.simit_io.specs.Inputs.{Rose, IsMissing, Reads, IsLonger, IsLeftAfter};

use crate::{Failed, Inputs};
use std::alloc::Global;
use thiserror::Error;
use vocabulary::append;

/// Why the whole of a file isn't read.
#[derive(Clone, Copy, Debug, PartialEq, Eq, Error)]
pub enum ReadAll {
    /// The file is missing, or the inputs counted a fault.
    #[error("read failed")]
    Failed,
    /// The file has more bytes than the limit.
    #[error("file too long")]
    TooLong,
    /// Out of memory.
    #[error("out of memory")]
    Memory,
}

/// All bytes of the file of this name, which are at most `limit`. Their vector reserves at most twice
/// what it holds. After a refusal the inputs stand as the calls of `open` and `take` left them.
pub fn read_all<I: Inputs>(
    alloc: Global,
    inputs: &mut I,
    name: &str,
    limit: u32,
) -> Result<Vec<u8>, ReadAll>
    ensures whole { IfOk result (λ bytes. Reads (I.holds inputs.old) name.now bytes.items) }
    ensures to_the_end { OnOk result (IsAtEnd (I.left inputs.new)) }
    ensures within { IfOk result (λ bytes. vec_len bytes ≤ limit) }
    ensures capacity { IfOk result (λ bytes. vec_capacity bytes ≤ min limit (2 * vec_len bytes)) }

    // Of a file that is too long, one byte past the limit is read.
    ensures too_long { IsErrOf result ReadAll.TooLong → IsLonger (I.holds inputs.old) name.now limit }
    ensures one_past { IsErrOf result ReadAll.TooLong
        → IsLeftAfter (I.holds inputs.old) name.now (limit + 1) (I.left inputs.new) }

    // Where the file is missing no other answer comes, not even out of memory.
    ensures missing { IsMissing (I.holds inputs.old) name.now → IsErrOf result ReadAll.Failed }
    ensures failed { IsErrOf result ReadAll.Failed
        → Rose (I.faults inputs.old) (I.faults inputs.new) ⊎ IsMissing (I.holds inputs.old) name.now }

    ensures same_files { I.holds inputs.new ≡ I.holds inputs.old }
    ensures counted { I.faults inputs.old ≤ I.faults inputs.new }
{
    inputs.open(name).map_err(|_| ReadAll::Failed)?;
    let most = limit as usize;
    let mut bytes = Vec::new(alloc);
    let mut chunk = [0; CHUNK];
    'chunks: loop {
        // One byte past the limit shows that the file is too long.
        let wanted = (most + 1 - bytes.len()).min(CHUNK);
        match take_up_to(inputs, &mut chunk, wanted) {
            Ok(0) => return Ok(bytes),
            Ok(size) if size > most - bytes.len() => return Err(ReadAll::TooLong),
            Ok(size) => {
                reserve(&mut bytes, size, most)?;
                append(&chunk[..size], &mut bytes);
            }
            Err(Failed) => return Err(ReadAll::Failed),
        }
    }
}

/// The most bytes that one call takes.
const CHUNK: usize = 65536;

/// Takes at most so many bytes, to the start of the buffer.
fn take_up_to<I: Inputs>(inputs: &mut I, buf: &mut [u8], most: usize) -> Result<usize, Failed>
    requires some { 0 < most }
    requires in_buffer { most ≤ length buf.old }
    ensures same_files { I.holds inputs.new ≡ I.holds inputs.old }
    ensures bound { IfOk result (λ size. size ≤ most) }
    ensures taken { IfOk result (λ size.
        Consumes (I.left inputs.old) (I.left inputs.new) (take size buf.new)) }
    ensures ended { IfOk result (λ size. size ≡ 0 → IsAtEnd (I.left inputs.new)) }
    ensures failed { OnErr result (Rose (I.faults inputs.old) (I.faults inputs.new)) }
    ensures counted { I.faults inputs.old ≤ I.faults inputs.new }
{
    inputs.take(&mut buf[..most])
}

/// Gives the buffer the capacity for so many more bytes. Where it has to grow, it grows to twice what
/// it then holds, but not past `most`, so that all growth together takes linear time.
fn reserve(bytes: &mut Vec<u8>, additional: usize, most: usize) -> Result<(), ReadAll>
    requires in_limit { vec_len bytes.old + additional ≤ most }
    requires small { most < 2 ^ 32 }
    ensures memory { IsOkUnless result ReadAll.Memory }
    ensures items { bytes.new.items ≡ bytes.old.items }
    ensures len { vec_len bytes.new ≡ vec_len bytes.old }
    ensures capacity { OnOk result (vec_len bytes.old + additional ≤ vec_capacity bytes.new) }
    ensures bound { OnOk result (vec_capacity bytes.new
        ≤ max (vec_capacity bytes.old) (min most (2 * (vec_len bytes.old + additional)))) }
{
    let len = bytes.len();
    let needed = len + additional;
    if needed <= bytes.capacity() {
        return Ok(());
    }
    bytes
        .reserve_exact(most.min(2 * needed) - len)
        .map_err(|_| ReadAll::Memory)
}

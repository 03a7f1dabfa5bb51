ghost use Rattle.std.specs.Prelude.{◌≡◌, ◌<◌, ◌≤◌, ℕ, All, length, Err, IfOk, IfSome, OnOk};
ghost use Rattle.std.specs.Io.KnownBytes.{Consumes, IsAtEnd};

use crate::octets::octets;
use crate::reason::Reason;
use crate::shelf::ShelfFault;
use guest_words::Bytes;
use std::alloc::Global;
use std::io::Read;

/// How many bytes are read at a time.
const CHUNK: usize = 16_384;

/// Reads all that the reader has left, at most `limit` bytes. It is likely to have so many, for
/// which room is made at once. An error of the reader is `Failed` with
/// its reason; the length of `TooLong` is that
/// of what was read.
pub(crate) fn read_up_to<I: Read>(
    alloc: Global,
    reader: &mut I,
    limit: u64,
    likely: u64,
) -> Result<Bytes, ShelfFault>
    ensures all { IfOk result (Consumes (I.remaining reader.old) (I.remaining reader.new)) }
    ensures end { OnOk result (IsAtEnd (I.remaining reader.new)) }
    ensures within { IfOk result (λ bytes. length bytes ≤ limit) }
    ensures below { IfOk result (λ bytes. All (λ b. b < 256) bytes) }
    ensures over { (size : ℕ) → result ≡ Err (ShelfFault.TooLong size) → limit < size }
    ensures long { (size : ℕ) → result ≡ Err (ShelfFault.TooLong size)
        → IfSome (I.remaining reader.old) (λ left. size ≤ length left) }
{
    let Ok(mut bytes) = Vec::with_capacity(alloc, likely.min(limit) as usize) else {
        return Err(ShelfFault::Memory);
    };
    let mut chunk = [0u8; CHUNK];
    for _ in 0..u64::MAX {
        let count = match reader.read(&mut chunk) {
            Ok(count) => count,
            Err(error) => return Err(ShelfFault::Failed(Reason::of(&error))),
        };
        if count == 0 {
            return Ok(octets(bytes));
        }
        let length = bytes.len() as u64 + count as u64;
        if length > limit {
            return Err(ShelfFault::TooLong { length });
        }
        if bytes.extend_from_slice(&chunk[..count]).is_err() {
            return Err(ShelfFault::Memory);
        }
    }
    Err(ShelfFault::Failed(Reason::Other))
}

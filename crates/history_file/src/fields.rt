ghost use Rattle.history_file.specs.Reading.{Gives, byte_at, word_at, double_at, text_at};

use crate::file_fault::FileKind;
use crate::refused::Refused;
use guest_words::Bytes;
use std::alloc::Global;

/// The byte at the front, and what follows it.
#[tactic(auto, unfolding(crate::specs::Reading::byte_at))]
pub(crate) fn byte_at(bytes: &[u8]) -> Result<(u8, &[u8]), Refused>
    ensures { Gives (λ x. (x.0, x.1.now)) result (byte_at bytes.now) }
{
    match bytes {
        [] => Err(Refused::At {
            fault: FileKind::Short,
            left: 0,
        }),
        [byte, rest @ ..] => Ok((*byte, rest)),
    }
}

/// The number in 4 bytes at the front, and what follows it.
#[tactic(auto, unfolding(crate::specs::Reading::word_at))]
pub(crate) fn word_at(bytes: &[u8]) -> Result<(u32, &[u8]), Refused>
    ensures { Gives (λ x. (x.0, x.1.now)) result (word_at bytes.now) }
{
    match bytes.split_first_chunk::<4>() {
        Some((front, rest)) => Ok((u32::from_le_bytes(*front), rest)),
        None => Err(Refused::At {
            fault: FileKind::Short,
            left: bytes.len(),
        }),
    }
}

/// The number in 8 bytes at the front, and what follows it.
#[tactic(auto, unfolding(crate::specs::Reading::double_at))]
pub(crate) fn double_at(bytes: &[u8]) -> Result<(u64, &[u8]), Refused>
    ensures { Gives (λ x. (x.0, x.1.now)) result (double_at bytes.now) }
{
    match bytes.split_first_chunk::<8>() {
        Some((front, rest)) => Ok((u64::from_le_bytes(*front), rest)),
        None => Err(Refused::At {
            fault: FileKind::Short,
            left: bytes.len(),
        }),
    }
}

/// The text at the front, behind its length, and what follows it.
#[tactic(auto, unfolding(crate::specs::Reading::text_at))]
pub(crate) fn text_at(alloc: Global, bytes: &[u8]) -> Result<(Bytes, &[u8]), Refused>
    ensures { Gives (λ x. (x.0, x.1.now)) result (text_at bytes.now) }
{
    let (count, rest) = word_at(bytes)?;
    let count = count as usize;
    if rest.len() < count {
        return Err(Refused::At {
            fault: FileKind::Short,
            left: rest.len(),
        });
    }
    let (text, rest) = rest.split_at(count);
    Ok((Bytes::of(Vec::from_slice(alloc, text)?), rest))
}

ghost use Rattle.std.specs.Prelude.{◌+◌};
ghost use Rattle.history_file.specs.Reading.{Gives, entries_by, rescued_by, entry_of, entry_at};

use crate::fields::{byte_at, double_at, word_at};
use crate::file_fault::FileKind;
use crate::plain_entries::{called_at, ended_at, entered_at, ran_at};
use crate::refused::Refused;
use crate::values::fault_at;
use guest_words::PointRef;
use run_history::Entry;
use sqlite_items::Items;
use std::alloc::Global;

/// How many bytes of memory an entry takes, what it owns left out.
const ENTRY_SIZE: usize = 64;

/// So many entries at the front, where at most so many rescued calls are within each other, and
/// what follows them. Counts are hostile: no more memory is taken ahead than there are bytes left.
#[cycle(entries)]
pub(crate) fn entries_at(
    alloc: Global,
    room: usize,
    count: u64,
    bytes: &[u8],
) -> Result<(Vec<Entry>, &[u8]), Refused>
    ensures { Gives (λ x. (x.0.items, x.1.now)) result
        (entries_by (entry_at room) count bytes.now) }
{
    let most = bytes.len() / ENTRY_SIZE;
    let mut entries = Vec::with_capacity(alloc, most.min(count as usize))?;
    let mut rest = bytes;
    for _ in 0..count {
        let (entry, behind) = entry_at(alloc, room, rest)?;
        entries.push(entry)?;
        rest = behind;
    }
    Ok((entries, rest))
}

/// The entry at the front, and what follows it.
#[cycle(entries)]
#[tactic(auto, unfolding(crate::specs::Reading::entry_at, crate::specs::Reading::entry_of))]
fn entry_at(alloc: Global, room: usize, bytes: &[u8]) -> Result<(Entry, &[u8]), Refused>
    ensures { Gives (λ x. (x.0, x.1.now)) result (entry_at room bytes.now) }
{
    let (tag, rest) = byte_at(bytes)?;
    match tag {
        1 => ran_at(rest),
        2 => entered_at(rest),
        3 => called_at(alloc, rest),
        4 => match room {
            0 => Err(Refused::At {
                fault: FileKind::Deep,
                left: bytes.len(),
            }),
            _ => rescued_at(alloc, room - 1, rest),
        },
        5 => ended_at(rest),
        _ => Err(Refused::At {
            fault: FileKind::Tag,
            left: bytes.len(),
        }),
    }
}

/// The rescued call at the front, and what follows it.
#[cycle(entries)]
#[tactic(auto, unfolding(crate::specs::Reading::rescued_by))]
fn rescued_at(alloc: Global, room: usize, bytes: &[u8]) -> Result<(Entry, &[u8]), Refused>
    ensures { Gives (λ x. (x.0, x.1.now)) result (rescued_by (entry_at room) bytes.now) }
{
    let (hart, rest) = byte_at(bytes)?;
    let (entry, rest) = double_at(rest)?;
    let (fault, rest) = fault_at(rest)?;
    let (count, rest) = word_at(rest)?;
    let (inside, rest) = entries_at(alloc, room, u64::from(count), rest)?;
    let rescued = Entry::Rescued {
        hart,
        point: PointRef { entry },
        fault,
        inside: Items::from_vec(inside),
    };
    Ok((rescued, rest))
}

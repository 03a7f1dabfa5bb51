ghost use Rattle.std.specs.Prelude.{◌≡◌, ◌+◌, length, IfOk};
ghost use Rattle.history_file.specs.HistoryBytes.{ending_bytes, entry_bytes, entries_bytes};

use guest_words::{Ending, MemoryWant};
use run_history::Entry;

/// The sum, or want of memory where no memory is so large.
pub(crate) fn sum(a: usize, b: usize) -> Result<usize, MemoryWant>
    ensures ok { IfOk result (λ sum. sum ≡ a + b) }
{
    a.checked_add(b).ok_or(MemoryWant)
}

#[tactic(auto, unfolding(crate::specs::HistoryBytes::ending_bytes, crate::specs::HistoryBytes::fault_bytes), using(crate::proofs::FieldLaws::double_length))]
fn ending_size(ending: Ending) -> usize
    ensures { result ≡ length (ending_bytes ending) }
{
    match ending {
        Ending::Exit { .. } => 3,
        Ending::Fault { .. } => 11,
        Ending::Stuck | Ending::Budget => 1,
    }
}

/// How many bytes entries take in a history file.
#[cycle(sizes)]
pub(crate) fn size_of_all(entries: &[Entry]) -> Result<usize, MemoryWant>
    ensures ok { IfOk result (λ size. size ≡ length (entries_bytes entries.now)) }
{
    let mut size = 0;
    for entry in entries {
        size = sum(size, size_of(entry)?)?;
    }
    Ok(size)
}

#[cycle(sizes)]
#[tactic(auto, unfolding(crate::specs::HistoryBytes::entry_bytes), using(crate::proofs::FieldLaws::double_length, crate::proofs::FieldLaws::word_length, crate::proofs::Lengths::record_length))]
fn size_of(entry: &Entry) -> Result<usize, MemoryWant>
    ensures ok { IfOk result (λ size. size ≡ length (entry_bytes entry.now)) }
{
    match entry {
        Entry::Ran { .. } => Ok(6),
        Entry::Entered { .. } => Ok(10),
        Entry::Called { call, .. } => sum(31, call.bytes.items().len()),
        Entry::Rescued { inside, .. } => sum(23, size_of_all(inside.as_slice())?),
        Entry::Ended { ending } => sum(1, ending_size(*ending)),
    }
}

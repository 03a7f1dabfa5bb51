ghost use Rattle.std.specs.Prelude.{◌≡◌, IfOk};
ghost use Rattle.history_file.specs.Starts.{first_illegal};

use guest_words::MemoryWant;
use plain_machine::Plain;
use run_history::Entry;
use std::alloc::Global;

/// The number of the first entry that isn't legal from a state on. Each entry is made once.
pub(crate) fn first_illegal(
    alloc: Global,
    start: Plain,
    entries: &[Entry],
) -> Result<Option<u64>, MemoryWant>
    ensures ok { IfOk result (λ found. found ≡ first_illegal start entries.now) }
{
    let mut plain = start;
    for (index, entry) in entries.iter().enumerate() {
        match plain.checked(alloc, entry)? {
            Some(later) => plain = later,
            None => return Ok(Some(index as u64)),
        }
    }
    Ok(None)
}

//! Whether a device failed in a run.
ghost use Rattle.std.specs.Prelude.{◌≡◌};
ghost use Rattle.run_history.specs.Counts.{records_of, records_of_all};
ghost use Rattle.trial_runs.specs.Failures.{has_failed};

use guest_words::linux::EIO;
use run_history::Entry;

/// Whether a device failed in one of the calls of these entries, those of insides included.
#[cycle(failures)]
pub fn any_failed(entries: &[Entry]) -> bool
    ensures value { result ≡ has_failed (records_of_all entries.now) }
{
    for entry in entries {
        if in_entry(entry) {
            return true;
        }
    }
    false
}

#[cycle(failures)]
#[tactic(auto, unfolding(run_history::specs::Counts::records_of))]
fn in_entry(entry: &Entry) -> bool
    ensures value { result ≡ has_failed (records_of entry.now) }
{
    match entry {
        Entry::Called { call, .. } => call.answer == EIO,
        Entry::Rescued { inside, .. } => any_failed(inside.as_slice()),
        Entry::Ran { .. } | Entry::Entered { .. } | Entry::Ended { .. } => false,
    }
}

ghost use Rattle.std.specs.Prelude.{◌≡◌};
ghost use Rattle.rescue_audit.specs.Verdict.{has_end};
ghost use Rattle.run_history.specs.Run.{is_ended};

use run_history::Entry;

/// Whether an entry ends the run.
fn is_ended(entry: &Entry) -> bool
    ensures value { result ≡ is_ended entry.now }
{
    match entry {
        Entry::Ended { .. } => true,
        Entry::Ran { .. } => false,
        Entry::Entered { .. } => false,
        Entry::Called { .. } => false,
        Entry::Rescued { .. } => false,
    }
}

/// Whether the last entry ends the run.
pub(crate) fn has_end(entries: &[Entry]) -> bool
    ensures value { result ≡ has_end entries.now }
{
    match entries.last() {
        Some(entry) => is_ended(entry),
        None => false,
    }
}

//! Whether entries have a spelling.
ghost use Rattle.std.specs.Prelude.{◌↔◌, ◌<◌, ◌^◌, IsTrue};
ghost use Rattle.guest_words.specs.declared.limits.TheConstants.{FRAMES};
ghost use Rattle.history_file.specs.Shallow.{IsShallowInside};
ghost use Rattle.history_file.specs.Spelled.{AreShallow, IsShallow};

use guest_words::limits::FRAMES;
use run_history::{Entry, History};

/// Whether a length fits a field of 4 bytes.
fn fits(length: usize) -> bool
    ensures value { IsTrue result ↔ (length < 2 ^ 32) }
{
    u32::try_from(length).is_ok()
}

/// Whether at most so many rescued calls of entries stand within each other, and all lengths fit.
#[cycle(looks)]
fn are_shallow(room: usize, entries: &[Entry]) -> bool
    ensures value { IsTrue result ↔ AreShallow room entries.now }
{
    for entry in entries {
        if !is_shallow(room, entry) {
            return false;
        }
    }
    true
}

#[cycle(looks)]
#[tactic(auto, using(crate::proofs::ShallowLaws::ran_shallow, crate::proofs::ShallowLaws::entered_shallow, crate::proofs::ShallowLaws::ended_shallow))]
fn is_shallow(room: usize, entry: &Entry) -> bool
    ensures value { IsTrue result ↔ IsShallow room entry.now }
{
    match entry {
        Entry::Called { call, .. } => fits(call.bytes.items().len()),
        Entry::Rescued { inside, .. } => inside_fits(room, inside.as_slice()),
        Entry::Ran { .. } => true,
        Entry::Entered { .. } => true,
        Entry::Ended { .. } => true,
    }
}

/// Whether a rescued call with this inside may stand where so many may.
#[cycle(looks)]
fn inside_fits(room: usize, inside: &[Entry]) -> bool
    ensures value { IsTrue result ↔ IsShallowInside room inside.now }
{
    room > 0 && fits(inside.len()) && are_shallow(room - 1, inside)
}

/// Whether a history has a spelling: at most 16 rescued calls stand within each other, and each
/// call's bytes and each rescued call's entries are fewer than 2^32.
pub fn can_spell(history: &History) -> bool
    ensures value { IsTrue result ↔ AreShallow FRAMES history.now.entries }
{
    are_shallow(FRAMES, history.items())
}

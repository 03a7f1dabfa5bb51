ghost use Rattle.std.specs.Prelude.{◌≡◌, ◌+◌, ◌==◌, ◌&&◌, ◌∷◌, ◌++◌, [], OnOk, OnErr};
ghost use Rattle.std.specs.Prelude.{List, length, take, drop, slice_index_or, slice_set};
ghost use Rattle.std.specs.List.{list_all};
ghost use Rattle.guest_words.specs.declared.hart.Frame.{Frame};
ghost use Rattle.hart_slots.specs.Rejoined.{last_of};

use crate::places::{before, behind};
use guest_words::{Frame, Frames, MemoryWant};

/// The frames in a slot, none where it isn't there.
#[inline]
pub(crate) fn frames_at(frames: &[Frames], h: usize) -> &[Frame]
    ensures value { result.now ≡ slice_index_or frames.now h [] }
{
    match frames.get(h) {
        Some(frames) => frames.items(),
        None => &[],
    }
}

/// The innermost of a hart's frames.
#[inline]
pub(crate) fn innermost(frames: &[Frame]) -> Option<Frame>
    ensures value { result ≡ last_of frames.now }
{
    match frames {
        [.., last] => Some(*last),
        [] => None,
    }
}

/// Keeps so many of the outermost frames in a slot, if it is there.
pub(crate) fn keep_at(frames: &mut Vec<Frames>, h: usize, count: usize)
    ensures value { (d : List Frame) → frames.new.items
        ≡ slice_set frames.old.items h (take count (slice_index_or frames.old.items h d)) }
{
    if h < frames.len() {
        frames[h].truncate(count);
    }
}

/// Puts a frame inside the others in a slot, if it is there.
pub(crate) fn push_at(frames: &mut Vec<Frames>, h: usize, frame: Frame) -> Result<(), MemoryWant>
    ensures ok { OnOk result ((d : List Frame) → frames.new.items
        ≡ slice_set frames.old.items h (slice_index_or frames.old.items h d ++ frame ∷ [])) }
    ensures err { OnErr result (frames.new.items ≡ frames.old.items) }
    ensures count { length frames.new.items ≡ length frames.old.items }
{
    if h < frames.len() {
        frames[h].push(frame)?;
    }
    Ok(())
}

/// Whether no hart beside the one in a slot has a frame open.
pub(crate) fn none_open_beside(frames: &[Frames], h: u8) -> bool
    ensures value { result ≡ (list_all (λ frames. length frames == 0) (take h frames.now)
        && list_all (λ frames. length frames == 0) (drop (h + 1) frames.now)) }
{
    none_open(before(frames, h)) && none_open(behind(frames, h))
}

/// Whether no hart has a frame open.
fn none_open(frames: &[Frames]) -> bool
    ensures value { result ≡ list_all (λ frames. length frames == 0) frames.now }
{
    for each in frames {
        if each.items().len() != 0 {
            return false;
        }
    }
    true
}

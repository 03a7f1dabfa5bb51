ghost use Rattle.std.specs.Prelude.{◌≡◌, ◌≤◌, length, map, slice_get};
ghost use Rattle.std.specs.Option.{option_copied, option_map};
ghost use Rattle.guest_words.specs.declared.limits.TheConstants.{HARTS};
ghost use Rattle.guest_words.specs.State.{frame_count};
ghost use Rattle.hart_slots.specs.Rejoined.{frames_of, hart_of, top_of};

use crate::Slots;
use crate::frames::{frames_at, innermost};
use crate::harts::hart_at;
use guest_atomics::Harts;
use guest_words::{Frame, Hart};

impl Slots {
    /// The number of slots.
    pub fn len(&self) -> usize
        ensures value { result ≡ length self.now }
        ensures most { length self.now ≤ HARTS }
    {
        self.frames.len()
    }

    /// The harts, by slot.
    #[inline]
    pub fn harts(&self) -> &Harts
        ensures value { result.now ≡ map hart_of self.now }
    {
        &self.harts
    }

    /// The hart in a slot.
    #[inline]
    pub fn hart(&self, h: u8) -> Option<&Hart>
        ensures value { option_copied result ≡ option_map hart_of (slice_get self.now h) }
    {
        hart_at(self.harts.items(), h as usize)
    }

    /// The open frames of the hart in a slot, the innermost last; none where no slot is.
    #[inline]
    pub fn frames(&self, h: u8) -> &[Frame]
        ensures value { result.now ≡ frames_of (slice_get self.now h) }
    {
        frames_at(self.frames.as_slice(), h as usize)
    }

    /// How many frames the hart in a slot has open; 0 where no slot is.
    #[inline]
    pub fn frame_count(&self, h: u8) -> usize
        ensures value { result ≡ frame_count (slice_get self.now h) }
    {
        self.frames(h).len()
    }

    /// The innermost open frame of the hart in a slot.
    #[inline]
    pub fn top(&self, h: u8) -> Option<Frame>
        ensures value { result ≡ top_of (slice_get self.now h) }
    {
        innermost(self.frames(h))
    }
}

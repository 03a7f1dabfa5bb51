ghost use Rattle.std.specs.Prelude.{◌≡◌, ◌≤◌, ◌==◌, ℕ, true, false, length, map, slice_get};
ghost use Rattle.std.specs.List.{list_any};
ghost use Rattle.guest_words.specs.Harts.{is_ready};
ghost use Rattle.guest_words.specs.CallChanges.{any_other, each_other, free_slot, is_live};
ghost use Rattle.run_history.specs.Legal.{is_ready_slot};
ghost use Rattle.guest_atomics.specs.Free.{IsFreeBut};
ghost use Rattle.hart_slots.specs.Rejoined.{hart_of};

use crate::Slots;
use crate::frames::none_open_beside;
use crate::harts::{any_live_beside, any_ready, first_free, is_ready};

impl Slots {
    /// Whether the hart in a slot is ready; false where no slot is.
    pub fn is_ready(&self, h: u8) -> bool
        ensures value { result ≡ is_ready_slot (slice_get self.now h) }
    {
        match self.hart(h) {
            Some(hart) => is_ready(&hart.state),
            None => false,
        }
    }

    /// A slot from which on no hart is ready, seldom past those that have had a hart. Who looks for
    /// ready harts need look no further.
    pub fn used(&self) -> usize
        ensures within { result ≤ length self.now }
        ensures idle { (h : ℕ) → result ≤ h → is_ready_slot (slice_get self.now h) ≡ false }
    {
        self.len().min(self.harts.used())
    }

    /// Whether a hart is ready.
    pub fn any_ready(&self) -> bool
        ensures value { result ≡ list_any (λ slot. is_ready slot.hart.state) self.now }
    {
        any_ready(self.harts.items())
    }

    /// Whether a hart but this one is ready or waits.
    pub fn other_live(&self, h: u8) -> bool
        ensures value { result ≡ any_other is_live h self.now }
    {
        any_live_beside(self.harts.items(), h)
    }

    /// Whether no hart but this one has a frame open.
    pub fn is_alone(&self, h: u8) -> bool
        ensures value { result ≡ each_other (λ slot. length slot.frames == 0) h self.now }
    {
        none_open_beside(self.frames.as_slice(), h)
    }

    /// The least slot from 1 on that a new hart can take.
    pub fn free(&self) -> Option<u8>
        ensures value { result ≡ free_slot self.now }
    {
        first_free(self.harts.items())
    }

    /// Whether no hart but, maybe, the one in a slot has a reservation; false where that isn't
    /// known at once.
    #[inline(always)]
    pub fn is_free_but(&self, h: u8) -> bool
        ensures free { result ≡ true → IsFreeBut h (map hart_of self.now) }
    {
        self.harts.is_free_but(h as usize)
    }
}

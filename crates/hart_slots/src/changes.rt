ghost use Rattle.std.specs.Prelude.{◌≡◌, ◌<◌, [], ◌∷◌, ◌++◌, Some, OnOk, OnErr};
ghost use Rattle.std.specs.Prelude.{length, take, slice_get};
ghost use Rattle.std.specs.Borrow.{sem};
ghost use Rattle.std.specs.Option.{option_map};
ghost use Rattle.guest_words.specs.Harts.{opened, touched, unreserved};
ghost use Rattle.guest_words.specs.State.{changed, closed, on_each, on_hart};
ghost use Rattle.hart_slots.specs.Lending.{LendsHart};
ghost use Rattle.hart_slots.specs.Parts.{on_frames};
ghost use Rattle.hart_slots.specs.Rejoined.{hart_of, rejoined, reopened};

use crate::Slots;
use crate::frames::{keep_at, push_at};
use crate::harts::put_at;
use guest_atomics::KeptHarts;
use guest_words::{Frame, Hart, MemoryWant, PointRef};
use point_frames::closed_after;

impl Slots {
    /// The hart in a slot, to be changed in place.
    #[inline(always)]
    pub fn hart_mut(&mut self, h: u8) -> &mut Hart
        requires within { h < length self.old }
        ensures* lent { sem 𝓛 (LendsHart self.entry h result) }
        ensures value { option_map hart_of (slice_get self.old h) ≡ Some result.now }
    {
        self.harts.hart_mut(h as usize)
    }

    /// Puts another hart into a slot.
    pub fn put(&mut self, h: u8, hart: Hart)
        ensures value { self.new ≡ changed (on_hart (λ before. hart)) h self.old }
    {
        put_at(&mut self.harts, h as usize, hart);
    }

    /// Keeps so many of the outermost frames of the hart in a slot.
    pub(crate) fn keep_frames(&mut self, h: u8, count: usize)
        ensures value { self.new ≡ changed (on_frames (take count)) h self.old }
    {
        keep_at(&mut self.frames, h as usize, count);
    }

    /// Closes the frames of a hart whose calls are over.
    pub fn close(&mut self, h: u8)
        ensures value { self.new ≡ changed closed h self.old }
    {
        if let Some(hart) = self.hart(h) {
            let count = closed_after(hart, self.frames(h));
            self.keep_frames(h, count);
        }
    }

    /// Puts a frame inside the others of the hart in a slot. After an Err nothing has changed.
    fn push_frame(&mut self, h: u8, frame: Frame) -> Result<(), MemoryWant>
        ensures ok { OnOk result (self.new
            ≡ changed (on_frames (λ frames. frames ++ frame ∷ [])) h self.old) }
        ensures err { OnErr result (self.new ≡ self.old) }
    {
        push_at(&mut self.frames, h as usize, frame)?;
        Ok(())
    }

    /// Opens the frame of a point for a hart. After an Err nothing has changed.
    pub fn open(&mut self, h: u8, point: PointRef) -> Result<(), MemoryWant>
        ensures ok { OnOk result (self.new ≡ changed (opened point) h self.old) }
        ensures err { OnErr result (self.new ≡ self.old) }
    {
        if let Some(hart) = self.hart(h) {
            let frame = point_frames::opened(hart, point);
            self.push_frame(h, frame)?;
            self.hart_mut(h).arrived = false;
        }
        Ok(())
    }

    /// Ends the reservations that a store of so many bytes from an address on touches. Costs next
    /// to nothing where no hart has one.
    #[inline]
    pub fn touch(&mut self, from: u64, size: u64)
        ensures value { self.new ≡ on_each (touched from size) self.old }
    {
        self.harts.touched(from, size);
    }

    /// Ends all reservations.
    pub fn unreserve(&mut self)
        ensures value { self.new ≡ on_each unreserved self.old }
    {
        self.harts.clear_all();
    }

    /// Puts kept harts back, and drops the innermost frame of one.
    pub fn put_back(&mut self, h: u8, kept: KeptHarts)
        requires count { length kept ≡ length self.old }
        ensures value { self.new ≡ changed reopened h (rejoined kept self.old) }
    {
        self.harts.put_back(kept);
        let count = self.frames(h).len();
        self.keep_frames(h, count.saturating_sub(1));
    }
}

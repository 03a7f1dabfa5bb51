//! Notes that nothing is put back by go, once there are many of them.
ghost use Rattle.std.specs.Prelude.{◌≡◌, ◌≤◌, drop, length, take};
ghost use Rattle.undo_log.specs.Undo.{undone};
ghost use Rattle.guest_memory.specs.Kept.{AddressSpace};
ghost use Rattle.guest_memory.specs.Returning.{put_back};
ghost use Rattle.open_calls.specs.Nest.{mark_in};

use crate::inner::Inner;
use crate::origin::Origin;
use guest_memory::thin;

/// With fewer notes in a call none is looked for.
pub const MANY: u64 = 1 << 18;

impl<K: Origin> Inner<K> {
    /// Takes away the notes of the innermost call that nothing is put back by, where it has many,
    /// and at least twice as many as were left the last time.
    #[inline]
    pub(crate) fn thin(&mut self)
        ensures same { self.new ≡ record self.old { notes = self.new.notes } }
        ensures fewer { length self.new.notes ≤ length self.old.notes }
        ensures older { take (mark_in self.old.nest) self.new.notes
            ≡ take (mark_in self.old.nest) self.old.notes }
        ensures back { (memory : AddressSpace)
            → undone put_back (drop (mark_in self.old.nest) self.new.notes) memory
            ≡ undone put_back (drop (mark_in self.old.nest) self.old.notes) memory }
    {
        let mark = self.calls.mark();
        if self.log.length().saturating_sub(mark) >= self.thin_at {
            self.thin_from(mark);
        }
    }

    // Without memory for it all notes stay, and there are twice as many before the next time.
    #[inline(never)]
    fn thin_from(&mut self, mark: u64)
        requires mark { mark ≡ mark_in self.old.nest }
        ensures same { self.new ≡ record self.old { notes = self.new.notes } }
        ensures fewer { length self.new.notes ≤ length self.old.notes }
        ensures older { take (mark_in self.old.nest) self.new.notes
            ≡ take (mark_in self.old.nest) self.old.notes }
        ensures back { (memory : AddressSpace)
            → undone put_back (drop (mark_in self.old.nest) self.new.notes) memory
            ≡ undone put_back (drop (mark_in self.old.nest) self.old.notes) memory }
    {
        let _ = thin(self.alloc, &mut self.log, mark);
        let left = self.log.length().saturating_sub(mark);
        self.thin_at = left.saturating_mul(2).max(MANY);
    }
}

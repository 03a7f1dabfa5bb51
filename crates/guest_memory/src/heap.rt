ghost use Rattle.std.specs.Prelude.{◌≡◌, ◌+◌, ◌≤◌};
ghost use Rattle.guest_memory.specs.Kept.{IsHeap};
ghost use Rattle.guest_memory.specs.Returning.{put_back};

use crate::memory::Memory;
use guest_words::limits::HEAP_BYTES;
use undo_log::Note;

impl Memory {
    /// The low break: the first address of the heap.
    pub fn low(&self) -> u64
        ensures value { result ≡ self.now.low }
        ensures heap { IsHeap self.now.low self.now.brk }
    {
        self.low
    }

    /// The break: the first address past the heap.
    pub fn brk(&self) -> u64
        ensures value { result ≡ self.now.brk }
        ensures heap { IsHeap self.now.low self.now.brk }
    {
        self.brk
    }

    /// Moves the break within the 64 MiB of the heap. No page comes or goes.
    pub fn set_brk(&mut self, to: u64)
        requires low { self.old.low ≤ to }
        requires high { to ≤ self.old.low + HEAP_BYTES }
        ensures value { self.new ≡ record self.old { brk = to } }
        ensures back { put_back self.new (Note.Break self.old.brk) ≡ self.old }
    {
        self.brk = to;
    }
}

//! What can be read of the state. No call here takes memory, but for `bytes_at` and `page`.
ghost use Rattle.std.specs.Prelude.{◌≡◌, ◌<◌, IfNone, IfOk, IfSome, length, slice_get};
ghost use Rattle.std.specs.Option.{option_copied, option_map};
ghost use Rattle.guest_pages.specs.Paged.{page_at};
ghost use Rattle.guest_pages.specs.Stretch.{HasNoPageFrom, IsNextPage};
ghost use Rattle.guest_words.specs.Endings.{is_budget_spent, is_stuck};
ghost use Rattle.guest_words.specs.Space.{bytes_at};
ghost use Rattle.guest_words.specs.State.{frames_at};
ghost use Rattle.hart_slots.specs.Rejoined.{frames_of, hart_of};
ghost use Rattle.hart_step.specs.Sees.{Sees};
ghost use Rattle.run_history.specs.Legal.{is_ready_at};

use crate::plain::Plain;
use futex_table::Queue;
use guest_words::limits::PAGE;
use guest_words::{Bytes, Ending, Frame, Hart, MemoryWant, Page, Points};
use hart_step::NextAct;
use std::alloc::Global;

impl Plain {
    /// What the hart in a slot does next.
    pub fn next_act(&self, hart: u8) -> NextAct
        requires within { hart < length self.now.slots }
        ensures value { Sees self.now hart result }
    {
        self.engine.next_act(hart)
    }

    /// The hart in a slot.
    pub fn hart(&self, hart: u8) -> Option<&Hart>
        ensures value { option_copied result ≡ option_map hart_of (slice_get self.now.slots hart) }
    {
        self.engine.hart(hart)
    }

    /// The open frames of the hart in a slot, the innermost last; none where no slot is.
    pub fn frames(&self, hart: u8) -> &[Frame]
        ensures value { result.now ≡ frames_of (slice_get self.now.slots hart) }
    {
        self.engine.frames(hart)
    }

    /// How many frames the hart in a slot has open; 0 where no slot is.
    pub fn frames_at(&self, hart: u8) -> usize
        ensures value { result ≡ frames_at self.now hart }
    {
        self.engine.frame_count(hart)
    }

    /// The harts that wait, the longest waiting first.
    pub fn queue(&self) -> &Queue
        ensures value { result.now ≡ self.now.waiting }
    {
        self.engine.queue()
    }

    /// The tid of the next hart that is made.
    pub fn next_tid(&self) -> u32
        ensures value { result ≡ self.now.next_tid }
    {
        self.engine.next_tid()
    }

    /// The break: the first address past the heap.
    pub fn brk(&self) -> u64
        ensures value { result ≡ self.now.brk }
    {
        self.engine.memory().brk()
    }

    /// The points, each with the rescues that are left to it.
    pub fn points(&self) -> &Points
        ensures value { result.now ≡ self.now.points }
    {
        self.engine.points()
    }

    /// The points, each with what is left of its rescues.
    pub fn into_points(self) -> Points
        ensures value { result ≡ self.points }
    {
        let Plain { engine } = self;
        engine.into_points()
    }

    /// How the run has ended, if it has.
    pub fn ending(&self) -> Option<Ending>
        ensures value { result ≡ self.now.ending }
    {
        self.engine.ending()
    }

    /// The steps so far: instructions and calls on devices, those of rescued calls included.
    pub fn steps(&self) -> u64
        ensures value { result ≡ self.now.steps }
    {
        self.engine.steps()
    }

    /// Whether the steps are the budget, or the records have passed their limit of bytes.
    pub fn is_budget_spent(&self) -> bool
        ensures value { result ≡ is_budget_spent self.now }
    {
        self.engine.is_budget_spent()
    }

    /// Whether no hart is ready.
    pub fn is_stuck(&self) -> bool
        ensures value { result ≡ is_stuck self.now }
    {
        self.engine.is_stuck()
    }

    /// Whether the hart in a slot is ready; false where no slot is.
    pub fn is_ready(&self, hart: u8) -> bool
        ensures value { result ≡ is_ready_at self.now hart }
    {
        self.engine.is_ready(hart)
    }

    /// So many bytes of memory from an address on; an address in no page reads as 0.
    pub fn bytes_at(&self, alloc: Global, place: u64, count: u32) -> Result<Bytes, MemoryWant>
        ensures ok { IfOk result (λ bytes. bytes ≡ bytes_at self.now.memory place count) }
    {
        self.engine.bytes_at(alloc, place, count)
    }

    /// The least address of a page that is at least an address; None exactly where there is none.
    pub fn page_from(&self, address: u64) -> Option<u64>
        ensures found { IfSome result (IsNextPage self.now.memory address) }
        ensures none { IfNone result (HasNoPageFrom self.now.memory address) }
    {
        self.engine.memory().page_from(address)
    }

    /// A copy of the page that begins at an address; where none does, its bytes are 0 and it has no
    /// right.
    pub fn page(&self, alloc: Global, from: u64) -> Result<Page, MemoryWant>
        ensures ok { IfOk result (λ page. page ≡ page_at self.now.memory from) }
    {
        Ok(Page {
            from,
            rights: self.engine.memory().rights_at(from),
            bytes: self.engine.bytes_at(alloc, from, PAGE as u32)?,
        })
    }
}

ghost use Rattle.std.specs.Prelude.{◌≡◌, ◌<◌, false, [], ◌∷◌, ◌++◌, IsTrue, ◌↔◌, length, slice_get, IfOk};
ghost use Rattle.guest_words.specs.CallChanges.{woken, unwoken};
ghost use Rattle.guest_words.specs.declared.limits.TheConstants.{HARTS};
ghost use Rattle.futex_table.specs.Slots.{has_slot, HasOwnSlots, MarksSlots};

use crate::kept::KeptQueue;
use crate::waking::{keep_unwoken, woken_of};
use crate::woken::Woken;
use guest_words::{MemoryWant, Waiter, limits};
use std::alloc::Global;
use std::marker::Model;

/// One for each hart.
pub const SLOTS: usize = limits::HARTS as usize;

/// The harts that wait, the longest waiting first. Each has a slot of its own, so that there is
/// room for all of them in the queue itself, and no call takes memory.
#[derive(Drop)]
pub struct Queue {
    waiters: [Waiter; SLOTS],
    count: usize,
}

impl Model for Queue {
    ghost use Rattle.std.specs.Prelude.{List, take};
    ghost use Rattle.guest_words.specs.declared.hart.Waiter.{Waiter};

    ghost Value = { List Waiter };

    ghost use Rattle.futex_table.specs.Slots.{IsTaken};

    ghost view = { λ q. take q.count q.waiters };

    ghost invariant = { λ q. IsTaken q.waiters q.count };
}

impl Queue {
    /// No waiters.
    pub fn new() -> Queue
        ensures none { result ≡ [] }
    {
        let nobody = Waiter { slot: 0, place: 0 };
        Queue {
            waiters: [nobody; SLOTS],
            count: 0,
        }
    }

    /// The number of waiters.
    pub fn len(&self) -> usize
        ensures value { result ≡ length self.now }
        ensures own { HasOwnSlots self.now }
    {
        self.count
    }

    /// Whether no hart waits.
    pub fn is_empty(&self) -> bool
        ensures value { IsTrue result ↔ (length self.now ≡ 0) }
    {
        self.count == 0
    }

    /// The waiter at an index, the longest waiting at 0; none past the end.
    pub fn waiter(&self, index: u8) -> Option<Waiter>
        ensures value { result ≡ slice_get self.now index }
    {
        self.waiters[..self.count].get(usize::from(index)).copied()
    }

    /// Puts the hart in a slot last, to wait at a guest address.
    pub fn enqueue(&mut self, slot: u8, place: u64)
        requires below { slot < HARTS }
        requires absent { has_slot slot self.old ≡ false }
        ensures value { self.new ≡ self.old ++ (record { slot = slot; place = place }) ∷ [] }
    {
        self.waiters[self.count] = Waiter { slot, place };
        self.count += 1;
    }

    /// Takes out the waiters at a guest address that have waited longest, at most so many. The
    /// others keep their order.
    pub fn wake(&mut self, place: u64, most: u32) -> Woken
        ensures slots { MarksSlots result.slots (woken place most self.old) }
        ensures count { result.count ≡ length (woken place most self.old) }
        ensures rest { self.new ≡ unwoken place most self.old }
        ensures own { HasOwnSlots self.old }
    {
        let woken = woken_of(&self.waiters[..self.count], place, most);
        self.count = keep_unwoken(&mut self.waiters, self.count, place, most);
        woken
    }

    /// Keeps the waiters.
    pub fn keep(&self, alloc: Global) -> Result<KeptQueue, MemoryWant>
        ensures ok { IfOk result (λ kept. kept ≡ self.now) }
    {
        KeptQueue::of(alloc, &self.waiters[..self.count])
    }

    /// Makes the waiters those that were kept. Takes no memory.
    pub fn restore(&mut self, kept: KeptQueue)
        ensures value { self.new ≡ kept }
    {
        self.count = kept.put_back(&mut self.waiters);
    }

    /// An equal queue.
    pub fn copy(&self) -> Queue
        ensures value { result ≡ self.now }
    {
        Queue {
            waiters: self.waiters,
            count: self.count,
        }
    }
}

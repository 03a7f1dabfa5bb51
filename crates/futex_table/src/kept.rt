ghost use Rattle.std.specs.Prelude.{◌≡◌, ◌≤◌, length, slice_get, take, IfOk};
ghost use Rattle.futex_table.specs.Slots.{HasOwnSlots};

use crate::queue::SLOTS;
use guest_words::{MemoryWant, Waiter};
use std::alloc::Global;
use std::marker::Model;

/// The waiters of a queue, kept to be put back. Takes no more memory than they need, and none
/// where no hart waits.
#[derive(Drop)]
pub struct KeptQueue {
    waiters: Vec<Waiter>,
}

impl Model for KeptQueue {
    ghost use Rattle.std.specs.Prelude.{List};
    ghost use Rattle.guest_words.specs.declared.hart.Waiter.{Waiter};

    ghost Value = { List Waiter };

    ghost use Rattle.futex_table.specs.Slots.{HasOwnSlots};

    ghost view = { λ q. q.waiters.items };

    ghost invariant = { λ q. HasOwnSlots q.waiters.items };
}

impl KeptQueue {
    /// The waiter at an index, the longest waiting at 0; none past the end.
    pub fn waiter(&self, index: u8) -> Option<Waiter>
        ensures value { result ≡ slice_get self.now index }
    {
        self.waiters.get(usize::from(index)).copied()
    }

    /// Keeps these waiters.
    pub(crate) fn of(alloc: Global, waiters: &[Waiter]) -> Result<KeptQueue, MemoryWant>
        requires own { HasOwnSlots waiters.now }
        ensures ok { IfOk result (λ kept. kept ≡ waiters.now) }
    {
        Ok(KeptQueue {
            waiters: Vec::from_slice(alloc, waiters)?,
        })
    }

    /// Puts the waiters into the first of the places, and says how many they are.
    pub(crate) fn put_back(self, places: &mut [Waiter; SLOTS]) -> usize
        ensures size { length places.new ≡ SLOTS }
        ensures within { result ≤ SLOTS }
        ensures own { HasOwnSlots self }
        ensures value { take result places.new ≡ self }
    {
        let count = self.waiters.len();
        places[..count].copy_from_slice(self.waiters.as_slice());
        count
    }
}

//! Changes of the state that acts are made of.
ghost use Rattle.std.specs.Prelude.{◌≡◌, ◌+◌, ◌<◌, ◌≤◌, ◌++◌, ◌∷◌, [], Some, length, true};
ghost use Rattle.guest_words.specs.CallChanges.{answered, asleep, child_slot, departed, free_slot, queued, roused, with_new_hart, woken};
ghost use Rattle.guest_words.specs.Space.{can_write, low_bytes};
ghost use Rattle.guest_words.specs.State.{changed, stored, with_closed, with_hart};
ghost use Rattle.guest_words.specs.Widths.{bytes_in};
ghost use Rattle.guest_memory.specs.Noting.{Notes};
ghost use Rattle.run_history.specs.After.{counted};
ghost use Rattle.run_history.specs.Legal.{is_ready_at};
ghost use Rattle.hart_step.specs.Live.{space_of};

use crate::engine::Engine;
use guest_words::{Hart, Width};
use undo_log::Log;

impl Engine {
    /// Closes the frames of a hart whose calls are over, and counts a step.
    pub(crate) fn finish(&mut self, hart: u8)
        requires left { self.old.state.steps < self.old.state.budget }
        ensures after { self.new ≡ record self.old {
          state = counted self.old.state (with_closed self.old.state hart);
        } }
    {
        self.slots.close(hart);
        self.steps += 1;
    }

    /// Closes the frames of a hart whose calls are over.
    pub(crate) fn close(&mut self, hart: u8)
        ensures after { self.new ≡ record self.old {
          state = with_closed self.old.state hart;
        } }
    {
        self.slots.close(hart);
    }

    /// Puts a new hart into a free slot, made from its parent's, and counts a step.
    pub(crate) fn add(&mut self, parent: u8, slot: u8, flags: u64, stack: u64, tls: u64, child: u64)
        requires free { free_slot self.old.state.slots ≡ Some slot }
        requires left { self.old.state.steps < self.old.state.budget }
        ensures after { self.new ≡ record self.old {
          state = counted self.old.state (with_new_hart self.old.state parent slot
              (child_slot flags stack tls child self.old.state.next_tid));
        } }
    {
        self.slots
            .add(parent, slot, flags, stack, tls, child, self.next_tid);
        self.next_tid += 1;
        self.steps += 1;
    }

    /// Gives the answer of a call to a hart, which goes on behind the call.
    pub(crate) fn set_answer(&mut self, hart: u8, value: i64)
        ensures after { self.new ≡ record self.old {
          state = with_hart self.old.state hart (answered value);
        } }
    {
        self.slots.answer(hart, value);
    }

    /// Puts another hart into the slot of a ready one.
    pub(crate) fn put(&mut self, slot: u8, hart: Hart)
        requires ready { is_ready_at self.old.state slot ≡ true }
        ensures after { self.new ≡ record self.old {
          state = with_hart self.old.state slot (λ before. hart);
        } }
    {
        self.slots.put(slot, hart);
    }

    /// Stores the low bytes of a number where they may be written, which ends the reservations that
    /// they touch. Where `noted`, the log gets a note of what stood there.
    pub(crate) fn store(
        &mut self,
        address: u64,
        width: Width,
        value: u64,
        log: &mut Log,
        noted: bool,
    )
        requires writable { can_write self.old.state.memory address (bytes_in width) ≡ true }
        requires room { noted ≡ true → 1 ≤ log.old.spare }
        ensures after { self.new ≡ record self.old {
          state = stored self.old.state address (low_bytes (bytes_in width) value);
        } }
        ensures notes { Notes noted log.old.notes log.new.notes
            (space_of self.old) (space_of self.new) }
        ensures few { length log.new.notes ≤ length log.old.notes + 1 }
        ensures room { log.old.spare ≤ log.new.spare + 1 }
    {
        self.guest.store(address, width, value, log, noted);
        self.slots.touch(address, width.bytes());
    }

    /// Wakes the waiters at a place that have waited longest, at most so many, and answers how many
    /// they are.
    pub(crate) fn rouse(&mut self, place: u64, most: u32) -> u32
        ensures count { result ≡ length (woken place most self.old.state.waiting) }
        ensures after { self.new ≡ record self.old {
          state = roused self.old.state place most;
        } }
    {
        let woken = self.queue.wake(place, most);
        self.slots.wake(&woken);
        woken.count
    }

    /// Makes a ready hart wait at a place, behind its call.
    pub(crate) fn sleep(&mut self, hart: u8, place: u64)
        requires ready { is_ready_at self.old.state hart ≡ true }
        ensures after { self.new ≡ record self.old {
          state = queued self.old.state hart place;
        } }
    {
        let _at_most_64 = self.slots.len();
        self.queue.enqueue(hart, place);
        self.slots.wait(hart, place);
    }

    /// Makes a ready hart exit. Its clear place is left as it was.
    pub(crate) fn leave(&mut self, hart: u8, code: u64)
        requires ready { is_ready_at self.old.state hart ≡ true }
        ensures after { self.new ≡ record self.old {
          state = record self.old.state {
            slots = changed (departed code) hart self.old.state.slots;
          };
        } }
    {
        self.slots.leave(hart, code);
    }
}

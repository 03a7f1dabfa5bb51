//! Ordinary calls that want no memory, each with the closing of frames and the step that it counts.
ghost use Rattle.std.specs.Prelude.{◌≡◌, ◌+◌, ◌<◌, ◌≤◌, Some, slice_get, true, length};
ghost use Rattle.guest_words.specs.CallChanges.{answered, clear_of, cleared, clones, exits, free_slot, queued, wakes, with_parent_tid};
ghost use Rattle.guest_words.specs.State.{with_closed, with_hart};
ghost use Rattle.guest_memory.specs.Noting.{Notes};
ghost use Rattle.run_history.specs.After.{counted};
ghost use Rattle.run_history.specs.Legal.{is_ready_at};
ghost use Rattle.hart_step.specs.Live.{space_of};

use crate::engine::Engine;
use guest_words::Width;
use guest_words::linux::CLONE_PARENT_SETTID;
use undo_log::Log;

impl Engine {
    /// A call answers a value at once.
    pub(crate) fn give(&mut self, hart: u8, value: i64)
        requires left { self.old.state.steps < self.old.state.budget }
        ensures after { self.new ≡ record self.old {
          state = counted self.old.state
              (with_closed (with_hart self.old.state hart (answered value)) hart);
        } }
    {
        self.set_answer(hart, value);
        self.finish(hart);
    }

    /// A hart waits.
    pub(crate) fn wait_at(&mut self, hart: u8, place: u64)
        requires ready { is_ready_at self.old.state hart ≡ true }
        requires left { self.old.state.steps < self.old.state.budget }
        ensures after { self.new ≡ record self.old {
          state = counted self.old.state (with_closed (queued self.old.state hart place) hart);
        } }
    {
        self.sleep(hart, place);
        self.finish(hart);
    }

    /// A hart wakes others.
    pub(crate) fn wake_at(&mut self, hart: u8, place: u64, most: u32)
        requires left { self.old.state.steps < self.old.state.budget }
        ensures after { self.new ≡ record self.old {
          state = counted self.old.state
              (with_closed (wakes self.old.state hart place most) hart);
        } }
    {
        let count = self.rouse(place, most);
        self.set_answer(hart, i64::from(count));
        self.finish(hart);
    }

    /// A hart exits: the word at its clear place becomes 0, and a waiter there is woken.
    pub(crate) fn exit(&mut self, hart: u8, code: u64, log: &mut Log, noted: bool)
        requires ready { is_ready_at self.old.state hart ≡ true }
        requires left { self.old.state.steps < self.old.state.budget }
        requires room { noted ≡ true → 1 ≤ log.old.spare }
        ensures after { self.new ≡ record self.old {
          state = counted self.old.state (with_closed (exits self.old.state hart code) hart);
        } }
        ensures notes { Notes noted log.old.notes log.new.notes
            (space_of self.old) (space_of self.new) }
        ensures few { length log.new.notes ≤ length log.old.notes + 1 }
        ensures room { log.old.spare ≤ log.new.spare + 1 }
    {
        let place = self.clear_at(hart);
        self.leave(hart, code);
        self.clear(place, log, noted);
        self.finish(hart);
    }

    fn clear_at(&self, hart: u8) -> u64
        ensures value { result ≡ clear_of (slice_get self.now.state.slots hart) }
    {
        match self.slots.hart(hart) {
            None => 0,
            Some(alone) => alone.clear,
        }
    }

    // The word at a clear place becomes 0, and one waiter there is woken.
    fn clear(&mut self, place: u64, log: &mut Log, noted: bool)
        requires room { noted ≡ true → 1 ≤ log.old.spare }
        ensures after { self.new ≡ record self.old { state = cleared self.old.state place } }
        ensures notes { Notes noted log.old.notes log.new.notes
            (space_of self.old) (space_of self.new) }
        ensures few { length log.new.notes ≤ length log.old.notes + 1 }
        ensures room { log.old.spare ≤ log.new.spare + 1 }
    {
        if place != 0 && self.guest.memory.can_write(place, 4) {
            self.store(place, Width::Four, 0, log, noted);
            self.rouse(place, 1);
        }
    }

    /// A hart makes another in a free slot.
    pub(crate) fn clone(
        &mut self,
        hart: u8,
        slot: u8,
        flags: u64,
        stack: u64,
        parent: u64,
        tls: u64,
        child: u64,
        log: &mut Log,
        noted: bool,
    )
        requires free { free_slot self.old.state.slots ≡ Some slot }
        requires left { self.old.state.steps < self.old.state.budget }
        requires room { noted ≡ true → 1 ≤ log.old.spare }
        ensures after { self.new ≡ record self.old {
          state = counted self.old.state (with_closed
              (clones self.old.state hart slot flags stack parent tls child) hart);
        } }
        ensures notes { Notes noted log.old.notes log.new.notes
            (space_of self.old) (space_of self.new) }
        ensures few { length log.new.notes ≤ length log.old.notes + 1 }
        ensures room { log.old.spare ≤ log.new.spare + 1 }
    {
        let tid = self.next_tid;
        self.add(hart, slot, flags, stack, tls, child);
        self.set_answer(hart, i64::from(tid));
        self.tell_parent(flags, parent, tid, log, noted);
        self.close(hart);
    }

    // The tid goes to the parent's place, where the flags ask for it and the word can be written.
    fn tell_parent(&mut self, flags: u64, place: u64, tid: u32, log: &mut Log, noted: bool)
        requires room { noted ≡ true → 1 ≤ log.old.spare }
        ensures after { self.new ≡ record self.old {
          state = with_parent_tid self.old.state flags place tid;
        } }
        ensures notes { Notes noted log.old.notes log.new.notes
            (space_of self.old) (space_of self.new) }
        ensures few { length log.new.notes ≤ length log.old.notes + 1 }
        ensures room { log.old.spare ≤ log.new.spare + 1 }
    {
        if flags & CLONE_PARENT_SETTID != 0 && self.guest.memory.can_write(place, 4) {
            self.store(place, Width::Four, u64::from(tid), log, noted);
        }
    }
}

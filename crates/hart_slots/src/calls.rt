ghost use Rattle.std.specs.Prelude.{◌≡◌, List, slice_get};
ghost use Rattle.guest_words.specs.declared.hart.Waiter.{Waiter};
ghost use Rattle.guest_words.specs.State.{changed, on_hart};
ghost use Rattle.guest_words.specs.CallChanges.{answered, asleep, departed, readied};
ghost use Rattle.guest_words.specs.CallChanges.{child_slot, with_child};
ghost use Rattle.run_history.specs.After.{given_back};
ghost use Rattle.futex_table.specs.Slots.{MarksSlots};

use crate::Slots;
use crate::child::child_of;
use crate::harts::ready_marked;
use crate::registers::{answered, give_back};
use futex_table::Woken;
use guest_words::{Hart, HartState, Ret};

impl Slots {
    /// Gives the answer of a call to a hart, which goes on behind the call.
    pub fn answer(&mut self, h: u8, value: i64)
        ensures value { self.new ≡ changed (on_hart (answered value)) h self.old }
    {
        if let Some(&hart) = self.hart(h) {
            self.put(h, answered(&hart, value));
        }
    }

    /// Makes a hart wait at a guest address, behind its call.
    pub fn wait(&mut self, h: u8, place: u64)
        ensures value { self.new ≡ changed (on_hart (asleep place)) h self.old }
    {
        if let Some(&hart) = self.hart(h) {
            let state = HartState::Waiting(place);
            self.put(
                h,
                Hart {
                    state,
                    ..answered(&hart, 0)
                },
            );
        }
    }

    /// Makes the harts of woken waiters ready.
    pub fn wake(&mut self, woken: &Woken)
        ensures value { (waiters : List Waiter)
            → MarksSlots woken.now.slots waiters
            → self.new ≡ readied waiters self.old }
    {
        ready_marked(&mut self.harts, &woken.slots);
    }

    /// Makes a hart exit: it keeps pc and registers, and its frames are gone.
    pub fn leave(&mut self, h: u8, code: u64)
        ensures value { self.new ≡ changed (departed code) h self.old }
    {
        if let Some(&hart) = self.hart(h) {
            self.put(
                h,
                Hart {
                    arrived: false,
                    reservation: None,
                    state: HartState::Gone(code),
                    ..hart
                },
            );
            self.keep_frames(h, 0);
        }
    }

    /// Puts a new hart into a slot, made from its parent's.
    pub fn add(&mut self, h: u8, slot: u8, flags: u64, stack: u64, tls: u64, child: u64, tid: u32)
        ensures value { self.new ≡ with_child slot (child_slot flags stack tls child tid)
            (slice_get self.old h) self.old }
    {
        if let Some(&parent) = self.hart(h) {
            self.put(slot, child_of(&parent, flags, stack, tls, child, tid));
            self.keep_frames(slot, 0);
        }
    }

    /// Makes a hart return at once from the call that it has just come to.
    pub fn give_back(&mut self, h: u8, ret: Ret)
        ensures value { self.new ≡ changed (on_hart (given_back ret)) h self.old }
    {
        if usize::from(h) < self.len() {
            give_back(self.hart_mut(h), ret);
        }
    }
}

//! Parts of a row of acts: instructions at full speed, and single acts.
ghost use Rattle.std.specs.Prelude.{◌≡◌, ◌+◌, ◌^◌, ◌<◌, ◌≤◌, true, false, Some, map, slice_get, length};
ghost use Rattle.guest_words.specs.declared.hart.Slot.{Slot};
ghost use Rattle.guest_words.specs.Endings.{is_budget_spent};
ghost use Rattle.guest_words.specs.State.{frames_at};
ghost use Rattle.guest_atomics.specs.Free.{IsFreeBut};
ghost use Rattle.guest_memory.specs.Noting.{Notes};
ghost use Rattle.hart_slots.specs.Rejoined.{hart_of};
ghost use Rattle.run_history.specs.Legal.{is_ready_at};
ghost use Rattle.hart_step.specs.InPlace.{HasZero};
ghost use Rattle.hart_step.specs.Legs.{did_at, IsLeg};
ghost use Rattle.hart_step.specs.Live.{space_of};
ghost use Rattle.hart_step.specs.Stops.{is_held, wants_memory, Stops};

use crate::did::Did;
use crate::engine::Engine;
use crate::next_act::NextAct;
use undo_log::Log;

/// Some acts in a row.
#[derive(Drop)]
pub(crate) struct Leg {
    /// How many were made.
    pub(crate) count: u32,
    /// Whether the row ends with them.
    pub(crate) is_last: bool,
    /// The act that stopped them, if the row ends.
    pub(crate) next: Option<NextAct>,
}

impl Leg {
    fn on(count: u32) -> Leg
        ensures value { result ≡ record { count = count; is_last = false; next = None } }
    {
        Leg {
            count,
            is_last: false,
            next: None,
        }
    }

    fn last(count: u32, next: Option<NextAct>) -> Leg
        ensures value { result ≡ record { count = count; is_last = true; next = next } }
    {
        Leg {
            count,
            is_last: true,
            next,
        }
    }

    // The acts with so many before them.
    fn behind(self, count: u32) -> Leg
        requires fits { count + self.count < 2 ^ 32 }
        ensures value { result ≡ record self { count = count + self.count } }
    {
        Leg {
            count: count + self.count,
            is_last: self.is_last,
            next: self.next,
        }
    }
}

impl Engine {
    /// The next acts of a hart, at most so many: instructions, or else a single act.
    pub(crate) fn leg(&mut self, hart: u8, most: u32, log: &mut Log, noted: bool) -> Leg
        requires most { 0 < most }
        requires room { noted ≡ true → most ≤ log.old.spare }
        ensures within { result.count ≤ most }
        ensures leg { IsLeg noted self.old.state self.new.state hart result.count }
        ensures more { result.is_last ≡ false → 0 < result.count }
        ensures stays { result.is_last ≡ false
            → frames_at self.new.state hart ≡ frames_at self.old.state hart }
        ensures stops { result.is_last ≡ true
            → Stops noted self.old.state self.new.state hart result.next }
        ensures notes { Notes noted log.old.notes log.new.notes
            (space_of self.old) (space_of self.new) }
        ensures few { length log.new.notes ≤ length log.old.notes + result.count }
        ensures room { log.old.spare ≤ log.new.spare + result.count }
    {
        if self.is_held(hart) {
            return Leg::last(0, None);
        }
        if !self.may_hurry(hart) {
            return self.act_leg(hart, log, noted);
        }
        let ran = self.hurry(hart, most, log, noted);
        if ran.closed {
            return Leg::last(ran.count, None);
        }
        if ran.count == most {
            return Leg::on(ran.count);
        }
        if self.is_held(hart) {
            return Leg::last(ran.count, None);
        }
        self.known_leg(hart, ran.did, log, noted).behind(ran.count)
    }

    // A single act, of which it is known what the hart does.
    fn known_leg(&mut self, hart: u8, did: Did, log: &mut Log, noted: bool) -> Leg
        requires free { is_held self.old.state hart ≡ false }
        requires did { did_at self.old.state hart ≡ Some did }
        requires room { noted ≡ true → 1 ≤ log.old.spare }
        ensures within { result.count ≤ 1 }
        ensures leg { IsLeg noted self.old.state self.new.state hart result.count }
        ensures more { result.is_last ≡ false → 0 < result.count }
        ensures stays { result.is_last ≡ false
            → frames_at self.new.state hart ≡ frames_at self.old.state hart }
        ensures stops { result.is_last ≡ true
            → Stops noted self.old.state self.new.state hart result.next }
        ensures notes { Notes noted log.old.notes log.new.notes
            (space_of self.old) (space_of self.new) }
        ensures few { length log.new.notes ≤ length log.old.notes + result.count }
        ensures room { log.old.spare ≤ log.new.spare + result.count }
    {
        match did {
            Did::Fault(name) => Leg::last(0, Some(NextAct::Fault(name))),
            _ => self.act_leg(hart, log, noted),
        }
    }

    // A single act.
    fn act_leg(&mut self, hart: u8, log: &mut Log, noted: bool) -> Leg
        requires free { is_held self.old.state hart ≡ false }
        requires room { noted ≡ true → 1 ≤ log.old.spare }
        ensures within { result.count ≤ 1 }
        ensures leg { IsLeg noted self.old.state self.new.state hart result.count }
        ensures more { result.is_last ≡ false → 0 < result.count }
        ensures stays { result.is_last ≡ false
            → frames_at self.new.state hart ≡ frames_at self.old.state hart }
        ensures stops { result.is_last ≡ true
            → Stops noted self.old.state self.new.state hart result.next }
        ensures notes { Notes noted log.old.notes log.new.notes
            (space_of self.old) (space_of self.new) }
        ensures few { length log.new.notes ≤ length log.old.notes + result.count }
        ensures room { log.old.spare ≤ log.new.spare + result.count }
    {
        if let Some(point) = self.arrival(hart) {
            return Leg::last(0, Some(NextAct::Arrival(point)));
        }
        if self.wants_memory(hart, noted) {
            return Leg::last(0, Some(self.next_act(hart)));
        }
        let frames = self.frame_count(hart);
        match self.advance_free(hart, log, noted) {
            NextAct::Ordinary if self.frame_count(hart) < frames => Leg::last(1, None),
            NextAct::Ordinary => Leg::on(1),
            next => Leg::last(0, Some(next)),
        }
    }

    // Whether a hart can't go on.
    fn is_held(&self, hart: u8) -> bool
        ensures value { result ≡ is_held self.now.state hart }
    {
        !self.is_ready(hart) || self.is_budget_spent()
    }

    // Whether a hart may carry out instructions with no look at the others: none of them has a
    // reservation that a store could end.
    fn may_hurry(&self, hart: u8) -> bool
        ensures zero { result ≡ true
            → (slot : Slot) → slice_get self.now.state.slots hart ≡ Some slot → HasZero slot.hart }
        ensures free { result ≡ true → IsFreeBut hart (map hart_of self.now.state.slots) }
    {
        self.slots.is_free_but(hart) && self.has_zero(hart)
    }

    fn has_zero(&self, hart: u8) -> bool
        ensures zero { result ≡ true
            → (slot : Slot) → slice_get self.now.state.slots hart ≡ Some slot → HasZero slot.hart }
    {
        match self.slots.hart(hart) {
            Some(standing) => standing.regs[0] == 0,
            None => false,
        }
    }

    // Whether the hart's next act is a call that can want memory.
    fn wants_memory(&self, hart: u8, noted: bool) -> bool
        ensures value { result ≡ wants_memory noted self.now.state hart }
    {
        match self.slots.hart(hart) {
            Some(standing) => {
                let frames = self.slots.frame_count(hart);
                self.guest.wants_memory(standing, frames, noted)
            }
            None => false,
        }
    }
}

//! Instructions of a hart in a row, at full speed.
ghost use Rattle.std.specs.Prelude.{◌≡◌, ◌+◌, ◌<◌, ◌≤◌, true, false, if◌then◌else◌, Some, length, map, slice_get};
ghost use Rattle.guest_words.specs.declared.hart.Slot.{Slot};
ghost use Rattle.guest_words.specs.Endings.{is_budget_spent};
ghost use Rattle.guest_words.specs.State.{changed, closed, frames_at};
ghost use Rattle.guest_atomics.specs.Free.{IsFreeBut};
ghost use Rattle.guest_memory.specs.Noting.{Notes};
ghost use Rattle.hart_slots.specs.Rejoined.{hart_of};
ghost use Rattle.run_history.specs.Legal.{is_ready_at};
ghost use Rattle.hart_step.specs.InPlace.{HasZero};
ghost use Rattle.hart_step.specs.Legs.{did_at, HasRun, IsLeg};
ghost use Rattle.hart_step.specs.Live.{space_of};

use crate::engine::Engine;
use crate::guest::Guest;
use crate::quantum::Ran;
use hart_slots::Slots;
use undo_log::Log;

impl Engine {
    /// Instructions of a ready hart in a row, at most so many; the one that closes a frame is the
    /// last. No other hart has a reservation that a store could end.
    pub(crate) fn hurry(&mut self, hart: u8, most: u32, log: &mut Log, noted: bool) -> Ran
        requires ready { is_ready_at self.old.state hart ≡ true }
        requires left { is_budget_spent self.old.state ≡ false }
        requires zero { (slot : Slot)
            → slice_get self.old.state.slots hart ≡ Some slot
            → HasZero slot.hart }
        requires free { IsFreeBut hart (map hart_of self.old.state.slots) }
        requires room { noted ≡ true → most ≤ log.old.spare }
        ensures within { result.count ≤ most }
        ensures leg { IsLeg noted self.old.state self.new.state hart result.count }
        ensures stays { result.closed ≡ false
            → frames_at self.new.state hart ≡ frames_at self.old.state hart }
        ensures closed { result.closed ≡ true
            → frames_at self.new.state hart < frames_at self.old.state hart }
        ensures stops { result.closed ≡ false → result.count < most
            → is_budget_spent self.new.state ≡ false
            → did_at self.new.state hart ≡ Some result.did }
        ensures notes { Notes noted log.old.notes log.new.notes
            (space_of self.old) (space_of self.new) }
        ensures few { length log.new.notes ≤ length log.old.notes + result.count }
        ensures room { log.old.spare ≤ log.new.spare + result.count }
    {
        let most = (self.budget - self.steps).min(u64::from(most)) as u32;
        let ran = in_row(&mut self.guest, &mut self.slots, hart, log, most, noted);
        close_where(&mut self.slots, hart, ran.closed);
        self.steps += u64::from(ran.count);
        ran
    }
}

fn in_row(
    guest: &mut Guest,
    slots: &mut Slots,
    hart: u8,
    log: &mut Log,
    most: u32,
    noted: bool,
) -> Ran
    requires within { hart < length slots.old }
    requires zero { (slot : Slot) → slice_get slots.old hart ≡ Some slot → HasZero slot.hart }
    requires room { noted ≡ true → most ≤ log.old.spare }
    ensures within { result.count ≤ most }
    ensures row { HasRun guest.old.points hart slots.old slots.new guest.old.memory
        guest.new.memory result.count most result.closed result.did }
    ensures notes { Notes noted log.old.notes log.new.notes guest.old.memory guest.new.memory }
    ensures few { length log.new.notes ≤ length log.old.notes + result.count }
    ensures spare { log.old.spare ≤ log.new.spare + result.count }
    ensures points { guest.new.points ≡ guest.old.points }
{
    let frames = slots.frame_count(hart);
    let top = slots.top(hart);
    guest.run(slots.hart_mut(hart), log, frames, &top, most, noted)
}

fn close_where(slots: &mut Slots, hart: u8, closes: bool)
    ensures value { slots.new ≡ (if closes then changed closed hart slots.old else slots.old) }
{
    if closes {
        slots.close(hart);
    }
}

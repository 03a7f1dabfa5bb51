//! Calls that change which pages are there.
ghost use Rattle.std.specs.Prelude.{length};
ghost use Rattle.std.specs.Prelude.{◌≡◌, ◌+◌, ◌-◌, ◌*◌, ◌/◌, ◌^◌, ◌<◌, ◌≤◌, false, max, IsFalse, IsTrue, OnErr, OnOk, Some, true};
ghost use Rattle.guest_words.specs.Act.{replied};
ghost use Rattle.guest_words.specs.Space.{page_up};
ghost use Rattle.guest_words.specs.Calls.{reply_of};
ghost use Rattle.hart_step.specs.SlotActs.{FitsIn};
ghost use Rattle.guest_words.specs.CallChanges.{breaks, facts_of, gained, lost, maps, unmaps, with_break};
ghost use Rattle.guest_words.specs.State.{with_closed};
ghost use Rattle.guest_memory.specs.Noting.{Notes};
ghost use Rattle.guest_pages.specs.Stretch.{IsFree, IsPlace};
ghost use Rattle.run_history.specs.After.{counted, moved};
ghost use Rattle.hart_step.specs.Live.{space_of};
ghost use Rattle.hart_step.specs.Noted.{notes_of_call};
ghost use Rattle.hart_step.specs.Sees.{named};
ghost use Rattle.hart_step.specs.Stops.{can_want};

use crate::engine::Engine;
use crate::next_act::NextAct;
use guest_words::limits::{HEAP_BYTES, PAGE};
use guest_words::{MemoryWant, Reply, Request, Rights};
use std::alloc::Global;
use undo_log::Log;

impl Engine {
    /// Pages of zeros come at a place of the area of mapped pages.
    pub(crate) fn map_pages(
        &mut self,
        alloc: Global,
        hart: u8,
        place: u64,
        count: u64,
        rights: Rights,
        log: &mut Log,
        noted: bool,
    ) -> Result<(), MemoryWant>
        requires place { IsPlace count place }
        requires free { IsFree self.old.state.memory place (PAGE * count) }
        requires readable { IsTrue rights.write → IsTrue rights.read }
        requires data { IsFalse rights.exec }
        requires left { self.old.state.steps < self.old.state.budget }
        requires room { noted ≡ true → 1 ≤ log.old.spare }
        ensures after { OnOk result (self.new ≡ record self.old {
          state = counted self.old.state
              (with_closed (maps self.old.state hart place count rights) hart);
        }) }
        ensures notes { OnOk result (Notes noted log.old.notes log.new.notes
            (space_of self.old) (space_of self.new)) }
        ensures few { length log.new.notes ≤ length log.old.notes + 1 }
        ensures room { log.old.spare ≤ log.new.spare + 1 }
        ensures err { OnErr result ((self.new ≡ self.old) × (log.new ≡ log.old)) }
    {
        self.gain(alloc, place, count, rights, log, noted)?;
        self.give(hart, place as i64);
        Ok(())
    }

    /// Those of so many pages from a place on that are there go.
    pub(crate) fn unmap_pages(
        &mut self,
        hart: u8,
        place: u64,
        count: u64,
        log: &mut Log,
        noted: bool,
    )
        requires place { IsPlace count place }
        requires left { self.old.state.steps < self.old.state.budget }
        requires room { noted ≡ true → count ≤ log.old.spare }
        ensures after { self.new.state ≡ counted self.old.state
            (with_closed (unmaps self.old.state hart place count) hart) }
        ensures notes { Notes noted log.old.notes log.new.notes
            (space_of self.old) (space_of self.new) }
        ensures few { length log.new.notes ≤ length log.old.notes + count }
        ensures room { log.old.spare ≤ log.new.spare + count }
        ensures plain { noted ≡ false → log.new ≡ log.old }
    {
        self.lose(place, count, log, noted);
        self.give(hart, 0);
    }

    fn gain(
        &mut self,
        alloc: Global,
        from: u64,
        count: u64,
        rights: Rights,
        log: &mut Log,
        noted: bool,
    ) -> Result<(), MemoryWant>
        requires place { IsPlace count from }
        requires free { IsFree self.old.state.memory from (PAGE * count) }
        requires readable { IsTrue rights.write → IsTrue rights.read }
        requires data { IsFalse rights.exec }
        requires room { noted ≡ true → 1 ≤ log.old.spare }
        ensures after { OnOk result (self.new ≡ record self.old {
          state = gained self.old.state from (PAGE * count) rights;
        }) }
        ensures notes { OnOk result (Notes noted log.old.notes log.new.notes
            (space_of self.old) (space_of self.new)) }
        ensures few { length log.new.notes ≤ length log.old.notes + 1 }
        ensures room { log.old.spare ≤ log.new.spare + 1 }
        ensures err { OnErr result ((self.new ≡ self.old) × (log.new ≡ log.old)) }
    {
        // The heap lies below.
        let _low = self.guest.memory.low();
        self.guest.map(alloc, from, count, rights, log, noted)?;
        self.slots.touch(from, PAGE * count);
        Ok(())
    }

    fn lose(&mut self, from: u64, count: u64, log: &mut Log, noted: bool)
        requires place { IsPlace count from }
        requires room { noted ≡ true → count ≤ log.old.spare }
        ensures after { self.new ≡ record self.old {
          state = lost self.old.state from (PAGE * count);
          spare = self.new.spare;
        } }
        ensures notes { Notes noted log.old.notes log.new.notes
            (space_of self.old) (space_of self.new) }
        ensures few { length log.new.notes ≤ length log.old.notes + count }
        ensures room { log.old.spare ≤ log.new.spare + count }
        ensures plain { noted ≡ false → log.new ≡ log.old }
    {
        self.guest.unmap(from, count, log, noted);
        self.slots.touch(from, PAGE * count);
    }

    /// Makes a call that can want memory, where that changes pages or answers a value.
    pub(crate) fn serve_wanting(
        &mut self,
        alloc: Global,
        hart: u8,
        request: &Request,
        log: &mut Log,
        noted: bool,
    ) -> Result<(), MemoryWant>
        requires left { self.old.state.steps < self.old.state.budget }
        requires wants { can_want true request.now ≡ true }
        requires room { noted ≡ true
            → notes_of_call self.old.state request.now ≤ log.old.spare }
        ensures value { named (replied self.old.state hart
            (reply_of request.now (facts_of self.old.state hart request.now)) request.now)
            ≡ Some NextAct.Ordinary }
        ensures after { OnOk result (self.new.state ≡ moved self.old.state
            (replied self.old.state hart
            (reply_of request.now (facts_of self.old.state hart request.now)) request.now)) }
        ensures notes { OnOk result (Notes noted log.old.notes log.new.notes
            (space_of self.old) (space_of self.new)) }
        ensures few { length log.new.notes
            ≤ length log.old.notes + notes_of_call self.old.state request.now }
        ensures room { log.old.spare
            ≤ log.new.spare + notes_of_call self.old.state request.now }
        ensures err { OnErr result ((self.new ≡ self.old) × (log.new ≡ log.old)) }
    {
        let reply = self.reply(hart, request);
        self.give_wanting(alloc, hart, request, reply, log, noted)
    }

    fn give_wanting(
        &mut self,
        alloc: Global,
        hart: u8,
        request: &Request,
        reply: Reply,
        log: &mut Log,
        noted: bool,
    ) -> Result<(), MemoryWant>
        requires left { self.old.state.steps < self.old.state.budget }
        requires wants { can_want true request.now ≡ true }
        requires reply { reply
            ≡ reply_of request.now (facts_of self.old.state hart request.now) }
        requires fits { FitsIn self.old.state reply }
        requires room { noted ≡ true
            → notes_of_call self.old.state request.now ≤ log.old.spare }
        ensures value { named (replied self.old.state hart reply request.now)
            ≡ Some NextAct.Ordinary }
        ensures after { OnOk result (self.new.state
            ≡ moved self.old.state (replied self.old.state hart reply request.now)) }
        ensures notes { OnOk result (Notes noted log.old.notes log.new.notes
            (space_of self.old) (space_of self.new)) }
        ensures few { length log.new.notes
            ≤ length log.old.notes + notes_of_call self.old.state request.now }
        ensures room { log.old.spare
            ≤ log.new.spare + notes_of_call self.old.state request.now }
        ensures err { OnErr result ((self.new ≡ self.old) × (log.new ≡ log.old)) }
    {
        // The break lies in the heap.
        let _low = self.guest.memory.low();
        match reply {
            Reply::Value(value) => {
                self.give(hart, value);
                Ok(())
            }
            Reply::Break { to } => self.move_break(alloc, hart, to, log, noted),
            Reply::Map {
                place,
                count,
                rights,
            } => self.map_pages(alloc, hart, place, count, rights, log, noted),
            Reply::Unmap { place, count } => {
                self.unmap_pages(hart, place, count, log, noted);
                Ok(())
            }
            _ => unreachable!(),
        }
    }

    /// The break moves within the heap, and its pages come or go.
    fn move_break(
        &mut self,
        alloc: Global,
        hart: u8,
        to: u64,
        log: &mut Log,
        noted: bool,
    ) -> Result<(), MemoryWant>
        requires low { self.old.state.low ≤ to }
        requires high { to ≤ self.old.state.low + HEAP_BYTES }
        requires left { self.old.state.steps < self.old.state.budget }
        requires room { noted ≡ true
            → 1 + max 1 ((page_up self.old.state.brk - page_up to) / PAGE) ≤ log.old.spare }
        ensures after { OnOk result (self.new.state ≡ counted self.old.state
            (with_closed (breaks self.old.state hart to) hart)) }
        ensures notes { OnOk result (Notes noted log.old.notes log.new.notes
            (space_of self.old) (space_of self.new)) }
        ensures few { length log.new.notes ≤ length log.old.notes
            + (1 + max 1 ((page_up self.old.state.brk - page_up to) / PAGE)) }
        ensures room { log.old.spare ≤ log.new.spare
            + (1 + max 1 ((page_up self.old.state.brk - page_up to) / PAGE)) }
        ensures err { OnErr result ((self.new ≡ self.old) × (log.new ≡ log.old)) }
    {
        let _low = self.guest.memory.low();
        self.set_break(alloc, to, log, noted)?;
        self.give(hart, to as i64);
        Ok(())
    }

    fn set_break(
        &mut self,
        alloc: Global,
        to: u64,
        log: &mut Log,
        noted: bool,
    ) -> Result<(), MemoryWant>
        requires low { self.old.state.low ≤ to }
        requires high { to ≤ self.old.state.low + HEAP_BYTES }
        requires room { noted ≡ true
            → 1 + max 1 ((page_up self.old.state.brk - page_up to) / PAGE) ≤ log.old.spare }
        ensures after { OnOk result (self.new ≡ record self.old {
          state = with_break self.old.state to;
          spare = self.new.spare;
        }) }
        ensures notes { OnOk result (Notes noted log.old.notes log.new.notes
            (space_of self.old) (space_of self.new)) }
        ensures few { length log.new.notes ≤ length log.old.notes
            + (1 + max 1 ((page_up self.old.state.brk - page_up to) / PAGE)) }
        ensures room { log.old.spare ≤ log.new.spare
            + (1 + max 1 ((page_up self.old.state.brk - page_up to) / PAGE)) }
        ensures err { OnErr result ((self.new ≡ self.old) × (log.new ≡ log.old)) }
    {
        let _low = self.guest.memory.low();
        let old = page_up(self.guest.memory.brk());
        let new = page_up(to);
        self.guest.move_brk(alloc, to, log, noted)?;
        self.slots.touch(old, new.saturating_sub(old));
        self.slots.touch(new, old.saturating_sub(new));
        Ok(())
    }
}

/// The least multiple of a page's size that is no less.
pub(crate) fn page_up(n: u64) -> u64
    requires below { n < 2 ^ 63 }
    ensures value { result ≡ page_up n }
{
    n.div_ceil(PAGE) * PAGE
}

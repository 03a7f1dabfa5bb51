//! Changes of the state beside acts: entering a point, the answer of a device, a rescue, the end.
ghost use Rattle.std.specs.Prelude.{◌≡◌, ◌+◌, ◌≤◌, true, false, drop, length, map, slice_get, take, Some};
ghost use Rattle.std.specs.Prelude.{IfOk, OnErr, OnOk};
ghost use Rattle.std.specs.Option.{option_map};
ghost use Rattle.guest_words.specs.Act.{act_of, fits};
ghost use Rattle.guest_words.specs.Endings.{is_budget_spent};
ghost use Rattle.guest_words.specs.Harts.{unreserved};
ghost use Rattle.guest_words.specs.Space.{can_write};
ghost use Rattle.guest_words.specs.State.{changed, closed, enter, on_each, on_hart};
ghost use Rattle.guest_memory.specs.Noting.{Notes};
ghost use Rattle.hart_slots.specs.Rejoined.{hart_of};
ghost use Rattle.run_history.specs.After.{called, given_back, rescued_from};
ghost use Rattle.undo_log.specs.Undo.{gone_in};
ghost use Rattle.hart_step.specs.DeviceAnswers.{place_named, read_into, read_over, shut_by};
ghost use Rattle.hart_step.specs.Live.{space_of};
ghost use Rattle.hart_step.specs.Returns.{rolled_back, space_before, CanReturn};

use crate::engine::Engine;
use crate::guest::Guest;
use checkpoints::Checkpoint;
use guest_syscalls::ask;
use guest_words::{Ending, Fault, MemoryWant, PointRef, Record, Request, Ret, Way};
use hart_slots::Slots;
use std::alloc::Global;
use undo_log::Log;

impl Engine {
    /// Equal copies of the harts and of the waiting list, with the next tid and this number of
    /// records.
    pub fn checkpoint(&self, alloc: Global, records: u64) -> Result<Checkpoint, MemoryWant>
        ensures harts { IfOk result (λ kept. kept.harts ≡ map hart_of self.now.state.slots) }
        ensures queue { IfOk result (λ kept. kept.queue ≡ self.now.state.waiting) }
        ensures next_tid { IfOk result (λ kept. kept.next_tid ≡ self.now.state.next_tid) }
        ensures records { IfOk result (λ kept. kept.records ≡ records) }
        ensures returns { IfOk result (λ kept.
            CanReturn kept (space_of self.now) self.now.state.steps) }
    {
        Checkpoint::of(
            alloc,
            self.slots.harts(),
            &self.queue,
            records,
            self.next_tid,
        )
    }

    /// A hart enters a point: its frame opens, and no hart keeps a reservation.
    pub fn enter(&mut self, hart: u8, point: PointRef) -> Result<(), MemoryWant>
        ensures ok { OnOk result (self.new ≡ record self.old {
          state = enter self.old.state hart point;
        }) }
        ensures err { OnErr result (self.new ≡ self.old) }
    {
        self.slots.open(hart, point)?;
        self.slots.unreserve();
        Ok(())
    }

    /// A call on a device went as it tells: the hart has its answer, the bytes of a read are
    /// placed, and a step is counted. Where `noted`, the log gets notes of the bytes that stood
    /// there. Takes no memory.
    pub fn answer(&mut self, hart: u8, call: &Record, log: &mut Log, noted: bool)
        requires fits { fits self.old.state (act_of self.old.state hart) call.now ≡ true }
        requires left { is_budget_spent self.old.state ≡ false }
        requires room { noted ≡ true → length call.now.bytes ≤ log.old.spare }
        ensures after { self.new.state ≡ called self.old.state hart call.now }
        ensures notes { Notes noted log.old.notes log.new.notes
            (space_of self.old) (space_of self.new) }
        ensures few { length log.new.notes ≤ length log.old.notes + length call.now.bytes }
        ensures room { log.old.spare ≤ log.new.spare + length call.now.bytes }
    {
        let place = read_place(&self.slots, hart);
        put_read(&mut self.guest, &mut self.slots, place, call, log, noted);
        self.records = self.records.then(call);
        self.bytes = self.bytes.saturating_add(call.bytes.items().len() as u64);
        shut(&mut self.closed, call);
        self.steps += 1;
        self.slots.answer(hart, call.answer);
        self.slots.close(hart);
    }

    /// Puts back what was kept where a hart entered its innermost frame, and memory by the notes
    /// since then, which are those from a position of the log on; the hart returns from the point
    /// for a fault, and the point has one rescue less. The log forgets the notes that are put back.
    /// Takes no memory and is never refused.
    pub fn take_back(
        &mut self,
        hart: u8,
        kept: Checkpoint,
        log: &mut Log,
        from: u64,
        point: PointRef,
        fault: Fault,
    )
        requires count { length kept.harts ≡ length self.old.state.slots }
        requires returns { CanReturn kept (space_before self.old (drop from log.old.notes))
            self.old.state.steps }
        requires room { gone_in (drop from log.old.notes) ≤ self.old.spare }
        ensures after { self.new.state ≡ rescued_from
            (rolled_back self.old hart kept (drop from log.old.notes)) hart point fault
            self.old.state }
        ensures spare { self.new.spare ≡ (space_before self.old (drop from log.old.notes)).spare }
        ensures notes { log.new.notes ≡ take from log.old.notes }
        ensures room { log.old.spare ≤ log.new.spare }
    {
        let code = self.guest.points().code(point.entry, fault.name);
        let Checkpoint {
            harts,
            queue,
            next_tid,
            ..
        } = kept;
        log.undo_from(from, &mut self.guest);
        self.slots.put_back(hart, harts);
        self.queue.restore(queue);
        self.next_tid = next_tid;
        give_back(&mut self.slots, hart, code);
        self.guest.spend(point.entry);
    }

    /// The state after a rescue of a call that was entered in this state and met its fault in a
    /// later one. Takes no memory.
    pub fn rescue(&mut self, hart: u8, point: PointRef, fault: Fault, later: Engine)
        requires budget { later.state.budget ≡ self.old.state.budget }
        requires ports { later.state.ports ≡ self.old.state.ports }
        requires steps { self.old.state.steps ≤ later.state.steps }
        ensures after { self.new.state
            ≡ rescued_from self.old.state hart point fault later.state }
    {
        let code = self.guest.points().code(point.entry, fault.name);
        let Engine {
            guest,
            steps,
            records,
            bytes,
            closed,
            ..
        } = later;
        self.guest.take_points(guest);
        self.steps = steps;
        self.records = records;
        self.bytes = bytes;
        self.closed = closed;
        give_back(&mut self.slots, hart, code);
        self.guest.spend(point.entry);
    }

    /// Ends the run. Takes no memory.
    pub fn end(&mut self, ending: Ending)
        ensures value { self.new ≡ record self.old {
          state = record self.old.state { ending = Some ending };
        } }
    {
        self.ending = Some(ending);
    }
}

// The place in memory that a read of the hart in a slot names, or 0.
fn read_place(slots: &Slots, hart: u8) -> u64
    ensures value { result ≡ place_named (option_map hart_of (slice_get slots.now hart)) }
{
    match slots.hart(hart) {
        None => 0,
        Some(hart) => match ask(hart) {
            Request::Read { place, .. } => place,
            _ => 0,
        },
    }
}

// Places the bytes of a read, which end the reservations that they touch.
fn put_read(
    guest: &mut Guest,
    slots: &mut Slots,
    place: u64,
    call: &Record,
    log: &mut Log,
    noted: bool,
)
    requires writable { call.now.way ≡ Way.Read
        → can_write guest.old.memory.space place (length call.now.bytes) ≡ true }
    requires room { noted ≡ true → length call.now.bytes ≤ log.old.spare }
    ensures memory { guest.new ≡ record guest.old {
      memory = record guest.old.memory {
        space = read_into guest.old.memory.space place call.now;
      };
    } }
    ensures slots { slots.new ≡ read_over slots.old place call.now }
    ensures notes { Notes noted log.old.notes log.new.notes guest.old.memory guest.new.memory }
    ensures few { length log.new.notes ≤ length log.old.notes + length call.now.bytes }
    ensures room { log.old.spare ≤ log.new.spare + length call.now.bytes }
{
    if let Way::Read = call.way {
        let bytes = call.bytes.items();
        guest.fill(place, bytes, log, noted);
        slots.touch(place, bytes.len() as u64);
    }
}

// Notes that a descriptor is closed, where a call closed it.
fn shut(closed: &mut Vec<bool>, call: &Record)
    ensures value { closed.new.items ≡ shut_by call.now closed.old.items }
{
    let port = call.port as usize;
    if let Way::Close = call.way
        && port < closed.len()
    {
        closed[port] = true;
    }
}

// Makes a hart return from its call, which ends all reservations and may close frames.
fn give_back(slots: &mut Slots, hart: u8, code: Ret)
    ensures value { slots.new
        ≡ changed closed hart
        (changed (on_hart (given_back code)) hart (on_each unreserved slots.old)) }
{
    slots.unreserve();
    slots.give_back(hart, code);
    slots.close(hart);
}

//! Acts of a hart.
ghost use Rattle.std.specs.Prelude.{◌≡◌, ◌+◌, ◌<◌, ◌≤◌, true, false, if◌then◌else◌, length, Some, IfOk, OnErr, OnOk};
ghost use Rattle.guest_words.specs.Act.{replied};
ghost use Rattle.guest_words.specs.CallChanges.{facts_of};
ghost use Rattle.guest_words.specs.Calls.{is_in_area, reply_of};
ghost use Rattle.guest_words.specs.Endings.{is_budget_spent};
ghost use Rattle.guest_memory.specs.Noting.{Notes};
ghost use Rattle.run_history.specs.After.{moved, next};
ghost use Rattle.run_history.specs.Legal.{is_ready_at};
ghost use Rattle.hart_step.specs.Live.{space_of};
ghost use Rattle.hart_step.specs.Noted.{notes_for, notes_of_call};
ghost use Rattle.hart_step.specs.Sees.{is_ordinary_act, named, Sees};
ghost use Rattle.hart_step.specs.Stops.{can_want, wants_memory};

use crate::engine::Engine;
use crate::mapping::page_up;
use crate::next_act::NextAct;
use guest_syscalls::is_in_area;
use guest_words::limits::{PAGE, TRANSFER};
use guest_words::{Act, MemoryWant, Request};
use std::alloc::Global;
use undo_log::Log;

impl Engine {
    /// What the hart in a slot does next. Takes no memory.
    pub fn next_act(&self, hart: u8) -> NextAct
        requires within { hart < length self.now.state.slots }
        ensures value { Sees self.now.state hart result }
    {
        if let Some(point) = self.arrival(hart) {
            return NextAct::Arrival(point);
        }
        match self.act(hart) {
            Act::Next { .. } => NextAct::Ordinary,
            Act::Fault(name) => NextAct::Fault(name),
            Act::Call(request) => self.name(hart, &request, self.reply(hart, &request)),
            Act::Arrived(point) => NextAct::Arrival(point),
        }
    }

    /// How many notes the hart's next act can make, that of a call on a device included. Takes no
    /// memory.
    pub fn notes_for(&self, hart: u8) -> u64
        ensures value { result ≡ notes_for self.now.state hart }
    {
        if usize::from(hart) >= self.slots.len() {
            return 1;
        }
        match self.act(hart) {
            Act::Call(request) => self.notes_of(&request),
            _ => 1,
        }
    }

    /// Makes the next act of a ready hart where it is ordinary, closes its frames whose calls are
    /// over, and counts a step; else nothing changes. What it was is answered. Where `noted`, the
    /// log gets a note of all that is overwritten. It wants memory only for pages that a call asks
    /// for, and after an Err all is as before.
    pub fn advance(
        &mut self,
        alloc: Global,
        hart: u8,
        log: &mut Log,
        noted: bool,
    ) -> Result<NextAct, MemoryWant>
        requires ready { is_ready_at self.old.state hart ≡ true }
        requires left { is_budget_spent self.old.state ≡ false }
        requires room { noted ≡ true → notes_for self.old.state hart ≤ log.old.spare }
        ensures value { IfOk result (Sees self.old.state hart) }
        ensures after { IfOk result (λ is. is_ordinary_act is ≡ true
            → self.new.state ≡ next self.old.state hart) }
        ensures same { IfOk result (λ is. is_ordinary_act is ≡ false
            → (self.new ≡ self.old) × (log.new ≡ log.old)) }
        ensures notes { OnOk result
            (Notes noted log.old.notes log.new.notes (space_of self.old) (space_of self.new)) }
        ensures few { length log.new.notes ≤ length log.old.notes + notes_for self.old.state hart }
        ensures room { log.old.spare ≤ log.new.spare + notes_for self.old.state hart }
        ensures err { OnErr result ((self.new ≡ self.old) × (log.new ≡ log.old)) }
    {
        let _left = self.steps < self.budget;
        let act = self.act(hart);
        match act {
            Act::Call(request) => self.serve_any(alloc, hart, &request, log, noted),
            _ => Ok(self.make(hart, &act, log, noted)),
        }
    }

    /// The same for an act that can't want memory.
    pub(crate) fn advance_free(&mut self, hart: u8, log: &mut Log, noted: bool) -> NextAct
        requires ready { is_ready_at self.old.state hart ≡ true }
        requires left { is_budget_spent self.old.state ≡ false }
        requires free { wants_memory noted self.old.state hart ≡ false }
        requires room { noted ≡ true → 1 ≤ log.old.spare }
        ensures value { Sees self.old.state hart result }
        ensures after { is_ordinary_act result ≡ true
            → self.new.state ≡ next self.old.state hart }
        ensures same { is_ordinary_act result ≡ false
            → (self.new ≡ self.old) × (log.new ≡ log.old) }
        ensures notes { Notes noted log.old.notes log.new.notes
            (space_of self.old) (space_of self.new) }
        ensures few { length log.new.notes ≤ length log.old.notes + 1 }
        ensures room { log.old.spare ≤ log.new.spare + 1 }
    {
        let _left = self.steps < self.budget;
        let act = self.act(hart);
        self.make(hart, &act, log, noted)
    }

    // A call of a ready hart.
    fn serve_any(
        &mut self,
        alloc: Global,
        hart: u8,
        request: &Request,
        log: &mut Log,
        noted: bool,
    ) -> Result<NextAct, MemoryWant>
        requires ready { is_ready_at self.old.state hart ≡ true }
        requires left { self.old.state.steps < self.old.state.budget }
        requires room { noted ≡ true
            → notes_of_call self.old.state request.now ≤ log.old.spare }
        ensures value { IfOk result (λ is. named (replied self.old.state hart
            (reply_of request.now (facts_of self.old.state hart request.now)) request.now)
            ≡ Some is) }
        ensures after { OnOk result (self.new.state ≡ moved self.old.state
            (replied self.old.state hart
            (reply_of request.now (facts_of self.old.state hart request.now)) request.now)) }
        ensures same { IfOk result (λ is. is_ordinary_act is ≡ false
            → (self.new ≡ self.old) × (log.new ≡ log.old)) }
        ensures notes { OnOk result (Notes noted log.old.notes log.new.notes
            (space_of self.old) (space_of self.new)) }
        ensures few { length log.new.notes
            ≤ length log.old.notes + notes_of_call self.old.state request.now }
        ensures room { log.old.spare
            ≤ log.new.spare + notes_of_call self.old.state request.now }
        ensures err { OnErr result ((self.new ≡ self.old) × (log.new ≡ log.old)) }
    {
        if can_want(noted, request) {
            self.serve_wanting(alloc, hart, request, log, noted)?;
            Ok(NextAct::Ordinary)
        } else {
            Ok(self.serve(hart, request, log, noted))
        }
    }

    // How many notes a call can make.
    fn notes_of(&self, request: &Request) -> u64
        ensures value { result ≡ notes_of_call self.now.state request.now }
    {
        match *request {
            Request::Read { size, .. } => size.min(TRANSFER),
            Request::Break { to } => self.notes_of_break(to),
            Request::Unmap { place, length } => notes_of_unmap(place, length.div_ceil(PAGE)),
            _ => 1,
        }
    }

    // How many notes a move of the break can make: no page of the heap lies below its beginning.
    fn notes_of_break(&self, to: u64) -> u64
        ensures value { result ≡ notes_of_call self.now.state (Request.Break to) }
    {
        let brk = self.guest.memory.brk();
        let end = self.guest.memory.low().max(to);
        let gone = page_up(brk) - page_up(end.min(brk));
        1 + (gone / PAGE).max(1)
    }
}

// How many notes can be made where so many pages go: a call outside their area changes nothing.
fn notes_of_unmap(place: u64, count: u64) -> u64
    ensures value { result ≡ (if is_in_area place count then count else 1) }
{
    if is_in_area(place, count) { count } else { 1 }
}

fn can_want(noted: bool, request: &Request) -> bool
    ensures value { result ≡ can_want noted request.now }
{
    match request {
        Request::Break { .. } | Request::Map { .. } => true,
        Request::Unmap { .. } => noted,
        _ => false,
    }
}

//! Ordinary acts that want no memory.
ghost use Rattle.std.specs.Prelude.{◌≡◌, ℕ, ◌+◌, ◌<◌, ◌≤◌, false, min, Some, true, length};
ghost use Rattle.guest_words.specs.Act.{in_state, replied, written};
ghost use Rattle.guest_words.specs.CallChanges.{facts_of, free_slot};
ghost use Rattle.guest_words.specs.Calls.{reply_of};
ghost use Rattle.guest_words.specs.declared.call.Reply.TheVariants as reply;
ghost use Rattle.guest_words.specs.State.{State, with_closed, with_hart};
ghost use Rattle.guest_memory.specs.Noting.{Notes};
ghost use Rattle.run_history.specs.After.{counted, moved};
ghost use Rattle.run_history.specs.Legal.{is_ready_at};
ghost use Rattle.hart_step.specs.SlotActs.{act_at, is_clone, reaches_device, MayWrite};
ghost use Rattle.hart_step.specs.Live.{space_of};
ghost use Rattle.hart_step.specs.Noted.{notes_of_act, notes_of_call};
ghost use Rattle.hart_step.specs.Sees.{is_ordinary_act, named};
ghost use Rattle.hart_step.specs.Stops.{act_wants, can_want};

use crate::engine::Engine;
use crate::next_act::{Ask, NextAct};
use guest_words::{Act, FaultName, Hart, Reply, Request, Way, Write};
use undo_log::Log;

// Where `noted`, the log gets a note of all that is overwritten.
impl Engine {
    /// Makes an act of a ready hart where it is ordinary, and answers what it is.
    pub(crate) fn make(&mut self, hart: u8, act: &Act, log: &mut Log, noted: bool) -> NextAct
        requires ready { is_ready_at self.old.state hart ≡ true }
        requires left { self.old.state.steps < self.old.state.budget }
        requires act { act_at self.old.state hart ≡ Some act.now }
        requires free { act_wants noted act.now ≡ false }
        requires room { noted ≡ true → min 1 (notes_of_act self.old.state act.now) ≤ log.old.spare }
        ensures value { named (in_state self.old.state hart act.now) ≡ Some result }
        ensures after { self.new.state
            ≡ moved self.old.state (in_state self.old.state hart act.now) }
        ensures same { is_ordinary_act result ≡ false
            → (self.new ≡ self.old) × (log.new ≡ log.old) }
        ensures notes { Notes noted log.old.notes log.new.notes
            (space_of self.old) (space_of self.new) }
        ensures few { length log.new.notes
            ≤ length log.old.notes + min 1 (notes_of_act self.old.state act.now) }
        ensures room { log.old.spare
            ≤ log.new.spare + min 1 (notes_of_act self.old.state act.now) }
    {
        match *act {
            Act::Next { hart: next, write } => {
                self.carry_out(hart, next, write, log, noted);
                NextAct::Ordinary
            }
            Act::Fault(name) => NextAct::Fault(name),
            Act::Call(request) => self.serve(hart, &request, log, noted),
            Act::Arrived(point) => NextAct::Arrival(point),
        }
    }

    // An instruction.
    fn carry_out(&mut self, slot: u8, hart: Hart, write: Option<Write>, log: &mut Log, noted: bool)
        requires ready { is_ready_at self.old.state slot ≡ true }
        requires left { self.old.state.steps < self.old.state.budget }
        requires may { MayWrite self.old.state write }
        requires room { noted ≡ true → 1 ≤ log.old.spare }
        ensures after { self.new.state ≡ counted self.old.state
            (with_closed (written (with_hart self.old.state slot (λ before. hart)) write) slot) }
        ensures notes { Notes noted log.old.notes log.new.notes
            (space_of self.old) (space_of self.new) }
        ensures few { length log.new.notes ≤ length log.old.notes + 1 }
        ensures room { log.old.spare ≤ log.new.spare + 1 }
    {
        self.put(slot, hart);
        self.write(write, log, noted);
        self.finish(slot);
    }

    fn write(&mut self, write: Option<Write>, log: &mut Log, noted: bool)
        requires may { MayWrite self.old.state write }
        requires room { noted ≡ true → 1 ≤ log.old.spare }
        ensures after { self.new ≡ record self.old { state = written self.old.state write } }
        ensures notes { Notes noted log.old.notes log.new.notes
            (space_of self.old) (space_of self.new) }
        ensures few { length log.new.notes ≤ length log.old.notes + 1 }
        ensures room { log.old.spare ≤ log.new.spare + 1 }
    {
        if let Some(
            Write {
                address,
                width,
                value,
            },
        ) = write
        {
            self.store(address, width, value, log, noted);
        }
    }

    /// The same of a call.
    pub(crate) fn serve(
        &mut self,
        hart: u8,
        request: &Request,
        log: &mut Log,
        noted: bool,
    ) -> NextAct
        requires ready { is_ready_at self.old.state hart ≡ true }
        requires left { self.old.state.steps < self.old.state.budget }
        requires free { can_want noted request.now ≡ false }
        requires room { noted ≡ true
            → min 1 (notes_of_call self.old.state request.now) ≤ log.old.spare }
        ensures value { named (replied self.old.state hart
            (reply_of request.now (facts_of self.old.state hart request.now)) request.now)
            ≡ Some result }
        ensures after { self.new.state ≡ moved self.old.state (replied self.old.state hart
            (reply_of request.now (facts_of self.old.state hart request.now)) request.now) }
        ensures same { is_ordinary_act result ≡ false
            → (self.new ≡ self.old) × (log.new ≡ log.old) }
        ensures notes { Notes noted log.old.notes log.new.notes
            (space_of self.old) (space_of self.new) }
        ensures few { length log.new.notes
            ≤ length log.old.notes + min 1 (notes_of_call self.old.state request.now) }
        ensures room { log.old.spare
            ≤ log.new.spare + min 1 (notes_of_call self.old.state request.now) }
    {
        let reply = self.reply(hart, request);
        let is = self.name(hart, request, reply);
        if matches!(is, NextAct::Ordinary) {
            self.give_reply(hart, request, reply, log, noted);
        }
        is
    }

    fn give_reply(&mut self, hart: u8, request: &Request, reply: Reply, log: &mut Log, noted: bool)
        requires ready { is_ready_at self.old.state hart ≡ true }
        requires left { self.old.state.steps < self.old.state.budget }
        requires reply { reply
            ≡ reply_of request.now (facts_of self.old.state hart request.now) }
        requires free { can_want noted request.now ≡ false }
        requires room { noted ≡ true
            → min 1 (notes_of_call self.old.state request.now) ≤ log.old.spare }
        ensures after { self.new.state
            ≡ moved self.old.state (replied self.old.state hart reply request.now) }
        ensures notes { Notes noted log.old.notes log.new.notes
            (space_of self.old) (space_of self.new) }
        ensures few { length log.new.notes
            ≤ length log.old.notes + min 1 (notes_of_call self.old.state request.now) }
        ensures room { log.old.spare
            ≤ log.new.spare + min 1 (notes_of_call self.old.state request.now) }
    {
        match reply {
            Reply::Value(value) => self.give(hart, value),
            Reply::Gone => {
                let Request::Exit { code } = *request else {
                    unreachable!();
                };
                self.exit(hart, code, log, noted);
            }
            Reply::Queue => {
                let Request::Wait { place, .. } = *request else {
                    unreachable!();
                };
                self.wait_at(hart, place);
            }
            Reply::Rouse { most } => {
                let Request::Wake { place, .. } = *request else {
                    unreachable!();
                };
                self.wake_at(hart, place, most);
            }
            Reply::Child { slot } => self.bear(hart, request, slot, log, noted),
            Reply::Unmap { place, count } => self.unmap_pages(hart, place, count, log, noted),
            _ => {}
        }
    }

    fn bear(&mut self, hart: u8, request: &Request, slot: u8, log: &mut Log, noted: bool)
        requires left { self.old.state.steps < self.old.state.budget }
        requires free { free_slot self.old.state.slots ≡ Some slot }
        requires clones { is_clone request.now ≡ true }
        requires room { noted ≡ true
            → min 1 (notes_of_call self.old.state request.now) ≤ log.old.spare }
        ensures after { self.new.state ≡ moved self.old.state
            (replied self.old.state hart (reply.Child slot) request.now) }
        ensures notes { Notes noted log.old.notes log.new.notes
            (space_of self.old) (space_of self.new) }
        ensures few { length log.new.notes
            ≤ length log.old.notes + min 1 (notes_of_call self.old.state request.now) }
        ensures room { log.old.spare
            ≤ log.new.spare + min 1 (notes_of_call self.old.state request.now) }
    {
        let Request::Clone {
            flags,
            stack,
            parent,
            tls,
            child,
        } = *request
        else {
            unreachable!();
        };
        self.clone(hart, slot, flags, stack, parent, tls, child, log, noted);
    }

    /// What a call is, by its reply.
    pub(crate) fn name(&self, hart: u8, request: &Request, reply: Reply) -> NextAct
        requires reply { reply
            ≡ reply_of request.now (facts_of self.now.state hart request.now) }
        ensures value { named (replied self.now.state hart reply request.now) ≡ Some result }
    {
        match reply {
            Reply::End { code } => NextAct::End(code),
            Reply::Blocked => NextAct::Fault(FaultName::BlockedInPoint),
            Reply::Port { asked } => asked_of(request, asked),
            _ => NextAct::Ordinary,
        }
    }
}

// What a call asks of a device.
fn asked_of(request: &Request, asked: u32) -> NextAct
    requires port { reaches_device request.now ≡ true }
    ensures value { (s : State) (h : ℕ)
        → named (replied s h (reply.Port asked) request.now) ≡ Some result }
{
    let (way, port, place) = match *request {
        Request::Read { fd, place, .. } => (Way::Read, fd, place),
        Request::Write { fd, place, .. } => (Way::Write, fd, place),
        Request::Close { fd } => (Way::Close, fd, 0),
        _ => unreachable!(),
    };
    NextAct::Request(Ask {
        way,
        port,
        asked,
        place,
    })
}

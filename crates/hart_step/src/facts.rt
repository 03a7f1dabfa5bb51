//! What a hart does next, and what the reply to its call looks at.
ghost use Rattle.std.specs.Prelude.{◌≡◌, ◌<◌, length, slice_get, IfSome, Some};
ghost use Rattle.guest_words.specs.CallChanges.{facts_of, is_readable, is_usable, is_writable, place_for, tid_of, word_at};
ghost use Rattle.guest_words.specs.Calls.{reply_of};
ghost use Rattle.guest_words.specs.State.{is_open};
ghost use Rattle.hart_step.specs.SlotActs.{act_at, facts_for, mapped_for, FitsIn, HasRoom};

use crate::deciding::decide;
use crate::engine::Engine;
use crate::look::arrival;
use guest_syscalls::answer;
use guest_words::limits::{PAGE, TRANSFER};
use guest_words::{Act, Facts, PointRef, Reply, Request, Width};

impl Engine {
    /// The act of the hart in a slot, before its frames close.
    pub(crate) fn act(&self, hart: u8) -> Act
        requires within { hart < length self.now.state.slots }
        ensures value { act_at self.now.state hart ≡ Some result }
    {
        let frames = self.slots.frame_count(hart);
        match self.slots.hart(hart) {
            Some(alone) => decide(alone, &self.guest.memory, &self.guest.points, frames),
            None => unreachable!(),
        }
    }

    /// The point at which the hart in a slot stands, if it arrives there next. Costs less than to
    /// ask for the act.
    #[tactic(auto, unfolding(guest_words::specs::HartAct::hart_act))]
    pub(crate) fn arrival(&self, hart: u8) -> Option<PointRef>
        ensures some { IfSome result (λ point.
            act_at self.now.state hart ≡ Some (Act.Arrived point)) }
    {
        let frames = self.slots.frame_count(hart);
        match self.slots.hart(hart) {
            Some(alone) => arrival(&self.guest.points, frames, alone),
            None => None,
        }
    }

    /// The reply to a call of the hart in a slot.
    pub(crate) fn reply(&self, hart: u8, request: &Request) -> Reply
        ensures value { result
            ≡ reply_of request.now (facts_of self.now.state hart request.now) }
        ensures room { FitsIn self.now.state result }
    {
        answer(request, &self.facts(hart, request))
    }

    #[tactic(auto, unfolding(guest_words::specs::CallChanges::facts_of))]
    fn facts(&self, hart: u8, request: &Request) -> Facts
        ensures value { result ≡ facts_for self.now.state hart request.now }
        ensures room { HasRoom self.now.state request.now result.place }
    {
        Facts {
            other_live: self.slots.other_live(hart),
            usable: self.is_usable(request),
            readable: self.is_readable(request),
            writable: self.is_writable(request),
            word: self.word_at(request),
            free_slot: self.slots.free(),
            next_tid: self.next_tid,
            tid: self.tid_at(hart),
            frames: self.slots.frame_count(hart) != 0,
            low: self.guest.memory.low(),
            brk: self.guest.memory.brk(),
            mapped: self.mapped_for(request),
            place: self.place_for(request),
        }
    }

    fn tid_at(&self, hart: u8) -> u32
        ensures value { result ≡ tid_of (slice_get self.now.state.slots hart) }
    {
        match self.slots.hart(hart) {
            None => 0,
            Some(alone) => alone.tid,
        }
    }

    fn is_open(&self, fd: u64) -> bool
        ensures value { result ≡ is_open self.now.state fd }
    {
        (fd < 3 || fd - 3 < self.ports) && !self.closed[fd as usize]
    }

    fn is_usable(&self, request: &Request) -> bool
        ensures value { result ≡ is_usable self.now.state request.now }
    {
        match *request {
            Request::Read { fd, .. } => self.is_open(fd) && fd != 1 && fd != 2,
            Request::Write { fd, .. } => self.is_open(fd) && fd != 0,
            Request::Close { fd } => self.is_open(fd),
            _ => false,
        }
    }

    fn is_readable(&self, request: &Request) -> bool
        ensures value { result ≡ is_readable self.now.state request.now }
    {
        let memory = &self.guest.memory;
        match *request {
            Request::Write { place, size, .. } => memory.can_read(place, size.min(TRANSFER)),
            Request::Wait { place, .. } => memory.can_read(place, 4),
            _ => false,
        }
    }

    fn is_writable(&self, request: &Request) -> bool
        ensures value { result ≡ is_writable self.now.state request.now }
    {
        match *request {
            Request::Read { place, size, .. } => {
                self.guest.memory.can_write(place, size.min(TRANSFER))
            }
            _ => false,
        }
    }

    // The word that a wait compares, or 0.
    fn word_at(&self, request: &Request) -> u32
        ensures value { result ≡ word_at self.now.state request.now }
    {
        match *request {
            Request::Wait { place, .. } => match self.guest.memory.read(place, Width::Four) {
                Ok(word) => word as u32,
                Err(_) => 0,
            },
            _ => 0,
        }
    }

    // How many pages are mapped, where the call looks at that.
    fn mapped_for(&self, request: &Request) -> u64
        ensures value { result ≡ mapped_for self.now.state request.now }
    {
        match request {
            Request::Map { .. } => self.guest.memory.mapped(),
            _ => 0,
        }
    }

    // Where the pages fit that a map asks for.
    fn place_for(&self, request: &Request) -> Option<u64>
        ensures value { result ≡ place_for self.now.state request.now }
        ensures room { HasRoom self.now.state request.now result }
    {
        match *request {
            Request::Map { length, .. } => { self.guest.memory.free_place(length.div_ceil(PAGE)) }
            _ => None,
        }
    }
}

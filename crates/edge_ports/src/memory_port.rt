ghost use Rattle.std.specs.Prelude.{◌≡◌, ◌↔◌, ◌+◌, ◌<◌, ◌≤◌, [], length, option_copied, IfOk, IsErr, is_err};
ghost use Rattle.edge_ports.specs.End.{ended, raised, Puts, Takes};
ghost use Rattle.edge_ports.specs.InMemory.{after_call, no_calls, port_end, IsNextFailing};

use crate::calls::Calls;
use crate::failed::Failed;
use crate::port::Port;
use crate::unread::Unread;
use guest_words::{Bytes, MemoryWant};
use std::alloc::Global;
use std::marker::Model;

/// A connection in memory, whose `take`s and `put`s of given numbers fail. They are counted
/// together, but for those on an empty slice; a close isn't counted.
#[derive(Drop)]
pub struct MemoryPort {
    unread: Unread,
    given: Vec<u8>,
    closes: u64,
    calls: Calls,
}

impl Model for MemoryPort {
    ghost use Rattle.std.specs.Prelude.{vec_capacity};
    ghost use Rattle.edge_ports.specs.InMemory.{PortState};

    ghost Value = { PortState };

    ghost view = { λ p. record {
      left = p.unread;
      given = p.given.items;
      room = vec_capacity p.given;
      closes = p.closes;
      calls = p.calls;
    } };
}

impl Port for MemoryPort {
    ghost end = { port_end };

    fn given(&self) -> Option<&[u8]> {
        Some(&self.given)
    }

    fn close(&mut self)
        ensures ended { port_end self.new ≡ ended (port_end self.old) }
        ensures same { self.new ≡ (record self.old { closes = raised self.old.closes }) }
    {
        self.closes = self.closes.saturating_add(1);
    }

    fn take(&mut self, into: &mut [u8]) -> Result<usize, Failed>
        ensures takes { Takes (port_end self.old) (port_end self.new) into.new result }
        ensures refuses { IsErr result ↔ (0 < length into.old) × IsNextFailing self.old.calls }
        ensures counts { self.new.calls
            ≡ after_call (length into.old) (is_err result) self.old.calls }
        ensures room { self.new.room ≡ self.old.room }
    {
        if into.is_empty() {
            return Ok(0);
        }
        self.calls.begin()?;
        Ok(self.unread.take(into))
    }

    /// Fails where its number is among those that are to fail, and else only past the room.
    fn put(&mut self, from: &[u8]) -> Result<(), Failed>
        ensures puts { Puts (port_end self.old) (port_end self.new) from.now result }
        ensures refuses { 0 < length from.now → IsNextFailing self.old.calls → IsErr result }
        ensures within { length self.old.given + length from.now ≤ self.old.room
            → IsErr result → IsNextFailing self.old.calls }
        ensures counts { self.new.calls
            ≡ after_call (length from.now) (is_err result) self.old.calls }
        ensures room { self.old.room ≤ self.new.room }
    {
        if from.is_empty() {
            return Ok(());
        }
        self.calls.begin()?;
        match self.given.extend_from_slice(from) {
            Ok(()) => Ok(()),
            Err(_) => Err(self.calls.fail()),
        }
    }
}

impl MemoryPort {
    /// All of the input is left, nothing was given yet, and there is no room but what it grows
    /// by. It takes no memory.
    pub fn new(input: Bytes, failing: Vec<u64>) -> MemoryPort
        ensures left { result.left ≡ input }
        ensures given { result.given ≡ [] }
        ensures closes { result.closes ≡ 0 }
        ensures calls { result.calls ≡ no_calls failing.items }
    {
        MemoryPort {
            unread: Unread::of(input),
            given: Vec::new(*failing.allocator()),
            closes: 0,
            calls: Calls::new(failing),
        }
    }

    /// All of the input is left, nothing was given yet, and there is room for so many bytes.
    pub fn with_room(
        alloc: Global,
        input: Bytes,
        room: u64,
        failing: Vec<u64>,
    ) -> Result<MemoryPort, MemoryWant>
        ensures ok { IfOk result (λ p. p ≡ (record {
          left = input;
          given = [];
          room = room;
          closes = 0;
          calls = no_calls failing.items;
        })) }
    {
        let given = Vec::with_capacity(alloc, room as usize)?;
        Ok(MemoryPort {
            unread: Unread::of(input),
            given,
            closes: 0,
            calls: Calls::new(failing),
        })
    }
}

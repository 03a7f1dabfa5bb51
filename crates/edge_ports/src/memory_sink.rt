ghost use Rattle.std.specs.Prelude.{◌≡◌, ◌+◌, ◌<◌, ◌≤◌, [], length, IfOk, IsErr, is_err};
ghost use Rattle.edge_ports.specs.End.{Puts};
ghost use Rattle.edge_ports.specs.InMemory.{after_call, no_calls, sink_end, IsNextFailing};

use crate::calls::Calls;
use crate::failed::Failed;
use crate::sink::Sink;
use guest_words::MemoryWant;
use std::alloc::Global;
use std::marker::Model;

/// A sink that keeps what it was given, and whose `put`s of given numbers fail. Each counts but
/// one of no byte.
#[derive(Drop)]
pub struct MemorySink {
    bytes: Vec<u8>,
    calls: Calls,
}

impl Model for MemorySink {
    ghost use Rattle.std.specs.Prelude.{vec_capacity};
    ghost use Rattle.edge_ports.specs.InMemory.{SinkState};

    ghost Value = { SinkState };

    ghost view = { λ s.
        record { given = s.bytes.items; room = vec_capacity s.bytes; calls = s.calls } };
}

impl Sink for MemorySink {
    ghost end = { sink_end };

    /// Fails where its number is among those that are to fail, and else only past the room.
    fn put(&mut self, from: &[u8]) -> Result<(), Failed>
        ensures puts { Puts (sink_end self.old) (sink_end self.new) from.now result }
        ensures refuses { 0 < length from.now → IsNextFailing self.old.calls → IsErr result }
        ensures within { length self.old.given + length from.now ≤ self.old.room
            → IsErr result → IsNextFailing self.old.calls }
        ensures counts { self.new.calls
            ≡ after_call (length from.now) (is_err result) self.old.calls }
        ensures room { self.old.room ≤ self.new.room }
    {
        if from.is_empty() {
            return Ok(());
        }
        self.calls.begin()?;
        match self.bytes.extend_from_slice(from) {
            Ok(()) => Ok(()),
            Err(_) => Err(self.calls.fail()),
        }
    }
}

impl MemorySink {
    /// It was given nothing yet, and has no room but what it grows by. It takes no memory.
    pub fn new(failing: Vec<u64>) -> MemorySink
        ensures given { result.given ≡ [] }
        ensures calls { result.calls ≡ no_calls failing.items }
    {
        MemorySink {
            bytes: Vec::new(*failing.allocator()),
            calls: Calls::new(failing),
        }
    }

    /// It was given nothing yet, and has room for so many bytes.
    pub fn with_room(alloc: Global, room: u64, failing: Vec<u64>) -> Result<MemorySink, MemoryWant>
        ensures ok { IfOk result
            (λ s. s ≡ (record { given = []; room = room; calls = no_calls failing.items })) }
    {
        let bytes = Vec::with_capacity(alloc, room as usize)?;
        Ok(MemorySink {
            bytes,
            calls: Calls::new(failing),
        })
    }

    /// The bytes that it was given.
    pub fn given(&self) -> &[u8]
        ensures value { result.now ≡ self.now.given }
    {
        &self.bytes
    }
}

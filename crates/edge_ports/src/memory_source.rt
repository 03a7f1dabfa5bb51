ghost use Rattle.std.specs.Prelude.{◌≡◌, ◌↔◌, ◌<◌, length, IsErr, is_err};
ghost use Rattle.edge_ports.specs.End.{Takes};
ghost use Rattle.edge_ports.specs.InMemory.{after_call, no_calls, source_end, IsNextFailing};

use crate::calls::Calls;
use crate::failed::Failed;
use crate::source::Source;
use crate::unread::Unread;
use guest_words::Bytes;
use std::marker::Model;

/// A source of given bytes, whose `take`s of given numbers fail. Each counts but one of no place.
#[derive(Drop)]
pub struct MemorySource {
    unread: Unread,
    calls: Calls,
}

impl Model for MemorySource {
    ghost use Rattle.edge_ports.specs.InMemory.{SourceState};

    ghost Value = { SourceState };

    ghost view = { λ s. record { left = s.unread; calls = s.calls } };
}

impl Source for MemorySource {
    ghost end = { source_end };

    fn take(&mut self, into: &mut [u8]) -> Result<usize, Failed>
        ensures takes { Takes (source_end self.old) (source_end self.new) into.new result }
        ensures refuses { IsErr result ↔ (0 < length into.old) × IsNextFailing self.old.calls }
        ensures counts { self.new.calls
            ≡ after_call (length into.old) (is_err result) self.old.calls }
    {
        if into.is_empty() {
            return Ok(0);
        }
        self.calls.begin()?;
        Ok(self.unread.take(into))
    }
}

impl MemorySource {
    /// All the bytes are left. The numbers are counted from 1.
    pub fn new(bytes: Bytes, failing: Vec<u64>) -> MemorySource
        ensures value { result ≡ (record { left = bytes; calls = no_calls failing.items }) }
    {
        MemorySource {
            unread: Unread::of(bytes),
            calls: Calls::new(failing),
        }
    }

    /// The bytes that are left.
    pub fn rest(&self) -> &[u8]
        ensures value { result.now ≡ self.now.left }
    {
        self.unread.rest()
    }
}

ghost use Rattle.std.specs.Prelude.{◌≡◌, ◌+◌, ◌≤◌, true, length, IfOk};
ghost use Rattle.guest_words.specs.Points.{spent};
ghost use Rattle.guest_words.specs.Space.{can_write, with_bytes};
ghost use Rattle.guest_memory.specs.Noting.{Notes};

use crate::guest::Guest;
use crate::known::{FIRST, NOWHERE, forget};
use guest_memory::Memory;
use guest_words::{MemoryWant, Points};
use std::alloc::Global;
use undo_log::Log;

impl Guest {
    /// Memory, with its breaks.
    pub(crate) fn memory(&self) -> &Memory
        ensures value { result.now ≡ self.now.memory }
    {
        &self.memory
    }

    /// The points, each with the rescues that are left to it.
    pub(crate) fn points(&self) -> &Points
        ensures value { result.now ≡ self.now.points }
    {
        &self.points
    }

    /// The same.
    pub(crate) fn into_points(self) -> Points
        ensures value { result ≡ self.points }
    {
        self.points
    }

    /// Equal memory and points, with no room for pages that can come back.
    pub(crate) fn copy(&self, alloc: Global) -> Result<Guest, MemoryWant>
        ensures ok { IfOk result (λ guest. guest ≡ record {
          memory = record self.now.memory { spare = 0 };
          points = self.now.points;
        }) }
    {
        let memory = self.memory.copy(alloc)?;
        Guest::new(alloc, memory, self.points.copy(alloc)?)
    }

    /// Puts bytes where all of them may be written. Where `noted`, the log gets notes of what stood
    /// there.
    pub(crate) fn fill(&mut self, from: u64, bytes: &[u8], log: &mut Log, noted: bool)
        requires writable { can_write self.old.memory.space from (length bytes.now) ≡ true }
        requires room { noted ≡ true → length bytes.now ≤ log.old.spare }
        ensures value { self.new ≡ record self.old {
          memory = record self.old.memory {
            space = with_bytes self.old.memory.space from bytes.now;
          };
        } }
        ensures notes { Notes noted log.old.notes log.new.notes self.old.memory self.new.memory }
        ensures few { length log.new.notes ≤ length log.old.notes + length bytes.now }
        ensures room { log.old.spare ≤ log.new.spare + length bytes.now }
    {
        if noted {
            self.memory.fill_noted(from, bytes, log);
        } else {
            self.memory.fill(from, bytes);
        }
    }

    /// Takes one from the rescues that are left to the point with this entry, if they are counted
    /// and one is.
    pub(crate) fn spend(&mut self, entry: u64)
        ensures value { self.new ≡ record self.old { points = spent self.old.points entry } }
    {
        self.points.spend(entry);
        // If the point is now inactive, its first instruction is to be found like any other.
        self.table[FIRST].pc = NOWHERE;
    }

    /// Makes the points those of another.
    pub(crate) fn take_points(&mut self, later: Guest)
        ensures value { self.new ≡ record self.old { points = later.points } }
    {
        self.points = later.points;
        forget(&mut self.table);
    }
}

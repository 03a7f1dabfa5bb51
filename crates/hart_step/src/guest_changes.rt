ghost use Rattle.std.specs.Prelude.{length};
ghost use Rattle.std.specs.Prelude.{◌≡◌, ◌+◌, ◌-◌, ◌*◌, ◌/◌, ◌%◌, max, ◌<◌, ◌≤◌, ◌^◌, false, true, IsFalse, IsTrue, OnErr, OnOk};
ghost use Rattle.guest_words.specs.Space.{can_write, page_up, with_number, with_zeros, without};
ghost use Rattle.guest_words.specs.Widths.{bytes_in};
ghost use Rattle.guest_pages.specs.Stretch.{IsFree};
ghost use Rattle.hart_step.specs.Live.{IsHeapClear};
ghost use Rattle.hart_step.specs.SlotActs.{fitted};
ghost use Rattle.guest_memory.specs.Noting.{Notes};

use crate::guest::Guest;
use crate::known::forget;
use crate::mapping::page_up;
use guest_words::limits::{HEAP_BYTES, PAGE};
use guest_words::{MemoryWant, Rights, Width};
use std::alloc::Global;
use undo_log::Log;

const HEAP_RIGHTS: Rights = Rights {
    read: true,
    write: true,
    exec: false,
};

// Where `noted`, the log gets a note of all that is overwritten.
impl Guest {
    /// Stores the low bytes of a number where they may be written.
    pub(crate) fn store(
        &mut self,
        address: u64,
        width: Width,
        value: u64,
        log: &mut Log,
        noted: bool,
    )
        requires writable { can_write self.old.memory.space address (bytes_in width) ≡ true }
        requires room { noted ≡ true → 1 ≤ log.old.spare }
        ensures value { self.new ≡ record self.old {
          memory = record self.old.memory {
            space = with_number self.old.memory.space address (bytes_in width) value;
          };
        } }
        ensures notes { Notes noted log.old.notes log.new.notes self.old.memory self.new.memory }
        ensures few { length log.new.notes ≤ length log.old.notes + 1 }
        ensures room { log.old.spare ≤ log.new.spare + 1 }
    {
        let Ok(before) = self
            .memory
            .exchange(&mut self.recent, address, width, value)
        else {
            unreachable!();
        };
        if noted {
            match log.note_bytes(address, width, before) {
                Ok(()) => {}
                Err(_) => unreachable!(),
            }
        }
    }

    /// Makes so many pages of zeros from an address on, none of which is there.
    pub(crate) fn map(
        &mut self,
        alloc: Global,
        from: u64,
        count: u64,
        rights: Rights,
        log: &mut Log,
        noted: bool,
    ) -> Result<(), MemoryWant>
        requires aligned { from % PAGE ≡ 0 }
        requires below { from + PAGE * count < 2 ^ 64 }
        requires free { IsFree self.old.memory.space from (PAGE * count) }
        requires readable { IsTrue rights.write → IsTrue rights.read }
        requires data { IsFalse rights.exec }
        requires room { noted ≡ true → 1 ≤ log.old.spare }
        ensures ok { OnOk result (self.new ≡ record self.old {
          memory = record self.old.memory {
            space = with_zeros self.old.memory.space from (PAGE * count) rights;
          };
        }) }
        ensures notes { OnOk result
            (Notes noted log.old.notes log.new.notes self.old.memory self.new.memory) }
        ensures few { length log.new.notes ≤ length log.old.notes + 1 }
        ensures room { log.old.spare ≤ log.new.spare + 1 }
        ensures err { OnErr result ((self.new ≡ self.old) × (log.new ≡ log.old)) }
    {
        self.memory.map(alloc, from, count, rights)?;
        if noted {
            log.note_made(from, count);
        }
        Ok(())
    }

    /// Takes away those of so many pages from an address on that are there. They may have been
    /// executed, so that the decoded instructions go too.
    pub(crate) fn unmap(&mut self, from: u64, count: u64, log: &mut Log, noted: bool)
        requires aligned { from % PAGE ≡ 0 }
        requires room { noted ≡ true → count ≤ log.old.spare }
        ensures value { self.new ≡ record self.old {
          memory = record self.old.memory {
            space = without self.old.memory.space from (PAGE * count);
            spare = self.new.memory.spare;
          };
        } }
        ensures notes { Notes noted log.old.notes log.new.notes self.old.memory self.new.memory }
        ensures few { length log.new.notes ≤ length log.old.notes + count }
        ensures room { log.old.spare ≤ log.new.spare + count }
        ensures plain { noted ≡ false → log.new ≡ log.old }
    {
        if noted {
            self.memory.take_pages(from, count, log);
        } else {
            self.memory.unmap(from, count);
        }
        forget(&mut self.table);
    }

    /// Moves the break within the heap. No page comes or goes.
    pub(crate) fn set_brk(&mut self, to: u64, log: &mut Log, noted: bool)
        requires low { self.old.memory.low ≤ to }
        requires high { to ≤ self.old.memory.low + HEAP_BYTES }
        requires room { noted ≡ true → 1 ≤ log.old.spare }
        ensures value { self.new
            ≡ record self.old { memory = record self.old.memory { brk = to } } }
        ensures notes { Notes noted log.old.notes log.new.notes self.old.memory self.new.memory }
        ensures few { length log.new.notes ≤ length log.old.notes + 1 }
        ensures room { log.old.spare ≤ log.new.spare + 1 }
    {
        if noted {
            log.note_break(self.memory.brk());
        }
        self.memory.set_brk(to);
    }

    /// Moves the break, and its pages come or go.
    pub(crate) fn move_brk(
        &mut self,
        alloc: Global,
        to: u64,
        log: &mut Log,
        noted: bool,
    ) -> Result<(), MemoryWant>
        requires low { self.old.memory.low ≤ to }
        requires high { to ≤ self.old.memory.low + HEAP_BYTES }
        requires clear { IsHeapClear self.old.memory }
        requires room { noted ≡ true
            → 1 + max 1 ((page_up self.old.memory.brk - page_up to) / PAGE) ≤ log.old.spare }
        ensures ok { OnOk result (self.new ≡ record self.old {
          memory = record self.old.memory {
            space = fitted self.old.memory.space (page_up self.old.memory.brk) (page_up to);
            brk = to;
            spare = self.new.memory.spare;
          };
        }) }
        ensures notes { OnOk result
            (Notes noted log.old.notes log.new.notes self.old.memory self.new.memory) }
        ensures few { length log.new.notes ≤ length log.old.notes
            + (1 + max 1 ((page_up self.old.memory.brk - page_up to) / PAGE)) }
        ensures room { log.old.spare ≤ log.new.spare
            + (1 + max 1 ((page_up self.old.memory.brk - page_up to) / PAGE)) }
        ensures err { OnErr result ((self.new ≡ self.old) × (log.new ≡ log.old)) }
    {
        let _low = self.memory.low();
        let old = page_up(self.memory.brk());
        self.fit_pages(alloc, old, page_up(to), log, noted)?;
        self.set_brk(to, log, noted);
        Ok(())
    }

    // Pages come from an address up to a later one, or go down to an earlier one.
    fn fit_pages(
        &mut self,
        alloc: Global,
        old: u64,
        new: u64,
        log: &mut Log,
        noted: bool,
    ) -> Result<(), MemoryWant>
        requires old { old % PAGE ≡ 0 }
        requires new { new % PAGE ≡ 0 }
        requires below { new < 2 ^ 63 }
        requires free { IsFree self.old.memory.space old (new - old) }
        requires room { noted ≡ true → max 1 ((old - new) / PAGE) ≤ log.old.spare }
        ensures ok { OnOk result (self.new ≡ record self.old {
          memory = record self.old.memory {
            space = fitted self.old.memory.space old new;
            spare = self.new.memory.spare;
          };
        }) }
        ensures notes { OnOk result
            (Notes noted log.old.notes log.new.notes self.old.memory self.new.memory) }
        ensures few { length log.new.notes ≤ length log.old.notes + max 1 ((old - new) / PAGE) }
        ensures room { log.old.spare ≤ log.new.spare + max 1 ((old - new) / PAGE) }
        ensures err { OnErr result ((self.new ≡ self.old) × (log.new ≡ log.old)) }
    {
        if old < new {
            self.map(alloc, old, (new - old) / PAGE, HEAP_RIGHTS, log, noted)?;
            return Ok(());
        }
        if new < old {
            self.unmap(new, (old - new) / PAGE, log, noted);
        }
        Ok(())
    }
}

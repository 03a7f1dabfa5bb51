ghost use Rattle.std.specs.Prelude.{◌≡◌, ◌+◌, ◌<◌, ◌≤◌, ◌^◌, IfOk, length, take, true};
ghost use Rattle.guest_words.specs.Space.{bytes_at, can_write, with_bytes, with_number};
ghost use Rattle.guest_words.specs.Widths.{bytes_in};
ghost use Rattle.guest_memory.specs.Noting.{Notes};
ghost use Rattle.guest_memory.specs.Text.{SameText};

use crate::memory::Memory;
use guest_pages::{Recent, number_in};
use guest_words::{Bytes, MemoryWant, Width};
use std::alloc::Global;
use undo_log::Log;

impl Memory {
    /// So many bytes from an address on; one in no page is 0. Rights aren't looked at.
    pub fn bytes_at(&self, alloc: Global, from: u64, count: u32) -> Result<Bytes, MemoryWant>
        requires room { from + count ≤ 2 ^ 64 }
        ensures ok { IfOk result (λ bytes. bytes ≡ bytes_at self.now.space from count) }
    {
        self.pages.bytes_at(alloc, from, count)
    }

    /// Stores bytes from an address on, where all of them may be written.
    pub fn fill(&mut self, from: u64, bytes: &[u8])
        requires writable { can_write self.old.space from (length bytes.now) ≡ true }
        ensures value { self.new
            ≡ record self.old { space = with_bytes self.old.space from bytes.now } }
        ensures text { SameText self.old.space self.new.space }
    {
        self.pages.fill(from, bytes);
    }

    /// As `fill`, and notes what stood there.
    pub fn fill_noted(&mut self, from: u64, bytes: &[u8], log: &mut Log)
        requires writable { can_write self.old.space from (length bytes.now) ≡ true }
        requires room { length bytes.now ≤ log.old.spare }
        ensures value { self.new
            ≡ record self.old { space = with_bytes self.old.space from bytes.now } }
        ensures notes { Notes true log.old.notes log.new.notes self.old self.new }
        ensures few { length log.new.notes ≤ length log.old.notes + length bytes.now }
        ensures room { log.old.spare ≤ log.new.spare + length bytes.now }
        ensures text { SameText self.old.space self.new.space }
    {
        let mut recent = Recent::new();
        let mut done = 0;
        while done < bytes.len() {
            done += self.fill_first(&mut recent, from + done as u64, &bytes[done..], log);
        }
    }

    // Stores the first word of the bytes, or the first byte where there is no word, notes what
    // stood there, and answers how many bytes these are.
    fn fill_first(&mut self, recent: &mut Recent, from: u64, bytes: &[u8], log: &mut Log) -> usize
        requires some { 0 < length bytes.now }
        requires writable { can_write self.old.space from (length bytes.now) ≡ true }
        requires room { 0 < log.old.spare }
        ensures some { 0 < result }
        ensures within { result ≤ length bytes.now }
        ensures value { self.new ≡ record self.old {
          space = with_bytes self.old.space from (take result bytes.now);
        } }
        ensures notes { Notes true log.old.notes log.new.notes self.old self.new }
        ensures few { length log.new.notes ≤ length log.old.notes + 1 }
        ensures room { log.old.spare ≤ log.new.spare + 1 }
        ensures text { SameText self.old.space self.new.space }
    {
        let width = if bytes.len() < 8 {
            Width::One
        } else {
            Width::Eight
        };
        self.store_noted(recent, from, width, number_in(bytes, width), log);
        width.bytes() as usize
    }

    // Stores the low bytes of a number, where they may be written, and notes what stood there.
    fn store_noted(
        &mut self,
        recent: &mut Recent,
        address: u64,
        width: Width,
        value: u64,
        log: &mut Log,
    )
        requires writable { can_write self.old.space address (bytes_in width) ≡ true }
        requires room { 0 < log.old.spare }
        ensures value { self.new ≡ record self.old {
          space = with_number self.old.space address (bytes_in width) value;
        } }
        ensures notes { Notes true log.old.notes log.new.notes self.old self.new }
        ensures few { length log.new.notes ≤ length log.old.notes + 1 }
        ensures room { log.old.spare ≤ log.new.spare + 1 }
        ensures text { SameText self.old.space self.new.space }
    {
        let Ok(old) = self.exchange(recent, address, width, value) else {
            unreachable!();
        };
        match log.note_bytes(address, width, old) {
            Ok(()) => {}
            Err(_) => unreachable!(),
        }
    }
}

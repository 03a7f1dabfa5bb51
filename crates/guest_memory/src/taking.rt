ghost use Rattle.std.specs.Prelude.{◌≡◌, ◌+◌, ◌*◌, ◌%◌, ◌<◌, ◌≤◌, ◌^◌, length};
ghost use Rattle.std.specs.Prelude.{IfNone, IfSome, IsSome, true};
ghost use Rattle.std.specs.FinMap as map;
ghost use Rattle.guest_words.specs.Space.{without};
ghost use Rattle.guest_pages.specs.Stretch.{IsFree, IsLastPage};
ghost use Rattle.guest_memory.specs.Noting.{Notes};
ghost use Rattle.guest_memory.specs.Text.{HasNoText, SameText};

use crate::memory::Memory;
use guest_words::limits::PAGE;
use undo_log::Log;

impl Memory {
    /// Takes those of so many pages from an address on that are there, and notes each, the last
    /// page first, so that each comes back behind those that came back before it. Takes no memory,
    /// and leaves room for the pages.
    pub fn take_pages(&mut self, from: u64, count: u64, log: &mut Log)
        requires aligned { from % PAGE ≡ 0 }
        requires room { count ≤ log.old.spare }
        ensures gone { self.new ≡ record self.old {
          space = without self.old.space from (PAGE * count);
          spare = self.new.spare;
        } }
        ensures notes { Notes true log.old.notes log.new.notes self.old self.new }
        ensures few { length log.new.notes ≤ length log.old.notes + count }
        ensures room { log.old.spare ≤ log.new.spare + count }
        ensures text { HasNoText self.old.space from (PAGE * count)
            → SameText self.old.space self.new.space }
    {
        let mut left = count;
        while let Some(page) = self.last_page(from, left) {
            self.take_noted(page, log);
            left = (page - from) / PAGE;
        }
    }

    // The greatest address of a page among so many pages from an address on.
    fn last_page(&self, from: u64, count: u64) -> Option<u64>
        requires aligned { from % PAGE ≡ 0 }
        ensures found { IfSome result (IsLastPage self.now.space from (PAGE * count)) }
        ensures none { IfNone result (IsFree self.now.space from (PAGE * count)) }
    {
        self.pages.last_page(from, count)
    }

    // Takes a page and notes it.
    fn take_noted(&mut self, from: u64, log: &mut Log)
        requires aligned { from % PAGE ≡ 0 }
        requires there { IsSome (map.get self.old.space from) }
        requires room { 0 < log.old.spare }
        ensures gone { self.new ≡ record self.old {
          space = without self.old.space from PAGE;
          spare = self.old.spare + 1;
        } }
        ensures below { from + PAGE < 2 ^ 64 }
        ensures notes { Notes true log.old.notes log.new.notes self.old self.new }
        ensures few { length log.new.notes ≤ length log.old.notes + 1 }
        ensures room { log.old.spare ≤ log.new.spare + 1 }
    {
        log.note_gone(self.take_page(from));
    }
}

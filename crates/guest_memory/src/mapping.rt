ghost use Rattle.std.specs.Prelude.{◌≡◌, ◌+◌, ◌*◌, ◌%◌, ◌-◌, ◌<◌, ◌^◌, ◌&&◌, length};
ghost use Rattle.std.specs.Prelude.{IfNone, IfSome, IsFalse, IsSome, IsTrue, OnErr, OnOk};
ghost use Rattle.std.specs.FinMap as map;
ghost use Rattle.guest_words.specs.CallChanges.{free_place, mapped_pages};
ghost use Rattle.guest_words.specs.Space.{with_zeros, without};
ghost use Rattle.guest_pages.specs.Paged.{page_at, with_page};
ghost use Rattle.guest_pages.specs.Stretch.{HasNoPageFrom, IsFree, IsNextPage, IsPageOf, IsPlace};
ghost use Rattle.guest_memory.specs.Returning.{put_back};
ghost use Rattle.guest_memory.specs.Text.{HasNoText, SameText};

use crate::memory::Memory;
use guest_words::limits::PAGE;
use guest_words::{MemoryWant, Page, Rights};
use std::alloc::Global;
use undo_log::Note;

impl Memory {
    /// Makes so many pages of zeros from an address on, none of which is there.
    pub fn map(
        &mut self,
        alloc: Global,
        from: u64,
        count: u64,
        rights: Rights,
    ) -> Result<(), MemoryWant>
        requires aligned { from % PAGE ≡ 0 }
        requires below { from + PAGE * count < 2 ^ 64 }
        requires free { IsFree self.old.space from (PAGE * count) }
        requires readable { IsTrue rights.write → IsTrue rights.read }
        requires sealed { IsFalse (rights.write && rights.exec) }
        ensures ok { OnOk result (self.new ≡ record self.old {
          space = with_zeros self.old.space from (PAGE * count) rights;
        }) }
        ensures err { OnErr result (self.new ≡ self.old) }
        ensures back { OnOk result (put_back self.new (Note.Made from count) ≡ self.old) }
        ensures text { IsFalse rights.exec → SameText self.old.space self.new.space }
    {
        self.pages.add(alloc, from, count, rights)
    }

    /// Takes the page that begins at an address away, and answers it. Takes no memory, and leaves
    /// room for the page.
    pub fn take_page(&mut self, from: u64) -> Page
        requires aligned { from % PAGE ≡ 0 }
        requires there { IsSome (map.get self.old.space from) }
        ensures page { result ≡ page_at self.old.space from }
        ensures whole { IsPageOf self.old.space result }
        ensures below { from + PAGE < 2 ^ 64 }
        ensures gone { self.new ≡ record self.old {
          space = without self.old.space from PAGE;
          spare = self.old.spare + 1;
        } }
        ensures back { put_back self.new (Note.Gone result) ≡ self.old }
        ensures text { IsFalse result.rights.exec → SameText self.old.space self.new.space }
    {
        self.pages.take_page(from)
    }

    /// Puts a page back, where none is there. Takes no memory, and uses room for one page.
    pub fn put_page(&mut self, page: Page)
        requires aligned { page.from % PAGE ≡ 0 }
        requires below { page.from + PAGE < 2 ^ 64 }
        requires whole { length page.bytes ≡ PAGE }
        requires readable { IsTrue page.rights.write → IsTrue page.rights.read }
        requires sealed { IsFalse (page.rights.write && page.rights.exec) }
        requires free { IsFree self.old.space page.from PAGE }
        requires room { 0 < self.old.spare }
        ensures value { self.new ≡ record self.old {
          space = with_page self.old.space page;
          spare = self.old.spare - 1;
        } }
        ensures text { IsFalse page.rights.exec → SameText self.old.space self.new.space }
    {
        self.pages.put_page(page);
    }

    /// Takes away those of so many pages from an address on that are there. They are lost, and
    /// leave no room.
    pub fn unmap(&mut self, from: u64, count: u64)
        requires aligned { from % PAGE ≡ 0 }
        ensures value { self.new ≡ record self.old {
          space = without self.old.space from (PAGE * count);
        } }
        ensures text { HasNoText self.old.space from (PAGE * count)
            → SameText self.old.space self.new.space }
    {
        self.pages.drop_pages(from, count);
    }

    /// Whether a page begins at an address.
    pub fn has_page(&self, from: u64) -> bool
        requires aligned { from % PAGE ≡ 0 }
        ensures value { result ≡ map.contains_key self.now.space from }
    {
        self.pages.has_page(from)
    }

    /// The least address of a page that is at least an address; None exactly where there is none.
    pub fn page_from(&self, address: u64) -> Option<u64>
        ensures found { IfSome result (IsNextPage self.now.space address) }
        ensures none { IfNone result (HasNoPageFrom self.now.space address) }
    {
        self.pages.pages_from(address)
    }

    /// How many pages of the area of mapped pages are there.
    pub fn mapped(&self) -> u64
        ensures value { result ≡ mapped_pages self.now.space }
    {
        self.pages.mapped()
    }

    /// The lowest place in the area of mapped pages where so many pages in a row are missing; None
    /// exactly where they fit nowhere.
    pub fn free_place(&self, count: u64) -> Option<u64>
        ensures value { result ≡ free_place self.now.space count }
        ensures place { IfSome result (IsPlace count) }
        ensures free { IfSome result (λ place. IsFree self.now.space place (PAGE * count)) }
    {
        self.pages.free_place(count)
    }
}

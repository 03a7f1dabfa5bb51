ghost use Rattle.std.specs.Prelude.{◌≡◌, ◌+◌, ◌*◌, ◌%◌, ◌-◌, ◌<◌, ◌≤◌, ◌^◌, length, IsSome};
ghost use Rattle.std.specs.FinMap as map;
ghost use Rattle.guest_words.specs.Space.{without};
ghost use Rattle.guest_pages.specs.Paged.{page_at, with_page};
ghost use Rattle.guest_pages.specs.Stretch.{IsFree, IsPageOf};

use crate::page_buffer::{PageBuffer, count_before, index_of};
use crate::pages::Pages;
use guest_words::limits::PAGE;
use guest_words::{Bytes, Page};

impl Pages {
    /// Takes the page that begins at an address away, and answers it. Takes no memory, and leaves
    /// room for the page.
    pub fn take_page(&mut self, from: u64) -> Page
        requires aligned { from % PAGE ≡ 0 }
        requires there { IsSome (map.get self.old.space from) }
        ensures page { result ≡ page_at self.old.space from }
        ensures whole { IsPageOf self.old.space result }
        ensures below { from + PAGE < 2 ^ 64 }
        ensures gone { self.new ≡ record {
          space = without self.old.space from PAGE;
          spare = self.old.spare + 1;
        } }
    {
        match index_of(self.buffers.as_slice(), from) {
            Some(index) => {
                let buffer = self.buffers.remove(index);
                self.spare += 1;
                buffer.into_page()
            }
            None => unreachable!(),
        }
    }

    /// Puts a page back, where none is there. Takes no memory, and uses room for one page.
    pub fn put_page(&mut self, page: Page)
        requires aligned { page.from % PAGE ≡ 0 }
        requires below { page.from + PAGE < 2 ^ 64 }
        requires whole { length page.bytes ≡ PAGE }
        requires free { IsFree self.old.space page.from PAGE }
        requires room { 0 < self.old.spare }
        ensures value { self.new ≡ record {
          space = with_page self.old.space page;
          spare = self.old.spare - 1;
        } }
    {
        let index = count_before(self.buffers.as_slice(), page.from);
        match self.buffers.insert(index, PageBuffer::of(page)) {
            Ok(()) => self.spare -= 1,
            Err(_) => unreachable!(),
        }
    }

    /// Takes away those of so many pages from an address on that are there.
    pub fn drop_pages(&mut self, from: u64, count: u64)
        requires aligned { from % PAGE ≡ 0 }
        ensures value { self.new ≡ record self.old {
          space = without self.old.space from (PAGE * count);
        } }
    {
        let end = from.saturating_add(PAGE.saturating_mul(count));
        let pages = self.buffers.as_slice();
        let first = count_before(pages, from);
        let last = count_before(pages, end);
        self.buffers.drain(first..last);
    }
}

impl PageBuffer {
    fn of(page: Page) -> PageBuffer
        ensures from { result.from ≡ page.from }
        ensures rights { result.rights ≡ page.rights }
        ensures bytes { result.bytes.items ≡ page.bytes }
    {
        PageBuffer {
            from: page.from,
            rights: page.rights,
            bytes: page.bytes.into_vec(),
        }
    }

    fn into_page(self) -> Page
        ensures value { result ≡ record {
          from = self.from;
          rights = self.rights;
          bytes = self.bytes.items;
        } }
    {
        Page {
            from: self.from,
            rights: self.rights,
            bytes: Bytes::of(self.bytes),
        }
    }
}

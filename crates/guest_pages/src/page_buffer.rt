ghost use Rattle.std.specs.Prelude.{◌≡◌, ◌+◌, ◌-◌, ◌*◌, ◌%◌, ◌<◌, ◌≤◌};
ghost use Rattle.std.specs.Prelude.{IfSome, IfNone, length, find, None, true};
ghost use Rattle.guest_pages.specs.Buffers.{cells_of, end_of, holds, AreSorted};
ghost use Rattle.guest_pages.specs.Buffers.{IsCountBefore, IsHolder, IsPageBuffer};
ghost use Rattle.guest_words.specs.Widths.{bytes_in};
ghost use Rattle.guest_pages.specs.Stretch.{HasNoPageFrom, IsFree, IsLastPage, IsNextPage};

use guest_words::limits::PAGE;
use guest_words::{Rights, Width};

/// A page.
#[derive(Drop)]
pub struct PageBuffer {
    /// The guest address of its first byte.
    pub from: u64,
    pub rights: Rights,
    /// Its 4,096 bytes.
    pub bytes: Vec<u8>,
}

/// How many buffers begin before an address. Halves what is left with each comparison.
pub fn count_before(buffers: &[PageBuffer], address: u64) -> usize
    requires sorted { AreSorted buffers.now }
    ensures value { IsCountBefore buffers.now address result }
{
    let mut low = 0;
    let mut high = buffers.len();
    while low < high {
        let middle = low + (high - low) / 2;
        if buffers[middle].from < address {
            low = middle + 1;
        } else {
            high = middle;
        }
    }
    low
}

/// The index of the buffer that has an address, if there is one.
pub fn index_of(buffers: &[PageBuffer], address: u64) -> Option<usize>
    requires sorted { AreSorted buffers.now }
    ensures found { IfSome result (IsHolder buffers.now address) }
    ensures none { IfNone result (find (holds address) buffers.now ≡ None) }
{
    let page = address / PAGE * PAGE;
    let index = count_before(buffers, page);
    if index < buffers.len() && buffers[index].from == page {
        Some(index)
    } else {
        None
    }
}

/// The least address of a page that is at least an address, if there is one.
pub fn next_page(buffers: &[PageBuffer], address: u64) -> Option<u64>
    requires sorted { AreSorted buffers.now }
    ensures found { IfSome result (IsNextPage (cells_of buffers.now) address) }
    ensures none { IfNone result (HasNoPageFrom (cells_of buffers.now) address) }
{
    let count = count_before(buffers, address);
    if count < buffers.len() {
        Some(buffers[count].from)
    } else {
        None
    }
}

/// The greatest address of a page among so many pages from an address on, if one is there.
pub fn last_page(buffers: &[PageBuffer], from: u64, count: u64) -> Option<u64>
    requires sorted { AreSorted buffers.now }
    requires aligned { from % PAGE ≡ 0 }
    ensures found { IfSome result (IsLastPage (cells_of buffers.now) from (PAGE * count)) }
    ensures none { IfNone result (IsFree (cells_of buffers.now) from (PAGE * count)) }
{
    let end = from.saturating_add(PAGE.saturating_mul(count));
    let before = count_before(buffers, end);
    if before > 0 && from <= buffers[before - 1].from {
        Some(buffers[before - 1].from)
    } else {
        None
    }
}

/// Whether a page has so many bytes from an address on, by one comparison.
#[inline(always)]
pub fn has_all(buffer: &PageBuffer, address: u64, width: Width) -> bool
    requires page { IsPageBuffer buffer.now }
    ensures low { result ≡ true → buffer.now.from ≤ address }
    ensures high { result ≡ true → address + bytes_in width ≤ end_of buffer.now }
{
    address.wrapping_sub(buffer.from) <= PAGE - width.bytes()
}

ghost use Rattle.std.specs.Prelude.{◌≡◌, ◌+◌, ◌*◌, ◌<◌, ◌≤◌, ◌↔◌, length, IfSome, IsTrue};
ghost use Rattle.guest_words.specs.CallChanges.{free_place, mapped_pages};
ghost use Rattle.guest_pages.specs.Buffers.{cells_of, AreAdjacent, AreSorted};
ghost use Rattle.guest_pages.specs.Stretch.{IsFree, IsPlace};

use crate::page_buffer::{PageBuffer, count_before};
use crate::pages::Pages;
use guest_words::limits::{MAP_END, MAP_FROM, PAGE};

impl Pages {
    /// How many pages of the area of mapped pages are there.
    pub fn mapped(&self) -> u64
        ensures value { result ≡ mapped_pages self.now.space }
    {
        let pages = self.buffers.as_slice();
        let first = count_before(pages, MAP_FROM);
        let last = count_before(pages, MAP_END);
        (last - first) as u64
    }

    /// The lowest place in the area of mapped pages where so many pages in a row are missing; None
    /// exactly where they fit nowhere.
    pub fn free_place(&self, count: u64) -> Option<u64>
        ensures value { result ≡ free_place self.now.space count }
        ensures place { IfSome result (IsPlace count) }
        ensures free { IfSome result (λ place. IsFree self.now.space place (PAGE * count)) }
    {
        lowest_gap(self.buffers.as_slice(), count)
    }
}

// The beginning of the area, or the end of a page of it, the first behind which so many pages are
// missing. Pages that lie side by side are passed over at once.
fn lowest_gap(pages: &[PageBuffer], count: u64) -> Option<u64>
    requires sorted { AreSorted pages.now }
    ensures value { result ≡ free_place (cells_of pages.now) count }
    ensures place { IfSome result (IsPlace count) }
    ensures free { IfSome result (λ place. IsFree (cells_of pages.now) place (PAGE * count)) }
{
    let mut index = count_before(pages, MAP_FROM);
    let last = count_before(pages, MAP_END);
    let mut place = MAP_FROM;
    while index < last {
        if count <= (pages[index].from - place) / PAGE {
            return Some(place);
        }
        let rest = &pages[index..last];
        index += count_adjacent(rest);
        place = pages[index - 1].from + PAGE;
    }
    if count <= (MAP_END - place) / PAGE {
        Some(place)
    } else {
        None
    }
}

// How many of the first pages lie side by side. The stride doubles as long as they do, and is
// halved from then on, so that few pages are looked at.
fn count_adjacent(pages: &[PageBuffer]) -> usize
    requires sorted { AreSorted pages.now }
    requires some { 0 < length pages.now }
    ensures some { 0 < result }
    ensures within { result ≤ length pages.now }
    ensures adjacent { AreAdjacent pages.now result }
    ensures all { result < length pages.now → ¬ AreAdjacent pages.now (result + 1) }
{
    let mut count = 1;
    let mut stride = 1;
    while stride > 0 {
        if stride <= pages.len() - count && are_adjacent(pages, count + stride) {
            count += stride;
            stride *= 2;
        } else {
            stride /= 2;
        }
    }
    count
}

// Whether so many of the first pages lie side by side. As pages ascend, the last of them tells.
fn are_adjacent(pages: &[PageBuffer], count: usize) -> bool
    requires sorted { AreSorted pages.now }
    requires some { 0 < count }
    requires within { count ≤ length pages.now }
    ensures value { IsTrue result ↔ AreAdjacent pages.now count }
{
    (pages[count - 1].from - pages[0].from) / PAGE == count as u64 - 1
}

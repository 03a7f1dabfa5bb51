ghost use Rattle.std.specs.Prelude.{◌≡◌, ◌+◌, ◌-◌, ◌/◌, ◌<◌, ◌≤◌, [], ◌∷◌, ◌++◌, map, IsFalse};
ghost use Rattle.std.specs.List.{list_any};
ghost use Rattle.guest_words.specs.declared.limits.TheConstants.{PAGE, LOADS_END};

use crate::segment_list::any_has_page;
use guest_words::Rights;
use guest_words::limits::{FIRST_ADDRESS, PAGE};
use std::default::Default;

/// A load of an image, with its bytes still in the file.
#[derive(Clone, Copy, Debug)]
pub struct Segment<'a> {
    /// The guest address of its first byte.
    pub address: u64,
    /// How many bytes of memory it has.
    pub size: u64,
    /// Its first bytes; the others are zero.
    pub bytes: &'a [u8],
    pub rights: Rights,
    ghost filled: { 0 < size },
    ghost placed: { address + size ≤ LOADS_END },
}

impl Default for Segment<'_> {
    /// An empty place of a list.
    fn default() -> Self {
        Segment {
            address: FIRST_ADDRESS,
            size: 1,
            bytes: &[],
            rights: Rights {
                read: false,
                write: false,
                exec: false,
            },
        }
    }
}

impl Segment<'_> {
    ghost use Rattle.guest_words.specs.Image.{addresses_of, pages_of, contains, meets, clashes, page_count};
    ghost use Rattle.elf_loader.specs.Segment.{load_of};

    /// The page of its first byte.
    fn first_page(&self) -> u64
        ensures { result ≡ self.now.address / PAGE }
    {
        self.address / PAGE
    }

    /// The page of its last byte.
    fn last_page(&self) -> u64
        ensures { result ≡ (self.now.address + self.now.size - 1) / PAGE }
    {
        (self.address + self.size - 1) / PAGE
    }

    /// Whether it has a byte in the page of this number.
    pub fn has_page(&self, page: u64) -> bool
        ensures { result ≡ contains (pages_of (load_of self.now)) page }
    {
        self.first_page() <= page && page <= self.last_page()
    }

    /// Whether the two have a page in common.
    fn shares_page(&self, other: &Segment) -> bool
        ensures { result ≡ meets (pages_of (load_of self.now)) (pages_of (load_of other.now)) }
    {
        self.first_page() <= other.last_page() && other.first_page() <= self.last_page()
    }

    /// Whether the two have a byte in common.
    fn shares_byte(&self, other: &Segment) -> bool
        ensures { result
            ≡ meets (addresses_of (load_of self.now)) (addresses_of (load_of other.now)) }
    {
        self.address < other.address + other.size && other.address < self.address + self.size
    }

    /// Whether the two have a page in common and other rights, or a byte in common.
    pub fn clashes(&self, later: &Segment) -> bool
        ensures { result ≡ clashes (load_of self.now) (load_of later.now) }
    {
        self.shares_page(later) && self.rights != later.rights || self.shares_byte(later)
    }

    /// How many of its pages no earlier segment has. As it clashes with none, an earlier segment
    /// can only have its first and its last page.
    pub fn new_pages(&self, earlier: &[Segment]) -> u64
        requires { IsFalse (list_any (λ s. clashes (load_of s) (load_of self.now)) earlier.now) }
        ensures count { page_count (map load_of earlier.now ++ load_of self.now ∷ [])
            ≡ page_count (map load_of earlier.now) + result }
        ensures small { result ≤ self.now.size }
    {
        let first = self.first_page();
        let last = self.last_page();
        let had_first = any_has_page(earlier, first);
        let had_last = first != last && any_has_page(earlier, last);
        last - first + 1 - u64::from(had_first) - u64::from(had_last)
    }
}

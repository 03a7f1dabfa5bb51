ghost use Rattle.std.specs.Prelude.{◌≡◌, ℕ, ◌+◌, ◌%◌, ◌^◌, ◌<◌, ◌≤◌, IsSome};
ghost use Rattle.std.specs.FinMap as map;
ghost use Rattle.guest_words.specs.Space.{has_right};
ghost use Rattle.guest_pages.specs.Paged.{rights_of};

use crate::memory::Memory;
use guest_words::Rights;
use guest_words::limits::PAGE;

impl Memory {
    /// The rights of the byte at an address; one in no page has none.
    pub fn rights_at(&self, address: u64) -> Rights
        ensures value { result ≡ rights_of (map.get self.now.space address) }
    {
        match self.pages.byte_at(address) {
            Some(cell) => cell.rights,
            None => Rights {
                read: false,
                write: false,
                exec: false,
            },
        }
    }

    /// Whether the page that begins at an address may be executed, with all its bytes; false where
    /// none does.
    pub fn is_text(&self, page: u64) -> bool
        requires aligned { page % PAGE ≡ 0 }
        ensures value { result ≡ has_right (λ rights. rights.exec) (map.get self.now.space page) }
        ensures whole { IsSome (map.get self.now.space page)
            → (address : ℕ)
            → page ≤ address
            → address < page + PAGE
            → has_right (λ rights. rights.exec) (map.get self.now.space address) ≡ result }
        ensures below { IsSome (map.get self.now.space page) → page + PAGE < 2 ^ 64 }
    {
        match self.pages.stretch_at(page) {
            Some(stretch) => stretch.rights.exec,
            None => false,
        }
    }
}

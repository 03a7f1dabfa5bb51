ghost use Rattle.std.specs.Prelude.{◌≡◌};

use guest_words::Width;

/// What stood at a place before a store.
#[derive(Clone, Copy, Debug, PartialEq, Eq)]
pub struct Before {
    pub address: u64,
    /// The bytes, the least significant first.
    pub number: u64,
    pub width: Width,
}

impl Before {
    /// Before any store.
    pub fn new() -> Before {
        Before {
            address: 0,
            number: 0,
            width: Width::One,
        }
    }

    /// Says what stood at a place. Each part is put on its own, which leaves the room between them
    /// as it is.
    #[inline(always)]
    pub fn put(&mut self, address: u64, width: Width, number: u64)
        ensures value { self.new ≡ record { address = address; number = number; width = width } }
    {
        self.address = address;
        self.number = number;
        self.width = width;
    }
}

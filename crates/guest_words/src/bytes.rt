ghost use Rattle.std.specs.Prelude.{◌≡◌, IfOk};

use crate::memory_want::MemoryWant;
use std::alloc::Global;
use std::marker::Model;

/// A list of bytes.
#[derive(Drop)]
pub struct Bytes {
    items: Vec<u8>,
}

impl Model for Bytes {
    ghost use Rattle.std.specs.Prelude.{List, ℕ};

    ghost Value = { List ℕ };

    ghost view = { λ b. b.items.items };
}

impl Bytes {
    /// The bytes of the `Vec`, which is kept as it is.
    pub fn of(items: Vec<u8>) -> Bytes
        ensures list { result ≡ items.items }
    {
        Bytes { items }
    }

    /// The bytes, in order.
    pub fn items(&self) -> &[u8]
        ensures list { result.now ≡ self.now }
    {
        self.items.as_slice()
    }

    /// The `Vec` that holds the bytes.
    pub fn into_vec(self) -> Vec<u8>
        ensures list { result.items ≡ self }
    {
        self.items
    }

    /// An equal list.
    pub fn copy(&self, alloc: Global) -> Result<Bytes, MemoryWant>
        ensures ok { IfOk result (λ bytes. bytes ≡ self.now) }
    {
        Ok(Bytes {
            items: self.items.as_slice().to_vec(alloc)?,
        })
    }
}

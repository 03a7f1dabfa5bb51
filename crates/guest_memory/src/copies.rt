ghost use Rattle.std.specs.Prelude.{◌≡◌, IfOk};

use crate::memory::Memory;
use guest_words::MemoryWant;
use std::alloc::Global;

impl Memory {
    /// The same memory, with no room for any page that comes back.
    pub fn copy(&self, alloc: Global) -> Result<Memory, MemoryWant>
        ensures ok { IfOk result (λ memory. memory ≡ record self.now { spare = 0 }) }
    {
        Ok(Memory {
            pages: self.pages.copy(alloc)?,
            low: self.low,
            brk: self.brk,
        })
    }
}

ghost use Rattle.std.specs.Prelude.{◌≡◌, IfOk};

use crate::bytes::Bytes;
use crate::memory_want::MemoryWant;
use std::alloc::Global;

/// What a call asked of a device.
#[derive(Clone, Copy, Debug, PartialEq, Eq)]
pub enum Way {
    Read,
    Write,
    Close,
}

/// One call on a device, as it went.
#[derive(Drop)]
pub struct Record {
    /// The descriptor.
    pub port: u64,
    pub way: Way,
    /// How many bytes were asked for; 0 at a close.
    pub asked: u64,
    /// How many bytes went, or an error number with a minus sign.
    pub answer: i64,
    /// The bytes that were read or written.
    pub bytes: Bytes,
}

impl Record {
    /// An equal record.
    pub fn copy(&self, alloc: Global) -> Result<Record, MemoryWant>
        ensures ok { IfOk result (λ copy. copy ≡ self.now) }
    {
        Ok(Record {
            port: self.port,
            way: self.way,
            asked: self.asked,
            answer: self.answer,
            bytes: self.bytes.copy(alloc)?,
        })
    }
}

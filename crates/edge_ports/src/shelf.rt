ghost use Rattle.edge_ports.specs.Shelves.{Loads, Saves, Shelved};

use crate::reason::Reason;
use guest_words::Bytes;
use std::alloc::Global;

/// Why a file wasn't loaded or saved.
#[derive(Clone, Copy, Debug, PartialEq, Eq)]
pub enum ShelfFault {
    /// It couldn't be read, isn't there, or couldn't be written, for this reason. The shelf's count
    /// for its name rose: that of loads, or that of saves.
    Failed(Reason),
    /// It has more bytes than the limit. The shelf's count of long answers for its name and the
    /// limit rose. `length` is over the limit; where the shelf tells, it is the file's.
    TooLong { length: u64 },
    /// Memory was wanting.
    Memory,
}

/// Named files that are read and written whole.
pub trait Shelf {
    /// What it tells of its files, its counts of faults and of long answers, and what it was asked
    /// for so far, with its answers.
    ghost seen: { Self → Shelved };

    /// The bytes of the named file, at most `limit` of them.
    fn load(&mut self, alloc: Global, name: &str, limit: u64) -> Result<Bytes, ShelfFault>
        ensures loads { Loads (seen self.old) (seen self.new) name.now limit result };

    /// Makes the named file hold just these bytes, or leaves it as it was.
    fn save(&mut self, alloc: Global, name: &str, bytes: &Bytes) -> Result<(), ShelfFault>
        ensures saves { Saves (seen self.old) (seen self.new) name.now bytes.now result };
}

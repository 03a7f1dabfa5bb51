ghost use Rattle.std.specs.Prelude.{◌≡◌, IsOk};
ghost use Rattle.edge_ports.specs.End.{Takes};
ghost use Rattle.edge_ports.specs.InMemory.{sure_end};

use crate::failed::Failed;
use crate::source::Source;
use crate::unread::Unread;
use guest_words::Bytes;
use std::marker::Model;

/// A source of given bytes that never fails. Contracts see the bytes that are left.
#[derive(Drop)]
pub struct SureSource {
    unread: Unread,
}

impl Model for SureSource {
    ghost use Rattle.std.specs.Prelude.{List, ℕ};

    ghost Value = { List ℕ };

    ghost view = { λ s. s.unread };
}

impl Source for SureSource {
    ghost end = { sure_end };

    fn take(&mut self, into: &mut [u8]) -> Result<usize, Failed>
        ensures takes { Takes (sure_end self.old) (sure_end self.new) into.new result }
        ensures ok { IsOk result }
    {
        Ok(self.unread.take(into))
    }
}

impl SureSource {
    /// All the bytes are left.
    pub fn new(bytes: Bytes) -> SureSource
        ensures all { result ≡ bytes }
    {
        SureSource {
            unread: Unread::of(bytes),
        }
    }
}

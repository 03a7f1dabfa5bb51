ghost use Rattle.std.specs.Prelude.{◌≡◌, ◌<◌, length};
ghost use Rattle.std.specs.Io.KnownBytes.{ReadConsumes};
ghost use Rattle.edge_ports.specs.Adapters.{reader_of, std_source_end};
ghost use Rattle.edge_ports.specs.End.{untold, Takes};

use crate::failed::Failed;
use crate::source::Source;
use std::io::Read;

/// A source over a reader, as standard input. It doesn't tell what is left.
#[derive(Drop)]
pub struct StdSource<R> {
    reader: R,
    faults: u64,
}

impl<R: Read + Drop> Source for StdSource<R> {
    ghost end = { std_source_end };

    /// One read of the reader. An error of its is `Failed`.
    fn take(&mut self, into: &mut [u8]) -> Result<usize, Failed>
        ensures takes { Takes (std_source_end self.old) (std_source_end self.new) into.new result }
        ensures reads { 0 < length into.old → ReadConsumes (R.remaining (reader_of self.old))
            (R.remaining (reader_of self.new)) result into.new }
    {
        if into.is_empty() {
            return Ok(0);
        }
        match self.reader.read(into) {
            Ok(count) => Ok(count),
            Err(_) => {
                self.faults = self.faults.saturating_add(1);
                Err(Failed)
            }
        }
    }
}

impl<R: Read> StdSource<R> {
    /// No call has failed yet.
    pub fn new(reader: R) -> StdSource<R>
        ensures reader { reader_of result ≡ reader }
        ensures none { std_source_end result ≡ untold 0 0 }
    {
        StdSource { reader, faults: 0 }
    }
}

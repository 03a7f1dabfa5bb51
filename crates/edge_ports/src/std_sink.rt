ghost use Rattle.std.specs.Prelude.{◌≡◌, ◌<◌, length};
ghost use Rattle.edge_ports.specs.Adapters.{std_sink_end, writer_of, WritesWhole};
ghost use Rattle.edge_ports.specs.End.{untold, Puts};

use crate::failed::Failed;
use crate::sink::Sink;
use crate::writing::write_whole;
use std::io::Write;

/// A sink over a writer, as standard output. It doesn't tell what it was given.
#[derive(Drop)]
pub struct StdSink<W> {
    writer: W,
    faults: u64,
}

impl<W: Write + Drop> Sink for StdSink<W> {
    ghost end = { std_sink_end };

    /// Writes all of the bytes and flushes. An error of the writer, or a write that takes nothing,
    /// is `Failed`; the writer then has a part of the bytes, from their front.
    fn put(&mut self, from: &[u8]) -> Result<(), Failed>
        ensures puts { Puts (std_sink_end self.old) (std_sink_end self.new) from.now result }
        ensures writes { 0 < length from.now → WritesWhole (W.contents (writer_of self.old))
            (W.contents (writer_of self.new)) from.now result }
    {
        if from.is_empty() {
            return Ok(());
        }
        if write_whole(&mut self.writer, from).is_err() {
            self.faults = self.faults.saturating_add(1);
            return Err(Failed);
        }
        Ok(())
    }
}

impl<W: Write> StdSink<W> {
    /// No call has failed yet.
    pub fn new(writer: W) -> StdSink<W>
        ensures writer { writer_of result ≡ writer }
        ensures none { std_sink_end result ≡ untold 0 0 }
    {
        StdSink { writer, faults: 0 }
    }
}

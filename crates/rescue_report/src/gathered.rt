ghost use Rattle.std.specs.Prelude.{◌≡◌, ◌++◌, [], OnOk, OnErr, IfOk};
ghost use Rattle.std.specs.Bool.{OnTrue, OnFalse};
ghost use Rattle.std.specs.List.{flat_map};
ghost use Rattle.edge_ports.specs.End.{Puts};
ghost use Rattle.rescue_report.specs.ListPuts.{BreaksFront, PutsFront};

use edge_ports::{Failed, Sink};
use guest_words::MemoryWant;
use std::alloc::Global;
use std::marker::Model;

/// How many bytes are gathered at most before they are put.
const ROOM: usize = 65_536;

/// Bytes that are gathered before a sink is given them, so that it is given many at a time. All of
/// their memory is taken at first. Contracts see the list of those that the sink wasn't given yet.
#[derive(Drop)]
pub(crate) struct Gathered {
    bytes: Vec<u8>,
    count: usize,
}

impl Model for Gathered {
    ghost use Rattle.std.specs.Prelude.{List, ℕ, ◌≤◌, take, vec_len};

    ghost Value = { List ℕ };

    ghost view = { λ g. take g.count g.bytes.items };

    ghost invariant = { λ g. g.count ≤ vec_len g.bytes };
}

impl Gathered {
    pub fn new(alloc: Global) -> Result<Gathered, MemoryWant>
        ensures none { IfOk result (λ gathered. gathered ≡ []) }
    {
        let bytes = vec![in alloc; 0; ROOM]?;
        Ok(Gathered { bytes, count: 0 })
    }

    /// Puts pieces of text, each behind the one before.
    pub fn put_all<R: Sink>(&mut self, sink: &mut R, pieces: &[&[u8]]) -> Result<(), Failed>
        ensures ok { OnOk result
            (PutsFront (self.old ++ flat_map (λ piece. piece.now) pieces.now) self.new
            (R.end sink.old) (R.end sink.new)) }
        ensures breaks { OnErr result
            (BreaksFront (self.old ++ flat_map (λ piece. piece.now) pieces.now)
            (R.end sink.old) (R.end sink.new)) }
    {
        for piece in pieces {
            self.put(sink, piece)?;
        }
        Ok(())
    }

    /// Puts bytes. Those for which no room is left make the sink be given what is gathered, and
    /// those that are more than all of the room go to it straight.
    fn put<R: Sink>(&mut self, sink: &mut R, bytes: &[u8]) -> Result<(), Failed>
        ensures ok { OnOk result
            (PutsFront (self.old ++ bytes.now) self.new (R.end sink.old) (R.end sink.new)) }
        ensures breaks { OnErr result
            (BreaksFront (self.old ++ bytes.now) (R.end sink.old) (R.end sink.new)) }
    {
        if self.gather(bytes) {
            return Ok(());
        }
        self.finish(sink)?;
        if self.gather(bytes) {
            return Ok(());
        }
        sink.put(bytes)
    }

    /// Gathers bytes, if there is room.
    fn gather(&mut self, bytes: &[u8]) -> bool
        ensures gathers { OnTrue result (self.new ≡ self.old ++ bytes.now) }
        ensures same { OnFalse result (self.new ≡ self.old) }
    {
        if bytes.len() > self.bytes.len() - self.count {
            return false;
        }
        let end = self.count + bytes.len();
        self.bytes[self.count..end].copy_from_slice(bytes);
        self.count = end;
        true
    }

    /// Gives the sink what is gathered.
    pub fn finish<R: Sink>(&mut self, sink: &mut R) -> Result<(), Failed>
        ensures puts { Puts (R.end sink.old) (R.end sink.new) self.old result }
        ensures none { OnOk result (self.new ≡ []) }
    {
        sink.put(&self.bytes[..self.count])?;
        self.count = 0;
        Ok(())
    }
}

ghost use Rattle.std.specs.Prelude.{◌≡◌, option_copied};
ghost use Rattle.edge_ports.specs.End.{End, Takes, Puts, ended};

use crate::failed::Failed;

/// A connection, which gives and takes bytes.
pub trait Port: Drop {
    /// What it has left and was given, where it tells, its count of faults, and how often it was
    /// closed.
    ghost end: { Self → End };

    /// The bytes that it was given, also after its close; None exactly where it doesn't tell.
    fn given(&self) -> Option<&[u8]>
        ensures value { option_copied result ≡ (end self.now).given };

    /// Ends the connection, and counts this. What it tells of its bytes, and its count of faults,
    /// stay.
    fn close(&mut self)
        ensures ended { end self.new ≡ ended (end self.old) };

    /// Takes the next bytes into the first places of `into`, and answers how many.
    ///
    /// 0 comes only where `into` is empty or nothing is left. After `Failed` nothing was taken.
    fn take(&mut self, into: &mut [u8]) -> Result<usize, Failed>
        ensures takes { Takes (end self.old) (end self.new) into.new result };

    /// Appends all of the bytes. After `Failed` a port that tells was given none of them.
    fn put(&mut self, from: &[u8]) -> Result<(), Failed>
        ensures puts { Puts (end self.old) (end self.new) from.now result };
}

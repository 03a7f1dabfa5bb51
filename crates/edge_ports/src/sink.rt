ghost use Rattle.edge_ports.specs.End.{End, Puts};

use crate::failed::Failed;

/// Where bytes go to.
pub trait Sink: Drop {
    /// What it was given, where it tells, and its count of faults.
    ghost end: { Self → End };

    /// Appends all of the bytes. After `Failed` a sink that tells was given none of them.
    fn put(&mut self, from: &[u8]) -> Result<(), Failed>
        ensures puts { Puts (end self.old) (end self.new) from.now result };
}

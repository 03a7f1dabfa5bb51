ghost use Rattle.edge_ports.specs.End.{End, Takes};

use crate::failed::Failed;

/// Where bytes come from.
pub trait Source: Drop {
    /// What it has left, where it tells, and its count of faults.
    ghost end: { Self → End };

    /// Takes the next bytes into the first places of `into`, and answers how many.
    ///
    /// 0 comes only where `into` is empty or nothing is left. After `Failed` nothing was taken.
    fn take(&mut self, into: &mut [u8]) -> Result<usize, Failed>
        ensures takes { Takes (end self.old) (end self.new) into.new result };
}

ghost use Rattle.edge_ports.specs.Adapters.{WritesWhole};

use crate::failed::Failed;
use std::io::Write;

/// Writes the piece whole, by as many writes as it takes, and flushes.
///
/// An error of the writer is `Failed`, and so is a write that takes nothing of what is left.
pub(crate) fn write_whole<W: Write>(writer: &mut W, piece: &[u8]) -> Result<(), Failed>
    ensures writes { WritesWhole (W.contents writer.old) (W.contents writer.new) piece.now result }
{
    let mut done = 0;
    while done < piece.len() {
        match writer.write(&piece[done..]) {
            Ok(count) if count > 0 => done += count,
            _ => return Err(Failed),
        }
    }
    match writer.flush() {
        Ok(()) => Ok(()),
        Err(_) => Err(Failed),
    }
}

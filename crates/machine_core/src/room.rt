ghost use Rattle.std.specs.Prelude.{◌≡◌, ◌<◌, ◌≤◌, OnOk};

use guest_words::MemoryWant;
use open_calls::Calls;
use undo_log::Log;

/// Makes room for an entry in the open calls, and for so many notes in the log.
#[inline]
pub fn make_room(calls: &mut Calls, log: &mut Log, notes: u64) -> Result<(), MemoryWant>
    ensures nest { calls.new.nest ≡ calls.old.nest }
    ensures hart { calls.new.hart ≡ calls.old.hart }
    ensures acts { OnOk result (0 < calls.new.acts) }
    ensures same { log.new.notes ≡ log.old.notes }
    ensures spare { OnOk result (notes ≤ log.new.spare) }
{
    calls.make_room()?;
    log.reserve(notes)
}

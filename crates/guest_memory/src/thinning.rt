ghost use Rattle.std.specs.Prelude.{◌≡◌, ◌+◌, ◌≤◌, length, take, drop, OnErr};
ghost use Rattle.undo_log.specs.Undo.{gone_in, undone};
ghost use Rattle.guest_memory.specs.Kept.{AddressSpace};
ghost use Rattle.guest_memory.specs.Returning.{put_back};

use guest_words::MemoryWant;
use std::alloc::Global;
use undo_log::Log;

/// From a position of a log on, takes away notes of bytes that nothing is put back by: whatever the
/// memory is, the notes from there on make the same of it.
pub fn thin(alloc: Global, log: &mut Log, from: u64) -> Result<(), MemoryWant>
    ensures same { (memory : AddressSpace)
        → undone put_back (drop from log.new.notes) memory
        ≡ undone put_back (drop from log.old.notes) memory }
    ensures err { OnErr result (log.new ≡ log.old) }
    ensures older { take from log.new.notes ≡ take from log.old.notes }
    ensures fewer { length log.new.notes ≤ length log.old.notes }
    ensures pages { gone_in log.new.notes ≡ gone_in log.old.notes }
    ensures room { log.new.spare + length log.new.notes ≡ log.old.spare + length log.old.notes }
{
    log.thin(alloc, from)
}

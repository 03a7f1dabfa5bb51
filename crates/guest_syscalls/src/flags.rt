// Flags of clone and of mmap.
ghost use Rattle.std.specs.Prelude.{◌≡◌};
ghost use Rattle.guest_words.specs.Calls.{makes_hart, is_map_known, mapped_rights};

use guest_words::Rights;
use guest_words::linux::{
    CLONE_KNOWN, CLONE_THREAD, CLONE_VM, MAP_HINTS, MAP_OWN, PROT_READ, PROT_WRITE,
};

/// Whether a new hart is to be made: all flags are known, and memory is shared in one thread group.
pub fn makes_hart(flags: u64) -> bool
    ensures value { result ≡ makes_hart flags }
{
    flags | CLONE_KNOWN == CLONE_KNOWN && flags & CLONE_VM != 0 && flags & CLONE_THREAD != 0
}

/// Whether memory of the program's own is asked for, without exec.
pub fn is_map_known(prot: u64, flags: u64) -> bool
    ensures value { result ≡ is_map_known prot flags }
{
    prot <= PROT_READ + PROT_WRITE && flags | MAP_HINTS == MAP_OWN + MAP_HINTS
}

/// The rights that are asked for; write brings read.
pub fn mapped_rights(prot: u64) -> Rights
    ensures value { result ≡ mapped_rights prot }
{
    Rights {
        read: prot != 0,
        write: prot & PROT_WRITE != 0,
        exec: false,
    }
}

ghost use Rattle.std.specs.Prelude.{◌≡◌};
ghost use Rattle.elf_loader.specs.declared.load_fault.LoadFault.TheVariants.{Memory};

use guest_words::ElfFault;
use std::alloc::AllocError;
use thiserror::Error;

/// Why a file gives no image.
#[derive(Clone, Copy, Debug, PartialEq, Eq, Error)]
pub enum LoadFault {
    /// The first rule that it breaks, and the offset of what breaks it, in bytes.
    #[error("elf {} at {offset}", .fault.name())]
    Elf { fault: ElfFault, offset: u64 },
    /// Memory was wanting; the file breaks no rule.
    #[error("memory")]
    Memory,
}

impl From<AllocError> for LoadFault {
    ghost from_gives = { λ _ e. e ≡ Memory };

    fn from(_: AllocError) -> LoadFault {
        LoadFault::Memory
    }
}

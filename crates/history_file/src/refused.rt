ghost use Rattle.std.specs.Prelude.{◌≡◌};
ghost use Rattle.history_file.specs.declared.refused.Refused.TheVariants.{Memory};

use crate::file_fault::FileKind;
use std::alloc::{AllocError, AllocFailed};

/// Why nothing is read at the front of bytes.
#[derive(Clone, Copy, Debug, PartialEq, Eq)]
pub(crate) enum Refused {
    Memory,
    /// A rule is broken where there are so many bytes to the end.
    At { fault: FileKind, left: usize },
}

impl From<AllocError> for Refused {
    ghost from_gives = { λ _ e. e ≡ Memory };

    fn from(_: AllocError) -> Refused {
        Refused::Memory
    }
}

impl<T: Drop> From<AllocFailed<T>> for Refused {
    ghost from_gives = { λ _ e. e ≡ Memory };

    fn from(_: AllocFailed<T>) -> Refused {
        Refused::Memory
    }
}

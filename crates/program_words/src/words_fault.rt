ghost use Rattle.std.specs.Prelude.{◌≡◌};
ghost use Rattle.program_words.specs.declared.words_fault.WordsFault.TheVariants.{Memory, Words};

use crate::word_fault::WordFault;
use std::alloc::AllocError;
use thiserror::Error;

/// Why words give no command.
#[derive(Clone, Copy, Debug, PartialEq, Eq, Error)]
pub enum WordsFault {
    /// The rule that they break first.
    #[error("words {}", .0.name())]
    Words(WordFault),
    /// Memory was wanting.
    #[error("memory")]
    Memory,
}

impl From<AllocError> for WordsFault {
    ghost from_gives = { λ _ e. e ≡ Memory };

    fn from(_: AllocError) -> WordsFault {
        WordsFault::Memory
    }
}

impl From<WordFault> for WordsFault {
    ghost from_gives = { λ fault e. e ≡ Words fault };

    fn from(fault: WordFault) -> WordsFault {
        WordsFault::Words(fault)
    }
}

ghost use Rattle.std.specs.Prelude.{◌≡◌};
ghost use Rattle.rescue_run.specs.Refusals.{plain, wanting};

use crate::outcome::Outcome;
use guest_words::{Bytes, MemoryWant};
use std::alloc::AllocError;

/// Why a command isn't done.
#[derive(Drop)]
pub struct Refusal {
    pub outcome: Outcome,
    /// The lines on a rescue file that breaks a rule.
    pub lines: Option<Bytes>,
}

impl Refusal {
    /// This outcome, without lines of its own.
    pub fn of(outcome: Outcome) -> Refusal
        ensures value { result ≡ plain outcome }
    {
        Refusal {
            outcome,
            lines: None,
        }
    }
}

impl From<AllocError> for Refusal {
    ghost from_gives = { λ _ e. e ≡ wanting };

    fn from(_: AllocError) -> Refusal {
        Refusal::of(Outcome::Memory)
    }
}

impl From<MemoryWant> for Refusal {
    ghost from_gives = { λ _ e. e ≡ wanting };

    fn from(_: MemoryWant) -> Refusal {
        Refusal::of(Outcome::Memory)
    }
}

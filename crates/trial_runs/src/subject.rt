ghost use Rattle.std.specs.Prelude.{◌≡◌};

use guest_words::{Bytes, Image};
use machine_core::{Limits, Mode};

/// What is tried: a program, how its runs are driven, and their input.
#[derive(Drop)]
pub struct Subject {
    pub image: Image,
    /// The slots for harts: 1 to 64.
    pub harts: u8,
    /// The steps after which a run ends: 1 to 20,000,000.
    pub budget: u64,
    /// One thread makes all turns, each that of the hart which the next word of this seed chooses.
    pub seed: u64,
    pub input: Bytes,
}

impl Subject {
    /// The limits of its machines.
    pub(crate) fn limits(&self) -> Limits
        ensures value { result ≡ record {
          harts = self.now.harts;
          budget = self.now.budget;
          mode = Mode.Lone;
        } }
    {
        Limits {
            harts: self.harts,
            budget: self.budget,
            mode: Mode::Lone,
        }
    }
}

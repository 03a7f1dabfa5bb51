ghost use Rattle.std.specs.Prelude.{◌≡◌};

use machine_core::{Limits, Mode};

/// In which order the harts of a run take turns.
#[derive(Clone, Copy)]
pub enum Schedule {
    /// One thread makes all turns, each that of the hart which the next word of this seed chooses.
    Lone { seed: u64 },
    /// Each hart has a worker in a thread of its own, and these come in any order.
    Workers,
}

/// How a program is run.
#[derive(Clone, Copy)]
pub struct Setup {
    /// The slots for harts: 1 to 64.
    pub harts: u8,
    /// The steps after which the run ends: 1 to 20,000,000.
    pub budget: u64,
    pub schedule: Schedule,
}

impl Setup {
    /// The limits of a machine that is driven so.
    pub fn limits(&self, mode: Mode) -> Limits
        ensures value { result ≡ record {
          harts = self.now.harts;
          budget = self.now.budget;
          mode = mode;
        } }
    {
        Limits {
            harts: self.harts,
            budget: self.budget,
            mode,
        }
    }
}

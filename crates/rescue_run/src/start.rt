ghost use Rattle.std.specs.Prelude.{◌≡◌};
ghost use Rattle.rescue_run.specs.Runs.{head_of};

use crate::setup::Setup;
use guest_words::{Image, Name, Points};
use history_file::Head;

/// What a command's files give.
#[derive(Drop)]
pub struct Loaded {
    pub image: Image,
    /// None of them is loose.
    pub points: Points,
}

/// What runs, how, and where its history goes.
#[derive(Drop)]
pub struct Start {
    pub loaded: Loaded,
    pub setup: Setup,
    /// The file that the history is saved as, if it is.
    pub save: Option<Name>,
}

impl Start {
    /// The head of the history file of this run, with so many ports.
    pub fn head(&self, ports: u64) -> Head
        ensures value { result ≡ head_of self.now ports }
    {
        Head {
            harts: self.setup.harts,
            ports,
            budget: self.setup.budget,
        }
    }
}

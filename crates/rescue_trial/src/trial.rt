ghost use Rattle.std.specs.Prelude.{◌≡◌};
ghost use Rattle.rescue_trial.specs.TrialText.{is_good_end};

use guest_words::Ending;

/// What a run came to with a single point at this entry.
#[derive(Clone, Copy, Debug, PartialEq, Eq)]
pub struct Trial {
    pub entry: u64,
    pub ending: Ending,
    /// How many calls were rescued, at all depths.
    pub rescues: u64,
}

impl Trial {
    /// Whether the run ended with exit code 0.
    pub fn is_good(&self) -> bool
        ensures value { result ≡ is_good_end self.now.ending }
    {
        matches!(self.ending, Ending::Exit { code: 0, .. })
    }
}

ghost use Rattle.std.specs.Prelude.{◌≡◌, length};
ghost use Rattle.rescue_trial.specs.TrialText.{good_of};

use crate::trial::Trial;
use std::marker::Model;

/// The trials of a call path, in its order.
#[derive(Drop)]
pub struct Trials {
    items: Vec<Trial>,
}

impl Model for Trials {
    ghost use Rattle.std.specs.Prelude.{List};
    ghost use Rattle.rescue_trial.specs.declared.trial.Trial.{Trial};

    ghost Value = { List Trial };

    ghost view = { λ t. t.items.items };
}

impl Trials {
    /// The trials of the `Vec`, which is kept as it is.
    pub fn of(items: Vec<Trial>) -> Trials
        ensures list { result ≡ items.items }
    {
        Trials { items }
    }

    /// The trials, in order.
    pub fn items(&self) -> &[Trial]
        ensures list { result.now ≡ self.now }
    {
        self.items.as_slice()
    }

    /// How many of them ended with exit code 0.
    pub fn good(&self) -> usize
        ensures value { result ≡ length (good_of self.now) }
    {
        self.items.iter().filter(|t| t.is_good()).count()
    }
}

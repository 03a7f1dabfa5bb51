ghost use Rattle.std.specs.Prelude.{◌≡◌, false};
ghost use Rattle.word_complaints.specs.Options.{is_given, with_given};

use crate::option_name::OptionName;

/// The options that were met.
#[derive(Clone, Copy)]
pub struct Given {
    pub points: bool,
    pub harts: bool,
    pub budget: bool,
    pub seed: bool,
    pub returns: bool,
    pub save: bool,
    pub report: bool,
}

impl Given {
    /// Whether the option was met.
    pub fn has(self, option: OptionName) -> bool
        ensures value { result ≡ is_given self option }
    {
        match option {
            OptionName::Points => self.points,
            OptionName::Harts => self.harts,
            OptionName::Budget => self.budget,
            OptionName::Seed => self.seed,
            OptionName::Returns => self.returns,
            OptionName::Save => self.save,
            OptionName::Report => self.report,
        }
    }

    /// These options and one more.
    pub fn with(self, option: OptionName) -> Given
        ensures value { result ≡ with_given self option }
    {
        let mut given = self;
        match option {
            OptionName::Points => given.points = true,
            OptionName::Harts => given.harts = true,
            OptionName::Budget => given.budget = true,
            OptionName::Seed => given.seed = true,
            OptionName::Returns => given.returns = true,
            OptionName::Save => given.save = true,
            OptionName::Report => given.report = true,
        }
        given
    }
}

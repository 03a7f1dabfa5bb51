ghost use Rattle.std.specs.Prelude.{◌≡◌, Some, None};
ghost use Rattle.word_complaints.specs.Options.{option_in, option_named, option_text, takes, wanted_by};

use crate::wanted::Wanted;
use guest_words::limits::{BUDGET, HARTS};
use program_words::CommandKind;

/// The options of all commands.
#[derive(Clone, Copy, Debug, PartialEq, Eq)]
pub enum OptionName {
    Points,
    Harts,
    Budget,
    Seed,
    Returns,
    Save,
    Report,
}

impl OptionName {
    /// The option as it is written.
    pub fn text(self) -> &'static str
        ensures text { result.now ≡ option_text self }
    {
        match self {
            OptionName::Points => "--points",
            OptionName::Harts => "--harts",
            OptionName::Budget => "--budget",
            OptionName::Seed => "--seed",
            OptionName::Returns => "--returns",
            OptionName::Save => "--save",
            OptionName::Report => "--report",
        }
    }

    /// The option that is written so.
    fn named(text: &str) -> Option<OptionName>
        ensures value { result ≡ option_named text.now }
    {
        match text {
            "--points" => Some(OptionName::Points),
            "--harts" => Some(OptionName::Harts),
            "--budget" => Some(OptionName::Budget),
            "--seed" => Some(OptionName::Seed),
            "--returns" => Some(OptionName::Returns),
            "--save" => Some(OptionName::Save),
            "--report" => Some(OptionName::Report),
            _ => None,
        }
    }

    /// What the option wants for a value.
    pub fn wanted(self) -> Wanted
        ensures value { result ≡ wanted_by self }
    {
        match self {
            OptionName::Points | OptionName::Save | OptionName::Report => Wanted::File,
            OptionName::Harts => Wanted::Number {
                least: 1,
                most: u64::from(HARTS),
            },
            OptionName::Budget => Wanted::Number {
                least: 1,
                most: BUDGET,
            },
            OptionName::Seed => Wanted::Number {
                least: 0,
                most: u64::MAX,
            },
            OptionName::Returns => Wanted::Signed,
        }
    }

    /// Whether the command has the option.
    fn is_of(self, kind: CommandKind) -> bool
        ensures value { result ≡ takes kind self }
    {
        match kind {
            CommandKind::Run => !matches!(self, OptionName::Seed | OptionName::Returns),
            CommandKind::Alone => !matches!(self, OptionName::Returns),
            CommandKind::Audit => matches!(self, OptionName::Points | OptionName::Report),
            CommandKind::Try => !matches!(self, OptionName::Points | OptionName::Save),
            _ => false,
        }
    }

    /// The command's option that is written so.
    pub fn of(kind: CommandKind, text: &str) -> Option<OptionName>
        ensures value { result ≡ option_in kind text.now }
    {
        match OptionName::named(text) {
            Some(option) if option.is_of(kind) => Some(option),
            _ => None,
        }
    }
}

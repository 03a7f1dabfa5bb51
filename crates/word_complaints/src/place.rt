ghost use Rattle.std.specs.Prelude.{◌≡◌, Some, None};
ghost use Rattle.word_complaints.specs.Places.{first_place, is_required, next_place, place_text};

use program_words::CommandKind;

/// A word that a command takes, other than an option's.
#[derive(Clone, Copy, Debug, PartialEq, Eq)]
pub enum Place {
    Program,
    History,
    Input,
    Out,
    Err,
    /// The number of a load.
    Number,
    /// One of any number of port words.
    Port,
    /// One of any number of words that say nothing.
    Any,
}

impl Place {
    /// The first word of a command.
    pub fn first(kind: CommandKind) -> Place
        ensures value { result ≡ first_place kind }
    {
        match kind {
            CommandKind::Audit => Place::History,
            CommandKind::Load => Place::Number,
            CommandKind::Help | CommandKind::Version => Place::Any,
            _ => Place::Program,
        }
    }

    /// The word behind this one, where the command takes a further one.
    pub fn next(self, kind: CommandKind) -> Option<Place>
        ensures value { result ≡ next_place kind self }
    {
        match self {
            Place::History => Some(Place::Program),
            Place::Program => match kind {
                CommandKind::Run | CommandKind::Alone => Some(Place::Port),
                CommandKind::Audit | CommandKind::Try => Some(Place::Input),
                _ => None,
            },
            Place::Input => match kind {
                CommandKind::Audit => Some(Place::Out),
                _ => None,
            },
            Place::Out => Some(Place::Err),
            Place::Err | Place::Port => Some(Place::Port),
            Place::Any => Some(Place::Any),
            Place::Number => None,
        }
    }

    /// Whether the word has to stand.
    pub fn is_required(self) -> bool
        ensures value { result ≡ is_required self }
    {
        !matches!(self, Place::Port | Place::Any)
    }

    /// The word as the usage has it.
    pub fn text(self) -> &'static str
        ensures text { result.now ≡ place_text self }
    {
        match self {
            Place::Program => "PROGRAM",
            Place::History => "HISTORY",
            Place::Input => "INPUT",
            Place::Out => "OUT",
            Place::Err => "ERR",
            Place::Number => "N",
            Place::Port => "IN:OUT",
            Place::Any => "WORD",
        }
    }
}

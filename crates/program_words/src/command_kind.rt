ghost use Rattle.std.specs.Prelude.{◌≡◌};
ghost use Rattle.program_words.specs.Kinds.{kind_named, tells_out};

/// The commands by their first word.
#[derive(Clone, Copy, PartialEq, Eq)]
pub enum CommandKind {
    Run,
    Alone,
    List,
    Load,
    Audit,
    Try,
    Help,
    Version,
}

impl CommandKind {
    /// The command that the word names.
    pub fn named(word: &str) -> Option<CommandKind>
        ensures value { result ≡ kind_named word.now }
    {
        match word {
            "run" => Some(CommandKind::Run),
            "alone" => Some(CommandKind::Alone),
            "list" => Some(CommandKind::List),
            "load" => Some(CommandKind::Load),
            "audit" => Some(CommandKind::Audit),
            "try" => Some(CommandKind::Try),
            "--help" | "-h" | "help" => Some(CommandKind::Help),
            "--version" => Some(CommandKind::Version),
            _ => None,
        }
    }

    /// Whether what the command tells is its own output.
    pub fn tells_out(self) -> bool
        ensures value { result ≡ tells_out self }
    {
        !matches!(self, CommandKind::Run | CommandKind::Alone)
    }
}

ghost use Rattle.std.specs.Prelude.{◌≡◌};
ghost use Rattle.program_words.specs.WordFault.{word_fault_name};

/// The rule that words break first, in the order in which the rules are tried.
#[derive(Clone, Copy, Debug, PartialEq, Eq)]
pub enum WordFault {
    /// There is no word.
    NoCommand,
    /// The first word is no command's.
    UnknownCommand,
    /// The words behind it aren't what the command takes.
    Line,
    /// The port word of this number, counted from 0, hasn't one colon with a byte at least on each
    /// side.
    Port { index: u64 },
    /// The command needs threads, and there are none. No reading of the words gives it.
    Threads,
}

impl WordFault {
    /// The name as a refusal prints it.
    pub fn name(self) -> &'static str
        ensures text { result.now ≡ word_fault_name self }
    {
        match self {
            WordFault::NoCommand => "no-command",
            WordFault::UnknownCommand => "unknown-command",
            WordFault::Line => "line",
            WordFault::Port { .. } => "port",
            WordFault::Threads => "threads",
        }
    }
}

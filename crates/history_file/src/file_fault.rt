use thiserror::Error;

/// The first rule that a history file breaks.
#[derive(Clone, Copy, Debug, PartialEq, Eq)]
pub enum FileKind {
    /// The file has 8 bytes or more, and doesn't begin with the letters rescueh1.
    Magic,
    /// The file ends within a field, or before it.
    Short,
    /// The number of an entry's kind is none of 1 to 5.
    Tag,
    /// The number of harts, the budget, a way, the name of a fault or the kind of an ending is out
    /// of its range.
    Value,
    /// A rescued call stands within 16 others.
    Deep,
    /// Bytes follow the last entry.
    Rest,
}

/// Why bytes give no history.
#[derive(Clone, Copy, Debug, PartialEq, Eq, Error)]
pub enum FileFault {
    /// The first rule that they break, and the offset of the field that breaks it, in bytes.
    #[error("history {} at {offset}", .fault.name())]
    At { fault: FileKind, offset: u64 },
    /// Memory was wanting.
    #[error("memory")]
    Memory,
}

impl FileKind {
    ghost use Rattle.std.specs.Prelude.{◌≡◌};
    ghost use Rattle.history_file.specs.FileKind.{file_kind_name};

    /// The name as an answer prints it.
    pub fn name(self) -> &'static str
        ensures text { result.now ≡ file_kind_name self }
    {
        match self {
            FileKind::Magic => "magic",
            FileKind::Short => "short",
            FileKind::Tag => "tag",
            FileKind::Value => "value",
            FileKind::Deep => "deep",
            FileKind::Rest => "rest",
        }
    }
}

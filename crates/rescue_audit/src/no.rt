use history_file::FileKind;

/// Why an audit says no, in the order in which the rules are tried.
#[derive(Clone, Copy, Debug, PartialEq, Eq)]
pub enum No {
    /// The history file breaks this rule first, at an offset in bytes.
    File { fault: FileKind, offset: u64 },
    /// Files of so many ports are named, and the history kept another number of ports.
    Ports { named: u64, kept: u64 },
    /// The number of the first entry, of those at the top, that isn't legal, counted from 0.
    Entry { index: u64 },
    /// The last entry doesn't end the run, or there is none.
    Unended,
    /// The number of the first file of a device that the records don't match: 0 to 2 for the input,
    /// the output and the error output, and then two for each port.
    Device { number: u64 },
}

/// What an audit says.
#[derive(Clone, Copy, Debug, PartialEq, Eq)]
pub enum Verdict {
    /// The history is a run that ended, and the files are those of its devices.
    Yes,
    No(No),
}

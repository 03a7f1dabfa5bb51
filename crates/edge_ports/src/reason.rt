ghost use Rattle.std.specs.Prelude.{◌≡◌};
ghost use Rattle.std.specs.IoError.{error_kind};
ghost use Rattle.edge_ports.specs.Reasons.{reason_of, reason_text};

use std::io::{Error, ErrorKind};

/// Why the system didn't open, read or write a file, as far as it tells.
#[derive(Clone, Copy, Debug, PartialEq, Eq)]
pub enum Reason {
    /// No file has the name.
    NotFound,
    /// The user has no right to it.
    Denied,
    /// It is a folder.
    Folder,
    /// Anything else.
    Other,
}

impl Reason {
    /// The reason of a system's error.
    pub(crate) fn of(error: &Error) -> Reason
        ensures value { result ≡ reason_of (error_kind error.now) }
    {
        match error.kind() {
            ErrorKind::NotFound => Reason::NotFound,
            ErrorKind::PermissionDenied => Reason::Denied,
            ErrorKind::IsADirectory => Reason::Folder,
            _ => Reason::Other,
        }
    }

    /// The reason in words, as a person is told it.
    pub fn text(self) -> &'static str
        ensures text { result.now ≡ reason_text self }
    {
        match self {
            Reason::NotFound => "no such file",
            Reason::Denied => "permission denied",
            Reason::Folder => "is a folder",
            Reason::Other => "it can't be read or written",
        }
    }
}

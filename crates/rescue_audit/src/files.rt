ghost use Rattle.std.specs.Prelude.{◌≡◌};

use guest_words::Bytes;
use std::marker::Model;

/// What a port is said to have had for reading, and to have been given.
#[derive(Drop)]
pub struct PortFile {
    pub input: Bytes,
    pub output: Bytes,
}

/// The files of the ports, from descriptor 3 on.
#[derive(Drop)]
pub struct PortFiles {
    items: Vec<PortFile>,
}

impl Model for PortFiles {
    ghost use Rattle.std.specs.Prelude.{List};
    ghost use Rattle.rescue_audit.specs.declared.files.PortFile.{PortFile};

    ghost Value = { List PortFile };

    ghost view = { λ p. p.items.items };
}

impl PortFiles {
    /// The files of the `Vec`, which is kept as it is.
    pub fn of(items: Vec<PortFile>) -> PortFiles
        ensures list { result ≡ items.items }
    {
        PortFiles { items }
    }

    /// The files, in order.
    pub fn items(&self) -> &[PortFile]
        ensures list { result.now ≡ self.now }
    {
        self.items.as_slice()
    }
}

/// The files that a history is held against.
#[derive(Drop)]
pub struct AuditFiles {
    pub input: Bytes,
    pub out: Bytes,
    /// The error output.
    pub err: Bytes,
    pub ports: PortFiles,
}

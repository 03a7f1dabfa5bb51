ghost use Rattle.std.specs.Prelude.{◌≡◌};

use guest_words::Name;
use std::marker::Model;

/// The files of a port.
#[derive(Drop)]
pub struct PortName {
    pub input: Name,
    pub output: Name,
}

/// The files of ports, in the order of the words.
#[derive(Drop)]
pub struct PortNames {
    items: Vec<PortName>,
}

impl Model for PortNames {
    ghost use Rattle.std.specs.Prelude.{List};
    ghost use Rattle.program_words.specs.declared.port_name.PortName.{PortName};

    ghost Value = { List PortName };

    ghost view = { λ p. p.items.items };
}

impl PortNames {
    /// The names of the `Vec`, which is kept as it is.
    pub fn of(items: Vec<PortName>) -> PortNames
        ensures list { result ≡ items.items }
    {
        PortNames { items }
    }

    /// The names, in order.
    pub fn items(&self) -> &[PortName]
        ensures list { result.now ≡ self.now }
    {
        self.items.as_slice()
    }
}

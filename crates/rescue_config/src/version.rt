ghost use Rattle.std.specs.Prelude.{◌≡◌};
ghost use Rattle.rescue_config.specs.Version.{has_codes, has_loose};

/// The version of a rescue file. Each reads all that an earlier one does.
#[derive(Clone, Copy, Debug, PartialEq, Eq)]
pub enum Version {
    /// One code and no limit for each point, which is blocking or off.
    One,
    /// A point may have codes by fault and a limit.
    Two,
    /// A point may be loose.
    Three,
}

impl Version {
    /// Whether a point may have the keys `codes` and `limit`.
    pub fn has_codes(self) -> bool
        ensures { result ≡ has_codes self }
    {
        match self {
            Version::One => false,
            Version::Two | Version::Three => true,
        }
    }

    /// Whether a point may be loose.
    pub fn has_loose(self) -> bool
        ensures { result ≡ has_loose self }
    {
        match self {
            Version::One | Version::Two => false,
            Version::Three => true,
        }
    }
}

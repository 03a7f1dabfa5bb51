ghost use Rattle.std.specs.Prelude.{◌≡◌};
ghost use Rattle.rescue_config.specs.PointFault.{point_fault_name};

/// The rule that a rescue file breaks first, in the order of the rules. The first five are on the
/// whole file, all others on one point; `UnknownKey` and `BadValue` are on either. A rule on one
/// point is tried before any on the next.
#[derive(Clone, Copy, Debug, PartialEq, Eq)]
pub enum PointFault {
    /// The bytes are no TOML document in UTF-8.
    Toml,
    /// A key is none of the format's.
    UnknownKey,
    /// `version` is none of the integers 1, 2 and 3.
    BadVersion,
    /// `point` isn't an array of tables, `function` isn't a text, or `entry` isn't an integer from
    /// 0 on.
    BadValue,
    /// There are so many points, more than 256.
    TooMany { count: u64 },
    /// `function` and `entry` are both absent, or `returns` is.
    Missing,
    /// `function` and `entry` are both there.
    Both,
    /// `returns` is neither an integer nor the text `void`.
    BadReturn,
    /// `codes` isn't a table from names of faults to values that `returns` may have.
    BadCodes,
    /// `limit` isn't an integer from 1 to 1,000,000.
    BadLimit,
    /// `kind` is none of `blocking`, `off` and, in version 3, `loose`.
    BadKind,
    /// The point is blocking and the earlier point of this number, counted from 0, is loose, or
    /// the other way round; it is the first such point.
    Mixed { first: u32 },
    /// No symbol has the function's name.
    UnknownFunction,
    /// So many symbols have the function's name, at least 2.
    Ambiguous { count: u64 },
    /// The entry is no multiple of 4.
    Misaligned,
    /// The entry isn't in an executable load.
    OutsideText,
    /// The earlier point of this number, counted from 0, has the same entry.
    Twice { first: u32 },
    /// The point is loose, which the command can't run. It isn't broken by a file alone:
    /// [`read_points`](crate::read_points) never answers it.
    LooseHere,
}

impl PointFault {
    /// The name as a refusal prints it.
    pub fn name(self) -> &'static str
        ensures text { result.now ≡ point_fault_name self }
    {
        match self {
            PointFault::Toml => "toml",
            PointFault::UnknownKey => "unknown-key",
            PointFault::BadVersion => "bad-version",
            PointFault::BadValue => "bad-value",
            PointFault::TooMany { .. } => "too-many",
            PointFault::Missing => "missing",
            PointFault::Both => "both",
            PointFault::BadReturn => "bad-return",
            PointFault::BadCodes => "bad-codes",
            PointFault::BadLimit => "bad-limit",
            PointFault::BadKind => "bad-kind",
            PointFault::Mixed { .. } => "mixed",
            PointFault::UnknownFunction => "unknown-function",
            PointFault::Ambiguous { .. } => "ambiguous",
            PointFault::Misaligned => "misaligned",
            PointFault::OutsideText => "outside-text",
            PointFault::Twice { .. } => "twice",
            PointFault::LooseHere => "loose-here",
        }
    }
}

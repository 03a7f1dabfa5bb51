/// How many symbols have a name.
#[derive(Clone, Copy, Debug, PartialEq, Eq)]
pub enum Found {
    /// One has it, with this value.
    One(u64),
    /// None has it.
    Absent,
    /// So many have it, at least 2.
    Several(u64),
}

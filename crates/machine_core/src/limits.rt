/// How much a run may have.
#[derive(Clone, Copy, Debug, PartialEq, Eq)]
pub struct Limits {
    /// The slots for harts: 1 to 64.
    pub harts: u8,
    /// The steps after which the run ends: 1 to 20,000,000.
    pub budget: u64,
    /// By whom it is driven.
    pub mode: Mode,
}

/// By whom a run is driven, which decides how its calls of points begin.
#[derive(Clone, Copy, Debug, PartialEq, Eq)]
pub enum Mode {
    /// By one thread.
    Lone,
    /// By threads that take the machine in turn from a gate.
    Shared,
}

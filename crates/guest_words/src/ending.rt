use crate::fault::Fault;

/// How a run ends.
#[derive(Clone, Copy, Debug, PartialEq, Eq)]
pub enum Ending {
    /// The last hart exited, or one ended all, with this code.
    Exit { hart: u8, code: u8 },
    /// A hart met a fault under no rescue point.
    Fault { hart: u8, fault: Fault },
    /// No hart is ready.
    Stuck,
    /// The steps are the budget, or the records have passed their limit.
    Budget,
}

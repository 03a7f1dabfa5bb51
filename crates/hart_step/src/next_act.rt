use guest_words::{FaultName, PointRef, Way};

/// What a call asks of a device.
#[derive(Clone, Copy, Debug, PartialEq, Eq)]
pub struct Ask {
    pub way: Way,
    /// The descriptor.
    pub port: u64,
    /// How many bytes: 1 to 65,536, or 0 at a close.
    pub asked: u32,
    /// The guest address of the bytes; 0 at a close.
    pub place: u64,
}

/// What a hart does next.
#[derive(Clone, Copy, Debug, PartialEq, Eq)]
pub enum NextAct {
    /// An instruction, or a call that makes no record and doesn't end the run.
    Ordinary,
    Fault(FaultName),
    /// A call that reaches a device.
    Request(Ask),
    /// It stands at the entry of an active point, just after a jump there.
    Arrival(PointRef),
    /// A call that ends the run with this code.
    End(u8),
}

/// Acts of a hart in a row.
#[derive(Clone, Copy, Debug, PartialEq, Eq)]
pub struct Run {
    /// How many were made.
    pub count: u32,
    /// The act that stopped them; None where as many were made as were to be, where the hart can't
    /// go on, or where the last act closed a frame.
    pub next: Option<NextAct>,
}

use crate::call::Request;
use crate::fault::FaultName;
use crate::hart::Hart;
use crate::point::PointRef;
use crate::width::Width;

/// A store to memory.
#[derive(Clone, Copy, Debug, PartialEq, Eq)]
pub struct Write {
    pub address: u64,
    pub width: Width,
    /// The bytes, the least significant first.
    pub value: u64,
}

/// What a hart does next, before its frames close.
#[derive(Clone, Copy, Debug, PartialEq, Eq)]
pub enum Act {
    /// It carries out an instruction.
    Next { hart: Hart, write: Option<Write> },
    Fault(FaultName),
    Call(Request),
    /// It stands at the entry of an active point, just after a jump there.
    Arrived(PointRef),
}

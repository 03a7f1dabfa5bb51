use crate::sym_fault::SymFault;
use thiserror::Error;

/// The first rule on symbols that a file breaks, and the offset of what breaks it, in bytes.
#[derive(Clone, Copy, Debug, PartialEq, Eq, Error)]
#[error("symbols {} at {offset}", .fault.name())]
pub struct SymbolsFault {
    pub fault: SymFault,
    pub offset: u64,
}

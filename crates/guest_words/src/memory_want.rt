use std::alloc::{AllocError, AllocFailed};

/// Memory was wanting. It is the one answer that says nothing of the arguments.
#[derive(Clone, Copy, Debug, PartialEq, Eq)]
pub struct MemoryWant;

impl From<AllocError> for MemoryWant {
    fn from(_: AllocError) -> MemoryWant {
        MemoryWant
    }
}

impl<T: Drop> From<AllocFailed<T>> for MemoryWant {
    fn from(_failed: AllocFailed<T>) -> MemoryWant {
        MemoryWant
    }
}

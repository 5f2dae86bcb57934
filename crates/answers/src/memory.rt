//! Want of memory.
use std::alloc::{AllocError, AllocFailed};

/// Memory ran out. It is the one answer that no clause ties to a cause. A call that answers it leaves everything as it
/// was, unless its own page says otherwise.
#[derive(Clone, Copy, Debug, PartialEq, Eq)]
pub struct NoMemory;

impl From<AllocError> for NoMemory {
    fn from(_: AllocError) -> NoMemory {
        NoMemory
    }
}

impl<T: Drop> From<AllocFailed<T>> for NoMemory {
    fn from(_: AllocFailed<T>) -> NoMemory {
        NoMemory
    }
}

//! The error of a call that ran out of memory.

use std::alloc::{AllocError, AllocFailed};

/// Out of memory. A call that returns it has changed nothing, unless its documentation says
/// otherwise.
#[derive(Clone, Copy, Debug, PartialEq, Eq)]
pub struct NoMemory;

impl From<AllocError> for NoMemory {
    fn from(_cause: AllocError) -> NoMemory {
        NoMemory
    }
}

impl<T: Drop> From<AllocFailed<T>> for NoMemory {
    fn from(_cause: AllocFailed<T>) -> NoMemory {
        NoMemory
    }
}

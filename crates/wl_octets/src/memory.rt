//! Running out of memory.

use std::alloc::{AllocError, AllocFailed};

/// The allocator had no room.
#[derive(Clone, Copy, Debug, Drop, PartialEq, Eq)]
pub struct Memory;

impl From<AllocError> for Memory {
    fn from(_: AllocError) -> Memory {
        Memory
    }
}

impl<T: Drop> From<AllocFailed<T>> for Memory {
    fn from(_: AllocFailed<T>) -> Memory {
        Memory
    }
}

impl<T: Drop> From<(T, Memory)> for Memory {
    fn from(_: (T, Memory)) -> Memory {
        Memory
    }
}

// The place of a block, and the out-of-memory error.
use std::alloc::{AllocError, AllocFailed};

/// The address, the size and the alignment of a block.
#[derive(Clone, Copy, PartialEq, Eq, Debug)]
pub struct Place {
    pub addr: u64,
    pub size: u64,
    pub align: u64,
}

/// Out of memory.
#[derive(Clone, Copy, PartialEq, Eq, Debug)]
pub struct OutOfMemory;

impl From<AllocError> for OutOfMemory {
    fn from(_error: AllocError) -> OutOfMemory {
        OutOfMemory
    }
}

impl<T: Drop> From<AllocFailed<T>> for OutOfMemory {
    fn from(_error: AllocFailed<T>) -> OutOfMemory {
        OutOfMemory
    }
}

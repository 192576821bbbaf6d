//! What a call answers where it has no result: memory that is wanting, and a number that leaves its range.

use std::alloc::{AllocError, AllocFailed};
use thiserror::Error;

/// An allocation was refused.
#[derive(Clone, Copy, Debug, PartialEq, Eq, Error)]
#[error("out of memory")]
pub struct NoMemory;

/// A whole number would leave -2^127 to 2^127-1, or a count 2^127-1.
#[derive(Clone, Copy, Debug, PartialEq, Eq, Error)]
#[error("a number leaves 128 bits")]
pub struct Overflow;

impl From<AllocError> for NoMemory {
    fn from(_error: AllocError) -> NoMemory {
        NoMemory
    }
}

impl<T: Drop> From<AllocFailed<T>> for NoMemory {
    fn from(_error: AllocFailed<T>) -> NoMemory {
        NoMemory
    }
}

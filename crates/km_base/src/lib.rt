//! What every crate of the workbench stands on: want of memory, the limits, counters without bytes, the performers.
#![tactic(auto)]

pub mod limits;
mod noted;
mod performers;
mod steps;

pub use noted::{Count, Noted, Told};
pub use performers::{Performer, Performers};
use std::alloc::{AllocError, AllocFailed};
pub use steps::{Ledger, Steps, Uncounted};

/// Want of memory. It may come from every call that shows it, and from no other.
#[derive(Clone, Copy, Debug, PartialEq, Eq)]
pub struct Memory;

impl From<AllocError> for Memory {
    fn from(_refused: AllocError) -> Memory {
        Memory
    }
}

impl<T: Drop> From<AllocFailed<T>> for Memory {
    fn from(_refused: AllocFailed<T>) -> Memory {
        Memory
    }
}

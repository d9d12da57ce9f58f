//! A beacon: a number that one thread raises and another looks at (docs/ARCHITECTURE.md, "Links and beacons").
//!
//! The number never falls, and what is shown is 0 or was raised, whatever the schedule.
#![tactic(auto)]

mod ends;
mod rule;

pub use ends::{Looker, Raiser, beacon, settle};

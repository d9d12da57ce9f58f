//! A bounded link between two threads: one end sends and the other takes, in order (docs/ARCHITECTURE.md, "Links and beacons").
//!
//! What the sender sent is what the receiver took, followed by what waits, whatever the schedule.
#![tactic(auto)]

mod ends;
mod rule;

pub use ends::{Full, Receiver, Sender, link, settle};

//! What actors say to one another, what an actor is, and how it is driven to its end (docs/ARCHITECTURE.md, "Actors").
#![tactic(auto)]

mod actor;
mod gate;
mod messages;

pub use actor::{Actor, Turn, drive};
pub use gate::{Gate, NoGate, Place};
pub use messages::{Event, Job, Note, Order, PenTask, RobotTask, Verdict};

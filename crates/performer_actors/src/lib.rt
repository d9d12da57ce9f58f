//! The performers as actors: the Robot and the Draughtsman, which carry out the commands of the tasks that they take
//! (docs/ARCHITECTURE.md, "Actors").
#![tactic(auto)]

mod ends;
mod laws;
mod pen;
mod pen_run;
mod robot;
mod robot_run;
mod sending;

pub use ends::{PenEnds, RobotEnds};
pub use laws::{pen_runs_are_told, robot_runs_are_told};
pub use pen::PenActor;
pub use robot::RobotActor;

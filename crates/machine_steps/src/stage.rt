//! How far a run has come, and where it stops.

use crate::running::Running;
use kumir_tree::Chars;
use kumir_values::{EndKind, Values};
use performer_kit::{PenCommand, RobotCommand};

/// How far a run has come.
#[derive(Drop)]
pub struct Stage {
    /// The algorithm that runs.
    pub running: Running,
    /// The algorithms that wait for the return of a call, the last one last.
    pub waiting: Vec<Running>,
    /// All inputs of the run.
    pub inputs: Values,
    /// How many of them were taken.
    pub taken: usize,
}

/// A command of the Robot, with its line.
#[derive(Clone, Copy)]
pub struct Question {
    pub command: RobotCommand,
    pub line: u32,
}

/// Where a run stops.
#[derive(Drop)]
pub enum Stop {
    /// Behind an output.
    Printed(Chars),
    /// Behind a command to the Draughtsman.
    Told(PenCommand),
    /// At its end.
    Over(EndKind),
    /// Before a step.
    Step,
    /// At a command of the Robot.
    Asks(Question),
}

//! The commands of the performers: their names, their replies and how they print.
#![tactic(auto)]

mod commands;
mod laws;
mod look_up;
mod names;
mod print;

pub use commands::{Command, PenCommand, PenShape, Reply, Report, RobotCommand, Segment};
pub use laws::{pen_names_are_apart, performer_names_are_apart, robot_names_are_apart};
pub use names::{
    pen_shape, pen_shape_of, performer_of, performer_of_name, robot_command, robot_command_of,
};
pub use print::print_command;

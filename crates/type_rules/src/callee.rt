//! What a name can stand for.

use kumir_names::BuiltIn;
use kumir_tree::Header;
use performer_kit::{PenShape, RobotCommand};

/// What a name stands for that is no local one.
#[derive(Clone, Copy)]
pub enum Callee<'a> {
    Algorithm(&'a Header),
    BuiltIn(BuiltIn),
    Robot(RobotCommand),
    Pen(PenShape),
}

//! The steps of a run of stack code: what is held, all instructions, calls and returns, the Robot's replies, and how far a run has come (docs/LANGUAGE.md, "Stack code").
#![tactic(auto)]

mod acted;
mod calls;
mod carrying;
mod enter;
mod grid;
mod held;
mod laws;
mod loops;
mod operands;
mod output;
mod plain;
mod quick;
mod quick_elements;
mod replies;
mod returns;
mod running;
mod showing;
mod silent;
mod slots;
mod stage;
mod steps;
mod stops;
mod tables;
mod values;

pub use acted::Acted;
pub use carrying::carry_out;
pub use held::{Cell, Held, Turns};
pub use laws::{
    acts_so_far_are_a_prefix, each_event_steps_to, last_event_ends_the_run, steps_join,
    valid_lines_fit, what_is_carried_out_steps_to,
};
pub use operands::Operands;
pub use replies::take_reply;
pub use running::Running;
pub use showing::tell;
pub use slots::Slots;
pub use stage::{Question, Stage, Stop};
pub use steps::{Reached, begin_run, run_steps};

//! The code of a program (docs/LANGUAGE.md, "Stack code").
#![tactic(auto)]

mod algorithms;
mod calls;
mod choices;
mod compiler;
mod expressions;
mod first;
mod kept;
mod laws;
mod loops;
mod names;
mod operators;
mod pending;
mod placed;
mod places;
mod put;
mod simple;
mod site;
mod slots;
mod statements;
mod units;

pub use compiler::compile;
pub use laws::{
    awaits_one_reply, code_means_the_program, commands_are_answered, commands_take_steps,
    faultless_code_is_valid, faultless_is_compilable, meaning_only_grows, no_further_reply_is_read,
    samples_are_compilable,
};

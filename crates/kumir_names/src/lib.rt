//! What the names of a program stand for: local names with their variables, and, for all others, built-ins, commands of
//! known performers and algorithms (docs/LANGUAGE.md, "Names").
#![tactic(auto)]

mod built_in;
mod variable;

pub use built_in::BuiltIn;
pub use variable::Variable;

//! The machine: it carries stack code out and answers one thing a call (docs/LANGUAGE.md, "Stack code").
#![tactic(auto)]

mod active;
mod answer;
mod laws;
mod machine;

pub use answer::Advanced;
pub use laws::{budget_is_spent, valid_code_has_a_trace};
pub use machine::Machine;

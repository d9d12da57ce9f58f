//! What programs mean (docs/LANGUAGE.md, "Meaning"). It is a definition, which no code needs to run; its specs, in the
//! order in which they are read:
//!
//! - `Program`: programs, what the names in them stand for, and the local names of their parts.
//! - `Operators`: operators and built-in algorithms on values.
//! - `Store`: what an algorithm holds while it runs, its tables, and the room for their elements.
//! - `Runs`: what a run does and how it stands, its steps, and what it takes from outside.
//! - `Expressions`: expressions, arguments and bounds, and the order of their evaluation.
//! - `Loops`: loops, whatever their bodies and tests are.
//! - `Statements`: statements and blocks.
//! - `Algorithms`: calls, returns, and the run of a program, `run`.
//! - `Laws`: what holds of all runs.
//! - `Written` and those that end in `Run`: small programs, whose runs are computed from the definition.
#![tactic(auto)]

mod laws;

pub use laws::{
    any_counter, calls_run, loops_run, names_run, order_run, states_run, steps_run, values_run,
};

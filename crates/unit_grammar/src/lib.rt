//! The grammar of units over the forms of their pieces: the tree of a unit, or its first structure fault.
#![tactic(auto)]

mod choices;
mod frames;
mod heads;
mod laws;
mod placed;
mod roles;
mod statements;
mod states;
mod structure;

pub use laws::{begins_unit, one_algorithm, one_ending};
pub use placed::PlacedForm;
pub use structure::{Structure, grow, misplaced};

//! The form of a piece, by its tokens.
#![tactic(auto)]

mod brackets;
mod cursor;
mod expressions;
mod fault;
mod forms;
mod headers;
mod laws;
mod parts;
mod pending;
mod piece;

pub use fault::PieceFault;
pub use laws::{form_or_none, one_expression, one_form};
pub use piece::read_piece;

//! Pieces of lines, and where the units of a text begin.
#![tactic(auto)]

mod laws;
mod pieces;
mod spans;

pub use laws::{one_list_of_pieces, one_list_of_spans};
pub use pieces::{Piece, Pieces, cut_pieces};
pub use spans::{LineSpan, UnitSpans, split_units};

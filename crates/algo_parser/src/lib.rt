//! Pieces of lines, units of texts, and the trees of units.
#![tactic(auto)]

mod gathered;
mod heard;
mod laws;
mod unit;

pub use laws::one_reading;
pub use line_pieces::{
    LineSpan, Piece, Pieces, UnitSpans, cut_pieces, one_list_of_pieces, one_list_of_spans,
    split_units,
};
pub use unit::read_unit;
pub use unit_grammar::{begins_unit, one_algorithm, one_ending};

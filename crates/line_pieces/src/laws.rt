//! What is one only. These calls do nothing.

ghost use Rattle.line_pieces.specs.Laws.{EachHasPieces, OneListOfPieces, EachHasSpans, OneListOfSpans};

use kumir_lexer::one_cutting;

/// A list of tokens has exactly one list of pieces.
pub fn one_list_of_pieces()
    ensures some { EachHasPieces }
    ensures only { OneListOfPieces }
{}

/// The lines of a text have exactly one list of spans.
pub fn one_list_of_spans()
    ensures some { EachHasSpans }
    ensures only { OneListOfSpans }
{
    one_cutting();
}

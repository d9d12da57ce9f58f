//! What is one only. This call does nothing.

ghost use Rattle.algo_parser.specs.Laws.{EachIsRead, OneReading};

use expr_forms::{form_or_none, one_form};
use kumir_lexer::one_cutting;
use line_pieces::one_list_of_pieces;
use unit_grammar::one_ending;

/// Of the lines of a prelude, and of those of a unit, exactly one thing is read.
pub fn one_reading()
    ensures some { EachIsRead }
    ensures only { OneReading }
{
    one_cutting();
    one_list_of_pieces();
    one_form();
    form_or_none();
    one_ending();
}

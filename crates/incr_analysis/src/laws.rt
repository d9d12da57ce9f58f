//! What is one only. This call does nothing.

ghost use Rattle.incr_analysis.specs.Laws.{EachHasUnits, OneListOfUnits, EachHasAnalysis, OneAnalysis};

use algo_parser::one_reading;
use line_pieces::one_list_of_spans;
use type_check::one_margin;

/// A text has exactly one full analysis: for its lines there is one margin, and any two are equal.
pub fn one_analysis()
    ensures some { EachHasAnalysis }
    ensures only { OneAnalysis }
{
    one_list_of_spans();
    one_reading();
    one_margin();
}

/// A text has exactly one list of units: for its lines there is one, and any two are equal.
pub fn one_list_of_units()
    ensures some { EachHasUnits }
    ensures only { OneListOfUnits }
{
    one_list_of_spans();
    one_reading();
}

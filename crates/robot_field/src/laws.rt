//! Laws of the Robot and its field, which no code needs to run.

ghost use Rattle.robot_field.specs.Laws.{GoesOn, AreSetsOfCells, WallsHaveTwoSides, EachTextIsAnswered};

/// The replies to two lists of commands one after the other are those to the first, and then those to the second on
/// the field that the first leaves. So each call of `Field::act` adds its one reply to the replies so far.
pub fn robot_goes_on()
    ensures { GoesOn }
{}

/// Walls and paint are sets of cells: after a cell was added, it is there, and each other cell of the largest field is
/// there exactly where it was.
#[tactic(auto, using(crate::proofs::Cells::sets_of_cells))]
pub fn cells_are_sets()
    ensures { AreSetsOfCells }
{}

/// Each wall within the field is seen from both of its cells.
#[tactic(auto, using(crate::proofs::Cells::two_sides))]
pub fn walls_have_two_sides()
    ensures { WallsHaveTwoSides }
{}

/// Each list of lines is the text of exactly one field, or exactly one of its lines is the first that is wrong, and not
/// both. So what `Field::read` answers follows from the lines alone, unless memory is out. docs/PROGRAM.md, "Field text".
#[tactic(auto, using(crate::proofs::EachText::each_text_is_answered))]
pub fn each_text_is_answered()
    ensures { EachTextIsAnswered }
{}

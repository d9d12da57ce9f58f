//! Laws over the grammar of units. These calls do nothing.

ghost use Rattle.std.specs.Prelude.{◌≡◌, ◌++◌, ◌↔◌, List};
ghost use Rattle.kumir_tree.specs.Unit.{Algorithm};
ghost use Rattle.unit_grammar.specs.Grammar.{Placed, IsUnit};
ghost use Rattle.unit_grammar.specs.Laws.{EachEnds, OneEnding};
ghost use Rattle.unit_grammar.specs.Stages.{Begins};

/// Forms may stand one behind the other exactly where they are a prefix of those of some unit.
pub fn begins_unit()
    ensures { (forms : List Placed) → Begins forms ↔ ((more : List Placed) × (a : Algorithm) × IsUnit (forms ++ more) a) }
{}

/// Forms are at most one algorithm.
pub fn one_algorithm()
    ensures { (forms : List Placed) (a b : Algorithm) → IsUnit forms a → IsUnit forms b → a ≡ b }
{}

/// The forms of a prelude, and those of a unit that has any, end in exactly one way: with what they make, or with their
/// first structure fault.
pub fn one_ending()
    ensures some { EachEnds }
    ensures only { OneEnding }
{}

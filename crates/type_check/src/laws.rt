//! Laws of the definitions, which no code needs to run.

ghost use Rattle.type_check.specs.Laws.{AsksForAll, EachHasMargin, FormTellsKind, HasOneMargin};

/// The faults of an algorithm depend on no other look-ups than those of the names that it asks for.
pub fn faults_depend_on_asked_names()
    ensures { AsksForAll }
{}

/// Where an expression has a kind, its form tells it.
#[tactic(auto, using(crate::proofs::FormKind::form_tells))]
pub fn form_tells_kind()
    ensures { FormTellsKind }
{}

/// A list of faults has exactly one margin.
pub fn one_margin()
    ensures some { EachHasMargin }
    ensures only { HasOneMargin }
{}

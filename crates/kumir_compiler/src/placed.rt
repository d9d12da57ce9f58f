//! Algorithms at their places in the text.

ghost use Rattle.std.specs.Prelude.{◌≡◌, [], ◌∷◌, Option, Some, None};
ghost use Rattle.kumir_tree.specs.Units.{placed_of};
ghost use Rattle.kumir_meaning.specs.Program.{grown};
ghost use Rattle.kumir_compiler.specs.AlgorithmsSeen.{some_seen};

use kumir_tree::{Outcome, PlacedUnit, UnitTree};

/// An algorithm with the line of the text at which its lines begin.
#[derive(Clone, Copy)]
pub struct PlacedTree<'p> {
    pub first: u32,
    pub tree: &'p UnitTree,
}

/// The algorithm of a unit, where it has one.
pub fn tree_of(unit: &PlacedUnit) -> Option<PlacedTree<'_>>
    ensures { some_seen result ≡ grown (placed_of unit.now ∷ []) }
{
    match &unit.read.outcome {
        Outcome::Tree(tree) => Some(PlacedTree {
            first: unit.first,
            tree,
        }),
        Outcome::Prelude | Outcome::Faults(_) => None,
    }
}

//! The first algorithm of a program.

ghost use Rattle.std.specs.Prelude.{◌≡◌};
ghost use Rattle.kumir_tree.specs.Units.{units_of, placed_of};
ghost use Rattle.type_rules.specs.Headers.{some_head_behind};
ghost use Rattle.type_check.specs.Margin.{first_head};

use kumir_tree::{Header, PlacedUnit, Units};

fn header_of(unit: &PlacedUnit) -> Option<&Header>
    ensures { some_head_behind result ≡ (placed_of unit.now).1.head }
{
    unit.read.header.as_ref()
}

/// The header of the first algorithm, where it is understood. The first unit is the prelude.
#[tactic(auto, using(crate::proofs::FirstUnit::first_found, crate::proofs::FirstUnit::no_first))]
pub fn first_header(units: &Units) -> Option<&Header>
    ensures { some_head_behind result ≡ first_head (units_of units.now) }
{
    match units.get(1) {
        Some(unit) => header_of(unit),
        None => None,
    }
}

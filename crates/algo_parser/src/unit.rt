//! What is read from the lines of a unit or of a prelude.

ghost use Rattle.std.specs.Prelude.{◌≡◌, ◌≢◌, ◌<◌, ◌+◌, [], ◌∷◌, length, map, true, false, IfOk};
ghost use Rattle.kumir_tree.specs.Units.{ending_of, known_of};
ghost use Rattle.line_pieces.specs.Spans.{AreShort, FirstBegins};
ghost use Rattle.kumir_tree.specs.Unit.{Faulty};
ghost use Rattle.unit_grammar.specs.Structure.{PreludeEnds, UnitEnds, StructureEnds};
ghost use Rattle.algo_parser.specs.Units as units;
ghost use Rattle.algo_parser.specs.Units.{Makes, UnitReads, IsSoundRead};
ghost use Rattle.unit_grammar.specs.Reading.{placed_of};
ghost use Rattle.algo_parser.specs.Hearing.{said_of, IsGathered};

use crate::gathered::{Gathered, gather};
use km_base::{Ledger, Memory, Performers, Steps};
use kumir_lexer::one_cutting;
use kumir_tree::{Fault, Faults, Line, Outcome, UnitRead};
use sqlite_items::Items;
use std::alloc::{AllocError, Global};
use unit_grammar::{PlacedForm, Structure, grow, misplaced};

fn one_fault(alloc: Global, fault: Fault) -> Result<Outcome, AllocError>
    ensures { IfOk result (λ o. ending_of o ≡ Faulty (fault ∷ [])) }
{
    let mut faults = Items::new(alloc);
    faults.push(fault)?;
    Ok(Outcome::Faults(faults))
}

fn unit_outcome(alloc: Global, forms: Vec<PlacedForm>) -> Result<Outcome, AllocError>
    requires { map placed_of forms.items ≢ [] }
    ensures { IfOk result (λ o. UnitEnds (map placed_of forms.items) (ending_of o)) }
{
    match grow(alloc, forms)? {
        Structure::Tree(tree) => Ok(Outcome::Tree(tree)),
        Structure::Fault(fault) => one_fault(alloc, fault),
    }
}

fn prelude_outcome(alloc: Global, forms: &[PlacedForm]) -> Result<Outcome, AllocError>
    ensures { IfOk result (λ o. PreludeEnds (map placed_of forms.now) (ending_of o)) }
{
    match misplaced(forms) {
        Some(fault) => one_fault(alloc, fault),
        None => Ok(Outcome::Prelude),
    }
}

// The faults of the first kind that occurs, or what the forms make.
fn outcome(
    alloc: Global,
    prelude: bool,
    lexical: Faults,
    pieces: Faults,
    forms: Vec<PlacedForm>,
) -> Result<Outcome, AllocError>
    requires { prelude ≡ false → pieces ≡ [] → map placed_of forms.items ≢ [] }
    ensures lexical { IfOk result (λ o. lexical ≢ [] → ending_of o ≡ Faulty lexical) }
    ensures pieces { IfOk result (λ o. lexical ≡ [] → pieces ≢ [] → ending_of o ≡ Faulty pieces) }
    ensures structure { IfOk result (λ o. lexical ≡ [] → pieces ≡ [] → StructureEnds prelude (map placed_of forms.items) (ending_of o)) }
{
    if !lexical.is_empty() {
        return Ok(Outcome::Faults(lexical));
    }
    if !pieces.is_empty() {
        return Ok(Outcome::Faults(pieces));
    }
    if prelude {
        prelude_outcome(alloc, forms.as_slice())
    } else {
        unit_outcome(alloc, forms)
    }
}

fn known(alloc: Global, gathered: Gathered, prelude: bool) -> Result<UnitRead, AllocError>
    requires gathered { IsGathered gathered (map said_of gathered.said) }
    requires some { prelude ≡ false → units.piece_faults 0 (map said_of gathered.said) ≡ [] → units.forms_of 0 (map said_of gathered.said) ≢ [] }
    ensures { IfOk result (λ r. Makes prelude (map said_of gathered.said) (known_of r)) }
{
    let Gathered {
        lexical,
        pieces,
        forms,
        header,
        performers,
        unknown,
        ..
    } = gathered;
    let outcome = outcome(alloc, prelude, lexical, pieces, forms)?;
    if prelude {
        return Ok(UnitRead {
            header: None,
            performers,
            unknown,
            outcome,
        });
    }
    Ok(UnitRead {
        header,
        performers: Performers {
            robot: false,
            pen: false,
        },
        unknown: Items::new(alloc),
        outcome,
    })
}

/// What is read from the lines of a prelude or of a unit (docs/LANGUAGE.md, "Units"). Lines of trees and faults count
/// from 0. Each call takes one step. The only error is want of memory.
pub fn read_unit<L: Ledger>(
    alloc: Global,
    lines: &[Line],
    prelude: bool,
    steps: &mut Steps<L>,
) -> Result<UnitRead, Memory>
    requires few { length lines.now < 4294967295 }
    requires short { AreShort lines.now }
    requires begins { prelude ≡ false → FirstBegins lines.now }
    ensures read { IfOk result (λ r. UnitReads lines.now prelude (known_of r)) }
    ensures sound { IfOk result (λ r. IsSoundRead (length lines.now) prelude (known_of r)) }
    ensures step { steps.new ≡ steps.old + 1 }
{
    steps.tick();
    one_cutting();
    let gathered = gather(alloc, lines)?;
    Ok(known(alloc, gathered, prelude)?)
}

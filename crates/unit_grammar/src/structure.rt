//! The tree of a unit, or its first structure fault.

ghost use Rattle.std.specs.Prelude.{◌≡◌, ◌≢◌, ◌∷◌, [], map, IfOk, MatchOption};
ghost use Rattle.kumir_tree.specs.Unit.{Ending};
ghost use Rattle.kumir_tree.specs.Pieces.{piece_of};
ghost use Rattle.unit_grammar.specs.Grammar.{IsPrelude};
ghost use Rattle.unit_grammar.specs.Structure.{UnitEnds, HasOther};
ghost use Rattle.unit_grammar.specs.Progress as reading;
ghost use Rattle.unit_grammar.specs.Views.{state_of, some_state};
ghost use Rattle.unit_grammar.specs.Reading.{is_use, placed_of, progress_of, structure_ending};

use crate::placed::PlacedForm;
use crate::states::{State, step};
use kumir_tree::fault_codes::{MISPLACED, NESTED_TOO_DEEP, NOT_CLOSED};
use kumir_tree::{Fault, Form, UnitTree};
use std::alloc::{AllocError, Global};

/// How far the forms of a unit are read: to a state and the line of the last form, or to the first fault.
#[derive(Drop)]
pub enum Progress {
    Going(State, u32),
    Stopped(Fault),
}

/// What the forms of a unit make.
#[derive(Drop)]
pub enum Structure {
    Tree(UnitTree),
    Fault(Fault),
}

fn fault(line: u32, code: u16) -> Structure
    ensures { structure_ending result ≡ reading.finished (reading.Stopped (reading.fault_at line code)) }
{
    Structure::Fault(Fault { line, code })
}

// More blocks are open than a unit may have.
fn too_deep(state: State, line: u32) -> Progress
    ensures { progress_of result ≡ reading.Stopped (reading.fault_at line NESTED_TOO_DEEP) }
{
    drop(state);
    Progress::Stopped(Fault {
        line,
        code: NESTED_TOO_DEEP,
    })
}

fn reached(state: State, line: u32) -> Progress
    ensures { progress_of result ≡ reading.reached (state_of state) line }
{
    if state.is_deep() {
        too_deep(state, line)
    } else {
        Progress::Going(state, line)
    }
}

// How far the forms are read behind one more, which is on this line.
fn behind(state: Option<State>, line: u32) -> Progress
    ensures { progress_of result ≡ reading.reached_some line (some_state state) }
{
    match state {
        Some(state) => reached(state, line),
        None => Progress::Stopped(Fault {
            line,
            code: MISPLACED,
        }),
    }
}

fn discard(form: Form) {
    drop(form);
}

fn advance(alloc: Global, progress: Progress, placed: PlacedForm) -> Result<Progress, AllocError>
    ensures { IfOk result (λ p. progress_of p ≡ reading.advanced (progress_of progress) (placed_of placed)) }
{
    let PlacedForm { line, form } = placed;
    match progress {
        Progress::Stopped(fault) => {
            discard(form);
            Ok(Progress::Stopped(fault))
        }
        Progress::Going(state, _) => Ok(behind(step(alloc, state, line, form)?, line)),
    }
}

// A unit that is not whole ends.
fn unfinished(state: State, last: u32) -> Structure
    ensures { structure_ending result ≡ reading.finished (reading.Stopped (reading.fault_at last NOT_CLOSED)) }
{
    drop(state);
    fault(last, NOT_CLOSED)
}

fn end_of(state: State, last: u32) -> Structure
    ensures { structure_ending result ≡ reading.ended_at (state_of state) last }
{
    match state {
        State::Whole(tree) => Structure::Tree(tree),
        State::Empty => fault(last, NOT_CLOSED),
        State::AfterHeader(top) => unfinished(State::AfterHeader(top), last),
        State::AfterGiven(top) => unfinished(State::AfterGiven(top), last),
        State::AfterWanted(top) => unfinished(State::AfterWanted(top), last),
        State::Inside(top, body) => unfinished(State::Inside(top, body), last),
        State::NeedsThen(top, body, line, test) => {
            unfinished(State::NeedsThen(top, body, line, test), last)
        }
        State::NeedsCase(top, body, line) => unfinished(State::NeedsCase(top, body, line), last),
    }
}

fn finish(progress: Progress) -> Structure
    ensures { structure_ending result ≡ reading.finished (progress_of progress) }
{
    match progress {
        Progress::Going(state, last) => end_of(state, last),
        Progress::Stopped(fault) => Structure::Fault(fault),
    }
}

#[tactic(auto, using(crate::proofs::Acts::read_more))]
fn read_all(alloc: Global, forms: Vec<PlacedForm>) -> Result<Progress, AllocError>
    ensures { IfOk result (λ p. progress_of p ≡ reading.read_all (map placed_of forms.items)) }
{
    let mut progress = Progress::Going(State::Empty, 0);
    for placed in forms {
        progress = advance(alloc, progress, placed)?;
    }
    Ok(progress)
}

/// The tree of the forms of a unit, or their first structure fault.
#[tactic(auto, using(crate::proofs::Reached::unit_ends))]
pub fn grow(alloc: Global, forms: Vec<PlacedForm>) -> Result<Structure, AllocError>
    requires { map placed_of forms.items ≢ [] }
    ensures { IfOk result (λ s. UnitEnds (map placed_of forms.items) (structure_ending s)) }
{
    Ok(finish(read_all(alloc, forms)?))
}

fn is_use(form: &Form) -> bool
    ensures { result ≡ is_use (piece_of form.now) }
{
    matches!(form, Form::Uses(_))
}

/// The first form that is misplaced in a prelude.
#[tactic(auto, using(crate::proofs::Preludes::prelude_more, crate::proofs::Preludes::other_here))]
pub fn misplaced(forms: &[PlacedForm]) -> Option<Fault>
    ensures { MatchOption result (IsPrelude (map placed_of forms.now)) (λ f. HasOther (map placed_of forms.now) f) }
{
    for placed in forms {
        if !is_use(&placed.form) {
            return Some(Fault {
                line: placed.line,
                code: MISPLACED,
            });
        }
    }
    None
}

//! How a unit's tree grows form by form.

ghost use Rattle.std.specs.Prelude.{◌≡◌, ◌<◌, ◌↔◌, IsTrue, None, IfOk};
ghost use Rattle.kumir_tree.specs.Pieces.{piece_of};
ghost use Rattle.unit_grammar.specs.Stages.{open_blocks};
ghost use Rattle.unit_grammar.specs.Machine as machine;
ghost use Rattle.unit_grammar.specs.Views.{state_of, some_state};
ghost use Rattle.unit_grammar.specs.Kinds.{role_placed};

use crate::choices::{behind_choose, behind_select};
use crate::frames::Body;
use crate::heads::{Top, behind_given, behind_header, behind_wanted, first};
use crate::roles::{Role, discard_role, role_of};
use crate::statements::inside;
use km_base::limits::OPEN_BLOCKS;
use kumir_tree::{Expr, Form, UnitTree};
use std::alloc::{AllocError, Global};

/// How far a unit has come.
#[derive(Drop)]
pub enum State {
    Empty,
    AfterHeader(Top),
    AfterGiven(Top),
    AfterWanted(Top),
    Inside(Top, Body),
    /// Behind `если`, with its line and condition.
    NeedsThen(Top, Body, u32, Expr),
    /// Behind `выбор`, with its line.
    NeedsCase(Top, Body, u32),
    Whole(UnitTree),
}

// No state: the unit is over.
fn behind_end(unit: UnitTree, role: Role) -> Option<State>
    ensures { result ≡ None }
{
    drop(unit);
    discard_role(role);
    None
}

fn step_by(alloc: Global, state: State, line: u32, role: Role) -> Result<Option<State>, AllocError>
    ensures { IfOk result (λ s. some_state s ≡ machine.step (state_of state) (role_placed line role)) }
{
    match state {
        State::Empty => Ok(first(line, role)),
        State::AfterHeader(top) => Ok(behind_header(alloc, top, line, role)),
        State::AfterGiven(top) => Ok(behind_given(alloc, top, line, role)),
        State::AfterWanted(top) => Ok(behind_wanted(alloc, top, line, role)),
        State::Inside(top, body) => inside(alloc, top, body, line, role),
        State::NeedsThen(top, body, at, test) => {
            behind_choose(alloc, top, body, at, test, line, role)
        }
        State::NeedsCase(top, body, at) => behind_select(alloc, top, body, at, line, role),
        State::Whole(unit) => Ok(behind_end(unit, role)),
    }
}

/// The state behind one more form, or none where the form is misplaced.
pub fn step(alloc: Global, state: State, line: u32, form: Form) -> Result<Option<State>, AllocError>
    ensures { IfOk result (λ s. some_state s ≡ machine.step (state_of state) (line, piece_of form)) }
{
    let role = role_of(line, form);
    step_by(alloc, state, line, role)
}

impl State {
    /// Whether more blocks are open than a unit may have.
    #[tactic(auto, using(crate::proofs::Acts::inside_opens))]
    pub fn is_deep(&self) -> bool
        ensures { IsTrue result ↔ (100 < open_blocks (machine.stage_of (state_of self.now))) }
    {
        match self {
            State::Inside(_, body) => OPEN_BLOCKS < body.stack.len(),
            State::NeedsThen(_, body, _, _) => OPEN_BLOCKS <= body.stack.len(),
            State::NeedsCase(_, body, _) => OPEN_BLOCKS <= body.stack.len(),
            State::Empty => false,
            State::AfterHeader(_) => false,
            State::AfterGiven(_) => false,
            State::AfterWanted(_) => false,
            State::Whole(_) => false,
        }
    }
}

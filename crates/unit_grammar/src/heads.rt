//! What stands before the statements of a unit.

ghost use Rattle.std.specs.Prelude.{◌≡◌, None};
ghost use Rattle.kumir_tree.specs.Seen.{some_tree};
ghost use Rattle.kumir_tree.specs.Units.{some_claim};
ghost use Rattle.unit_grammar.specs.Machine as machine;
ghost use Rattle.unit_grammar.specs.Views.{top_of, state_of, some_state};
ghost use Rattle.unit_grammar.specs.Kinds.{outer_piece, role_placed};

use crate::frames::Body;
use crate::roles::{Inner, Outer, Role, discard, discard_outer};
use crate::states::State;
use kumir_tree::{Check, Expr, Header};
use sqlite_items::Items;
use std::alloc::Global;

/// What stands before `нач`.
#[derive(Drop)]
pub struct Top {
    pub header: Header,
    pub given: Option<Check>,
    pub wanted: Option<Check>,
}

fn claim(line: u32, condition: Option<Expr>) -> Option<Check>
    ensures { some_claim result ≡ machine.stated line (some_tree condition) }
{
    match condition {
        Some(condition) => Some(Check { line, condition }),
        None => None,
    }
}

#[tactic(auto, using(crate::proofs::Acts::acts))]
fn begin(alloc: Global, top: Top) -> State
    ensures { state_of result ≡ machine.Inside (top_of top) machine.empty }
{
    let body = Body {
        here: Items::new(alloc),
        stack: Items::new(alloc),
    };
    State::Inside(top, body)
}

fn with_given(top: Top, line: u32, condition: Option<Expr>) -> Top
    ensures { top_of result ≡ machine.with_given (top_of top) line (some_tree condition) }
{
    let Top { header, wanted, .. } = top;
    Top {
        header,
        given: claim(line, condition),
        wanted,
    }
}

fn with_wanted(top: Top, line: u32, condition: Option<Expr>) -> Top
    ensures { top_of result ≡ machine.with_wanted (top_of top) line (some_tree condition) }
{
    let Top { header, given, .. } = top;
    Top {
        header,
        given,
        wanted: claim(line, condition),
    }
}

// No state: the form may stand among statements only.
fn not_here(top: Top, inner: Inner) -> Option<State>
    ensures { result ≡ None }
{
    drop(top);
    discard(inner);
    None
}

// No state: no unit begins with the form.
fn no_begin(outer: Outer) -> Option<State>
    ensures { result ≡ None }
{
    discard_outer(outer);
    None
}

// No state: the form may not follow.
fn stray(top: Top, outer: Outer) -> Option<State>
    ensures { result ≡ None }
{
    drop(top);
    no_begin(outer)
}

fn begins(line: u32, outer: Outer) -> Option<State>
    ensures { some_state result ≡ machine.step machine.Empty (line, outer_piece outer) }
{
    match outer {
        Outer::Header(header) => Some(State::AfterHeader(Top {
            header,
            given: None,
            wanted: None,
        })),
        Outer::Given(test) => no_begin(Outer::Given(test)),
        Outer::Wanted(test) => no_begin(Outer::Wanted(test)),
        Outer::Begin => None,
        Outer::Then => None,
        Outer::Uses(name) => no_begin(Outer::Uses(name)),
    }
}

#[tactic(auto, using(crate::proofs::Steps::not_first))]
pub fn first(line: u32, role: Role) -> Option<State>
    ensures { some_state result ≡ machine.step machine.Empty (role_placed line role) }
{
    match role {
        Role::Outside(outer) => begins(line, outer),
        Role::Inside(inner) => {
            discard(inner);
            None
        }
    }
}

fn follows_header(alloc: Global, top: Top, line: u32, outer: Outer) -> Option<State>
    ensures { some_state result ≡ machine.step (machine.AfterHeader (top_of top)) (line, outer_piece outer) }
{
    match outer {
        Outer::Given(test) => Some(State::AfterGiven(with_given(top, line, test))),
        Outer::Wanted(test) => Some(State::AfterWanted(with_wanted(top, line, test))),
        Outer::Begin => Some(begin(alloc, top)),
        Outer::Header(header) => stray(top, Outer::Header(header)),
        Outer::Then => stray(top, Outer::Then),
        Outer::Uses(name) => stray(top, Outer::Uses(name)),
    }
}

#[tactic(auto, using(crate::proofs::Steps::not_behind_header))]
pub fn behind_header(alloc: Global, top: Top, line: u32, role: Role) -> Option<State>
    ensures { some_state result ≡ machine.step (machine.AfterHeader (top_of top)) (role_placed line role) }
{
    match role {
        Role::Outside(outer) => follows_header(alloc, top, line, outer),
        Role::Inside(inner) => not_here(top, inner),
    }
}

fn follows_given(alloc: Global, top: Top, line: u32, outer: Outer) -> Option<State>
    ensures { some_state result ≡ machine.step (machine.AfterGiven (top_of top)) (line, outer_piece outer) }
{
    match outer {
        Outer::Wanted(test) => Some(State::AfterWanted(with_wanted(top, line, test))),
        Outer::Begin => Some(begin(alloc, top)),
        Outer::Header(header) => stray(top, Outer::Header(header)),
        Outer::Given(test) => stray(top, Outer::Given(test)),
        Outer::Then => stray(top, Outer::Then),
        Outer::Uses(name) => stray(top, Outer::Uses(name)),
    }
}

#[tactic(auto, using(crate::proofs::Steps::not_behind_given))]
pub fn behind_given(alloc: Global, top: Top, line: u32, role: Role) -> Option<State>
    ensures { some_state result ≡ machine.step (machine.AfterGiven (top_of top)) (role_placed line role) }
{
    match role {
        Role::Outside(outer) => follows_given(alloc, top, line, outer),
        Role::Inside(inner) => not_here(top, inner),
    }
}

fn follows_wanted(alloc: Global, top: Top, line: u32, outer: Outer) -> Option<State>
    ensures { some_state result ≡ machine.step (machine.AfterWanted (top_of top)) (line, outer_piece outer) }
{
    match outer {
        Outer::Begin => Some(begin(alloc, top)),
        Outer::Header(header) => stray(top, Outer::Header(header)),
        Outer::Given(test) => stray(top, Outer::Given(test)),
        Outer::Wanted(test) => stray(top, Outer::Wanted(test)),
        Outer::Then => stray(top, Outer::Then),
        Outer::Uses(name) => stray(top, Outer::Uses(name)),
    }
}

#[tactic(auto, using(crate::proofs::Steps::not_behind_wanted))]
pub fn behind_wanted(alloc: Global, top: Top, line: u32, role: Role) -> Option<State>
    ensures { some_state result ≡ machine.step (machine.AfterWanted (top_of top)) (role_placed line role) }
{
    match role {
        Role::Outside(outer) => follows_wanted(alloc, top, line, outer),
        Role::Inside(inner) => not_here(top, inner),
    }
}

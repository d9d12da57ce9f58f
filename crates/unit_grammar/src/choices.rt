//! What may follow `если` and `выбор`.

ghost use Rattle.std.specs.Prelude.{◌≡◌, ℕ, IfOk};
ghost use Rattle.kumir_tree.specs.Seen.{tree};
ghost use Rattle.kumir_tree.specs.Units.{some_claim};
ghost use Rattle.unit_grammar.specs.Machine as machine;
ghost use Rattle.unit_grammar.specs.Views.{top_of, body_of, some_state};
ghost use Rattle.unit_grammar.specs.Kinds.{end_placed, inner_placed, role_placed, first_case};

use crate::frames::{Body, End};
use crate::heads::Top;
use crate::roles::{
    Inner, Role, discard_head, discard_outer, discard_plain, discard_test, is_then,
};
use crate::statements::{misplaced, open_case, open_choice};
use crate::states::State;
use kumir_tree::{Check, Expr};
use std::alloc::{AllocError, Global};

#[tactic(auto, using(crate::proofs::Steps::then_step))]
pub fn behind_choose(
    alloc: Global,
    top: Top,
    body: Body,
    at: u32,
    test: Expr,
    line: u32,
    role: Role,
) -> Result<Option<State>, AllocError>
    ensures { IfOk result (λ s. some_state s ≡ machine.step (machine.NeedsThen (top_of top) (body_of body) at (tree test)) (role_placed line role)) }
{
    if is_then(role) {
        open_choice(alloc, top, body, at, test)
    } else {
        discard_test(test);
        Ok(misplaced(top, body))
    }
}

// The line and condition of a case.
fn case_of(line: u32, end: End) -> Option<Check>
    ensures { (t : machine.Top) (b : machine.Body) (m : ℕ) → machine.step (machine.NeedsCase t b m) (end_placed line end) ≡ first_case t b m (some_claim result) }
{
    match end {
        End::Case(line, condition) => Some(Check { line, condition }),
        End::Close => None,
        End::CloseWhen(_, test) => {
            discard_test(test);
            None
        }
        End::Otherwise => None,
        End::ChoiceEnd => None,
    }
}

#[tactic(auto, using(crate::proofs::Steps::says_no_case, crate::proofs::Steps::repeats_no_case))]
fn case_among(line: u32, inner: Inner) -> Option<Check>
    ensures { (t : machine.Top) (b : machine.Body) (m : ℕ) → machine.step (machine.NeedsCase t b m) (inner_placed line inner) ≡ first_case t b m (some_claim result) }
{
    match inner {
        Inner::Ends(end) => case_of(line, end),
        Inner::Says(plain) => {
            discard_plain(plain);
            None
        }
        Inner::Repeats(head) => {
            discard_head(head);
            None
        }
        Inner::Forever => None,
        Inner::Choose(test) => {
            discard_test(test);
            None
        }
        Inner::Select => None,
        Inner::Finish => None,
    }
}

#[tactic(auto, using(crate::proofs::Steps::outer_no_case))]
fn case_in(line: u32, role: Role) -> Option<Check>
    ensures { (t : machine.Top) (b : machine.Body) (m : ℕ) → machine.step (machine.NeedsCase t b m) (role_placed line role) ≡ first_case t b m (some_claim result) }
{
    match role {
        Role::Inside(inner) => case_among(line, inner),
        Role::Outside(outer) => {
            discard_outer(outer);
            None
        }
    }
}

pub fn behind_select(
    alloc: Global,
    top: Top,
    body: Body,
    at: u32,
    line: u32,
    role: Role,
) -> Result<Option<State>, AllocError>
    ensures { IfOk result (λ s. some_state s ≡ machine.step (machine.NeedsCase (top_of top) (body_of body) at) (role_placed line role)) }
{
    match case_in(line, role) {
        Some(Check { line, condition }) => open_case(alloc, top, body, at, line, condition),
        None => Ok(misplaced(top, body)),
    }
}

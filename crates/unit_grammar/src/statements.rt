//! The statements of a unit, and the end of it.

ghost use Rattle.std.specs.Prelude.{◌≡◌, ◌∷◌, [], map, Some, None, IfOk};
ghost use Rattle.kumir_tree.specs.Program as program;
ghost use Rattle.kumir_tree.specs.Blocks.{act_of, stmt_of};
ghost use Rattle.kumir_tree.specs.Seen.{tree};
ghost use Rattle.unit_grammar.specs.Machine as machine;
ghost use Rattle.unit_grammar.specs.Views.{loop_act, frame_of, stack_of, top_of, body_of, some_body, some_state, ended};
ghost use Rattle.unit_grammar.specs.Kinds.{inner_placed, role_placed};

use crate::frames::{Body, End, Frame, LoopHead, end_frame, opened, pop};
use crate::heads::Top;
use crate::roles::{Inner, Role, discard_end, discard_outer, what_of};
use crate::states::State;
use kumir_tree::{Block, Expr, Statement, UnitTree, What};
use sqlite_items::Items;
use std::alloc::{AllocError, Global};

// The statement at the end of the innermost block.
#[tactic(auto, using(crate::proofs::Acts::acts))]
fn put(top: Top, mut body: Body, line: u32, what: What) -> Result<Option<State>, AllocError>
    ensures { IfOk result (λ s. some_state s ≡ Some (machine.Inside (top_of top) (machine.put (body_of body) (program.Stands line (act_of what))))) }
{
    body.here.push(Statement { line, what })?;
    Ok(Some(State::Inside(top, body)))
}

fn open(
    alloc: Global,
    top: Top,
    stack: Items<Frame>,
    frame: Frame,
) -> Result<Option<State>, AllocError>
    ensures { IfOk result (λ s. some_state s ≡ Some (machine.Inside (top_of top) (record { here = []; stack = frame_of frame ∷ stack_of stack }))) }
{
    let body = opened(alloc, stack, frame)?;
    Ok(Some(State::Inside(top, body)))
}

fn go_on(top: Top, body: Option<Body>) -> Option<State>
    ensures { some_state result ≡ machine.go_on (top_of top) (some_body body) }
{
    match body {
        Some(body) => Some(State::Inside(top, body)),
        None => {
            drop(top);
            None
        }
    }
}

#[tactic(auto, using(crate::proofs::Acts::none_ends))]
fn end_block(alloc: Global, top: Top, body: Body, end: End) -> Result<Option<State>, AllocError>
    ensures { IfOk result (λ s. some_state s ≡ machine.go_on (top_of top) (ended end (body_of body).here (body_of body).stack)) }
{
    let Body { here, mut stack } = body;
    match pop(&mut stack) {
        Some(frame) => Ok(go_on(top, end_frame(alloc, end, frame, here, stack)?)),
        None => {
            discard_end(end);
            Ok(misplaced(top, Body { here, stack }))
        }
    }
}

// No state: the form is misplaced inside of this body.
pub fn misplaced(top: Top, body: Body) -> Option<State>
    ensures { result ≡ None }
{
    drop(top);
    drop(body);
    None
}

// No state: a block is open.
fn not_closed(top: Top, here: Block, stack: Items<Frame>, frame: Frame) -> Option<State>
    ensures { result ≡ None }
{
    drop(frame);
    misplaced(top, Body { here, stack })
}

#[tactic(auto, using(crate::proofs::Acts::finish_some))]
fn finish(top: Top, body: Body, line: u32) -> Option<State>
    ensures { some_state result ≡ machine.finish line (top_of top) (body_of body).here (body_of body).stack }
{
    let Body { here, mut stack } = body;
    match pop(&mut stack) {
        Some(frame) => not_closed(top, here, stack, frame),
        None => {
            drop(stack);
            let Top {
                header,
                given,
                wanted,
            } = top;
            Some(State::Whole(UnitTree {
                header,
                given,
                wanted,
                body: here,
                close: line,
            }))
        }
    }
}

fn open_loop(
    alloc: Global,
    top: Top,
    body: Body,
    line: u32,
    head: LoopHead,
) -> Result<Option<State>, AllocError>
    ensures { IfOk result (λ s. some_state s ≡ Some (machine.Inside (top_of top) (machine.opened (machine.Looping (map stmt_of body.here) line (loop_act head)) (body_of body)))) }
{
    let Body { here, stack } = body;
    open(alloc, top, stack, Frame::Looping(here, line, head))
}

fn open_endless(alloc: Global, top: Top, body: Body, line: u32) -> Result<Option<State>, AllocError>
    ensures { IfOk result (λ s. some_state s ≡ Some (machine.Inside (top_of top) (machine.opened (machine.Endless (map stmt_of body.here) line) (body_of body)))) }
{
    let Body { here, stack } = body;
    open(alloc, top, stack, Frame::Endless(here, line))
}

pub fn open_choice(
    alloc: Global,
    top: Top,
    body: Body,
    at: u32,
    test: Expr,
) -> Result<Option<State>, AllocError>
    ensures { IfOk result (λ s. some_state s ≡ Some (machine.Inside (top_of top) (machine.opened (machine.Chosen (map stmt_of body.here) at (tree test)) (body_of body)))) }
{
    let Body { here, stack } = body;
    open(alloc, top, stack, Frame::Chosen(here, at, test))
}

pub fn open_case(
    alloc: Global,
    top: Top,
    body: Body,
    at: u32,
    line: u32,
    test: Expr,
) -> Result<Option<State>, AllocError>
    ensures { IfOk result (λ s. some_state s ≡ Some (machine.Inside (top_of top) (machine.opened (machine.Cased (map stmt_of body.here) at [] line (tree test)) (body_of body)))) }
{
    let Body { here, stack } = body;
    let cases = Items::new(alloc);
    open(alloc, top, stack, Frame::Cased(here, at, cases, line, test))
}

#[tactic(auto, using(crate::proofs::Steps::says, crate::proofs::Steps::repeats, crate::proofs::Steps::ends))]
fn among(
    alloc: Global,
    top: Top,
    body: Body,
    line: u32,
    inner: Inner,
) -> Result<Option<State>, AllocError>
    ensures { IfOk result (λ s. some_state s ≡ machine.step (machine.Inside (top_of top) (body_of body)) (inner_placed line inner)) }
{
    match inner {
        Inner::Says(plain) => put(top, body, line, what_of(plain)),
        Inner::Repeats(head) => open_loop(alloc, top, body, line, head),
        Inner::Forever => open_endless(alloc, top, body, line),
        Inner::Choose(test) => Ok(Some(State::NeedsThen(top, body, line, test))),
        Inner::Select => Ok(Some(State::NeedsCase(top, body, line))),
        Inner::Ends(end) => end_block(alloc, top, body, end),
        Inner::Finish => Ok(finish(top, body, line)),
    }
}

#[tactic(auto, using(crate::proofs::Steps::outside))]
pub fn inside(
    alloc: Global,
    top: Top,
    body: Body,
    line: u32,
    role: Role,
) -> Result<Option<State>, AllocError>
    ensures { IfOk result (λ s. some_state s ≡ machine.step (machine.Inside (top_of top) (body_of body)) (role_placed line role)) }
{
    match role {
        Role::Inside(inner) => among(alloc, top, body, line, inner),
        Role::Outside(outer) => {
            discard_outer(outer);
            Ok(misplaced(top, body))
        }
    }
}

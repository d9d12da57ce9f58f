//! Open blocks of a unit, and how they end.

ghost use Rattle.std.specs.Prelude.{◌≡◌, ◌∷◌, [], map, IfOk, MatchOption};
ghost use Rattle.kumir_tree.specs.Program as program;
ghost use Rattle.kumir_tree.specs.Blocks.{act_of, stmt_of, block_listed};
ghost use Rattle.kumir_tree.specs.Seen.{tree};
ghost use Rattle.unit_grammar.specs.Machine as machine;
ghost use Rattle.unit_grammar.specs.Views.{arm_of, loop_act, choice_act, frame_of, stack_of, body_of, some_body, ended};

use kumir_tree::{Block, Case, Cases, Expr, Name, Statement, What};
use sqlite_items::Items;
use std::alloc::{AllocError, Global};

/// The head of a loop that ends with `кц` alone.
#[derive(Drop)]
pub enum LoopHead {
    Times(Expr),
    While(Expr),
    Count(Name, Expr, Expr, Option<Expr>),
}

/// The part of a choice before its `иначе`.
#[derive(Drop)]
pub enum ChoiceHead {
    If(Expr, Block),
    Select(Cases),
}

/// An open block, with the statements before it and its line.
#[derive(Drop)]
pub enum Frame {
    Looping(Block, u32, LoopHead),
    Endless(Block, u32),
    Chosen(Block, u32, Expr),
    /// The cases before the last one, and the line and condition of that one.
    Cased(Block, u32, Cases, u32, Expr),
    Otherwise(Block, u32, ChoiceHead),
}

/// The statements of the innermost block so far, and the open blocks, the innermost last.
#[derive(Drop)]
pub struct Body {
    pub here: Block,
    pub stack: Items<Frame>,
}

/// A form that ends the statements of a block, or goes on with others of it.
#[derive(Drop)]
pub enum End {
    Close,
    CloseWhen(u32, Expr),
    Case(u32, Expr),
    Otherwise,
    ChoiceEnd,
}

// What a loop with this head does.
#[tactic(auto, using(crate::proofs::Acts::acts))]
fn loop_over(head: LoopHead, body: Block) -> What
    ensures { act_of result ≡ loop_act head (block_listed (map stmt_of body)) }
{
    match head {
        LoopHead::Times(count) => What::Times(count, body),
        LoopHead::While(test) => What::While(test, body),
        LoopHead::Count(name, from, to, step) => What::Count(name, from, to, step, body),
    }
}

// What a choice does with this block behind `иначе`.
#[tactic(auto, using(crate::proofs::Acts::acts))]
fn choice_over(head: ChoiceHead, body: Block) -> What
    ensures { act_of result ≡ choice_act head (block_listed (map stmt_of body)) }
{
    match head {
        ChoiceHead::If(test, first) => What::Choose(test, first, body),
        ChoiceHead::Select(cases) => What::Select(cases, body),
    }
}

// The body around a block that ends, with the statement that it makes.
#[tactic(auto, using(crate::proofs::Acts::acts))]
fn closed(mut before: Block, line: u32, what: What, stack: Items<Frame>) -> Result<Body, AllocError>
    ensures { IfOk result (λ b. body_of b ≡ machine.closed (map stmt_of before) (program.Stands line (act_of what)) (stack_of stack)) }
{
    before.push(Statement { line, what })?;
    Ok(Body {
        here: before,
        stack,
    })
}

// A block that opens.
#[tactic(auto, using(crate::proofs::Acts::acts))]
pub fn opened(alloc: Global, mut stack: Items<Frame>, frame: Frame) -> Result<Body, AllocError>
    ensures { IfOk result (λ b. body_of b ≡ record { here = []; stack = frame_of frame ∷ stack_of stack }) }
{
    stack.push(frame)?;
    Ok(Body {
        here: Items::new(alloc),
        stack,
    })
}

#[tactic(auto, using(crate::proofs::Acts::acts))]
fn with_case(mut cases: Cases, line: u32, condition: Expr, body: Block) -> Result<Cases, AllocError>
    ensures { IfOk result (λ all. map arm_of all ≡ machine.with_arm (map arm_of cases) line (tree condition) (map stmt_of body)) }
{
    cases.push(Case {
        line,
        condition,
        body,
    })?;
    Ok(cases)
}

// The innermost open block, and the others.
#[tactic(auto, using(crate::proofs::Acts::acts))]
pub fn pop(stack: &mut Items<Frame>) -> Option<Frame>
    ensures { MatchOption result (stack_of stack.old ≡ []) (λ frame. stack_of stack.old ≡ frame_of frame ∷ stack_of stack.new) }
{
    stack.pop()
}

// No body: the form ends no block of this kind.
fn ends_none(frame: Frame, here: Block, stack: Items<Frame>) -> Option<Body>
    ensures { result ≡ None }
{
    drop(frame);
    drop(here);
    drop(stack);
    None
}

#[tactic(auto, using(crate::proofs::Acts::acts))]
fn close(frame: Frame, here: Block, stack: Items<Frame>) -> Result<Option<Body>, AllocError>
    ensures { IfOk result (λ b. some_body b ≡ machine.close (map stmt_of here) (frame_of frame ∷ stack_of stack)) }
{
    match frame {
        Frame::Looping(before, line, head) => {
            Ok(Some(closed(before, line, loop_over(head, here), stack)?))
        }
        Frame::Endless(before, line) => {
            Ok(Some(closed(before, line, What::Forever(here), stack)?))
        }
        Frame::Chosen(before, line, test) => Ok(ends_none(
            Frame::Chosen(before, line, test),
            here,
            stack,
        )),
        Frame::Cased(before, line, cases, last, test) => Ok(ends_none(
            Frame::Cased(before, line, cases, last, test),
            here,
            stack,
        )),
        Frame::Otherwise(before, line, head) => Ok(ends_none(
            Frame::Otherwise(before, line, head),
            here,
            stack,
        )),
    }
}

#[tactic(auto, using(crate::proofs::Acts::acts))]
fn close_when(
    at: u32,
    condition: Expr,
    frame: Frame,
    here: Block,
    stack: Items<Frame>,
) -> Result<Option<Body>, AllocError>
    ensures { IfOk result (λ b. some_body b ≡ machine.close_when at (tree condition) (map stmt_of here) (frame_of frame ∷ stack_of stack)) }
{
    match frame {
        Frame::Endless(before, line) => {
            let what = What::Until(here, at, condition);
            Ok(Some(closed(before, line, what, stack)?))
        }
        Frame::Looping(before, line, head) => {
            drop(condition);
            Ok(ends_none(Frame::Looping(before, line, head), here, stack))
        }
        Frame::Chosen(before, line, test) => {
            drop(condition);
            Ok(ends_none(Frame::Chosen(before, line, test), here, stack))
        }
        Frame::Cased(before, line, cases, last, test) => {
            drop(condition);
            Ok(ends_none(Frame::Cased(before, line, cases, last, test), here, stack))
        }
        Frame::Otherwise(before, line, head) => {
            drop(condition);
            Ok(ends_none(Frame::Otherwise(before, line, head), here, stack))
        }
    }
}

fn another_case(
    alloc: Global,
    at: u32,
    condition: Expr,
    frame: Frame,
    here: Block,
    stack: Items<Frame>,
) -> Result<Option<Body>, AllocError>
    ensures { IfOk result (λ b. some_body b ≡ machine.another_case at (tree condition) (map stmt_of here) (frame_of frame ∷ stack_of stack)) }
{
    match frame {
        Frame::Cased(before, line, cases, last, test) => {
            let cases = with_case(cases, last, test, here)?;
            let frame = Frame::Cased(before, line, cases, at, condition);
            Ok(Some(opened(alloc, stack, frame)?))
        }
        Frame::Looping(before, line, head) => {
            drop(condition);
            Ok(ends_none(Frame::Looping(before, line, head), here, stack))
        }
        Frame::Endless(before, line) => {
            drop(condition);
            Ok(ends_none(Frame::Endless(before, line), here, stack))
        }
        Frame::Chosen(before, line, test) => {
            drop(condition);
            Ok(ends_none(Frame::Chosen(before, line, test), here, stack))
        }
        Frame::Otherwise(before, line, head) => {
            drop(condition);
            Ok(ends_none(Frame::Otherwise(before, line, head), here, stack))
        }
    }
}

fn otherwise(
    alloc: Global,
    frame: Frame,
    here: Block,
    stack: Items<Frame>,
) -> Result<Option<Body>, AllocError>
    ensures { IfOk result (λ b. some_body b ≡ machine.otherwise (map stmt_of here) (frame_of frame ∷ stack_of stack)) }
{
    match frame {
        Frame::Chosen(before, line, test) => {
            let frame = Frame::Otherwise(before, line, ChoiceHead::If(test, here));
            Ok(Some(opened(alloc, stack, frame)?))
        }
        Frame::Cased(before, line, cases, last, test) => {
            let cases = with_case(cases, last, test, here)?;
            let frame = Frame::Otherwise(before, line, ChoiceHead::Select(cases));
            Ok(Some(opened(alloc, stack, frame)?))
        }
        Frame::Looping(before, line, head) => Ok(ends_none(
            Frame::Looping(before, line, head),
            here,
            stack,
        )),
        Frame::Endless(before, line) => Ok(ends_none(Frame::Endless(before, line), here, stack)),
        Frame::Otherwise(before, line, head) => Ok(ends_none(
            Frame::Otherwise(before, line, head),
            here,
            stack,
        )),
    }
}

#[tactic(auto, using(crate::proofs::Acts::acts))]
fn choice_end(
    alloc: Global,
    frame: Frame,
    here: Block,
    stack: Items<Frame>,
) -> Result<Option<Body>, AllocError>
    ensures { IfOk result (λ b. some_body b ≡ machine.choice_end (map stmt_of here) (frame_of frame ∷ stack_of stack)) }
{
    match frame {
        Frame::Chosen(before, line, test) => {
            let what = What::Choose(test, here, Items::new(alloc));
            Ok(Some(closed(before, line, what, stack)?))
        }
        Frame::Cased(before, line, cases, last, test) => {
            let cases = with_case(cases, last, test, here)?;
            let what = What::Select(cases, Items::new(alloc));
            Ok(Some(closed(before, line, what, stack)?))
        }
        Frame::Otherwise(before, line, head) => {
            Ok(Some(closed(before, line, choice_over(head, here), stack)?))
        }
        Frame::Looping(before, line, head) => Ok(ends_none(
            Frame::Looping(before, line, head),
            here,
            stack,
        )),
        Frame::Endless(before, line) => Ok(ends_none(Frame::Endless(before, line), here, stack)),
    }
}

// How the innermost block goes on, or None where this does not end its statements.
pub fn end_frame(
    alloc: Global,
    end: End,
    frame: Frame,
    here: Block,
    stack: Items<Frame>,
) -> Result<Option<Body>, AllocError>
    ensures { IfOk result (λ b. some_body b ≡ ended end (map stmt_of here) (frame_of frame ∷ stack_of stack)) }
{
    match end {
        End::Close => close(frame, here, stack),
        End::CloseWhen(at, test) => close_when(at, test, frame, here, stack),
        End::Case(at, test) => another_case(alloc, at, test, frame, here, stack),
        End::Otherwise => otherwise(alloc, frame, here, stack),
        End::ChoiceEnd => choice_end(alloc, frame, here, stack),
    }
}

//! The hidden slots that arguments keep.
ghost use Rattle.std.specs.Prelude.{◌≡◌, ◌+◌, [], map, IfOk};
ghost use Rattle.kumir_tree.specs.Seen.{tree, trees};
ghost use Rattle.kumir_tree.specs.Parts.{formal_of};
ghost use Rattle.kumir_compiler.specs.ArgumentCode.{keeps, kept_at, tree_keeps};
ghost use Rattle.kumir_compiler.specs.CallsSeen.{keeps_in};

use crate::put::narrow;
use km_base::Memory;
use kumir_tree::{Expr, Mode, Param};
use sqlite_items::Items;
use stack_code::HiddenSlots;
use std::alloc::Global;

/// How many hidden slots the place of an argument keeps.
#[tactic(auto, using(kumir_tree::proofs::Views::views))]
pub fn kept_by(param: &Param, e: &Expr) -> usize
    ensures { result ≡ keeps (formal_of param.now).bounds (formal_of param.now).mode (tree e.now) }
{
    match &param.bounds {
        Some(_) => 0,
        None => match param.mode {
            Mode::Arg => 0,
            Mode::Res => tree_kept(e),
            Mode::ArgRes => tree_kept(e),
        },
    }
}

/// How many indexes a place has.
#[tactic(auto, using(kumir_tree::proofs::Views::views))]
fn tree_kept(e: &Expr) -> usize
    ensures { result ≡ tree_keeps (tree e.now) }
{
    match e {
        Expr::Number(_) => 0,
        Expr::Truth(_) => 0,
        Expr::Result => 0,
        Expr::Named(_) => 0,
        Expr::Element(_, indexes) => indexes.len(),
        Expr::Call(_, _) => 0,
        Expr::Plus(_) => 0,
        Expr::Minus(_) => 0,
        Expr::Not(_) => 0,
        Expr::Binary(_, _, _) => 0,
    }
}

/// How many hidden slots are in use behind all arguments. A number that does not fit its bits is
/// answered as want of memory.
pub fn all_kept(hidden: usize, params: &[Param], all: &[Expr]) -> Result<usize, Memory>
    ensures { IfOk result (λ n. n ≡ hidden + keeps_in (trees all.now) (map formal_of params.now)) }
{
    let mut kept = hidden;
    for at in 0..params.len().min(all.len()) {
        let Some(more) = kept.checked_add(kept_by(&params[at], &all[at])) else {
            return Err(Memory);
        };
        kept = more;
    }
    Ok(kept)
}

/// The slots that keep so many indexes, from this one on, in the order of the indexes.
pub fn kept_slots(alloc: Global, first: u32, count: usize) -> Result<HiddenSlots, Memory>
    ensures { IfOk result (λ slots. slots ≡ kept_at count first []) }
{
    let mut slots = Items::new(alloc);
    let mut at = count;
    while at > 0 {
        at -= 1;
        let slot = slot_behind(first, at)?;
        slots.push(slot)?;
    }
    Ok(slots)
}

/// The slot so many behind this one. A slot that does not fit its 32 bits is answered as want of memory.
pub fn slot_behind(first: u32, at: usize) -> Result<u32, Memory>
    ensures { IfOk result (λ n. n ≡ first + at) }
{
    match (first as usize).checked_add(at) {
        Some(slot) => narrow(slot),
        None => Err(Memory),
    }
}

//! Chains of signs, of `не` and of powers.
ghost use Rattle.std.specs.Prelude.{◌≡◌, IfOk};
ghost use Rattle.kumir_tree.specs.Seen.{tree};
ghost use Rattle.expr_forms.specs.Reading.{wrapped};

use kumir_tree::{Expr, Op};
use sqlite_items::Items;
use std::alloc::{AllocError, Global};

/// What waits for the operand on its right.
#[derive(Drop)]
pub enum Pending {
    Plus,
    Minus,
    Not,
    /// A power waits with the operand on its left.
    Power(Expr),
}

/// One step along a chain.
#[derive(Drop)]
pub enum Step {
    Waits(Pending),
    Ends(Expr),
}

/// Gives the operand to what waits, the last of it first.
#[tactic(auto, using(crate::proofs::Turns::wrapped_more))]
pub fn wrap(alloc: Global, mut pending: Items<Pending>, operand: Expr) -> Result<Expr, AllocError>
    ensures { IfOk result (λ x. tree x ≡ wrapped pending (tree operand)) }
{
    let mut operand = operand;
    while let Some(last) = pending.pop() {
        operand = match last {
            Pending::Plus => Expr::plus_of(alloc, operand)?,
            Pending::Minus => Expr::minus_of(alloc, operand)?,
            Pending::Not => Expr::not_of(alloc, operand)?,
            Pending::Power(left) => Expr::binary_of(alloc, Op::Power, left, operand)?,
        };
    }
    Ok(operand)
}

//! The lines of operators.
ghost use Rattle.std.specs.Prelude.{◌≡◌, ◌++◌, OnOk};
ghost use Rattle.kumir_tree.specs.Seen.{tree};
ghost use Rattle.kumir_tree.specs.declared.kind.Op.TheVariants as op;
ghost use Rattle.stack_code.specs.declared.instruction.Instruction.TheVariants as instruction;
ghost use Rattle.type_check.specs.Kinds.{form_kind, operator_kind};
ghost use Rattle.kumir_compiler.specs.Sites.{among};
ghost use Rattle.kumir_compiler.specs.ExpressionCode.{by_kind};
ghost use Rattle.kumir_compiler.specs.PendingCode.{code_of, behind_code, between_code};
ghost use Rattle.kumir_compiler.specs.SitesSeen.{site_of};

use crate::pending::{Pending, PendingLines};
use crate::put::{put, put_pending};
use crate::site::{Site, variable_of};
use km_base::Memory;
use kumir_tree::{Expr, Kind, Op};
use kumir_values::Value;
use stack_code::Instruction;

/// The kind that the form of an expression tells.
#[tactic(auto, using(kumir_tree::proofs::Views::views))]
pub fn form_kind_of(site: &Site<'_, '_>, e: &Expr) -> Option<Kind>
    ensures { result ≡ form_kind (among (site_of site.now)) (tree e.now) }
{
    match e {
        Expr::Number(_) => Some(Kind::Whole),
        Expr::Truth(_) => Some(Kind::Truth),
        Expr::Result => site.gives,
        Expr::Named(x) => match variable_of(site, x) {
            Some(variable) => Some(variable.kind),
            None => site.program.kind_of(x),
        },
        Expr::Element(x, _) => variable_of(site, x).map(|variable| variable.kind),
        Expr::Call(f, _) => site.program.kind_of(f),
        Expr::Plus(_) => Some(Kind::Whole),
        Expr::Minus(_) => Some(Kind::Whole),
        Expr::Not(_) => Some(Kind::Truth),
        Expr::Binary(op, _, _) => Some(kind_given(*op)),
    }
}

/// The kind that an operator gives.
fn kind_given(op: Op) -> Kind
    ensures { result ≡ operator_kind op }
{
    match op {
        Op::Or => Kind::Truth,
        Op::And => Kind::Truth,
        Op::Equal => Kind::Truth,
        Op::NotEqual => Kind::Truth,
        Op::Less => Kind::Truth,
        Op::Greater => Kind::Truth,
        Op::LessOrEqual => Kind::Truth,
        Op::GreaterOrEqual => Kind::Truth,
        Op::Plus => Kind::Whole,
        Op::Minus => Kind::Whole,
        Op::Times => Kind::Whole,
        Op::Power => Kind::Whole,
    }
}

/// The equality of two values of this kind.
fn equality(kind: Option<Kind>) -> Instruction
    ensures { result ≡ by_kind kind instruction.Eq instruction.EqTruth }
{
    match kind {
        Some(Kind::Truth) => Instruction::EqTruth,
        Some(Kind::Whole) => Instruction::Eq,
        None => Instruction::Eq,
    }
}

/// That two values of this kind differ.
fn difference(kind: Option<Kind>) -> Instruction
    ensures { result ≡ by_kind kind instruction.Ne instruction.NeTruth }
{
    match kind {
        Some(Kind::Truth) => Instruction::NeTruth,
        Some(Kind::Whole) => Instruction::Ne,
        None => Instruction::Ne,
    }
}

/// What stands behind both sides of an operator whose left side is of this kind.
pub fn put_behind(
    site: &Site<'_, '_>,
    op: Op,
    kind: Option<Kind>,
    out: &mut PendingLines,
) -> Result<(), Memory>
    ensures { OnOk result (code_of out.new
        ≡ behind_code op kind (site_of site.now) ++ code_of out.old) }
{
    match op {
        Op::Or => Ok(()),
        Op::And => {
            put(site, out, Instruction::Push(Value::Truth(false)))?;
            put_pending(site, out, Pending::Jump(1))
        }
        Op::Equal => put(site, out, equality(kind)),
        Op::NotEqual => put(site, out, difference(kind)),
        Op::Less => put(site, out, Instruction::Lt),
        Op::Greater => put(site, out, Instruction::Gt),
        Op::LessOrEqual => put(site, out, Instruction::Le),
        Op::GreaterOrEqual => put(site, out, Instruction::Ge),
        Op::Plus => put(site, out, Instruction::Add),
        Op::Minus => put(site, out, Instruction::Sub),
        Op::Times => put(site, out, Instruction::Mul),
        Op::Power => put(site, out, Instruction::Pow),
    }
}

/// What stands between both sides of `или`, where the right one has so many lines.
fn put_or(site: &Site<'_, '_>, size: usize, out: &mut PendingLines) -> Result<(), Memory>
    ensures { OnOk result (code_of out.new
        ≡ between_code op.Or size (site_of site.now) ++ code_of out.old) }
{
    put_pending(site, out, Pending::Jump(size))?;
    put(site, out, Instruction::Push(Value::Truth(true)))?;
    put_pending(site, out, Pending::JumpNo(2))
}

/// What stands between both sides of `и`, where the right one has so many lines. A jump that does
/// not fit its bits is answered as want of memory.
fn put_and(site: &Site<'_, '_>, size: usize, out: &mut PendingLines) -> Result<(), Memory>
    ensures { OnOk result (code_of out.new
        ≡ between_code op.And size (site_of site.now) ++ code_of out.old) }
{
    let Some(over) = size.checked_add(1) else {
        return Err(Memory);
    };
    put_pending(site, out, Pending::JumpNo(over))
}

/// What stands between both sides of an operator, where the right one has so many lines.
pub fn put_between(
    site: &Site<'_, '_>,
    op: Op,
    size: usize,
    out: &mut PendingLines,
) -> Result<(), Memory>
    ensures { OnOk result (code_of out.new
        ≡ between_code op size (site_of site.now) ++ code_of out.old) }
{
    match op {
        Op::Or => put_or(site, size, out),
        Op::And => put_and(site, size, out),
        Op::Equal => Ok(()),
        Op::NotEqual => Ok(()),
        Op::Less => Ok(()),
        Op::Greater => Ok(()),
        Op::LessOrEqual => Ok(()),
        Op::GreaterOrEqual => Ok(()),
        Op::Plus => Ok(()),
        Op::Minus => Ok(()),
        Op::Times => Ok(()),
        Op::Power => Ok(()),
    }
}

//! Expressions.
ghost use Rattle.std.specs.Prelude.{◌≡◌, IfOk};
ghost use Rattle.kumir_tree.specs.Tree as t;
ghost use Rattle.kumir_tree.specs.Seen.{tree};

use crate::kind::Op;
use crate::names::Name;
use sqlite_items::{Boxed, Items};
use std::alloc::{AllocError, Global};

/// An expression.
#[derive(Drop)]
pub enum Expr {
    Number(i32),
    Truth(bool),
    /// `знач`
    Result,
    Named(Name),
    Element(Name, Items<Expr>),
    Call(Name, Items<Expr>),
    Plus(Boxed<Expr>),
    Minus(Boxed<Expr>),
    Not(Boxed<Expr>),
    Binary(Op, Boxed<Expr>, Boxed<Expr>),
}

pub type Exprs = Items<Expr>;

/// The bounds of a table in one of its directions.
#[derive(Drop)]
pub struct BoundExpr {
    pub low: Expr,
    pub high: Expr,
}

pub type BoundExprs = Items<BoundExpr>;

#[tactic(auto, using(crate::proofs::Views::views))]
impl Expr {
    /// Unary `+`.
    pub fn plus_of(alloc: Global, a: Expr) -> Result<Expr, AllocError>
        ensures { IfOk result (λ r. tree r ≡ t.Plus (tree a)) }
    {
        Ok(Expr::Plus(Boxed::new(alloc, a)?))
    }

    /// Unary `-`.
    pub fn minus_of(alloc: Global, a: Expr) -> Result<Expr, AllocError>
        ensures { IfOk result (λ r. tree r ≡ t.Minus (tree a)) }
    {
        Ok(Expr::Minus(Boxed::new(alloc, a)?))
    }

    /// `не`.
    pub fn not_of(alloc: Global, a: Expr) -> Result<Expr, AllocError>
        ensures { IfOk result (λ r. tree r ≡ t.Not (tree a)) }
    {
        Ok(Expr::Not(Boxed::new(alloc, a)?))
    }

    /// An operator with its two sides.
    pub fn binary_of(alloc: Global, op: Op, a: Expr, b: Expr) -> Result<Expr, AllocError>
        ensures { IfOk result (λ r. tree r ≡ t.Binary op (tree a) (tree b)) }
    {
        Ok(Expr::Binary(op, Boxed::new(alloc, a)?, Boxed::new(alloc, b)?))
    }

    #[cycle(copy)]
    pub fn copy(&self, alloc: Global) -> Result<Expr, AllocError>
        ensures { IfOk result (λ c. c ≡ self.now) }
    {
        match self {
            Expr::Number(n) => Ok(Expr::Number(*n)),
            Expr::Truth(b) => Ok(Expr::Truth(*b)),
            Expr::Result => Ok(Expr::Result),
            Expr::Named(x) => Ok(Expr::Named(x.copy(alloc)?)),
            Expr::Element(x, indexes) => {
                let x = x.copy(alloc)?;
                Ok(Expr::Element(x, copy_exprs(alloc, indexes.as_slice())?))
            }
            Expr::Call(f, arguments) => {
                let f = f.copy(alloc)?;
                Ok(Expr::Call(f, copy_exprs(alloc, arguments.as_slice())?))
            }
            Expr::Plus(a) => {
                let a = a.get().copy(alloc)?;
                Ok(Expr::Plus(Boxed::new(alloc, a)?))
            }
            Expr::Minus(a) => {
                let a = a.get().copy(alloc)?;
                Ok(Expr::Minus(Boxed::new(alloc, a)?))
            }
            Expr::Not(a) => {
                let a = a.get().copy(alloc)?;
                Ok(Expr::Not(Boxed::new(alloc, a)?))
            }
            Expr::Binary(op, a, b) => {
                let a = a.get().copy(alloc)?;
                let b = b.get().copy(alloc)?;
                Ok(Expr::Binary(*op, Boxed::new(alloc, a)?, Boxed::new(alloc, b)?))
            }
        }
    }
}

#[cycle(copy)]
pub fn copy_exprs(alloc: Global, all: &[Expr]) -> Result<Items<Expr>, AllocError>
    ensures { IfOk result (λ c. c ≡ all.now) }
{
    let mut out = Items::new(alloc);
    for e in all {
        out.push(e.copy(alloc)?)?;
    }
    Ok(out)
}

/// A copy, where there is an expression.
pub fn copy_some_expr(alloc: Global, e: &Option<Expr>) -> Result<Option<Expr>, AllocError>
    ensures { IfOk result (λ c. c ≡ e.now) }
{
    match e {
        Some(e) => Ok(Some(e.copy(alloc)?)),
        None => Ok(None),
    }
}

pub fn copy_bounds(alloc: Global, all: &[BoundExpr]) -> Result<BoundExprs, AllocError>
    ensures { IfOk result (λ c. c ≡ all.now) }
{
    let mut out = Items::new(alloc);
    for b in all {
        let low = b.low.copy(alloc)?;
        let high = b.high.copy(alloc)?;
        out.push(BoundExpr { low, high })?;
    }
    Ok(out)
}

/// A copy, where there are bounds.
pub fn copy_some_bounds(
    alloc: Global,
    bounds: &Option<BoundExprs>,
) -> Result<Option<BoundExprs>, AllocError>
    ensures { IfOk result (λ c. c ≡ bounds.now) }
{
    match bounds {
        Some(bounds) => Ok(Some(copy_bounds(alloc, bounds.as_slice())?)),
        None => Ok(None),
    }
}

//! Expressions, read from the left with one token of look-ahead. Only brackets are read by recursion.
ghost use Rattle.std.specs.Prelude.{◌≡◌, ◌⊎◌, ◌+◌, length, map, Err, IfOk, IfErr};
ghost use Rattle.std.specs.Option.{option_copied};
ghost use Rattle.kumir_tree.specs.Seen.{tree, trees};
ghost use Rattle.expr_forms.specs.Looks.{Gives};
ghost use Rattle.expr_forms.specs.Reading as spec;
ghost use Rattle.expr_forms.specs.Looks.{Joins};
ghost use Rattle.expr_forms.specs.declared.fault.PieceFault.TheVariants.{Memory};
ghost use Rattle.expr_forms.specs.PartReading as part;
ghost use Rattle.expr_forms.specs.Nests.{Nests};

use crate::cursor::Cursor;
use crate::fault::PieceFault;
use crate::pending::{Pending, Step, wrap};
use kumir_tree::{Expr, Exprs, Key, Name, Op, Sign, Token};
use sqlite_items::Items;
use std::alloc::Global;

/// Pairs of bounds of a table, and indexes of its elements.
pub const MOST_DIMENSIONS: usize = 2;

fn disjunctive(token: Option<&Token>) -> Option<Op>
    ensures { result ≡ spec.disjunctive (option_copied token.entry) }
{
    match token {
        Some(Token::Key(Key::Or)) => Some(Op::Or),
        _ => None,
    }
}

fn conjunctive(token: Option<&Token>) -> Option<Op>
    ensures { result ≡ spec.conjunctive (option_copied token.entry) }
{
    match token {
        Some(Token::Key(Key::And)) => Some(Op::And),
        _ => None,
    }
}

fn relational(token: Option<&Token>) -> Option<Op>
    ensures { result ≡ spec.relational (option_copied token.entry) }
{
    match token {
        Some(Token::Sign(Sign::Equal)) => Some(Op::Equal),
        Some(Token::Sign(Sign::NotEqual)) => Some(Op::NotEqual),
        Some(Token::Sign(Sign::Less)) => Some(Op::Less),
        Some(Token::Sign(Sign::Greater)) => Some(Op::Greater),
        Some(Token::Sign(Sign::LessOrEqual)) => Some(Op::LessOrEqual),
        Some(Token::Sign(Sign::GreaterOrEqual)) => Some(Op::GreaterOrEqual),
        _ => None,
    }
}

fn additive(token: Option<&Token>) -> Option<Op>
    ensures { result ≡ spec.additive (option_copied token.entry) }
{
    match token {
        Some(Token::Sign(Sign::Plus)) => Some(Op::Plus),
        Some(Token::Sign(Sign::Minus)) => Some(Op::Minus),
        _ => None,
    }
}

fn multiplicative(token: Option<&Token>) -> Option<Op>
    ensures { result ≡ spec.multiplicative (option_copied token.entry) }
{
    match token {
        Some(Token::Sign(Sign::Times)) => Some(Op::Times),
        _ => None,
    }
}

// No value: the right side is none.
fn no_right(left: Expr, fault: PieceFault) -> PieceFault
    ensures { result ≡ fault }
{
    drop(left);
    fault
}

// An operator with the side on its left, and with what was read of the one on its right.
fn joined(
    alloc: Global,
    op: Op,
    left: Expr,
    right: Result<Expr, PieceFault>,
) -> Result<Expr, PieceFault>
    ensures made { IfOk result (λ x. Joins op (tree left) (tree x) right) }
    ensures refused { IfErr result (λ fault. fault ≡ Memory ⊎ (right ≡ Err fault)) }
{
    match right {
        Ok(right) => Ok(Expr::binary_of(alloc, op, left, right)?),
        Err(fault) => Err(no_right(left, fault)),
    }
}

#[derive(Clone, Copy)]
pub struct Grammar<F> {
    alloc: Global,
    /// How deep brackets may still nest.
    depth: usize,
    expr: F,
}

impl<F: Fn(Global, &mut Cursor<'_>, usize) -> Result<Expr, PieceFault>> Grammar<F> {
    fn expr(&self, tokens: &mut Cursor<'_>) -> Result<Expr, PieceFault>
        requires { Nests self.now.depth (F.pre self.now.expr) (F.post self.now.expr) }
        ensures { Gives tree (spec.expr_in self.now.depth tokens.old) result tokens.new }
    {
        (self.expr)(self.alloc, tokens, self.depth)
    }

    // One or more, with commas between them.
    #[tactic(auto, unfolding(crate::specs::Reading::listed_from))]
    fn listing(&self, tokens: &mut Cursor<'_>) -> Result<Exprs, PieceFault>
        requires { Nests self.now.depth (F.pre self.now.expr) (F.post self.now.expr) }
        ensures { Gives (map tree) (spec.listing (spec.expr_in self.now.depth) tokens.old) result tokens.new }
    {
        let mut found = Items::new(self.alloc);
        for _turn in 0..tokens.len() {
            found.push(self.expr(tokens)?)?;
            if !tokens.eat(Sign::Comma) {
                return Ok(found);
            }
        }
        Err(PieceFault::NotUnderstood)
    }

    // Behind the opening bracket, with the closing one.
    #[tactic(auto, using(crate::proofs::Lists::listed_trees), unfolding(crate::specs::Reading::arguments, crate::specs::Reading::closed))]
    fn arguments(&self, tokens: &mut Cursor<'_>) -> Result<Exprs, PieceFault>
        requires { Nests self.now.depth (F.pre self.now.expr) (F.post self.now.expr) }
        ensures { Gives trees (spec.arguments (spec.expr_in self.now.depth) tokens.old) result tokens.new }
    {
        if tokens.eat(Sign::Close) {
            return Ok(Items::new(self.alloc));
        }
        let found = self.listing(tokens)?;
        if !tokens.eat(Sign::Close) {
            return Err(PieceFault::NotUnderstood);
        }
        Ok(found)
    }

    // Behind the opening square bracket, with the closing one.
    #[tactic(auto, using(crate::proofs::Lists::listed_trees, crate::proofs::Lists::mapped_length), unfolding(crate::specs::Reading::indexes, crate::specs::Reading::closed))]
    fn indexes(&self, tokens: &mut Cursor<'_>) -> Result<Exprs, PieceFault>
        requires { Nests self.now.depth (F.pre self.now.expr) (F.post self.now.expr) }
        ensures { Gives trees (spec.indexes (spec.expr_in self.now.depth) tokens.old) result tokens.new }
    {
        let found = self.listing(tokens)?;
        if !tokens.eat(Sign::CloseSquare) {
            return Err(PieceFault::NotUnderstood);
        }
        if found.len() > MOST_DIMENSIONS {
            return Err(PieceFault::NotUnderstood);
        }
        Ok(found)
    }

    #[tactic(auto, unfolding(crate::specs::Reading::bracketed, crate::specs::Reading::closed))]
    fn bracketed(&self, tokens: &mut Cursor<'_>) -> Result<Expr, PieceFault>
        requires { Nests self.now.depth (F.pre self.now.expr) (F.post self.now.expr) }
        ensures { Gives tree (spec.bracketed (spec.expr_in self.now.depth) tokens.old) result tokens.new }
    {
        let inner = self.expr(tokens)?;
        if !tokens.eat(Sign::Close) {
            return Err(PieceFault::NotUnderstood);
        }
        Ok(inner)
    }

    #[tactic(auto, using(kumir_tree::proofs::Views::views), unfolding(crate::specs::Reading::named))]
    fn named(&self, tokens: &mut Cursor<'_>, name: Name) -> Result<Expr, PieceFault>
        requires { Nests self.now.depth (F.pre self.now.expr) (F.post self.now.expr) }
        ensures { Gives tree (spec.named (spec.expr_in self.now.depth) name tokens.old) result tokens.new }
    {
        if tokens.eat(Sign::Open) {
            Ok(Expr::Call(name, self.arguments(tokens)?))
        } else if tokens.eat(Sign::OpenSquare) {
            Ok(Expr::Element(name, self.indexes(tokens)?))
        } else {
            Ok(Expr::Named(name))
        }
    }

    #[tactic(auto, using(kumir_tree::proofs::Views::views), unfolding(crate::specs::Reading::primary))]
    fn primary(&self, tokens: &mut Cursor<'_>) -> Result<Expr, PieceFault>
        requires { Nests self.now.depth (F.pre self.now.expr) (F.post self.now.expr) }
        ensures { Gives tree (spec.primary (spec.expr_in self.now.depth) tokens.old) result tokens.new }
    {
        let token = tokens.first();
        tokens.skip();
        match token {
            Some(Token::Number(n)) => Ok(Expr::Number(*n)),
            Some(Token::Named(name)) => self.named(tokens, name.copy(self.alloc)?),
            Some(Token::Sign(Sign::Open)) => self.bracketed(tokens),
            Some(Token::Key(Key::Yes)) => Ok(Expr::Truth(true)),
            Some(Token::Key(Key::No)) => Ok(Expr::Truth(false)),
            Some(Token::Key(Key::Result)) => Ok(Expr::Result),
            _ => Err(PieceFault::NotUnderstood),
        }
    }

    // A sign, a primary with a power behind it, or the last primary.
    #[tactic(auto, unfolding(crate::specs::Reading::part))]
    fn part(&self, tokens: &mut Cursor<'_>) -> Result<Step, PieceFault>
        requires { Nests self.now.depth (F.pre self.now.expr) (F.post self.now.expr) }
        ensures { Gives spec.part_of (spec.part (spec.expr_in self.now.depth) tokens.old) result tokens.new }
    {
        if tokens.eat(Sign::Minus) {
            return Ok(Step::Waits(Pending::Minus));
        }
        if tokens.eat(Sign::Plus) {
            return Ok(Step::Waits(Pending::Plus));
        }
        let found = self.primary(tokens)?;
        if tokens.eat(Sign::Power) {
            Ok(Step::Waits(Pending::Power(found)))
        } else {
            Ok(Step::Ends(found))
        }
    }

    #[tactic(auto, unfolding(crate::specs::Reading::signed, crate::specs::Reading::signed_in))]
    fn signed(&self, tokens: &mut Cursor<'_>) -> Result<Expr, PieceFault>
        requires { Nests self.now.depth (F.pre self.now.expr) (F.post self.now.expr) }
        ensures { Gives tree (spec.signed (spec.expr_in self.now.depth) tokens.old) result tokens.new }
    {
        let mut pending = Items::new(self.alloc);
        for _turn in 0..tokens.len() {
            match self.part(tokens)? {
                Step::Waits(next) => pending.push(next)?,
                Step::Ends(last) => return Ok(wrap(self.alloc, pending, last)?),
            }
        }
        Err(PieceFault::NotUnderstood)
    }

    #[tactic(auto, unfolding(crate::specs::Reading::chain, crate::specs::Reading::chain_from))]
    fn product(&self, tokens: &mut Cursor<'_>) -> Result<Expr, PieceFault>
        requires { Nests self.now.depth (F.pre self.now.expr) (F.post self.now.expr) }
        ensures { Gives tree (spec.product (spec.expr_in self.now.depth) tokens.old) result tokens.new }
    {
        let mut left = self.signed(tokens)?;
        for _turn in 0..tokens.len() {
            let Some(op) = multiplicative(tokens.first()) else {
                return Ok(left);
            };
            tokens.skip();
            left = joined(self.alloc, op, left, self.signed(tokens))?;
        }
        Ok(left)
    }

    #[tactic(auto, unfolding(crate::specs::Reading::chain, crate::specs::Reading::chain_from))]
    fn sum(&self, tokens: &mut Cursor<'_>) -> Result<Expr, PieceFault>
        requires { Nests self.now.depth (F.pre self.now.expr) (F.post self.now.expr) }
        ensures { Gives tree (spec.sum (spec.expr_in self.now.depth) tokens.old) result tokens.new }
    {
        let mut left = self.product(tokens)?;
        for _turn in 0..tokens.len() {
            let Some(op) = additive(tokens.first()) else {
                return Ok(left);
            };
            tokens.skip();
            left = joined(self.alloc, op, left, self.product(tokens))?;
        }
        Ok(left)
    }

    #[tactic(auto, unfolding(crate::specs::Reading::comparison))]
    fn comparison(&self, tokens: &mut Cursor<'_>) -> Result<Expr, PieceFault>
        requires { Nests self.now.depth (F.pre self.now.expr) (F.post self.now.expr) }
        ensures { Gives tree (spec.comparison (spec.expr_in self.now.depth) tokens.old) result tokens.new }
    {
        let left = self.sum(tokens)?;
        let Some(op) = relational(tokens.first()) else {
            return Ok(left);
        };
        tokens.skip();
        joined(self.alloc, op, left, self.sum(tokens))
    }

    // A `не`, or the comparison behind all of them.
    #[tactic(auto, unfolding(crate::specs::Reading::negation_part))]
    fn negation_part(&self, tokens: &mut Cursor<'_>) -> Result<Step, PieceFault>
        requires { Nests self.now.depth (F.pre self.now.expr) (F.post self.now.expr) }
        ensures { Gives spec.part_of (spec.negation_part (spec.expr_in self.now.depth) tokens.old) result tokens.new }
    {
        if tokens.eat_key(Key::Not) {
            return Ok(Step::Waits(Pending::Not));
        }
        Ok(Step::Ends(self.comparison(tokens)?))
    }

    #[tactic(auto, unfolding(crate::specs::Reading::negation, crate::specs::Reading::negation_in))]
    fn negation(&self, tokens: &mut Cursor<'_>) -> Result<Expr, PieceFault>
        requires { Nests self.now.depth (F.pre self.now.expr) (F.post self.now.expr) }
        ensures { Gives tree (spec.negation (spec.expr_in self.now.depth) tokens.old) result tokens.new }
    {
        let mut pending = Items::new(self.alloc);
        for _turn in 0..tokens.len() {
            match self.negation_part(tokens)? {
                Step::Waits(next) => pending.push(next)?,
                Step::Ends(last) => return Ok(wrap(self.alloc, pending, last)?),
            }
        }
        Err(PieceFault::NotUnderstood)
    }

    #[tactic(auto, unfolding(crate::specs::Reading::chain, crate::specs::Reading::chain_from))]
    fn conjunction(&self, tokens: &mut Cursor<'_>) -> Result<Expr, PieceFault>
        requires { Nests self.now.depth (F.pre self.now.expr) (F.post self.now.expr) }
        ensures { Gives tree (spec.conjunction (spec.expr_in self.now.depth) tokens.old) result tokens.new }
    {
        let mut left = self.negation(tokens)?;
        for _turn in 0..tokens.len() {
            let Some(op) = conjunctive(tokens.first()) else {
                return Ok(left);
            };
            tokens.skip();
            left = joined(self.alloc, op, left, self.negation(tokens))?;
        }
        Ok(left)
    }

    #[tactic(auto, unfolding(crate::specs::Reading::chain, crate::specs::Reading::chain_from))]
    fn disjunction(&self, tokens: &mut Cursor<'_>) -> Result<Expr, PieceFault>
        requires { Nests self.now.depth (F.pre self.now.expr) (F.post self.now.expr) }
        ensures { Gives tree (spec.disjunction (spec.expr_in self.now.depth) tokens.old) result tokens.new }
    {
        let mut left = self.conjunction(tokens)?;
        for _turn in 0..tokens.len() {
            let Some(op) = disjunctive(tokens.first()) else {
                return Ok(left);
            };
            tokens.skip();
            left = joined(self.alloc, op, left, self.conjunction(tokens))?;
        }
        Ok(left)
    }
}

#[tactic(auto, using(crate::proofs::Turns::deeper), unfolding(crate::specs::Reading::expr_in))]
fn expr(alloc: Global, tokens: &mut Cursor<'_>, depth: usize) -> Result<Expr, PieceFault>
    ensures { Gives tree (spec.expr_in depth tokens.old) result tokens.new }
{
    if depth == 0 {
        return Err(PieceFault::NotUnderstood);
    }
    Grammar {
        alloc,
        depth: depth - 1,
        expr,
    }
    .disjunction(tokens)
}

/// Reads an expression at the front of the tokens, and leaves what stands behind it.
#[tactic(auto, unfolding(crate::specs::Reading::expression))]
pub fn read_expression(alloc: Global, tokens: &mut Cursor<'_>) -> Result<Expr, PieceFault>
    ensures { Gives tree (spec.expression tokens.old) result tokens.new }
{
    expr(alloc, tokens, tokens.nesting())
}

/// Reads arguments behind their opening bracket, with the closing one.
#[tactic(auto, unfolding(crate::specs::PartReading::top_arguments))]
pub fn read_arguments(alloc: Global, tokens: &mut Cursor<'_>) -> Result<Exprs, PieceFault>
    ensures { Gives trees (part.top_arguments tokens.old) result tokens.new }
{
    Grammar {
        alloc,
        depth: tokens.nesting(),
        expr,
    }
    .arguments(tokens)
}

/// Reads indexes behind their opening square bracket, with the closing one.
#[tactic(auto, unfolding(crate::specs::PartReading::top_indexes))]
pub fn read_indexes(alloc: Global, tokens: &mut Cursor<'_>) -> Result<Exprs, PieceFault>
    ensures { Gives trees (part.top_indexes tokens.old) result tokens.new }
{
    Grammar {
        alloc,
        depth: tokens.nesting(),
        expr,
    }
    .indexes(tokens)
}

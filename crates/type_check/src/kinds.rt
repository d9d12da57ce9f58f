//! The kinds of expressions (docs/LANGUAGE.md, "Types").

ghost use Rattle.std.specs.Prelude.{◌≡◌, ◌&&◌, nat_eq, length, map, [], None};
ghost use Rattle.kumir_tree.specs.Tree as t;
ghost use Rattle.kumir_tree.specs.Seen.{tree, trees};
ghost use Rattle.kumir_tree.specs.Parts.{formal_of};
ghost use Rattle.kumir_tree.specs.Seen.{some_tree};
ghost use Rattle.type_rules.specs.Headers.{some_called};
ghost use Rattle.kumir_names.specs.Variables.{variable, is_table};
ghost use Rattle.type_check.specs.Kinds as k;
ghost use Rattle.type_check.specs.Scopes.{among, argument, call_fits_at};
ghost use Rattle.type_check.specs.Parts.{scalar_kind};

use crate::locals::Locals;
use kumir_names::Variable;
use kumir_tree::{Expr, Kind, Mode, Name, Op, Param};
use type_rules::{Callee, Headers};

/// What an expression stands among.
#[derive(Clone, Copy)]
pub struct Scope<'a> {
    pub headers: &'a Headers,
    /// The kind of the algorithm.
    pub gives: Option<Kind>,
    pub locals: &'a Locals,
}

/// Whether there is a kind and it is this one.
pub fn is_kind(kind: Kind, found: Option<Kind>) -> bool
    ensures { result ≡ k.is_kind kind found }
{
    match found {
        Some(found) => kind.is(found),
        None => false,
    }
}

/// Whether both are there and the same.
pub fn are_same(a: Option<Kind>, b: Option<Kind>) -> bool
    ensures { result ≡ k.are_same a b }
{
    match a {
        Some(a) => is_kind(a, b),
        None => false,
    }
}

/// The kind, where this holds.
fn kind_where(holds: bool, kind: Kind) -> Option<Kind>
    ensures { result ≡ k.kind_where holds kind }
{
    if holds { Some(kind) } else { None }
}

/// Whether both are there and of this kind.
fn are_both(kind: Kind, a: Option<Kind>, b: Option<Kind>) -> bool
    ensures { result ≡ k.are_both kind a b }
{
    let right = is_kind(kind, b);
    is_kind(kind, a) && right
}

fn where_gives(holds: bool, kind: Option<Kind>) -> Option<Kind>
    ensures { result ≡ k.where_gives holds kind }
{
    if holds { kind } else { None }
}

/// Whether an operator takes operands of these kinds.
fn operands_fit(op: Op, a: Option<Kind>, b: Option<Kind>) -> bool
    ensures { result ≡ k.operands_fit op a b }
{
    match op {
        Op::Or | Op::And => are_both(Kind::Truth, a, b),
        Op::Equal | Op::NotEqual => are_same(a, b),
        Op::Less | Op::Greater | Op::LessOrEqual | Op::GreaterOrEqual => {
            are_both(Kind::Whole, a, b)
        }
        Op::Plus | Op::Minus | Op::Times | Op::Power => are_both(Kind::Whole, a, b),
    }
}

/// The kind of what an operator gives.
pub fn operator_kind(op: Op) -> Kind
    ensures { result ≡ k.operator_kind op }
{
    match op {
        Op::Or | Op::And | Op::Equal | Op::NotEqual => Kind::Truth,
        Op::Less | Op::Greater | Op::LessOrEqual | Op::GreaterOrEqual => Kind::Truth,
        Op::Plus | Op::Minus | Op::Times | Op::Power => Kind::Whole,
    }
}

/// The kind of an operator over operands of these kinds.
fn binary_kind(op: Op, a: Option<Kind>, b: Option<Kind>) -> Option<Kind>
    ensures { result ≡ k.binary_kind op a b }
{
    kind_where(operands_fit(op, a, b), operator_kind(op))
}

fn is_table(variable: Variable) -> bool
    ensures { result ≡ is_table variable }
{
    0 < variable.bounds
}

/// The kind of a variable that is no table.
pub fn scalar_kind_of(variable: Option<Variable>) -> Option<Kind>
    ensures { result ≡ scalar_kind variable }
{
    match variable {
        Some(variable) => kind_where(!is_table(variable), variable.kind),
        None => None,
    }
}

#[tactic(auto, using(kumir_tree::proofs::Views::views))]
fn is_place(scope: &Scope<'_>, e: &Expr) -> bool
    ensures { result ≡ k.is_place (among scope.now).names (tree e.now) }
{
    match e {
        Expr::Number(_) => false,
        Expr::Truth(_) => false,
        Expr::Result => false,
        Expr::Named(x) => scope.locals.get(x).is_some(),
        Expr::Element(_, _) => true,
        Expr::Call(_, _) => false,
        Expr::Plus(_) => false,
        Expr::Minus(_) => false,
        Expr::Not(_) => false,
        Expr::Binary(_, _, _) => false,
    }
}

fn as_table(variable: Option<Variable>) -> Option<Variable>
    ensures { result ≡ k.as_table variable }
{
    match variable {
        Some(variable) => if is_table(variable) {
            Some(variable)
        } else {
            None
        },
        None => None,
    }
}

/// The local table that the expression is as a whole.
#[tactic(auto, using(kumir_tree::proofs::Views::views))]
fn whole_table(scope: &Scope<'_>, e: &Expr) -> Option<Variable>
    ensures { result ≡ k.whole_table (among scope.now).names (tree e.now) }
{
    match e {
        Expr::Number(_) => None,
        Expr::Truth(_) => None,
        Expr::Result => None,
        Expr::Named(x) => as_table(scope.locals.get(x)),
        Expr::Element(_, _) => None,
        Expr::Call(_, _) => None,
        Expr::Plus(_) => None,
        Expr::Minus(_) => None,
        Expr::Not(_) => None,
        Expr::Binary(_, _, _) => None,
    }
}

fn table_fits(kind: Kind, bounds: usize, found: Option<Variable>) -> bool
    ensures { result ≡ k.table_fits kind bounds found }
{
    match found {
        Some(found) => kind.is(found.kind) && found.bounds == bounds,
        None => false,
    }
}

fn value_fits(mode: Mode, kind: Kind, value: Option<Kind>, place: bool) -> bool
    ensures { result ≡ k.value_fits mode kind (record { value = value; place = place; table = None }) }
{
    match mode {
        Mode::Arg => is_kind(kind, value),
        Mode::Res => place && is_kind(kind, value),
        Mode::ArgRes => place && is_kind(kind, value),
    }
}

/// The kind of an expression; none where a rule is broken in it.
#[cycle(kinds)]
#[tactic(auto, using(kumir_tree::proofs::Views::views))]
pub fn kind_of(scope: &Scope<'_>, e: &Expr) -> Option<Kind>
    ensures { result ≡ k.kind_of (among scope.now) (tree e.now) }
{
    match e {
        Expr::Number(_) => Some(Kind::Whole),
        Expr::Truth(_) => Some(Kind::Truth),
        Expr::Result => scope.gives,
        Expr::Named(x) => name_kind(scope, x),
        Expr::Element(x, indexes) => element_kind(scope, x, indexes.as_slice()),
        Expr::Call(f, arguments) => call_kind(scope, f, arguments.as_slice()),
        Expr::Plus(a) => kind_where(is_kind(Kind::Whole, kind_of(scope, a.get())), Kind::Whole),
        Expr::Minus(a) => kind_where(is_kind(Kind::Whole, kind_of(scope, a.get())), Kind::Whole),
        Expr::Not(a) => kind_where(is_kind(Kind::Truth, kind_of(scope, a.get())), Kind::Truth),
        Expr::Binary(op, a, b) => {
            let left = kind_of(scope, a.get());
            binary_kind(*op, left, kind_of(scope, b.get()))
        }
    }
}

#[tactic(auto, using(crate::proofs::Arguments::end_fits))]
fn takes_none(params: &[Param]) -> bool
    ensures { result ≡ k.arguments_fit (map formal_of params.now) [] }
{
    params.get(0).is_none()
}

/// A call without arguments.
fn bare_kind(found: Option<Callee<'_>>) -> Option<Kind>
    ensures { result ≡ k.answer_kind (some_called found.entry) [] }
{
    match found {
        Some(Callee::Algorithm(header)) => {
            where_gives(takes_none(header.params.as_slice()), header.gives)
        },
        Some(Callee::BuiltIn(built_in)) => kind_where(built_in.arity() == 0, Kind::Whole),
        Some(Callee::Robot(command)) => kind_where(command.is_test(), Kind::Truth),
        Some(Callee::Pen(_)) => None,
        None => None,
    }
}

/// A name alone: a variable that is no table, or a call without arguments where the name is not local.
fn name_kind(scope: &Scope<'_>, x: &Name) -> Option<Kind>
    ensures { result ≡ k.kind_of (among scope.now) (t.Named x.now) }
{
    match scope.locals.get(x) {
        Some(variable) => kind_where(!is_table(variable), variable.kind),
        None => bare_kind(scope.headers.find(x)),
    }
}

/// An element of a table that has as many bounds.
#[cycle(kinds)]
pub fn element_kind(scope: &Scope<'_>, x: &Name, indexes: &[Expr]) -> Option<Kind>
    ensures { result ≡ k.element_kind (variable (among scope.now).names x.now) (k.arguments (among scope.now) (trees indexes.now)) }
{
    match scope.locals.get(x) {
        Some(variable) => {
            let right = are_numbers(scope, variable.bounds, indexes);
            kind_where(is_table(variable) && right, variable.kind)
        }
        None => None,
    }
}

/// A call, where the name is not local.
#[cycle(kinds)]
fn call_kind(scope: &Scope<'_>, f: &Name, arguments: &[Expr]) -> Option<Kind>
    ensures { result ≡ k.call_kind (variable (among scope.now).names f.now) ((among scope.now).find f.now) (k.arguments (among scope.now) (trees arguments.now)) }
{
    match scope.locals.get(f) {
        Some(_) => None,
        None => answer_kind(scope, scope.headers.find(f), arguments),
    }
}

#[cycle(kinds)]
fn answer_kind(scope: &Scope<'_>, found: Option<Callee<'_>>, arguments: &[Expr]) -> Option<Kind>
    ensures { result ≡ k.answer_kind (some_called found.entry) (k.arguments (among scope.now) (trees arguments.now)) }
{
    match found {
        Some(Callee::Algorithm(header)) => {
            let fit = arguments_fit(scope, header.params.as_slice(), arguments);
            where_gives(fit, header.gives)
        }
        Some(Callee::BuiltIn(built_in)) => {
            kind_where(are_numbers(scope, built_in.arity(), arguments), Kind::Whole)
        }
        Some(Callee::Robot(command)) => {
            let none = are_numbers(scope, 0, arguments);
            kind_where(command.is_test() && none, Kind::Truth)
        }
        Some(Callee::Pen(_)) => None,
        None => None,
    }
}

/// So many numbers.
#[cycle(kinds)]
#[tactic(auto, using(crate::proofs::Arguments::arguments_length))]
fn are_numbers(scope: &Scope<'_>, count: usize, arguments: &[Expr]) -> bool
    ensures { result ≡ k.are_numbers count (k.arguments (among scope.now) (trees arguments.now)) }
{
    let whole = all_whole(scope, arguments);
    arguments.len() == count && whole
}

#[cycle(kinds)]
fn all_whole(scope: &Scope<'_>, arguments: &[Expr]) -> bool
    ensures { result ≡ k.all_whole (k.arguments (among scope.now) (trees arguments.now)) }
{
    let mut whole = true;
    for e in arguments {
        let right = is_kind(Kind::Whole, kind_of(scope, e));
        whole = whole && right;
    }
    whole
}

/// Whether the parameter takes the argument.
#[cycle(kinds)]
fn argument_fits(scope: &Scope<'_>, param: &Param, e: &Expr) -> bool
    ensures { result ≡ k.argument_fits (formal_of param.now) (argument (among scope.now) (tree e.now)) }
{
    match &param.bounds {
        Some(bounds) => table_fits(param.kind, bounds.len(), whole_table(scope, e)),
        None => {
            let value = kind_of(scope, e);
            value_fits(param.mode, param.kind, value, is_place(scope, e))
        }
    }
}

/// Whether there are as many arguments as parameters and each parameter takes its argument.
#[cycle(kinds)]
#[tactic(auto, using(crate::proofs::Arguments::end_fits))]
fn arguments_fit(scope: &Scope<'_>, params: &[Param], arguments: &[Expr]) -> bool
    ensures { result ≡ k.arguments_fit (map formal_of params.now) (k.arguments (among scope.now) (trees arguments.now)) }
{
    let mut fit = true;
    let mut at: usize = 0;
    for e in arguments {
        let Some(param) = params.get(at) else {
            return false;
        };
        let right = argument_fits(scope, param, e);
        fit = fit && right;
        at += 1;
    }
    fit && params.get(at).is_none()
}

/// Whether the call fits as a piece of its own, where the name is not local.
pub fn call_fits(scope: &Scope<'_>, f: &Name, arguments: &[Expr]) -> bool
    ensures { result ≡ call_fits_at (among scope.now) f.now (trees arguments.now) }
{
    match scope.locals.get(f) {
        Some(_) => false,
        None => command_fits(scope, scope.headers.find(f), arguments),
    }
}

fn command_fits(scope: &Scope<'_>, found: Option<Callee<'_>>, arguments: &[Expr]) -> bool
    ensures { result ≡ k.command_fits (some_called found.entry) (k.arguments (among scope.now) (trees arguments.now)) }
{
    match found {
        Some(Callee::Algorithm(header)) => {
            let fit = arguments_fit(scope, header.params.as_slice(), arguments);
            header.gives.is_none() && fit
        }
        Some(Callee::BuiltIn(_)) => false,
        Some(Callee::Robot(command)) => {
            let none = are_numbers(scope, 0, arguments);
            !command.is_test() && none
        }
        Some(Callee::Pen(shape)) => are_numbers(scope, shape.arity(), arguments),
        None => false,
    }
}

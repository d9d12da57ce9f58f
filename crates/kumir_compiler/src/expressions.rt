//! The code of expressions.
ghost use Rattle.std.specs.Prelude.{◌≡◌, [], ◌∷◌, ◌++◌, length, map, IfOk, OnOk};
ghost use Rattle.kumir_tree.specs.Tree as t;
ghost use Rattle.kumir_tree.specs.Seen.{tree, trees};
ghost use Rattle.kumir_tree.specs.Parts.{formal_of};
ghost use Rattle.kumir_names.specs.Variables.{variable};
ghost use Rattle.kumir_compiler.specs.Sites.{on};
ghost use Rattle.kumir_compiler.specs.ArgumentCode.{argument_code, read_code};
ghost use Rattle.kumir_compiler.specs.ExpressionCode.{arguments_code, named_code, place_code, tree_code, trees_code};
ghost use Rattle.kumir_compiler.specs.PendingCode.{code_of};
ghost use Rattle.kumir_compiler.specs.SitesSeen.{site_of};

use crate::algorithms::Target;
use crate::calls::{put_ask, put_built_in, put_call, put_named_call, put_probe, put_read};
use crate::kept::{all_kept, kept_by};
use crate::operators::{form_kind_of, put_behind, put_between};
use crate::pending::PendingLines;
use crate::put::{narrow, put};
use crate::site::{Site, answer_slot, slot_of, target_of, variable_of};
use km_base::Memory;
use kumir_tree::{Expr, Mode, Name, Param};
use kumir_values::Value;
use stack_code::{CommandShape, Instruction};

/// The code of an expression, in front; so many hidden slots are in use.
#[cycle(emit)]
#[tactic(auto, using(kumir_tree::proofs::Views::views, crate::proofs::CodeInFront::joins))]
pub fn emit_tree(
    site: &Site<'_, '_>,
    hidden: usize,
    e: &Expr,
    out: &mut PendingLines,
) -> Result<(), Memory>
    ensures { OnOk result (code_of out.new
        ≡ tree_code (tree e.now) (site_of site.now) hidden ++ code_of out.old) }
{
    match e {
        Expr::Number(n) => put(site, out, Instruction::Push(Value::Whole(*n))),
        Expr::Truth(b) => put(site, out, Instruction::Push(Value::Truth(*b))),
        Expr::Result => {
            let slot = answer_slot(site)?;
            put(site, out, Instruction::Load(slot))
        }
        Expr::Named(x) => emit_name(site, x, out),
        Expr::Element(x, indexes) => emit_element(site, hidden, x, indexes.as_slice(), out),
        Expr::Call(f, arguments) => emit_call(site, hidden, f, arguments.as_slice(), out),
        Expr::Plus(a) => emit_tree(site, hidden, a.get(), out),
        Expr::Minus(a) => emit_one(site, hidden, Instruction::Neg, a.get(), out),
        Expr::Not(a) => emit_one(site, hidden, Instruction::Not, a.get(), out),
        Expr::Binary(op, a, b) => {
            put_behind(site, *op, form_kind_of(site, a.get()), out)?;
            let size = emit_sized(site, hidden, b.get(), out)?;
            put_between(site, *op, size, out)?;
            emit_tree(site, hidden, a.get(), out)
        }
    }
}

/// A name: a local one, or a call without arguments.
fn emit_name(site: &Site<'_, '_>, x: &Name, out: &mut PendingLines) -> Result<(), Memory>
    ensures { OnOk result (code_of out.new
        ≡ named_code (variable (site_of site.now).locals x.now) x.now (site_of site.now)
        ++ code_of out.old) }
{
    match variable_of(site, x) {
        Some(_) => {
            let slot = slot_of(site, x)?;
            put(site, out, Instruction::Load(slot))
        }
        None => put_named_call(site, x, out),
    }
}

/// An expression and then an instruction.
#[cycle(emit)]
#[tactic(auto, using(crate::proofs::CodeInFront::joins))]
fn emit_one(
    site: &Site<'_, '_>,
    hidden: usize,
    what: Instruction,
    a: &Expr,
    out: &mut PendingLines,
) -> Result<(), Memory>
    ensures { OnOk result (code_of out.new
        ≡ (tree_code (tree a.now) (site_of site.now) hidden ++ (on (site_of site.now) what ∷ []))
        ++ code_of out.old) }
{
    put(site, out, what)?;
    emit_tree(site, hidden, a, out)
}

/// An expression, and how many lines it has.
#[cycle(emit)]
#[tactic(auto, using(crate::proofs::CodeInFront::joins))]
fn emit_sized(
    site: &Site<'_, '_>,
    hidden: usize,
    e: &Expr,
    out: &mut PendingLines,
) -> Result<usize, Memory>
    ensures code { OnOk result (code_of out.new
        ≡ tree_code (tree e.now) (site_of site.now) hidden ++ code_of out.old) }
    ensures size { IfOk result (λ size. size
        ≡ length (tree_code (tree e.now) (site_of site.now) hidden)) }
{
    let before = out.count();
    emit_tree(site, hidden, e, out)?;
    Ok(out.count() - before)
}

/// An element of a table.
#[cycle(emit)]
#[tactic(auto, using(kumir_tree::proofs::Views::views, crate::proofs::CodeInFront::joins))]
fn emit_element(
    site: &Site<'_, '_>,
    hidden: usize,
    x: &Name,
    indexes: &[Expr],
    out: &mut PendingLines,
) -> Result<(), Memory>
    ensures { OnOk result (code_of out.new
        ≡ tree_code (t.Element x.now (trees indexes.now)) (site_of site.now) hidden ++ code_of out.old) }
{
    let slot = slot_of(site, x)?;
    let count = narrow(indexes.len())?;
    put(site, out, Instruction::Elem(slot, count))?;
    emit_trees(site, hidden, indexes, out)
}

/// Expressions, one behind another.
#[cycle(emit)]
#[tactic(auto, using(crate::proofs::CodeInFront::joins))]
pub fn emit_trees(
    site: &Site<'_, '_>,
    hidden: usize,
    all: &[Expr],
    out: &mut PendingLines,
) -> Result<(), Memory>
    ensures { OnOk result (code_of out.new
        ≡ trees_code (trees all.now) (site_of site.now) hidden ++ code_of out.old) }
{
    let mut at = all.len();
    while at > 0 {
        at -= 1;
        emit_tree(site, hidden, &all[at], out)?;
    }
    Ok(())
}

/// A call with parentheses that gives a value.
#[cycle(emit)]
#[tactic(auto, using(kumir_tree::proofs::Views::views, crate::proofs::CallsInFront::calls))]
fn emit_call(
    site: &Site<'_, '_>,
    hidden: usize,
    f: &Name,
    all: &[Expr],
    out: &mut PendingLines,
) -> Result<(), Memory>
    ensures { OnOk result (code_of out.new
        ≡ tree_code (t.Call f.now (trees all.now)) (site_of site.now) hidden ++ code_of out.old) }
{
    match target_of(site, f) {
        Some(Target::Unit(number, params)) => {
            put_call(site, hidden, number, params.as_slice(), all, out)?;
            emit_arguments(site, hidden, params.as_slice(), all, out)
        }
        Some(Target::BuiltIn(built_in)) => {
            put_built_in(site, built_in, out)?;
            emit_trees(site, hidden, all, out)
        }
        Some(Target::Robot(command)) => put_ask(site, CommandShape::Robot(command), out),
        Some(Target::Pen(_)) => Ok(()),
        None => Ok(()),
    }
}

/// Arguments, one behind another.
#[cycle(emit)]
pub fn emit_arguments(
    site: &Site<'_, '_>,
    hidden: usize,
    params: &[Param],
    all: &[Expr],
    out: &mut PendingLines,
) -> Result<(), Memory>
    ensures { OnOk result (code_of out.new
        ≡ arguments_code (trees all.now) (map formal_of params.now) (site_of site.now) hidden
        ++ code_of out.old) }
{
    let mut kept = all_kept(hidden, params, all)?;
    let mut at = params.len().min(all.len());
    while at > 0 {
        at -= 1;
        let param = &params[at];
        let e = &all[at];
        kept -= kept_by(param, e);
        emit_argument(site, kept, param, e, out)?;
    }
    Ok(())
}

/// An argument: its value, its place, or both.
#[cycle(emit)]
#[tactic(auto, using(kumir_tree::proofs::Views::views, crate::proofs::CodeInFront::joins))]
fn emit_argument(
    site: &Site<'_, '_>,
    hidden: usize,
    param: &Param,
    e: &Expr,
    out: &mut PendingLines,
) -> Result<(), Memory>
    ensures { OnOk result (code_of out.new
        ≡ argument_code (formal_of param.now).bounds (formal_of param.now).mode
        (tree_code (tree e.now) (site_of site.now) hidden)
        (place_code (tree e.now) (site_of site.now) hidden)
        (read_code (tree e.now) (site_of site.now) hidden) ++ code_of out.old) }
{
    match &param.bounds {
        Some(_) => Ok(()),
        None => match param.mode {
            Mode::Arg => emit_tree(site, hidden, e, out),
            Mode::Res => emit_place(site, hidden, e, out),
            Mode::ArgRes => {
                put_read(site, hidden, e, out)?;
                emit_place(site, hidden, e, out)
            }
        },
    }
}

/// The indexes of an element, checked and kept.
#[cycle(emit)]
#[tactic(auto, using(kumir_tree::proofs::Views::views, crate::proofs::CodeInFront::joins))]
fn emit_place(
    site: &Site<'_, '_>,
    hidden: usize,
    e: &Expr,
    out: &mut PendingLines,
) -> Result<(), Memory>
    ensures { OnOk result (code_of out.new
        ≡ place_code (tree e.now) (site_of site.now) hidden ++ code_of out.old) }
{
    match e {
        Expr::Number(_) => Ok(()),
        Expr::Truth(_) => Ok(()),
        Expr::Result => Ok(()),
        Expr::Named(_) => Ok(()),
        Expr::Element(x, indexes) => {
            put_probe(site, hidden, x, indexes.len(), out)?;
            emit_trees(site, hidden, indexes.as_slice(), out)
        }
        Expr::Call(_, _) => Ok(()),
        Expr::Plus(_) => Ok(()),
        Expr::Minus(_) => Ok(()),
        Expr::Not(_) => Ok(()),
        Expr::Binary(_, _, _) => Ok(()),
    }
}

//! The names that a piece uses, in the order of the text.

ghost use Rattle.std.specs.Prelude.{◌≡◌, ◌++◌, ◌∷◌, [], map, IfOk, OnOk};
ghost use Rattle.kumir_tree.specs.Seen.{tree, trees, some_tree};
ghost use Rattle.kumir_tree.specs.Parts.{limits_of, some_limits, formal_of, table_of, place_of, places_of, all_shown, shown_of};
ghost use Rattle.type_check.specs.Parts.{names_in, all_names_in, limits_names, some_limits_names, formals_names, tables_names, place_names, places_names, shown_names, all_shown_names, some_names_in, used_by};
ghost use Rattle.type_check.specs.Seen.{part_of};

use crate::parts::Part;
use km_base::Memory;
use kumir_tree::{
    BoundExpr, BoundExprs, Declared, Expr, Item, Name, Names, Param, TableName, Target,
};
use sqlite_items::Items;
use std::alloc::Global;

fn add_name(alloc: Global, out: &mut Names, x: &Name) -> Result<(), Memory>
    ensures { OnOk result (out.new ≡ out.old ++ x.now ∷ []) }
{
    out.push(x.copy(alloc)?)?;
    Ok(())
}

#[cycle(names)]
#[tactic(auto, using(kumir_tree::proofs::Views::views, crate::proofs::Added::both_added, crate::proofs::Added::one_added, crate::proofs::Added::nothing_added))]
fn add_names(alloc: Global, out: &mut Names, e: &Expr) -> Result<(), Memory>
    ensures { OnOk result (out.new ≡ out.old ++ names_in (tree e.now)) }
{
    match e {
        Expr::Number(_) => {}
        Expr::Truth(_) => {}
        Expr::Result => {}
        Expr::Named(x) => {
            add_name(alloc, out, x)?;
        }
        Expr::Element(x, indexes) => {
            add_name(alloc, out, x)?;
            add_all_names(alloc, out, indexes.as_slice())?;
        }
        Expr::Call(f, arguments) => {
            add_name(alloc, out, f)?;
            add_all_names(alloc, out, arguments.as_slice())?;
        }
        Expr::Plus(a) => {
            add_names(alloc, out, a.get())?;
        }
        Expr::Minus(a) => {
            add_names(alloc, out, a.get())?;
        }
        Expr::Not(a) => {
            add_names(alloc, out, a.get())?;
        }
        Expr::Binary(_, a, b) => {
            add_names(alloc, out, a.get())?;
            add_names(alloc, out, b.get())?;
        }
    }
    Ok(())
}

#[cycle(names)]
fn add_all_names(alloc: Global, out: &mut Names, all: &[Expr]) -> Result<(), Memory>
    ensures { OnOk result (out.new ≡ out.old ++ all_names_in (trees all.now)) }
{
    for e in all {
        add_names(alloc, out, e)?;
    }
    Ok(())
}

fn add_some(alloc: Global, out: &mut Names, e: &Option<Expr>) -> Result<(), Memory>
    ensures { OnOk result (out.new ≡ out.old ++ some_names_in (some_tree e.now)) }
{
    if let Some(e) = e {
        add_names(alloc, out, e)?;
    }
    Ok(())
}

fn add_bounds(alloc: Global, out: &mut Names, bounds: &[BoundExpr]) -> Result<(), Memory>
    ensures { OnOk result (out.new ≡ out.old ++ limits_names (limits_of bounds.now)) }
{
    for b in bounds {
        add_names(alloc, out, &b.low)?;
        add_names(alloc, out, &b.high)?;
    }
    Ok(())
}

fn add_some_bounds(
    alloc: Global,
    out: &mut Names,
    bounds: &Option<BoundExprs>,
) -> Result<(), Memory>
    ensures { OnOk result (out.new ≡ out.old ++ some_limits_names (some_limits bounds.now)) }
{
    if let Some(bounds) = bounds {
        add_bounds(alloc, out, bounds.as_slice())?;
    }
    Ok(())
}

fn add_params(alloc: Global, out: &mut Names, params: &[Param]) -> Result<(), Memory>
    ensures { OnOk result (out.new ≡ out.old ++ formals_names (map formal_of params.now)) }
{
    for param in params {
        add_some_bounds(alloc, out, &param.bounds)?;
    }
    Ok(())
}

fn add_tables(alloc: Global, out: &mut Names, tables: &[TableName]) -> Result<(), Memory>
    ensures { OnOk result (out.new ≡ out.old ++ tables_names (map table_of tables.now)) }
{
    for table in tables {
        add_bounds(alloc, out, table.bounds.as_slice())?;
    }
    Ok(())
}

#[tactic(auto, using(crate::proofs::Added::one_added))]
fn add_target(alloc: Global, out: &mut Names, target: &Target) -> Result<(), Memory>
    ensures { OnOk result (out.new ≡ out.old ++ place_names (place_of target.now)) }
{
    match target {
        Target::Result => {}
        Target::Scalar(x) => {
            add_name(alloc, out, x)?;
        }
        Target::Element(x, indexes) => {
            add_name(alloc, out, x)?;
            add_all_names(alloc, out, indexes.as_slice())?;
        }
    }
    Ok(())
}

fn add_targets(alloc: Global, out: &mut Names, targets: &[Target]) -> Result<(), Memory>
    ensures { OnOk result (out.new ≡ out.old ++ places_names (places_of targets.now)) }
{
    for target in targets {
        add_target(alloc, out, target)?;
    }
    Ok(())
}

fn add_item(alloc: Global, out: &mut Names, item: &Item) -> Result<(), Memory>
    ensures { OnOk result (out.new ≡ out.old ++ shown_names (shown_of item.now)) }
{
    match item {
        Item::Value(e) => {
            add_names(alloc, out, e)?;
        }
        Item::Literal(_) => {}
        Item::NewLine => {}
    }
    Ok(())
}

fn add_items(alloc: Global, out: &mut Names, items: &[Item]) -> Result<(), Memory>
    ensures { OnOk result (out.new ≡ out.old ++ all_shown_names (all_shown items.now)) }
{
    for item in items {
        add_item(alloc, out, item)?;
    }
    Ok(())
}

/// The names in the bounds of the parameters.
pub fn names_of_params(alloc: Global, params: &[Param]) -> Result<Names, Memory>
    ensures { IfOk result (λ names. names ≡ formals_names (map formal_of params.now)) }
{
    let mut out = Items::new(alloc);
    add_params(alloc, &mut out, params)?;
    Ok(out)
}

/// Adds the names of a loop that counts.
#[tactic(auto, using(crate::proofs::Added::four_added))]
fn add_counting(
    alloc: Global,
    out: &mut Names,
    x: &Name,
    from: &Expr,
    to: &Expr,
    step: &Option<Expr>,
) -> Result<(), Memory>
    ensures { OnOk result (out.new ≡ out.old ++ (x.now ∷ (names_in (tree from.now) ++ (names_in (tree to.now) ++ some_names_in (some_tree step.now))))) }
{
    add_name(alloc, out, x)?;
    add_names(alloc, out, from)?;
    add_names(alloc, out, to)?;
    add_some(alloc, out, step)?;
    Ok(())
}

#[tactic(auto, using(crate::proofs::Added::both_added, crate::proofs::Added::one_added))]
fn add_used(alloc: Global, out: &mut Names, part: Part<'_>) -> Result<(), Memory>
    ensures { OnOk result (out.new ≡ out.old ++ used_by (part_of part.entry)) }
{
    match part {
        Part::Condition(e) => {
            add_names(alloc, out, e)?;
        }
        Part::Repeating(e) => {
            add_names(alloc, out, e)?;
        }
        Part::Counting(x, from, to, step) => {
            add_counting(alloc, out, x, from, to, step)?;
        }
        Part::Declaring(Declared::Scalars(_, _)) => {}
        Part::Declaring(Declared::Tables(_, tables)) => {
            add_tables(alloc, out, tables.as_slice())?;
        }
        Part::Assigning(target, e) => {
            add_target(alloc, out, target)?;
            add_names(alloc, out, e)?;
        }
        Part::Calling(f, arguments) => {
            add_name(alloc, out, f)?;
            add_all_names(alloc, out, arguments)?;
        }
        Part::Reading(targets) => {
            add_targets(alloc, out, targets)?;
        }
        Part::Printing(items) => {
            add_items(alloc, out, items)?;
        }
    }
    Ok(())
}

/// The names that a piece uses.
pub fn names_of_part(alloc: Global, part: Part<'_>) -> Result<Names, Memory>
    ensures { IfOk result (λ names. names ≡ used_by (part_of part.entry)) }
{
    let mut out = Items::new(alloc);
    add_used(alloc, &mut out, part)?;
    Ok(out)
}

//! Which pieces fit (docs/LANGUAGE.md, "Types").

ghost use Rattle.std.specs.Prelude.{◌≡◌, map};
ghost use Rattle.kumir_tree.specs.Seen.{tree, trees, some_tree};
ghost use Rattle.kumir_tree.specs.Parts.{limits_of, some_limits, formal_of, table_of, place_of, places_of, all_shown, shown_of, declares_of};
ghost use Rattle.type_check.specs.Kinds as k;
ghost use Rattle.type_check.specs.Parts as p;
ghost use Rattle.type_check.specs.Scopes.{among};
ghost use Rattle.type_check.specs.Seen.{part_of};

use crate::kinds::{Scope, are_same, call_fits, element_kind, is_kind, kind_of, scalar_kind_of};
use crate::parts::Part;
use kumir_tree::{
    BoundExpr, BoundExprs, Declared, Expr, Item, Kind, Name, Param, TableName, Target,
};

fn is_whole(scope: &Scope<'_>, e: &Expr) -> bool
    ensures { result ≡ k.is_kind Kind.Whole (k.kind_of (among scope.now) (tree e.now)) }
{
    is_kind(Kind::Whole, kind_of(scope, e))
}

fn some_whole(scope: &Scope<'_>, e: &Option<Expr>) -> bool
    ensures { result ≡ p.some_whole (among scope.now) (some_tree e.now) }
{
    match e {
        Some(e) => is_whole(scope, e),
        None => true,
    }
}

fn bounds_fit(scope: &Scope<'_>, bounds: &[BoundExpr]) -> bool
    ensures { result ≡ p.bounds_fit (among scope.now) (limits_of bounds.now) }
{
    let mut fit = true;
    for b in bounds {
        let low = is_whole(scope, &b.low);
        let high = is_whole(scope, &b.high);
        fit = fit && low && high;
    }
    fit
}

fn some_bounds_fit(scope: &Scope<'_>, bounds: &Option<BoundExprs>) -> bool
    ensures { result ≡ p.some_bounds_fit (among scope.now) (some_limits bounds.now) }
{
    match bounds {
        Some(bounds) => bounds_fit(scope, bounds.as_slice()),
        None => true,
    }
}

/// Whether the bounds of the parameters are numbers.
pub fn params_fit(scope: &Scope<'_>, params: &[Param]) -> bool
    ensures { result ≡ p.formals_fit (among scope.now) (map formal_of params.now) }
{
    let mut fit = true;
    for param in params {
        let right = some_bounds_fit(scope, &param.bounds);
        fit = fit && right;
    }
    fit
}

fn tables_fit(scope: &Scope<'_>, tables: &[TableName]) -> bool
    ensures { result ≡ p.tables_fit (among scope.now) (map table_of tables.now) }
{
    let mut fit = true;
    for table in tables {
        let right = bounds_fit(scope, table.bounds.as_slice());
        fit = fit && right;
    }
    fit
}

fn declared_fits(scope: &Scope<'_>, declared: &Declared) -> bool
    ensures { result ≡ p.declares_fit (among scope.now) (declares_of declared.now) }
{
    match declared {
        Declared::Scalars(_, _) => true,
        Declared::Tables(_, tables) => tables_fit(scope, tables.as_slice()),
    }
}

fn target_kind(scope: &Scope<'_>, target: &Target) -> Option<Kind>
    ensures { result ≡ p.place_kind (among scope.now) (place_of target.now) }
{
    match target {
        Target::Result => scope.gives,
        Target::Scalar(x) => scalar_kind_of(scope.locals.get(x)),
        Target::Element(x, indexes) => element_kind(scope, x, indexes.as_slice()),
    }
}

fn targets_fit(scope: &Scope<'_>, targets: &[Target]) -> bool
    ensures { result ≡ p.places_fit (among scope.now) (places_of targets.now) }
{
    let mut fit = true;
    for target in targets {
        let right = target_kind(scope, target).is_some();
        fit = fit && right;
    }
    fit
}

fn item_fits(scope: &Scope<'_>, item: &Item) -> bool
    ensures { result ≡ p.shown_fits (among scope.now) (shown_of item.now) }
{
    match item {
        Item::Value(e) => kind_of(scope, e).is_some(),
        Item::Literal(_) => true,
        Item::NewLine => true,
    }
}

fn items_fit(scope: &Scope<'_>, items: &[Item]) -> bool
    ensures { result ≡ p.all_shown_fit (among scope.now) (all_shown items.now) }
{
    let mut fit = true;
    for item in items {
        let right = item_fits(scope, item);
        fit = fit && right;
    }
    fit
}

fn counting_fits(scope: &Scope<'_>, x: &Name, from: &Expr, to: &Expr, step: &Option<Expr>) -> bool
    ensures { result ≡ p.fits (among scope.now) (p.Counting x.now (tree from.now) (tree to.now) (some_tree step.now)) }
{
    let variable = is_kind(Kind::Whole, scalar_kind_of(scope.locals.get(x)));
    let first = is_whole(scope, from);
    let last = is_whole(scope, to);
    let by = some_whole(scope, step);
    variable && (first && (last && by))
}

/// Whether a piece fits.
pub fn part_fits(scope: &Scope<'_>, part: Part<'_>) -> bool
    ensures { result ≡ p.fits (among scope.now) (part_of part.entry) }
{
    match part {
        Part::Condition(e) => is_kind(Kind::Truth, kind_of(scope, e)),
        Part::Repeating(e) => is_whole(scope, e),
        Part::Counting(x, from, to, step) => counting_fits(scope, x, from, to, step),
        Part::Declaring(declared) => declared_fits(scope, declared),
        Part::Assigning(target, e) => {
            let place = target_kind(scope, target);
            are_same(place, kind_of(scope, e))
        }
        Part::Calling(f, arguments) => call_fits(scope, f, arguments),
        Part::Reading(targets) => targets_fit(scope, targets),
        Part::Printing(items) => items_fit(scope, items),
    }
}

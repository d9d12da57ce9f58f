//! The parts of forms: kinds, names, bounds, tables, targets and items.
ghost use Rattle.std.specs.Prelude.{◌≡◌, map};
ghost use Rattle.std.specs.Option.{option_copied};
ghost use Rattle.kumir_tree.specs.Seen.{some_tree};
ghost use Rattle.kumir_tree.specs.Parts.{limit_of, limits_of, table_of, place_of, places_of, shown_of, all_shown};
ghost use Rattle.expr_forms.specs.Forms as forms;
ghost use Rattle.expr_forms.specs.Looks.{Gives};
ghost use Rattle.expr_forms.specs.Reading.{listing};
ghost use Rattle.expr_forms.specs.PartReading as spec;

use crate::cursor::Cursor;
use crate::expressions::{MOST_DIMENSIONS, read_expression, read_indexes};
use crate::fault::PieceFault;
use kumir_tree::{
    BoundExpr, BoundExprs, Expr, Item, Key, Kind, Name, Names, OutputItems, Sign, TableName,
    TableNames, Target, Targets, Token,
};
use sqlite_items::Items;
use std::alloc::Global;

/// The kind that a keyword stands for.
pub fn kind_of(key: Key) -> Option<Kind>
    ensures { result ≡ forms.kind_of key }
{
    match key {
        Key::Whole => Some(Kind::Whole),
        Key::Truth => Some(Kind::Truth),
        _ => None,
    }
}

/// The kind of the tables that a keyword stands for.
pub fn table_kind_of(key: Key) -> Option<Kind>
    ensures { result ≡ forms.table_kind_of key }
{
    match key {
        Key::WholeTable => Some(Kind::Whole),
        Key::TruthTable => Some(Kind::Truth),
        _ => None,
    }
}

pub fn kind_at(token: Option<&Token>) -> Option<Kind>
    ensures { result ≡ spec.kind_at (option_copied token.entry) }
{
    match token {
        Some(Token::Key(key)) => kind_of(*key),
        _ => None,
    }
}

pub fn table_kind_at(token: Option<&Token>) -> Option<Kind>
    ensures { result ≡ spec.table_kind_at (option_copied token.entry) }
{
    match token {
        Some(Token::Key(key)) => table_kind_of(*key),
        _ => None,
    }
}

/// Nothing at all, or an expression.
pub fn perhaps_expression(
    alloc: Global,
    tokens: &mut Cursor<'_>,
) -> Result<Option<Expr>, PieceFault>
    ensures { Gives some_tree (spec.perhaps_expression tokens.old) result tokens.new }
{
    if tokens.is_empty() {
        return Ok(None);
    }
    Ok(Some(read_expression(alloc, tokens)?))
}

#[tactic(auto, unfolding(crate::specs::PartReading::name))]
pub fn name(alloc: Global, tokens: &mut Cursor<'_>) -> Result<Name, PieceFault>
    ensures { Gives (λ x. x) (spec.name tokens.old) result tokens.new }
{
    let token = tokens.first();
    tokens.skip();
    match token {
        Some(Token::Named(name)) => Ok(name.copy(alloc)?),
        _ => Err(PieceFault::NotUnderstood),
    }
}

#[tactic(auto, unfolding(crate::specs::Reading::listed_from))]
pub fn names(alloc: Global, tokens: &mut Cursor<'_>) -> Result<Names, PieceFault>
    ensures { Gives (λ xs. xs) (listing spec.name tokens.old) result tokens.new }
{
    let mut found = Items::new(alloc);
    for _turn in 0..tokens.len() {
        found.push(name(alloc, tokens)?)?;
        if !tokens.eat(Sign::Comma) {
            return Ok(found);
        }
    }
    Err(PieceFault::NotUnderstood)
}

#[tactic(auto, unfolding(crate::specs::PartReading::bound))]
fn bound(alloc: Global, tokens: &mut Cursor<'_>) -> Result<BoundExpr, PieceFault>
    ensures { Gives limit_of (spec.bound tokens.old) result tokens.new }
{
    let low = read_expression(alloc, tokens)?;
    if !tokens.eat(Sign::Colon) {
        return Err(PieceFault::NotUnderstood);
    }
    let high = read_expression(alloc, tokens)?;
    Ok(BoundExpr { low, high })
}

#[tactic(auto, unfolding(crate::specs::Reading::listed_from))]
fn bound_list(alloc: Global, tokens: &mut Cursor<'_>) -> Result<BoundExprs, PieceFault>
    ensures { Gives limits_of (listing spec.bound tokens.old) result tokens.new }
{
    let mut found = Items::new(alloc);
    for _turn in 0..tokens.len() {
        found.push(bound(alloc, tokens)?)?;
        if !tokens.eat(Sign::Comma) {
            return Ok(found);
        }
    }
    Err(PieceFault::NotUnderstood)
}

/// Bounds behind the opening square bracket, with the closing one.
#[tactic(auto, using(crate::proofs::Lists::mapped_length), unfolding(crate::specs::PartReading::bounds, crate::specs::Reading::closed))]
pub fn bounds(alloc: Global, tokens: &mut Cursor<'_>) -> Result<BoundExprs, PieceFault>
    ensures { Gives limits_of (spec.bounds tokens.old) result tokens.new }
{
    let found = bound_list(alloc, tokens)?;
    if !tokens.eat(Sign::CloseSquare) {
        return Err(PieceFault::NotUnderstood);
    }
    if found.len() > MOST_DIMENSIONS {
        return Err(PieceFault::NotUnderstood);
    }
    Ok(found)
}

#[tactic(auto, unfolding(crate::specs::PartReading::table))]
fn table(alloc: Global, tokens: &mut Cursor<'_>) -> Result<TableName, PieceFault>
    ensures { Gives table_of (spec.table tokens.old) result tokens.new }
{
    let name = name(alloc, tokens)?;
    if !tokens.eat(Sign::OpenSquare) {
        return Err(PieceFault::NotUnderstood);
    }
    let bounds = bounds(alloc, tokens)?;
    Ok(TableName { name, bounds })
}

#[tactic(auto, unfolding(crate::specs::Reading::listed_from))]
pub fn tables(alloc: Global, tokens: &mut Cursor<'_>) -> Result<TableNames, PieceFault>
    ensures { Gives (map table_of) (listing spec.table tokens.old) result tokens.new }
{
    let mut found = Items::new(alloc);
    for _turn in 0..tokens.len() {
        found.push(table(alloc, tokens)?)?;
        if !tokens.eat(Sign::Comma) {
            return Ok(found);
        }
    }
    Err(PieceFault::NotUnderstood)
}

// Behind its name.
#[tactic(auto, unfolding(crate::specs::PartReading::target_of))]
fn target_of(alloc: Global, name: Name, tokens: &mut Cursor<'_>) -> Result<Target, PieceFault>
    ensures { Gives place_of (spec.target_of name tokens.old) result tokens.new }
{
    if tokens.eat(Sign::OpenSquare) {
        Ok(Target::Element(name, read_indexes(alloc, tokens)?))
    } else {
        Ok(Target::Scalar(name))
    }
}

#[tactic(auto, unfolding(crate::specs::PartReading::target))]
fn target(alloc: Global, tokens: &mut Cursor<'_>) -> Result<Target, PieceFault>
    ensures { Gives place_of (spec.target tokens.old) result tokens.new }
{
    let name = name(alloc, tokens)?;
    target_of(alloc, name, tokens)
}

#[tactic(auto, unfolding(crate::specs::Reading::listed_from))]
pub fn targets(alloc: Global, tokens: &mut Cursor<'_>) -> Result<Targets, PieceFault>
    ensures { Gives places_of (listing spec.target tokens.old) result tokens.new }
{
    let mut found = Items::new(alloc);
    for _turn in 0..tokens.len() {
        found.push(target(alloc, tokens)?)?;
        if !tokens.eat(Sign::Comma) {
            return Ok(found);
        }
    }
    Err(PieceFault::NotUnderstood)
}

#[tactic(auto, unfolding(crate::specs::PartReading::item))]
fn item(alloc: Global, tokens: &mut Cursor<'_>) -> Result<Item, PieceFault>
    ensures { Gives shown_of (spec.item tokens.old) result tokens.new }
{
    match tokens.first() {
        Some(Token::Literal(text)) => {
            tokens.skip();
            Ok(Item::Literal(text.copy(alloc)?))
        }
        Some(Token::Key(Key::NewLine)) => {
            tokens.skip();
            Ok(Item::NewLine)
        }
        _ => Ok(Item::Value(read_expression(alloc, tokens)?)),
    }
}

#[tactic(auto, unfolding(crate::specs::Reading::listed_from))]
pub fn items(alloc: Global, tokens: &mut Cursor<'_>) -> Result<OutputItems, PieceFault>
    ensures { Gives all_shown (listing spec.item tokens.old) result tokens.new }
{
    let mut found = Items::new(alloc);
    for _turn in 0..tokens.len() {
        found.push(item(alloc, tokens)?)?;
        if !tokens.eat(Sign::Comma) {
            return Ok(found);
        }
    }
    Err(PieceFault::NotUnderstood)
}

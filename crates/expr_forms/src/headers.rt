//! Headers of algorithms.
ghost use Rattle.std.specs.Prelude.{◌≡◌, map, Some, IfOk};
ghost use Rattle.std.specs.Option.{option_copied};
ghost use Rattle.kumir_tree.specs.Parts.{some_limits, formal_of, head_of};
ghost use Rattle.expr_forms.specs.Forms as forms;
ghost use Rattle.expr_forms.specs.Forms.{has_bounds};
ghost use Rattle.expr_forms.specs.Looks.{Gives};
ghost use Rattle.expr_forms.specs.HeaderReading as spec;

use crate::cursor::Cursor;
use crate::fault::PieceFault;
use crate::parts::{bounds, kind_at, name, table_kind_at};
use kumir_tree::{BoundExprs, Header, Key, Kind, Mode, Name, Param, Params, Sign, Token};
use sqlite_items::Items;
use std::alloc::{AllocError, Global};

fn mode_of(key: Key) -> Option<Mode>
    ensures { result ≡ forms.mode_of key }
{
    match key {
        Key::Arg => Some(Mode::Arg),
        Key::Res => Some(Mode::Res),
        Key::ArgRes => Some(Mode::ArgRes),
        _ => None,
    }
}

fn mode_at(token: Option<&Token>) -> Option<Mode>
    ensures { result ≡ spec.mode_at (option_copied token.entry) }
{
    match token {
        Some(Token::Key(key)) => mode_of(*key),
        _ => None,
    }
}

// The mode that a parameter says, if it says one.
#[tactic(auto, unfolding(crate::specs::HeaderReading::said_mode))]
fn said_mode(tokens: &mut Cursor<'_>) -> Option<Mode>
    ensures mode { result ≡ (spec.said_mode tokens.old).0 }
    ensures rest { tokens.new ≡ (spec.said_mode tokens.old).1 }
{
    if tokens.eat_key(Key::Arg) {
        if tokens.eat_key(Key::Res) {
            return Some(Mode::ArgRes);
        }
        return Some(Mode::Arg);
    }
    let mode = mode_at(tokens.first());
    if mode.is_some() {
        tokens.skip();
    }
    mode
}

// The kind that a parameter says, and whether it says that it is a table.
#[tactic(auto, unfolding(crate::specs::HeaderReading::said_kind))]
fn said_kind(tokens: &mut Cursor<'_>) -> Option<(Kind, bool)>
    ensures kind { result ≡ (spec.said_kind tokens.old).0 }
    ensures rest { tokens.new ≡ (spec.said_kind tokens.old).1 }
{
    if let Some(kind) = kind_at(tokens.first()) {
        tokens.skip();
        let table = tokens.eat_key(Key::Table);
        return Some((kind, table));
    }
    let Some(kind) = table_kind_at(tokens.first()) else {
        return None;
    };
    tokens.skip();
    Some((kind, true))
}

#[tactic(auto, unfolding(crate::specs::HeaderReading::perhaps_bounds))]
fn perhaps_bounds(alloc: Global, tokens: &mut Cursor<'_>) -> Result<Option<BoundExprs>, PieceFault>
    ensures { Gives some_limits (spec.perhaps_bounds tokens.old) result tokens.new }
{
    if tokens.eat(Sign::OpenSquare) {
        Ok(Some(bounds(alloc, tokens)?))
    } else {
        Ok(None)
    }
}

// Whether there are bounds exactly where they are wanted.
fn agrees(table: bool, bounds: &Option<BoundExprs>) -> bool
    ensures { result ≡ spec.same_bool table (has_bounds (some_limits bounds.now)) }
{
    match bounds {
        Some(_) => table,
        None => !table,
    }
}

// A parameter behind its mode and its kind.
#[tactic(auto, unfolding(crate::specs::HeaderReading::param_of))]
fn param_of(
    alloc: Global,
    mode: Mode,
    kind: Option<(Kind, bool)>,
    tokens: &mut Cursor<'_>,
) -> Result<Param, PieceFault>
    ensures { Gives formal_of (spec.param_of mode kind tokens.old) result tokens.new }
{
    let name = name(alloc, tokens)?;
    let bounds = perhaps_bounds(alloc, tokens)?;
    let Some((kind, table)) = kind else {
        return Err(PieceFault::NotUnderstood);
    };
    if !agrees(table, &bounds) {
        return Err(PieceFault::NotUnderstood);
    }
    Ok(Param {
        mode,
        kind,
        name,
        bounds,
    })
}

// A parameter behind others: what it does not say it has from the one before.
#[tactic(auto, unfolding(crate::specs::HeaderReading::param))]
fn param(
    alloc: Global,
    mode: Mode,
    kind: Option<(Kind, bool)>,
    tokens: &mut Cursor<'_>,
) -> Result<Param, PieceFault>
    ensures { Gives formal_of (spec.param mode kind tokens.old) result tokens.new }
{
    let mode = match said_mode(tokens) {
        Some(said) => said,
        None => mode,
    };
    let kind = match said_kind(tokens) {
        Some(said) => Some(said),
        None => kind,
    };
    param_of(alloc, mode, kind, tokens)
}

// The kind that the next parameter has, if it says none.
fn kind_below(param: &Param) -> Option<(Kind, bool)>
    ensures { result ≡ Some (param.now.kind, has_bounds (some_limits param.now.bounds)) }
{
    match &param.bounds {
        Some(_) => Some((param.kind, true)),
        None => Some((param.kind, false)),
    }
}

#[tactic(auto, unfolding(crate::specs::HeaderReading::params_from))]
fn params(alloc: Global, tokens: &mut Cursor<'_>) -> Result<Params, PieceFault>
    ensures { Gives (map formal_of) (spec.params tokens.old) result tokens.new }
{
    let mut found = Items::new(alloc);
    let mut mode = Mode::Arg;
    let mut kind = None;
    for _turn in 0..tokens.len() {
        let next = param(alloc, mode, kind, tokens)?;
        mode = next.mode;
        kind = kind_below(&next);
        found.push(next)?;
        if !tokens.eat(Sign::Comma) {
            return Ok(found);
        }
    }
    Err(PieceFault::NotUnderstood)
}

// Parameters behind the opening bracket, with the closing one.
#[tactic(auto, unfolding(crate::specs::HeaderReading::bracketed_params, crate::specs::Reading::closed))]
fn bracketed_params(alloc: Global, tokens: &mut Cursor<'_>) -> Result<Params, PieceFault>
    ensures { Gives (map formal_of) (spec.bracketed_params tokens.old) result tokens.new }
{
    if tokens.eat(Sign::Close) {
        return Ok(Items::new(alloc));
    }
    let found = params(alloc, tokens)?;
    if !tokens.eat(Sign::Close) {
        return Err(PieceFault::NotUnderstood);
    }
    Ok(found)
}

#[tactic(auto, unfolding(crate::specs::HeaderReading::signature))]
fn signature(alloc: Global, tokens: &mut Cursor<'_>) -> Result<Params, PieceFault>
    ensures { Gives (map formal_of) (spec.signature tokens.old) result tokens.new }
{
    if tokens.eat(Sign::Open) {
        bracketed_params(alloc, tokens)
    } else {
        Ok(Items::new(alloc))
    }
}

fn name_at(alloc: Global, token: Option<&Token>) -> Result<Option<Name>, AllocError>
    ensures { IfOk result (λ x. x ≡ spec.name_at (option_copied token.entry)) }
{
    match token {
        Some(Token::Named(name)) => Ok(Some(name.copy(alloc)?)),
        _ => Ok(None),
    }
}

// A header behind the kind that it gives.
#[tactic(auto, unfolding(crate::specs::HeaderReading::header_of))]
fn header_of(
    alloc: Global,
    gives: Option<Kind>,
    tokens: &mut Cursor<'_>,
) -> Result<Header, PieceFault>
    ensures { Gives head_of (spec.header_of gives tokens.old) result tokens.new }
{
    let name = name_at(alloc, tokens.first())?;
    if name.is_some() {
        tokens.skip();
    }
    let params = signature(alloc, tokens)?;
    Ok(Header {
        name,
        gives,
        params,
        line: 0,
    })
}

/// A header behind its keyword.
#[tactic(auto, unfolding(crate::specs::HeaderReading::header))]
pub fn header(alloc: Global, tokens: &mut Cursor<'_>) -> Result<Header, PieceFault>
    ensures { Gives head_of (spec.header tokens.old) result tokens.new }
{
    let gives = kind_at(tokens.first());
    if gives.is_some() {
        tokens.skip();
    }
    header_of(alloc, gives, tokens)
}

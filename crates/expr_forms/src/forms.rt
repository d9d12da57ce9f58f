//! Forms, each by its first token.
ghost use Rattle.std.specs.Prelude.{◌≡◌, Some, None, Ok, Err, IfOk, if◌then◌else◌};
ghost use Rattle.kumir_tree.specs.Seen.{tree};
ghost use Rattle.kumir_tree.specs.Parts.{place_of};
ghost use Rattle.kumir_tree.specs.Pieces.{piece_of};
ghost use Rattle.expr_forms.specs.Forms as forms;
ghost use Rattle.expr_forms.specs.Looks.{Gives};
ghost use Rattle.expr_forms.specs.FormReading as spec;
ghost use Rattle.expr_forms.specs.Tokens.{tokens_of};
ghost use Rattle.expr_forms.specs.declared.fault.PieceFault.TheVariants.{NotUnderstood, TooDeep};

use crate::cursor::Cursor;
use crate::expressions::{read_arguments, read_expression, read_indexes};
use crate::fault::PieceFault;
use crate::headers::header;
use crate::parts::{
    items, kind_of, name, names, perhaps_expression, table_kind_of, tables, targets,
};
use kumir_tree::{Declared, Expr, Form, Key, Kind, Name, Sign, Spanned, Target, Token};
use sqlite_items::Items;
use std::alloc::Global;

#[tactic(auto, unfolding(crate::specs::FormReading::scalars))]
fn scalars(alloc: Global, kind: Kind, tokens: &mut Cursor<'_>) -> Result<Form, PieceFault>
    ensures { Gives piece_of (spec.scalars kind tokens.old) result tokens.new }
{
    let names = names(alloc, tokens)?;
    Ok(Form::Declare(Declared::Scalars(kind, names)))
}

#[tactic(auto, unfolding(crate::specs::FormReading::tables))]
fn table_declaration(alloc: Global, kind: Kind, tokens: &mut Cursor<'_>) -> Result<Form, PieceFault>
    ensures { Gives piece_of (spec.tables kind tokens.old) result tokens.new }
{
    let tables = tables(alloc, tokens)?;
    Ok(Form::Declare(Declared::Tables(kind, tables)))
}

#[tactic(auto, unfolding(crate::specs::FormReading::declaration))]
fn declaration(alloc: Global, kind: Kind, tokens: &mut Cursor<'_>) -> Result<Form, PieceFault>
    ensures { Gives piece_of (spec.declaration kind tokens.old) result tokens.new }
{
    if tokens.eat_key(Key::Table) {
        table_declaration(alloc, kind, tokens)
    } else {
        scalars(alloc, kind, tokens)
    }
}

// An assignment behind its target.
#[tactic(auto, unfolding(crate::specs::FormReading::assignment))]
fn assignment(alloc: Global, target: Target, tokens: &mut Cursor<'_>) -> Result<Form, PieceFault>
    ensures { Gives piece_of (spec.assignment (place_of target) tokens.old) result tokens.new }
{
    if !tokens.eat(Sign::Assign) {
        return Err(PieceFault::NotUnderstood);
    }
    Ok(Form::Assign(target, read_expression(alloc, tokens)?))
}

// A call or an assignment, behind the name that begins it.
#[tactic(auto, unfolding(crate::specs::FormReading::named_piece))]
fn named_piece(alloc: Global, name: Name, tokens: &mut Cursor<'_>) -> Result<Form, PieceFault>
    ensures { Gives piece_of (spec.named_piece name tokens.old) result tokens.new }
{
    if tokens.eat(Sign::Open) {
        return Ok(Form::Call(name, read_arguments(alloc, tokens)?));
    }
    if tokens.eat(Sign::OpenSquare) {
        let indexes = read_indexes(alloc, tokens)?;
        return assignment(alloc, Target::Element(name, indexes), tokens);
    }
    if tokens.sees(Sign::Assign) {
        return assignment(alloc, Target::Scalar(name), tokens);
    }
    Ok(Form::Call(name, Items::new(alloc)))
}

#[tactic(auto, unfolding(crate::specs::FormReading::loop_times))]
fn loop_times(alloc: Global, tokens: &mut Cursor<'_>) -> Result<Form, PieceFault>
    ensures { Gives piece_of (spec.loop_times tokens.old) result tokens.new }
{
    let times = read_expression(alloc, tokens)?;
    if !tokens.eat_key(Key::Times) {
        return Err(PieceFault::NotUnderstood);
    }
    Ok(Form::Times(times))
}

// The head of a counting loop behind its last number.
#[tactic(auto, unfolding(crate::specs::FormReading::stepped))]
fn stepped(
    alloc: Global,
    name: Name,
    from: Expr,
    to: Expr,
    tokens: &mut Cursor<'_>,
) -> Result<Form, PieceFault>
    ensures { Gives piece_of (spec.stepped name (tree from) (tree to) tokens.old) result tokens.new }
{
    if tokens.eat_key(Key::Step) {
        let step = read_expression(alloc, tokens)?;
        Ok(Form::Count(name, from, to, Some(step)))
    } else {
        Ok(Form::Count(name, from, to, None))
    }
}

// The head of a counting loop behind `от`.
#[tactic(auto, unfolding(crate::specs::FormReading::counted))]
fn counted(alloc: Global, name: Name, tokens: &mut Cursor<'_>) -> Result<Form, PieceFault>
    ensures { Gives piece_of (spec.counted name tokens.old) result tokens.new }
{
    let from = read_expression(alloc, tokens)?;
    if !tokens.eat_key(Key::To) {
        return Err(PieceFault::NotUnderstood);
    }
    let to = read_expression(alloc, tokens)?;
    stepped(alloc, name, from, to, tokens)
}

#[tactic(auto, unfolding(crate::specs::FormReading::loop_count))]
fn loop_count(alloc: Global, tokens: &mut Cursor<'_>) -> Result<Form, PieceFault>
    ensures { Gives piece_of (spec.loop_count tokens.old) result tokens.new }
{
    let name = name(alloc, tokens)?;
    if !tokens.eat_key(Key::From) {
        return Err(PieceFault::NotUnderstood);
    }
    counted(alloc, name, tokens)
}

#[tactic(auto, unfolding(crate::specs::FormReading::loop_head))]
fn loop_head(alloc: Global, tokens: &mut Cursor<'_>) -> Result<Form, PieceFault>
    ensures { Gives piece_of (spec.loop_head tokens.old) result tokens.new }
{
    if tokens.eat_key(Key::While) {
        return Ok(Form::While(read_expression(alloc, tokens)?));
    }
    if tokens.eat_key(Key::For) {
        return loop_count(alloc, tokens);
    }
    if tokens.is_empty() {
        return Ok(Form::Forever);
    }
    loop_times(alloc, tokens)
}

#[tactic(auto, unfolding(crate::specs::FormReading::loop_end))]
fn loop_end(alloc: Global, tokens: &mut Cursor<'_>) -> Result<Form, PieceFault>
    ensures { Gives piece_of (spec.loop_end tokens.old) result tokens.new }
{
    if tokens.eat_key(Key::When) {
        Ok(Form::CloseWhen(read_expression(alloc, tokens)?))
    } else {
        Ok(Form::Close)
    }
}

#[tactic(auto, unfolding(crate::specs::FormReading::when_case))]
fn when_case(alloc: Global, tokens: &mut Cursor<'_>) -> Result<Form, PieceFault>
    ensures { Gives piece_of (spec.when_case tokens.old) result tokens.new }
{
    let condition = read_expression(alloc, tokens)?;
    if !tokens.eat(Sign::Colon) {
        return Err(PieceFault::NotUnderstood);
    }
    Ok(Form::When(condition))
}

// A form behind a keyword that is no kind.
fn keyword_form(alloc: Global, key: Key, tokens: &mut Cursor<'_>) -> Result<Form, PieceFault>
    ensures { Gives piece_of (spec.keyword_form key tokens.old) result tokens.new }
{
    match key {
        Key::Algorithm => Ok(Form::Header(header(alloc, tokens)?)),
        Key::Given => Ok(Form::Given(perhaps_expression(alloc, tokens)?)),
        Key::Wanted => Ok(Form::Wanted(perhaps_expression(alloc, tokens)?)),
        Key::Result => assignment(alloc, Target::Result, tokens),
        Key::Loop => loop_head(alloc, tokens),
        Key::LoopEnd => loop_end(alloc, tokens),
        Key::LoopEndWhen => Ok(Form::CloseWhen(read_expression(alloc, tokens)?)),
        Key::If => Ok(Form::Choose(read_expression(alloc, tokens)?)),
        Key::Then => Ok(Form::Then),
        Key::Otherwise => Ok(Form::Otherwise),
        Key::ChoiceEnd => Ok(Form::ChoiceEnd),
        Key::Select => Ok(Form::Select),
        Key::When => when_case(alloc, tokens),
        Key::Begin => Ok(Form::Begin),
        Key::Finish => Ok(Form::Finish),
        Key::Assert => Ok(Form::Assert(read_expression(alloc, tokens)?)),
        Key::Leave => Ok(Form::Leave),
        Key::Quit => Ok(Form::Quit),
        Key::Uses => Ok(Form::Uses(name(alloc, tokens)?)),
        Key::Input => Ok(Form::Input(targets(alloc, tokens)?)),
        Key::Output => Ok(Form::Output(items(alloc, tokens)?)),
        _ => Err(PieceFault::NotUnderstood),
    }
}

fn key_form(alloc: Global, key: Key, tokens: &mut Cursor<'_>) -> Result<Form, PieceFault>
    ensures { Gives piece_of (spec.kind_or_keyword key tokens.old (forms.kind_of key)) result tokens.new }
{
    if let Some(kind) = kind_of(key) {
        return declaration(alloc, kind, tokens);
    }
    match table_kind_of(key) {
        Some(kind) => table_declaration(alloc, kind, tokens),
        None => keyword_form(alloc, key, tokens),
    }
}

#[tactic(auto, unfolding(crate::specs::FormReading::form))]
fn form(alloc: Global, tokens: &mut Cursor<'_>) -> Result<Form, PieceFault>
    ensures { Gives piece_of (spec.form tokens.old) result tokens.new }
{
    let token = tokens.first();
    tokens.skip();
    match token {
        Some(Token::Key(key)) => key_form(alloc, *key, tokens),
        Some(Token::Named(name)) => named_piece(alloc, name.copy(alloc)?, tokens),
        _ => Err(PieceFault::NotUnderstood),
    }
}

// No form: there are tokens behind it.
fn not_all(form: Form) -> PieceFault
    ensures { result ≡ NotUnderstood }
{
    drop(form);
    PieceFault::NotUnderstood
}

// The form, where it is all that there is.
fn if_all(form: Form, all: bool) -> Result<Form, PieceFault>
    ensures { result ≡ (if all then Ok form else Err NotUnderstood) }
{
    if all { Ok(form) } else { Err(not_all(form)) }
}

/// The form that all of the tokens are.
#[tactic(auto, unfolding(crate::specs::FormReading::whole))]
pub fn whole_form(alloc: Global, tokens: &[Spanned]) -> Result<Form, PieceFault>
    ensures form { IfOk result (λ f. spec.whole (tokens_of tokens.now) ≡ Some (piece_of f)) }
    ensures none { result ≡ Err NotUnderstood → spec.whole (tokens_of tokens.now) ≡ None }
    ensures not_deep { result ≡ Err TooDeep → ⊥ }
{
    let mut rest = Cursor::new(tokens);
    let found = form(alloc, &mut rest)?;
    if_all(found, rest.is_empty())
}

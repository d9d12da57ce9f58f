//! Forms by where they may stand, and how they are let go.

ghost use Rattle.std.specs.Prelude.{◌≡◌};
ghost use Rattle.kumir_tree.specs.Blocks.{act_of};
ghost use Rattle.kumir_tree.specs.Pieces.{piece_of};
ghost use Rattle.unit_grammar.specs.Kinds.{plain_act, role_placed, then_alone, is_then};

use crate::frames::{End, LoopHead};
use kumir_tree::{Declared, Expr, Exprs, Form, Header, Name, OutputItems, Target, Targets, What};

/// A statement that is one form.
#[derive(Drop)]
pub enum Plain {
    Declare(Declared),
    Assign(Target, Expr),
    Call(Name, Exprs),
    Assert(Expr),
    Input(Targets),
    Output(OutputItems),
    Leave,
    Quit,
}

/// A form that may stand among statements.
#[derive(Drop)]
pub enum Inner {
    Says(Plain),
    Repeats(LoopHead),
    Forever,
    Choose(Expr),
    Select,
    Ends(End),
    Finish,
}

/// A form that may not.
#[derive(Drop)]
pub enum Outer {
    Header(Header),
    Given(Option<Expr>),
    Wanted(Option<Expr>),
    Begin,
    Then,
    Uses(Name),
}

/// A form by where it may stand.
#[derive(Drop)]
pub enum Role {
    Inside(Inner),
    Outside(Outer),
}

pub fn role_of(line: u32, form: Form) -> Role
    ensures { role_placed line result ≡ (line, piece_of form) }
{
    match form {
        Form::Declare(declared) => Role::Inside(Inner::Says(Plain::Declare(declared))),
        Form::Assign(target, value) => Role::Inside(Inner::Says(Plain::Assign(target, value))),
        Form::Call(name, arguments) => Role::Inside(Inner::Says(Plain::Call(name, arguments))),
        Form::Assert(test) => Role::Inside(Inner::Says(Plain::Assert(test))),
        Form::Input(targets) => Role::Inside(Inner::Says(Plain::Input(targets))),
        Form::Output(items) => Role::Inside(Inner::Says(Plain::Output(items))),
        Form::Leave => Role::Inside(Inner::Says(Plain::Leave)),
        Form::Quit => Role::Inside(Inner::Says(Plain::Quit)),
        Form::Times(count) => Role::Inside(Inner::Repeats(LoopHead::Times(count))),
        Form::While(test) => Role::Inside(Inner::Repeats(LoopHead::While(test))),
        Form::Count(name, from, to, step) => Role::Inside(Inner::Repeats(LoopHead::Count(
            name, from, to, step,
        ))),
        Form::Forever => Role::Inside(Inner::Forever),
        Form::Choose(test) => Role::Inside(Inner::Choose(test)),
        Form::Select => Role::Inside(Inner::Select),
        Form::Close => Role::Inside(Inner::Ends(End::Close)),
        Form::CloseWhen(test) => Role::Inside(Inner::Ends(End::CloseWhen(line, test))),
        Form::When(test) => Role::Inside(Inner::Ends(End::Case(line, test))),
        Form::Otherwise => Role::Inside(Inner::Ends(End::Otherwise)),
        Form::ChoiceEnd => Role::Inside(Inner::Ends(End::ChoiceEnd)),
        Form::Finish => Role::Inside(Inner::Finish),
        Form::Header(header) => Role::Outside(Outer::Header(header)),
        Form::Given(test) => Role::Outside(Outer::Given(test)),
        Form::Wanted(test) => Role::Outside(Outer::Wanted(test)),
        Form::Begin => Role::Outside(Outer::Begin),
        Form::Then => Role::Outside(Outer::Then),
        Form::Uses(name) => Role::Outside(Outer::Uses(name)),
    }
}

#[tactic(auto, using(kumir_tree::proofs::Views::acts))]
pub fn what_of(plain: Plain) -> What
    ensures { act_of result ≡ plain_act plain }
{
    match plain {
        Plain::Declare(declared) => What::Declare(declared),
        Plain::Assign(target, value) => What::Assign(target, value),
        Plain::Call(name, arguments) => What::Call(name, arguments),
        Plain::Assert(test) => What::Assert(test),
        Plain::Input(targets) => What::Input(targets),
        Plain::Output(items) => What::Output(items),
        Plain::Leave => What::Leave,
        Plain::Quit => What::Quit,
    }
}

fn then_alone(outer: &Outer) -> bool
    ensures { result ≡ then_alone outer.now }
{
    matches!(outer, Outer::Then)
}

pub fn is_then(role: Role) -> bool
    ensures { result ≡ is_then role }
{
    match role {
        Role::Outside(outer) => {
            let alone = then_alone(&outer);
            discard_outer(outer);
            alone
        }
        Role::Inside(inner) => {
            discard(inner);
            false
        }
    }
}

pub fn discard_plain(plain: Plain) {
    drop(plain);
}

pub fn discard_head(head: LoopHead) {
    drop(head);
}

pub fn discard_test(test: Expr) {
    drop(test);
}

pub fn discard_end(end: End) {
    match end {
        End::Close => {}
        End::CloseWhen(_, test) => discard_test(test),
        End::Case(_, test) => discard_test(test),
        End::Otherwise => {}
        End::ChoiceEnd => {}
    }
}

pub fn discard(inner: Inner) {
    match inner {
        Inner::Says(plain) => discard_plain(plain),
        Inner::Repeats(head) => discard_head(head),
        Inner::Forever => {}
        Inner::Choose(test) => discard_test(test),
        Inner::Select => {}
        Inner::Ends(end) => discard_end(end),
        Inner::Finish => {}
    }
}

pub fn discard_outer(outer: Outer) {
    drop(outer);
}

pub fn discard_role(role: Role) {
    match role {
        Role::Inside(inner) => discard(inner),
        Role::Outside(outer) => discard_outer(outer),
    }
}

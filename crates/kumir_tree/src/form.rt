//! Forms of pieces.

use crate::expr::{Expr, Exprs};
use crate::header::Header;
use crate::names::Name;
use crate::statement::{Declared, OutputItems, Target, Targets};

/// What a piece says, in the order of the grammar.
#[derive(Drop)]
pub enum Form {
    /// `алг`; a header that is read from a piece has the line 0.
    Header(Header),
    /// `дано`
    Given(Option<Expr>),
    /// `надо`
    Wanted(Option<Expr>),
    Declare(Declared),
    Assign(Target, Expr),
    Call(Name, Exprs),
    /// `нц .. раз`
    Times(Expr),
    /// `нц пока`
    While(Expr),
    /// `нц`
    Forever,
    /// `нц для`
    Count(Name, Expr, Expr, Option<Expr>),
    /// `кц`
    Close,
    /// `кц при`
    CloseWhen(Expr),
    /// `если`
    Choose(Expr),
    /// `то`
    Then,
    /// `иначе`
    Otherwise,
    /// `все`
    ChoiceEnd,
    /// `выбор`
    Select,
    /// `при`
    When(Expr),
    /// `нач`
    Begin,
    /// `кон`
    Finish,
    /// `утв`
    Assert(Expr),
    /// `выход`
    Leave,
    /// `стоп`
    Quit,
    /// `использовать`
    Uses(Name),
    /// `ввод`
    Input(Targets),
    /// `вывод`
    Output(OutputItems),
}

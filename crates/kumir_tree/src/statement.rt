//! Statements.

use crate::expr::{BoundExprs, Expr, Exprs};
use crate::kind::Kind;
use crate::names::{Chars, Name, Names};
use sqlite_items::Items;

/// What a value is given to.
#[derive(Drop)]
pub enum Target {
    /// `знач`
    Result,
    Scalar(Name),
    Element(Name, Exprs),
}

pub type Targets = Items<Target>;

/// What `вывод` prints.
#[derive(Drop)]
pub enum Item {
    Value(Expr),
    Literal(Chars),
    NewLine,
}

/// What one `вывод` prints, in order.
pub type OutputItems = Items<Item>;

/// The name of a table that is declared, with its bounds.
#[derive(Drop)]
pub struct TableName {
    pub name: Name,
    pub bounds: BoundExprs,
}

pub type TableNames = Items<TableName>;

/// A declaration of scalars or of tables.
#[derive(Drop)]
pub enum Declared {
    Scalars(Kind, Names),
    Tables(Kind, TableNames),
}

/// A statement. Its line counts from the first line of its unit.
#[cycle(statement)]
#[derive(Drop)]
pub struct Statement {
    pub line: u32,
    pub what: What,
}

pub type Block = Items<Statement>;

/// What a statement does.
#[cycle(statement)]
#[derive(Drop)]
pub enum What {
    Declare(Declared),
    Assign(Target, Expr),
    Call(Name, Exprs),
    Times(Expr, Block),
    While(Expr, Block),
    Count(Name, Expr, Expr, Option<Expr>, Block),
    Forever(Block),
    /// The body, the line of `кц при` and its condition.
    Until(Block, u32, Expr),
    Choose(Expr, Block, Block),
    Select(Cases, Block),
    Assert(Expr),
    Input(Targets),
    Output(OutputItems),
    Leave,
    Quit,
}

/// One `при` of a `выбор` with what it guards.
#[cycle(statement)]
#[derive(Drop)]
pub struct Case {
    pub line: u32,
    pub condition: Expr,
    pub body: Block,
}

pub type Cases = Items<Case>;

//! What is checked of one piece.

use kumir_tree::{Declared, Expr, Item, Name, Target};

/// A piece behind the header, as far as names and kinds go.
#[derive(Clone, Copy)]
pub enum Part<'a> {
    /// `дано`, `надо`, `утв`, `если`, `при`, `нц пока`, `кц при`
    Condition(&'a Expr),
    /// `нц .. раз`
    Repeating(&'a Expr),
    /// `нц для`, with `от`, `до` and `шаг`
    Counting(&'a Name, &'a Expr, &'a Expr, &'a Option<Expr>),
    Declaring(&'a Declared),
    Assigning(&'a Target, &'a Expr),
    Calling(&'a Name, &'a [Expr]),
    /// `ввод`
    Reading(&'a [Target]),
    /// `вывод`
    Printing(&'a [Item]),
}

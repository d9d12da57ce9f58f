//! Tokens, expressions, statements, headers, forms and units: data, and how contracts see it.
#![tactic(auto)]

mod expr;
pub mod fault_codes;
mod form;
mod header;
mod kind;
mod laws;
mod line;
mod names;
mod statement;
mod token;
mod unit;

pub use expr::{BoundExpr, BoundExprs, Expr, Exprs, copy_bounds, copy_exprs, copy_some_expr};
pub use form::Form;
pub use header::{Header, Param, Params, copy_params};
pub use kind::{Kind, Mode, Op};
pub use laws::fault_codes_are;
pub use line::{Line, LineRefusal, Lines};
pub use names::{Chars, Name, Names, copy_names, copy_some_name};
pub use statement::{
    Block, Case, Cases, Declared, Item, OutputItems, Statement, TableName, TableNames, Target,
    Targets, What,
};
pub use token::{Key, Sign, Spanned, Token, Tokens};
pub use unit::{Check, Fault, Faults, Outcome, PlacedUnit, UnitRead, UnitTree, Units};

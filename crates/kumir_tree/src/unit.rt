//! Units of a text.

use crate::expr::Expr;
use crate::header::Header;
use crate::statement::Block;
use km_base::Performers;
use sqlite_items::Items;
use std::alloc::Global;
use std::sync::Arc;

/// A condition with its line, as `дано` and `надо` have it.
#[derive(Drop)]
pub struct Check {
    pub line: u32,
    pub condition: Expr,
}

/// An algorithm. Its lines count from the first line of its unit.
#[derive(Drop)]
pub struct UnitTree {
    pub header: Header,
    pub given: Option<Check>,
    pub wanted: Option<Check>,
    pub body: Block,
    /// The line of `кон`.
    pub close: u32,
}

/// A fault: its line, counted from where the list of faults says, and its code (docs/LANGUAGE.md, "Faults").
#[derive(Clone, Copy, Debug, PartialEq, Eq)]
pub struct Fault {
    pub line: u32,
    pub code: u16,
}

pub type Faults = Items<Fault>;

/// What the lines of a unit make: an algorithm, a prelude without faults, or the faults of the first kind that occurs.
#[derive(Drop)]
pub enum Outcome {
    Tree(UnitTree),
    Prelude,
    /// Lines count from the first line of the unit.
    Faults(Faults),
}

/// What was read from the lines of a unit alone.
#[derive(Drop)]
pub struct UnitRead {
    pub header: Option<Header>,
    pub performers: Performers,
    /// The performers that are not known.
    pub unknown: Faults,
    pub outcome: Outcome,
}

/// A unit at its place in the text.
#[derive(Drop)]
pub struct PlacedUnit {
    pub first: u32,
    pub read: Arc<UnitRead, Global>,
}

/// The prelude, then the units.
pub type Units = Items<PlacedUnit>;

//! Units of code.

use crate::instruction::CodeLines;
use kumir_tree::{Kind, Mode};
use sqlite_items::Items;

/// What a slot is for.
#[derive(Clone, Copy, Debug, PartialEq, Eq)]
pub enum Shape {
    /// A variable that is no table.
    Scalar(Kind),
    /// A table with this number of bounds.
    Table(Kind, u32),
    /// An index, or the turns of a loop.
    Hidden,
}

/// The slots of a unit.
pub type Shapes = Items<Shape>;

/// A parameter: how it is passed, and its slot.
#[derive(Clone, Copy, Debug, PartialEq, Eq)]
pub struct ParamSlot {
    pub mode: Mode,
    pub slot: u32,
}

/// The parameters of a unit, in order.
pub type ParamSlots = Items<ParamSlot>;

/// The code of one algorithm.
#[derive(Drop)]
pub struct CodeUnit {
    pub slots: Shapes,
    pub params: ParamSlots,
    /// The slot of `знач`, in an algorithm with a kind.
    pub gives: Option<u32>,
    /// How many operands there may be at one time.
    pub depth: u32,
    pub body: CodeLines,
}

/// Units, numbered from 0.
pub type CodeUnits = Items<CodeUnit>;

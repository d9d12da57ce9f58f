//! What slots hold.

ghost use Rattle.machine_steps.specs.Loops.{IsNear};

use kumir_values::{Table, Value};

/// What a variable holds.
#[derive(Drop)]
pub enum Cell {
    Empty,
    Has(Value),
    Holds(Table),
}

/// The numbers of a counted loop.
#[derive(Clone, Copy)]
pub struct Numbers {
    /// That of the next turn; one step past the range of `цел` at most.
    pub next: i64,
    pub last: i32,
    pub step: i32,
    ghost near: { IsNear next step },
}

/// How a loop stands.
#[derive(Clone, Copy)]
pub enum Turns {
    /// So many turns are left.
    Left(u32),
    /// The numbers of the turns.
    Numbers(Numbers),
}

/// What a slot holds.
#[derive(Drop)]
pub enum Held {
    Plain(Cell),
    Loop(Turns),
}

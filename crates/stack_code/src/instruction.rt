//! Instructions.

use kumir_tree::{Chars, Kind};
use kumir_values::Value;
use performer_kit::{PenShape, RobotCommand};
use sqlite_items::Items;

/// Hidden slots, one for each index of an element.
pub type HiddenSlots = Items<u32>;

/// What a parameter is given at a call.
#[derive(Drop)]
pub enum CallPlace {
    /// A value on the operand stack.
    Value,
    /// A slot, to which the parameter is copied out.
    Slot(u32),
    /// An element of the table in a slot, with its indexes in hidden slots, to which the parameter is copied out.
    Element(u32, HiddenSlots),
    /// The table in a slot.
    Table(u32),
}

/// The places of a call, one for each parameter.
pub type CallPlaces = Items<CallPlace>;

/// A command without its numbers.
#[derive(Clone, Copy, Debug, PartialEq, Eq)]
pub enum CommandShape {
    Robot(RobotCommand),
    Pen(PenShape),
}

/// An instruction (docs/LANGUAGE.md, "Stack code"). Slots and places of a body are counted from 0.
#[derive(Drop)]
pub enum Instruction {
    /// Pushes the value.
    Push(Value),
    /// Pops one value.
    Drop,
    /// Pushes the slot's value, or `unset`.
    Load(u32),
    /// Pops a value into the slot.
    Store(u32),
    /// Takes the slot's value away.
    Clear(u32),
    /// Pops so many indexes and pushes the element of the slot's table.
    Elem(u32, u32),
    /// Pops a value, then so many indexes, and stores the element.
    PutElem(u32, u32),
    /// Checks so many indexes on top, and leaves them.
    Probe(u32, u32),
    /// Pops the bounds of so many dimensions, lower and upper, and makes the table of the slot.
    Make(u32, Kind, u32),
    /// Pops such bounds and compares them with those of the table there.
    Fit(u32, u32),
    Add,
    Sub,
    Mul,
    Pow,
    Neg,
    Div,
    Mod,
    Abs,
    Min,
    Max,
    Eq,
    Ne,
    Lt,
    Le,
    Gt,
    Ge,
    EqTruth,
    NeTruth,
    Not,
    /// Goes to the place.
    Jump(u32),
    /// Pops a truth value, and goes to the place on `нет`.
    JumpNo(u32),
    /// Takes one step, or the run ends here.
    Step,
    /// Pops the count of turns into the hidden slot.
    Times(u32),
    /// Pops the first and the last number of a loop and its step into the hidden slot; the step 0 is a fault.
    Turns(u32),
    /// Goes to the place where the loop of the hidden slot has no turn left. Else there is one turn less, and the
    /// variable, where one is given, gets the number of the turn.
    Next(u32, Option<u32>, u32),
    /// Prints the popped value.
    Out,
    /// Prints the text.
    OutText(Chars),
    /// Prints a line feed.
    OutLine,
    /// Pushes the next input of the kind.
    Input(Kind),
    /// Pops a truth value; `нет` ends the run.
    Assert,
    /// Ends the run.
    Quit,
    /// Pops the numbers of a command, sends it and awaits its reply; a test pushes the reply.
    Ask(CommandShape),
    /// Enters the unit of that number with values and tables.
    Call(u32, CallPlaces),
    /// Copies out to the places of the call, and pushes the value of a kind.
    Return,
}

/// An instruction with the line of the text that it comes from.
#[derive(Drop)]
pub struct CodeLine {
    pub line: u32,
    pub what: Instruction,
}

/// A body. Its places are counted from 0.
pub type CodeLines = Items<CodeLine>;

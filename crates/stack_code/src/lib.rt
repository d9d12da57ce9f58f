//! Stack code: its instructions, what they do, and which code is valid (docs/LANGUAGE.md, "Stack code").
#![tactic(auto)]

mod code;
mod flow;
mod instruction;
mod kinds;
mod laws;
mod lines;
mod operands;
mod shapes;
mod unit;

pub use code::{Code, valid};
pub use instruction::{
    CallPlace, CallPlaces, CodeLine, CodeLines, CommandShape, HiddenSlots, Instruction,
};
pub use laws::{code_has_one_trace, code_only_grows, code_runs_as_shown};
pub use operands::takes_operand;
pub use shapes::{is_call_line, line_at};
pub use unit::{CodeUnit, CodeUnits, ParamSlot, ParamSlots, Shape, Shapes};

//! Instructions that the outside sees.
ghost use Rattle.std.specs.Prelude.{◌≡◌, ◌<◌, ◌+◌, ◌^◌, List, length, map, true, IfOk};
ghost use Rattle.kumir_meaning.specs.Operators.{number_of};
ghost use Rattle.kumir_meaning.specs.Runs.{usual, pen_command};
ghost use Rattle.stack_code.specs.Instructions.{event_of};
ghost use Rattle.stack_code.specs.declared.unit.CodeUnit.{CodeUnit};
ghost use Rattle.stack_code.specs.declared.instruction.Instruction.TheVariants as code;
ghost use Rattle.stack_code.specs.declared.instruction.CommandShape.TheVariants as command;
ghost use Rattle.machine_steps.specs.States.{state_of};
ghost use Rattle.machine_steps.specs.Acting.{Carries};
ghost use Rattle.machine_steps.specs.Local.{is_local};

use crate::acted::Acted;
use crate::output::{line_feed, value_text};
use crate::running::Running;
use crate::values::{first_in, second_in};
use km_base::Memory;
use kumir_tree::Chars;
use kumir_values::Value;
use performer_kit::{PenCommand, PenShape};
use stack_code::CommandShape;
use std::alloc::Global;

/// Prints the popped value.
pub fn print_top(alloc: Global, running: &mut Running) -> Result<Acted, Memory>
    requires { running.old.pc + 1 < 2 ^ 64 }
    ensures acts { IfOk result (λ acted. (units : List CodeUnit) → Carries (λ frames. event_of usual units code.Out 0 (state_of running.old frames)) acted running.new) }
    ensures count { length running.new.slots ≡ length running.old.slots }
{
    let text = value_text(alloc, running.operands.pop())?;
    running.pc += 1;
    Ok(Acted::Printed(text))
}

/// Prints a text.
pub fn print_text(alloc: Global, running: &mut Running, text: &Chars) -> Result<Acted, Memory>
    requires { running.old.pc + 1 < 2 ^ 64 }
    ensures acts { IfOk result (λ acted. (units : List CodeUnit) → Carries (λ frames. event_of usual units (code.OutText text.now) 0 (state_of running.old frames)) acted running.new) }
    ensures count { length running.new.slots ≡ length running.old.slots }
{
    let copy = text.copy(alloc)?;
    running.pc += 1;
    Ok(Acted::Printed(copy))
}

/// Prints a line feed.
pub fn print_line_feed(alloc: Global, running: &mut Running) -> Result<Acted, Memory>
    requires { running.old.pc + 1 < 2 ^ 64 }
    ensures acts { IfOk result (λ acted. (units : List CodeUnit) → Carries (λ frames. event_of usual units code.OutLine 0 (state_of running.old frames)) acted running.new) }
    ensures count { length running.new.slots ≡ length running.old.slots }
{
    let text = line_feed(alloc)?;
    running.pc += 1;
    Ok(Acted::Printed(text))
}

/// A command of the Draughtsman with its numbers.
#[tactic(auto, using(crate::proofs::PenNumbers::first_same, crate::proofs::PenNumbers::second_same))]
fn command_of(shape: PenShape, values: &[Value]) -> PenCommand
    ensures { result ≡ pen_command shape (map number_of values.now) }
{
    let first = first_in(values);
    let second = second_in(values);
    match shape {
        PenShape::Raise => PenCommand::Raise,
        PenShape::Lower => PenCommand::Lower,
        PenShape::To => PenCommand::To {
            x: first,
            y: second,
        },
        PenShape::By => PenCommand::By {
            dx: first,
            dy: second,
        },
    }
}

/// Sends a command of the Draughtsman with the numbers on top.
pub fn tell(running: &mut Running, shape: PenShape) -> Result<Acted, Memory>
    requires { running.old.pc + 1 < 2 ^ 64 }
    ensures acts { IfOk result (λ acted. (units : List CodeUnit) → Carries (λ frames. event_of usual units (code.Ask (command.Pen shape)) 0 (state_of running.old frames)) acted running.new) }
    ensures count { length running.new.slots ≡ length running.old.slots }
{
    let count = shape.arity();
    let command = command_of(shape, running.operands.last(count));
    running.operands.discard(count);
    running.pc += 1;
    Ok(Acted::Told(command))
}

/// Sends a command that awaits no reply of the Robot.
pub fn ask(running: &mut Running, shape: CommandShape, line: u32) -> Result<Acted, Memory>
    requires room { running.old.pc + 1 < 2 ^ 64 }
    requires local { is_local (code.Ask shape) ≡ true }
    ensures acts { IfOk result (λ acted. (units : List CodeUnit) → Carries (λ frames. event_of usual units (code.Ask shape) line (state_of running.old frames)) acted running.new) }
    ensures count { length running.new.slots ≡ length running.old.slots }
{
    match shape {
        CommandShape::Pen(shape) => tell(running, shape),
        CommandShape::Robot(_) => unreachable!(),
    }
}

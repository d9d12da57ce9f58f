//! Instructions until the run stops: inputs are taken, and algorithms return.
ghost use Rattle.std.specs.Prelude.{◌≡◌, ◌<◌, ◌+◌, ◌^◌, slice_get, false, Some, IfOk, IfNone, IfSome, OnOk};
ghost use Rattle.kumir_meaning.specs.Runs.{input_as};
ghost use Rattle.stack_code.specs.Instructions.{unit_at};
ghost use Rattle.stack_code.specs.declared.instruction.Instruction.TheVariants as code;
ghost use Rattle.machine_steps.specs.Local.{is_local};
ghost use Rattle.machine_steps.specs.Frames.{line_of, AllValid, IsEntered};
ghost use Rattle.machine_steps.specs.Silent.{IsAtNonLocal};
ghost use Rattle.machine_steps.specs.NonLocals.{IsNonLocalCommand, IsNonLocal, IsNonLocalAt, IsLineAt, with_input};
ghost use Rattle.machine_steps.specs.Stages.{full_state_of, IsStage, Stops, StopsOrGoesOn, StaysStage, as_stop, size_of};

use crate::acted::Acted;
use crate::enter::leave;
use crate::running::Running;
use crate::silent::run_alone;
use crate::stage::{Question, Stage, Stop};
use km_base::Memory;
use kumir_tree::Kind;
use kumir_values::{EndKind, RunFault, Value};
use stack_code::{CodeLine, CodeUnit, CommandShape, Instruction, line_at};
use std::alloc::{AllocError, Global};

/// An instruction that concerns more than the algorithm that runs.
#[derive(Clone, Copy)]
pub enum NonLocal {
    Step,
    Asks(Question),
    Input(Kind, u32),
    Return(u32),
    Call,
}

/// A command of the Robot.
fn non_local_command(shape: CommandShape, line: u32) -> NonLocal
    requires { is_local (code.Ask shape) ≡ false }
    ensures { IsNonLocalCommand shape line result }
{
    match shape {
        CommandShape::Robot(command) => NonLocal::Asks(Question { command, line }),
        CommandShape::Pen(_) => unreachable!(),
    }
}

/// An instruction that concerns more than the algorithm alone.
fn non_local_of(line: &CodeLine) -> NonLocal
    requires { is_local line.now.what ≡ false }
    ensures { IsNonLocal line.now result }
{
    match &line.what {
        Instruction::Step => NonLocal::Step,
        Instruction::Ask(shape) => non_local_command(*shape, line.line),
        Instruction::Input(kind) => NonLocal::Input(*kind, line.line),
        Instruction::Return => NonLocal::Return(line.line),
        Instruction::Call(_, _) => NonLocal::Call,
        _ => unreachable!(),
    }
}

/// The instruction that stands where an algorithm runs.
fn non_local_in(units: &[CodeUnit], running: &Running) -> NonLocal
    requires entered { IsEntered units.now running.now }
    requires stands { IsAtNonLocal (unit_at units.now running.now.unit) running.now.pc }
    ensures non_local { IsNonLocalAt (line_of units.now running.now running.now.pc) result }
    ensures room { running.now.pc + 1 < 2 ^ 64 }
{
    let unit = &units[running.unit as usize];
    match line_at(unit.body.as_slice(), running.pc) {
        Some(line) => non_local_of(line),
        None => unreachable!(),
    }
}

/// An input as a value of a kind.
fn value_as(kind: Kind, value: Value) -> Result<Value, RunFault>
    ensures { result ≡ input_as kind value }
{
    match (kind, value) {
        (Kind::Whole, Value::Whole(_)) | (Kind::Truth, Value::Truth(_)) => Ok(value),
        (Kind::Whole, Value::Truth(_)) | (Kind::Truth, Value::Whole(_)) => Err(RunFault::InputType),
    }
}

/// The next input, if one is left.
fn next_input(stage: &Stage) -> Option<Value>
    ensures value { result ≡ slice_get stage.now.inputs stage.now.taken }
    ensures room { IfSome result (λ value. stage.now.taken + 1 < 2 ^ 64) }
{
    stage.inputs.as_slice().get(stage.taken).copied()
}

/// Takes the next input.
fn take_input(stage: &mut Stage, value: Value) -> Result<(), AllocError>
    requires place { stage.old.running.pc + 1 < 2 ^ 64 }
    requires left { stage.old.taken + 1 < 2 ^ 64 }
    ensures taken { OnOk result (stage.new ≡ with_input stage.old value) }
    ensures inputs { stage.new.inputs ≡ stage.old.inputs }
{
    stage.running.operands.push(value)?;
    stage.running.pc += 1;
    stage.taken += 1;
    Ok(())
}

/// Pushes the next input of a kind, or the run is over.
fn input(
    units: &[CodeUnit],
    stage: &mut Stage,
    kind: Kind,
    line: u32,
) -> Result<Option<Stop>, Memory>
    requires valid { AllValid units.now }
    requires stage { IsStage units.now stage.old }
    requires there { IsLineAt units.now stage.old.running (code.Input kind) line }
    requires room { stage.old.running.pc + 1 < 2 ^ 64 }
    ensures turns { IfOk result (λ stop. StopsOrGoesOn units.now (full_state_of units.now stage.old) stop (full_state_of units.now stage.new)) }
    ensures stage { IfOk result (λ stop. StaysStage units.now stop stage.new) }
    ensures fewer { IfOk result (λ stop. IfNone stop (size_of stage.new < size_of stage.old)) }
    ensures inputs { stage.new.inputs ≡ stage.old.inputs }
{
    let Some(value) = next_input(stage) else {
        return Ok(Some(Stop::Over(EndKind::Fault {
            line,
            fault: RunFault::NoInput,
        })));
    };
    match value_as(kind, value) {
        Ok(value) => {
            take_input(stage, value)?;
            Ok(None)
        }
        Err(fault) => Ok(Some(Stop::Over(EndKind::Fault { line, fault }))),
    }
}

/// An end as a stop.
fn stop_at(end: Option<EndKind>) -> Option<Stop>
    ensures { result ≡ as_stop end }
{
    match end {
        Some(end) => Some(Stop::Over(end)),
        None => None,
    }
}

/// Returns from the algorithm that runs.
fn come_back(
    alloc: Global,
    units: &[CodeUnit],
    stage: &mut Stage,
    line: u32,
) -> Result<Option<Stop>, Memory>
    requires valid { AllValid units.now }
    requires stage { IsStage units.now stage.old }
    requires there { IsLineAt units.now stage.old.running code.Return line }
    ensures turns { IfOk result (λ stop. StopsOrGoesOn units.now (full_state_of units.now stage.old) stop (full_state_of units.now stage.new)) }
    ensures stage { IfOk result (λ stop. StaysStage units.now stop stage.new) }
    ensures fewer { IfOk result (λ stop. IfNone stop (size_of stage.new < size_of stage.old)) }
    ensures inputs { stage.new.inputs ≡ stage.old.inputs }
{
    let end = leave(alloc, units, &mut stage.running, &mut stage.waiting, line)?;
    Ok(stop_at(end))
}

/// Carries out the instruction that concerns more than the algorithm alone.
fn carry_out_non_local(
    alloc: Global,
    units: &[CodeUnit],
    stage: &mut Stage,
) -> Result<Option<Stop>, Memory>
    requires valid { AllValid units.now }
    requires stage { IsStage units.now stage.old }
    requires stands { IsAtNonLocal (unit_at units.now stage.old.running.unit) stage.old.running.pc }
    ensures turns { IfOk result (λ stop. StopsOrGoesOn units.now (full_state_of units.now stage.old) stop (full_state_of units.now stage.new)) }
    ensures stage { IfOk result (λ stop. StaysStage units.now stop stage.new) }
    ensures fewer { IfOk result (λ stop. IfNone stop (size_of stage.new < size_of stage.old)) }
    ensures inputs { stage.new.inputs ≡ stage.old.inputs }
{
    match non_local_in(units, &stage.running) {
        NonLocal::Step => Ok(Some(Stop::Step)),
        NonLocal::Asks(question) => Ok(Some(Stop::Asks(question))),
        NonLocal::Input(kind, line) => input(units, stage, kind, line),
        NonLocal::Return(line) => come_back(alloc, units, stage, line),
        NonLocal::Call => unreachable!(),
    }
}

/// Instructions of one algorithm, and the one behind them that concerns more than it alone.
fn pass_non_local(
    alloc: Global,
    units: &[CodeUnit],
    stage: &mut Stage,
) -> Result<Option<Stop>, Memory>
    requires valid { AllValid units.now }
    requires stage { IsStage units.now stage.old }
    ensures turns { IfOk result (λ stop. StopsOrGoesOn units.now (full_state_of units.now stage.old) stop (full_state_of units.now stage.new)) }
    ensures stage { IfOk result (λ stop. StaysStage units.now stop stage.new) }
    ensures fewer { IfOk result (λ stop. IfNone stop (size_of stage.new < size_of stage.old)) }
    ensures inputs { stage.new.inputs ≡ stage.old.inputs }
{
    let unit = &units[stage.running.unit as usize];
    match run_alone(alloc, unit, &mut stage.running)? {
        Acted::Moved => {
            let stop = carry_out_non_local(alloc, units, stage)?;
            Ok(stop)
        }
        Acted::Printed(text) => Ok(Some(Stop::Printed(text))),
        Acted::Told(command) => Ok(Some(Stop::Told(command))),
        Acted::Over(end) => Ok(Some(Stop::Over(end))),
    }
}

/// Goes on until the run stops.
pub fn run_on(alloc: Global, units: &[CodeUnit], stage: &mut Stage) -> Result<Stop, Memory>
    requires valid { AllValid units.now }
    requires stage { IsStage units.now stage.old }
    ensures stops { IfOk result (λ stop. Stops units.now (full_state_of units.now stage.old) stop (full_state_of units.now stage.new)) }
    ensures stage { IfOk result (λ stop. StaysStage units.now (Some stop) stage.new) }
    ensures inputs { stage.new.inputs ≡ stage.old.inputs }
{
    loop {
        if let Some(stop) = pass_non_local(alloc, units, stage)? {
            return Ok(stop);
        }
    }
}

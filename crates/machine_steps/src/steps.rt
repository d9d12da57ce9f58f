//! Steps of a run, until it shows something, is over, or has taken as many steps as it may.
ghost use Rattle.std.specs.Prelude.{◌≡◌, ◌<◌, ◌≤◌, ◌+◌, ◌-◌, ◌^◌, length, true, Some, None, IfOk, IfErr, IfNone};
ghost use Rattle.stack_code.specs.CodeRuns.{start};
ghost use Rattle.stack_code.specs.Validity.{is_call};
ghost use Rattle.machine_steps.specs.Progress.{at};
ghost use Rattle.machine_steps.specs.Frames.{line_of, AllValid, IsEntered};
ghost use Rattle.machine_steps.specs.Stages.{full_state_of, IsStage};
ghost use Rattle.stack_code.specs.Instructions.{unit_at};
ghost use Rattle.machine_steps.specs.Silent.{IsAtStep};
ghost use Rattle.machine_steps.specs.Quick.{ComesBy, NeedsBy};
ghost use Rattle.machine_steps.specs.Reaching.{stepped, Reaches, StepsToSome, NeedsEach, IsBehindStep, Enters, as_reached, IsStageAt, StepsIn};

use crate::enter::enter;
use crate::running::Running;
use crate::silent::go_quickly;
use crate::stage::{Question, Stage, Stop};
use crate::stops::run_on;
use km_base::Memory;
use kumir_tree::Chars;
use kumir_values::{EndKind, Values};
use performer_kit::PenCommand;
use stack_code::{CodeLine, CodeUnit, Instruction, is_call_line, line_at};
use std::alloc::Global;

/// What a run came to.
#[derive(Drop)]
pub enum Reached {
    /// An output.
    Printed(Chars),
    /// A command to the Draughtsman.
    Told(PenCommand),
    /// A command of the Robot, whose reply it awaits.
    Asks(Question),
    /// Its end.
    Over(EndKind),
    /// As many steps as it may take for now, and one more is needed.
    Paused,
    /// As many steps as it may take at all, and one more is needed.
    Spent,
}

/// The begin of a run in a unit, with its inputs.
pub fn begin_run(
    alloc: Global,
    units: &[CodeUnit],
    entry: u32,
    inputs: Values,
) -> Result<Stage, Memory>
    requires valid { AllValid units.now }
    requires there { entry < length units.now }
    ensures stage { IfOk result (λ stage. IsStage units.now stage) }
    ensures begin { IfOk result (λ stage. full_state_of units.now stage ≡ at (start entry) inputs) }
    ensures inputs { IfOk result (λ stage. stage.inputs ≡ inputs) }
{
    let running = Running::begin(alloc, entry, &units[entry as usize])?;
    Ok(Stage {
        running,
        waiting: Vec::new(alloc),
        inputs,
        taken: 0,
    })
}

/// Enters the unit of the call that stands next. The end of the run where that can't be.
fn enter_at(
    alloc: Global,
    units: &[CodeUnit],
    stage: &mut Stage,
    line: &CodeLine,
) -> Result<Option<EndKind>, Memory>
    requires valid { AllValid units.now }
    requires stage { IsBehindStep units.now stage.old }
    requires there { line_of units.now stage.old.running stage.old.running.pc ≡ Some line.now }
    requires call { is_call (Some line.now) ≡ true }
    requires room { stage.old.running.pc + 1 < 2 ^ 64 }
    ensures enters { IfOk result (λ end. Enters units.now (full_state_of units.now stage.old) end (full_state_of units.now stage.new)) }
    ensures stage { IfOk result (λ end. IfNone end (IsStage units.now stage.new)) }
    ensures inputs { stage.new.inputs ≡ stage.old.inputs }
{
    match &line.what {
        Instruction::Call(number, places) => {
            let end = enter(
                alloc,
                units,
                &mut stage.running,
                &mut stage.waiting,
                *number,
                places.as_slice(),
                line.line,
            )?;
            Ok(end)
        }
        _ => unreachable!(),
    }
}

/// Enters the unit of a call, where one stands next. The end of the run where that can't be.
fn enter_next(
    alloc: Global,
    units: &[CodeUnit],
    stage: &mut Stage,
) -> Result<Option<EndKind>, Memory>
    requires valid { AllValid units.now }
    requires stage { IsBehindStep units.now stage.old }
    ensures enters { IfOk result (λ end. Enters units.now (full_state_of units.now stage.old) end (full_state_of units.now stage.new)) }
    ensures stage { IfOk result (λ end. IfNone end (IsStage units.now stage.new)) }
    ensures inputs { stage.new.inputs ≡ stage.old.inputs }
{
    let unit = &units[stage.running.unit as usize];
    let Some(line) = line_at(unit.body.as_slice(), stage.running.pc) else {
        return Ok(None);
    };
    if !is_call_line(line) {
        return Ok(None);
    }
    let end = enter_at(alloc, units, stage, line)?;
    Ok(end)
}

/// Goes behind the step that stands there.
fn take_step(units: &[CodeUnit], running: &mut Running)
    requires entered { IsEntered units.now running.old }
    requires there { (line_of units.now running.old running.old.pc ≡ None) → ⊥ }
    ensures { running.new ≡ stepped running.old }
{
    let unit = &units[running.unit as usize];
    match line_at(unit.body.as_slice(), running.pc) {
        Some(_) => running.pc += 1,
        None => unreachable!(),
    }
}

/// Takes the step that stands there, and those behind it as far as the quick path leads, at most so many: how many it
/// took.
fn take_steps(units: &[CodeUnit], running: &mut Running, most: u32) -> u32
    requires valid { AllValid units.now }
    requires entered { IsEntered units.now running.old }
    requires step { IsAtStep (unit_at units.now running.old.unit) running.old.pc }
    requires some { 1 ≤ most }
    ensures comes { ComesBy units.now result running.old running.new }
    ensures needed { NeedsBy units.now result running.old }
    ensures entered { IsEntered units.now running.new }
    ensures some { 1 ≤ result }
    ensures few { result ≤ most }
{
    take_step(units, running);
    let unit = &units[running.unit as usize];
    let more = go_quickly(unit, running, most - 1);
    more + 1
}

/// What a run came to where it stops before anything but a step.
fn reached_at(stop: Stop) -> Option<Reached>
    ensures { result ≡ as_reached stop }
{
    match stop {
        Stop::Printed(text) => Some(Reached::Printed(text)),
        Stop::Told(command) => Some(Reached::Told(command)),
        Stop::Asks(question) => Some(Reached::Asks(question)),
        Stop::Over(end) => Some(Reached::Over(end)),
        Stop::Step => None,
    }
}

/// Takes steps until the run shows something, is over, or may take no more steps: `most` in this call, and `budget` in all.
pub fn run_steps(
    alloc: Global,
    units: &[CodeUnit],
    stage: &mut Stage,
    steps: &mut u32,
    budget: u32,
    most: u32,
) -> Result<Reached, Memory>
    requires valid { AllValid units.now }
    requires stage { IsStage units.now stage.old }
    requires within { steps.old ≤ budget }
    ensures reaches { IfOk result (λ reached. Reaches units.now (full_state_of units.now stage.old) (steps.new - steps.old) reached (full_state_of units.now stage.new)) }
    ensures stage { IfOk result (λ reached. IsStageAt units.now reached stage.new) }
    ensures steps { IfOk result (λ reached. StepsIn steps.old steps.new budget most reached) }
    ensures needed { NeedsEach units.now (full_state_of units.now stage.old) (steps.new - steps.old) }
    ensures refused { IfErr result (λ refused. StepsToSome units.now (full_state_of units.now stage.old) (steps.new - steps.old)) }
    ensures rise { steps.old ≤ steps.new }
    ensures within { steps.new ≤ budget }
    ensures few { steps.new ≤ steps.old + most }
    ensures inputs { stage.new.inputs ≡ stage.old.inputs }
{
    let mut taken: u32 = 0;
    loop {
        let stop = run_on(alloc, units, stage)?;
        if let Some(reached) = reached_at(stop) {
            return Ok(reached);
        }
        if *steps == budget {
            return Ok(Reached::Spent);
        }
        if taken == most {
            return Ok(Reached::Paused);
        }
        let room = (most - taken).min(budget - *steps);
        let more = take_steps(units, &mut stage.running, room);
        *steps += more;
        taken += more;
        if let Some(end) = enter_next(alloc, units, stage)? {
            return Ok(Reached::Over(end));
        }
    }
}

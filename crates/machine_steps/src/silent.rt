//! The instructions of one algorithm, until it needs the outside or another algorithm.
ghost use Rattle.std.specs.Prelude.{◌≡◌, ◌≤◌, List, length, true, IfOk};
ghost use Rattle.stack_code.specs.Instructions.{unit_at};
ghost use Rattle.stack_code.specs.declared.instruction.Instruction.TheVariants as code;
ghost use Rattle.stack_code.specs.declared.unit.CodeUnit.{CodeUnit};
ghost use Rattle.machine_steps.specs.Local.{is_local};
ghost use Rattle.machine_steps.specs.Frames.{IsReady};
ghost use Rattle.machine_steps.specs.Silent.{GoesOn, MovedToNonLocal, KeepsPast, KeepsUnit};
ghost use Rattle.machine_steps.specs.Quick.{at_place, ComesOn, NeedsOn};
ghost use Rattle.machine_steps.specs.declared.acted.Acted.TheVariants as did;

use crate::acted::Acted;
use crate::carrying::carry_out;
use crate::quick::quick;
use crate::running::Running;
use km_base::Memory;
use kumir_values::EndKind;
use stack_code::{CodeLine, CodeUnit, CommandShape, Instruction, line_at};
use std::alloc::Global;

/// Whether a command is the Draughtsman's.
fn is_pen(shape: CommandShape) -> bool
    ensures { result ≡ is_local (code.Ask shape) }
{
    match shape {
        CommandShape::Pen(_) => true,
        CommandShape::Robot(_) => false,
    }
}

/// Whether an instruction concerns the algorithm alone.
fn is_alone(what: &Instruction) -> bool
    ensures { result ≡ is_local what.now }
{
    match what {
        Instruction::Step | Instruction::Input(_) | Instruction::Call(_, _) | Instruction::Return =>
            false,
        Instruction::Ask(shape) => is_pen(*shape),
        _ => true,
    }
}

/// Carries out instructions one by one as long as they concern the algorithm alone and show nothing. `Moved` where it stands at another one.
fn run_each(alloc: Global, unit: &CodeUnit, running: &mut Running) -> Result<Acted, Memory>
    requires ready { IsReady unit.now }
    requires slots { length running.old.slots ≡ length unit.now.slots }
    ensures goes { IfOk result (λ acted. (units : List CodeUnit) → unit_at units running.old.unit ≡ unit.now → GoesOn units acted running.old running.new) }
    ensures stands { IfOk result (λ acted. MovedToNonLocal unit.now acted running.new) }
    ensures past { IfOk result (λ acted. KeepsPast unit.now acted running.old running.new) }
    ensures slots { length running.new.slots ≡ length running.old.slots }
    ensures unit { IfOk result (λ acted. KeepsUnit acted running.old running.new) }
{
    loop {
        let Some(line) = line_at(unit.body.as_slice(), running.pc) else {
            return Ok(Acted::Over(EndKind::Done));
        };
        if !is_alone(&line.what) {
            return Ok(Acted::Moved);
        }
        match carry_out(alloc, running, &line.what, line.line)? {
            Acted::Moved => {}
            acted => return Ok(acted),
        }
    }
}

/// Whether a line is a step.
#[inline(always)]
fn is_step_line(line: &CodeLine) -> bool
    ensures { result ≡ true → line.now.what ≡ code.Step }
{
    matches!(line.what, Instruction::Step)
}

/// Carries out instructions and takes steps as long as the quick path has them, at most so many steps: the place behind
/// them, and how many steps it took.
#[inline(always)]
fn run_quickly(unit: &CodeUnit, running: &mut Running, most: u32) -> (usize, u32)
    requires ready { IsReady unit.now }
    requires slots { length running.old.slots ≡ length unit.now.slots }
    ensures comes { ComesOn unit.now result.1 running.old (at_place running.new result.0) }
    ensures needed { NeedsOn unit.now result.1 running.old }
    ensures past { result.1 ≡ 0 → KeepsPast unit.now did.Moved running.old (at_place running.new result.0) }
    ensures few { result.1 ≤ most }
    ensures slots { length running.new.slots ≡ length running.old.slots }
    ensures unit { running.new.unit ≡ running.old.unit }
{
    let mut pc = running.pc;
    let mut taken: u32 = 0;
    loop {
        let Some(line) = line_at(unit.body.as_slice(), pc) else {
            return (pc, taken);
        };
        match quick(running, pc, &line.what) {
            Some(next) => pc = next,
            None => {
                if taken == most || !is_step_line(line) {
                    return (pc, taken);
                }
                pc += 1;
                taken += 1;
            }
        }
    }
}

/// Goes on as long as the quick path leads, with at most so many steps: how many it took.
#[inline(never)]
pub fn go_quickly(unit: &CodeUnit, running: &mut Running, most: u32) -> u32
    requires ready { IsReady unit.now }
    requires slots { length running.old.slots ≡ length unit.now.slots }
    ensures comes { ComesOn unit.now result running.old running.new }
    ensures needed { NeedsOn unit.now result running.old }
    ensures past { result ≡ 0 → KeepsPast unit.now did.Moved running.old running.new }
    ensures few { result ≤ most }
    ensures slots { length running.new.slots ≡ length running.old.slots }
    ensures unit { running.new.unit ≡ running.old.unit }
{
    let (pc, taken) = run_quickly(unit, running, most);
    running.pc = pc;
    taken
}

/// Carries out instructions as long as they concern the algorithm alone and show nothing, the first of them on the quick
/// path. `Moved` where it stands at another one.
pub fn run_alone(alloc: Global, unit: &CodeUnit, running: &mut Running) -> Result<Acted, Memory>
    requires ready { IsReady unit.now }
    requires slots { length running.old.slots ≡ length unit.now.slots }
    ensures goes { IfOk result (λ acted. (units : List CodeUnit) → unit_at units running.old.unit ≡ unit.now → GoesOn units acted running.old running.new) }
    ensures stands { IfOk result (λ acted. MovedToNonLocal unit.now acted running.new) }
    ensures past { IfOk result (λ acted. KeepsPast unit.now acted running.old running.new) }
    ensures slots { length running.new.slots ≡ length running.old.slots }
    ensures unit { IfOk result (λ acted. KeepsUnit acted running.old running.new) }
{
    let _ = go_quickly(unit, running, 0);
    run_each(alloc, unit, running)
}

//! Calls and returns: the algorithms that are entered one inside another.
ghost use Rattle.std.specs.Prelude.{◌≡◌, ◌<◌, ◌-◌, ◌+◌, ◌^◌, ◌++◌, ◌∷◌, [], length, All, IfOk, IfNone, OnOk, MatchOption};
ghost use Rattle.kumir_meaning.specs.Runs.{usual};
ghost use Rattle.stack_code.specs.Instructions.{unit_at, enters_unit, copied_to_places, event_of};
ghost use Rattle.stack_code.specs.declared.instruction.Instruction.TheVariants as code;
ghost use Rattle.machine_steps.specs.Acting.{Acts, ended};
ghost use Rattle.machine_steps.specs.States.{slots_of};
ghost use Rattle.machine_steps.specs.Returns.{pushed};
ghost use Rattle.machine_steps.specs.Frames.{behind_call, places_in, line_of, state_in, IsCallAt, AllValid, IsEntered, IsPastCalls, Waits};

use crate::calls::{begin_call, count_operands};
use crate::returns::{answer_of, copy_out};
use crate::running::Running;
use km_base::Memory;
use km_base::limits::CALL_DEPTH;
use kumir_values::{EndKind, RunFault, Value};
use stack_code::{CallPlace, CodeUnit, Instruction, ParamSlot, line_at};
use std::alloc::{AllocError, Global};
use std::mem;

/// Lets the algorithm that runs wait behind its call, which takes so many operands, and another one run.
fn step_aside(
    running: &mut Running,
    waiting: &mut Vec<Running>,
    begun: Running,
    count: usize,
) -> Result<(), AllocError>
    requires { running.old.pc + 1 < 2 ^ 64 }
    ensures running { OnOk result (running.new ≡ begun) }
    ensures waiting { OnOk result (waiting.new.items ≡ waiting.old.items ++ behind_call running.old count ∷ []) }
{
    running.operands.discard(count);
    running.pc += 1;
    let caller = mem::replace(running, begun);
    waiting.push(caller)?;
    Ok(())
}

/// Takes the last algorithm that waits.
fn last_waiting(waiting: &mut Vec<Running>) -> Option<Running>
    ensures { MatchOption result ((waiting.old.items ≡ []) × (waiting.new.items ≡ [])) (λ caller. waiting.old.items ≡ waiting.new.items ++ caller ∷ []) }
{
    waiting.pop()
}

/// Enters the unit of a call that stands where the algorithm runs, which waits behind it. The end of the run where that can't be.
pub fn enter(
    alloc: Global,
    units: &[CodeUnit],
    running: &mut Running,
    waiting: &mut Vec<Running>,
    number: u32,
    places: &[CallPlace],
    line: u32,
) -> Result<Option<EndKind>, Memory>
    requires valid { AllValid units.now }
    requires here { IsEntered units.now running.old }
    requires call { IsCallAt (line_of units.now running.old running.old.pc) number places.now }
    requires room { running.old.pc + 1 < 2 ^ 64 }
    requires waits { All (Waits units.now) waiting.old.items }
    ensures acts { IfOk result (λ end. Acts (enters_unit usual (unit_at units.now number) number places.now line (state_in units.now running.old waiting.old.items)) (ended end) (state_in units.now running.new waiting.new.items)) }
    ensures here { IfOk result (λ end. IfNone end (IsEntered units.now running.new)) }
    ensures past { IfOk result (λ end. IfNone end (IsPastCalls units.now running.new)) }
    ensures waits { IfOk result (λ end. IfNone end (All (Waits units.now) waiting.new.items)) }
{
    if waiting.as_slice().len() + 1 >= CALL_DEPTH as usize {
        return Ok(Some(EndKind::Fault {
            line,
            fault: RunFault::Depth,
        }));
    }
    let callee = &units[number as usize];
    match begin_call(alloc, callee, number, places, running)? {
        Ok(begun) => {
            let count = count_operands(callee.params.as_slice(), places);
            step_aside(running, waiting, begun, count)?;
            Ok(None)
        }
        Err(fault) => Ok(Some(EndKind::Fault { line, fault })),
    }
}

/// The places of the call behind which an algorithm waits.
fn places_behind<'a>(units: &'a [CodeUnit], waiting: &Running) -> &'a [CallPlace]
    requires { IsEntered units.now waiting.now }
    ensures { result.now ≡ places_in (line_of units.now waiting.now (waiting.now.pc - 1)) }
{
    let unit = &units[waiting.unit as usize];
    match line_at(unit.body.as_slice(), waiting.pc.saturating_sub(1)) {
        Some(line) => match &line.what {
            Instruction::Call(_, places) => places.as_slice(),
            _ => &[],
        },
        None => &[],
    }
}

/// Goes on behind a call: `рез` and `аргрез` are copied out, and the value of a kind is pushed.
fn go_back(
    alloc: Global,
    units: &[CodeUnit],
    running: &mut Running,
    caller: Running,
    params: &[ParamSlot],
    answer: Option<Value>,
) -> Result<(), Memory>
    requires waits { Waits units.now caller }
    requires valid { AllValid units.now }
    requires params { All (λ p. p.slot < length running.old.slots) params.now }
    ensures unit { OnOk result (running.new.unit ≡ caller.unit) }
    ensures place { OnOk result (running.new.pc ≡ caller.pc) }
    ensures operands { OnOk result (running.new.operands ≡ pushed answer caller.operands) }
    ensures slots { OnOk result (slots_of running.new.slots ≡ copied_to_places params.now (places_in (line_of units.now caller (caller.pc - 1))) (slots_of running.old.slots) (slots_of caller.slots)) }
    ensures count { OnOk result (length running.new.slots ≡ length caller.slots) }
    ensures used { OnOk result (running.new.used ≡ caller.used) }
{
    let places = places_behind(units, &caller);
    let mut left = mem::replace(running, caller);
    copy_out(alloc, &mut running.slots, params, places, &mut left.slots)?;
    if let Some(value) = answer {
        running.operands.push(value)?;
    }
    Ok(())
}

/// Returns from the algorithm that runs. The end of the run where no call waits, or there is a fault.
pub fn leave(
    alloc: Global,
    units: &[CodeUnit],
    running: &mut Running,
    waiting: &mut Vec<Running>,
    line: u32,
) -> Result<Option<EndKind>, Memory>
    requires valid { AllValid units.now }
    requires here { IsEntered units.now running.old }
    requires waits { All (Waits units.now) waiting.old.items }
    ensures acts { IfOk result (λ end. Acts (event_of usual units.now code.Return line (state_in units.now running.old waiting.old.items)) (ended end) (state_in units.now running.new waiting.new.items)) }
    ensures here { IfOk result (λ end. IfNone end (IsEntered units.now running.new)) }
    ensures past { IfOk result (λ end. IfNone end (IsPastCalls units.now running.new)) }
    ensures waits { IfOk result (λ end. IfNone end (All (Waits units.now) waiting.new.items)) }
    ensures fewer { IfOk result (λ end. IfNone end (length waiting.new.items < length waiting.old.items)) }
{
    let unit = &units[running.unit as usize];
    let answer = match answer_of(&running.slots, unit.gives) {
        Ok(answer) => answer,
        Err(fault) => return Ok(Some(EndKind::Fault { line, fault })),
    };
    match last_waiting(waiting) {
        Some(caller) => {
            go_back(
                alloc,
                units,
                running,
                caller,
                unit.params.as_slice(),
                answer,
            )?;
            Ok(None)
        }
        None => Ok(Some(EndKind::Done)),
    }
}

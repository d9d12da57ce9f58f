//! Instructions of loops.
ghost use Rattle.std.specs.Prelude.{◌≡◌, ◌<◌, ◌+◌, ◌^◌, ◌+ℤ◌, [], length, true, false, Some, None, IfOk, IfSome};
ghost use Rattle.kumir_meaning.specs.Loops.{past};
ghost use Rattle.kumir_meaning.specs.Runs.{usual};
ghost use Rattle.stack_code.specs.Instructions.{event_of, set_variable};
ghost use Rattle.stack_code.specs.declared.instruction.Instruction.TheVariants as code;
ghost use Rattle.machine_steps.specs.States.{state_of, slots_of};
ghost use Rattle.machine_steps.specs.Acting.{Carries};
ghost use Rattle.machine_steps.specs.Loops.{IsNear, turned};

use crate::acted::Acted;
use crate::held::{Numbers, Turns};
use crate::running::Running;
use crate::slots::Slots;
use crate::values::{number_in, turns_asked};
use km_base::Memory;
use kumir_values::{EndKind, RunFault, Value};

/// Pops the count of turns into a slot.
pub fn begin_times(running: &mut Running, slot: u32) -> Result<Acted, Memory>
    requires there { slot < length running.old.slots }
    requires room { running.old.pc + 1 < 2 ^ 64 }
    ensures acts { IfOk result (λ acted. Carries (λ frames. event_of usual [] (code.Times slot) 0 (state_of running.old frames)) acted running.new) }
    ensures count { length running.new.slots ≡ length running.old.slots }
{
    let count = turns_asked(running.operands.pop());
    running.slots.put_turns(slot, Turns::Left(count));
    running.pc += 1;
    Ok(Acted::Moved)
}

/// The numbers of a loop at its begin.
fn numbers_from(first: i32, last: i32, step: i32) -> Numbers
    ensures next { result.next ≡ first }
    ensures last { result.last ≡ last }
    ensures step { result.step ≡ step }
{
    Numbers {
        next: i64::from(first),
        last,
        step,
    }
}

/// The number of the turn after this one, which is not past the last.
#[inline(always)]
fn further(next: i64, last: i32, step: i32) -> i64
    requires near { IsNear next step }
    requires before { past next last step ≡ false }
    ensures { result ≡ next +ℤ step }
{
    next + i64::from(step)
}

/// One step behind a number that is not past the last one is near.
#[tactic(auto, using(crate::proofs::LoopTurns::near_next))]
fn stays_near(next: i64, last: i32, step: i32, following: i64)
    requires near { IsNear next step }
    requires before { past next last step ≡ false }
    requires sum { following ≡ next +ℤ step }
    ensures { IsNear following step }
{}

/// The numbers of a loop after one more turn.
#[inline(always)]
fn following(numbers: Numbers) -> Numbers
    requires { past numbers.next numbers.last numbers.step ≡ false }
    ensures next { result.next ≡ numbers.next +ℤ numbers.step }
    ensures last { result.last ≡ numbers.last }
    ensures step { result.step ≡ numbers.step }
{
    let next = further(numbers.next, numbers.last, numbers.step);
    stays_near(numbers.next, numbers.last, numbers.step, next);
    Numbers {
        next,
        last: numbers.last,
        step: numbers.step,
    }
}

/// The number of a turn as a value of `цел`.
#[inline(always)]
fn number_of_turn(numbers: Numbers) -> i32
    requires { past numbers.next numbers.last numbers.step ≡ false }
    ensures { result ≡ numbers.next }
{
    numbers.next as i32
}

/// Pops the first number of a loop, the last one and the step into a slot.
#[tactic(auto, using(crate::proofs::OperandLists::three_left))]
pub fn begin_turns(running: &mut Running, slot: u32, line: u32) -> Result<Acted, Memory>
    requires there { slot < length running.old.slots }
    requires room { running.old.pc + 1 < 2 ^ 64 }
    ensures acts { IfOk result (λ acted. Carries (λ frames. event_of usual [] (code.Turns slot) line (state_of running.old frames)) acted running.new) }
    ensures count { length running.new.slots ≡ length running.old.slots }
{
    let step = number_in(running.operands.pop());
    let last = number_in(running.operands.pop());
    let first = number_in(running.operands.pop());
    if step == 0 {
        return Ok(Acted::Over(EndKind::Fault {
            line,
            fault: RunFault::StepZero,
        }));
    }
    let turns = Turns::Numbers(numbers_from(first, last, step));
    running.slots.put_turns(slot, turns);
    running.pc += 1;
    Ok(Acted::Moved)
}

/// Whether the number of a turn lies past the last one.
#[inline(always)]
fn is_past(number: i64, last: i32, step: i32) -> bool
    ensures { result ≡ past number last step }
{
    if step < 0 {
        number < i64::from(last)
    } else {
        i64::from(last) < number
    }
}

/// Sets the variable of a loop, if it has one.
#[inline(always)]
fn set_number(slots: &mut Slots, variable: Option<u32>, number: i32)
    requires { IfSome variable (λ v. v < length slots.old) }
    ensures slots { slots_of slots.new ≡ set_variable variable number (slots_of slots.old) }
    ensures count { length slots.new ≡ length slots.old }
{
    if let Some(variable) = variable {
        slots.put_value(variable, Value::Whole(number));
    }
}

/// One turn of a loop, if one is left; else nothing changes.
#[inline(always)]
#[tactic(auto, using(crate::proofs::LoopTurns::turn_none, crate::proofs::LoopTurns::turn_zero, crate::proofs::LoopTurns::turn_left, crate::proofs::LoopTurns::turn_past, crate::proofs::LoopTurns::turn_number))]
pub fn turn(slots: &mut Slots, slot: u32, variable: Option<u32>) -> bool
    requires there { slot < length slots.old }
    requires variable { IfSome variable (λ v. v < length slots.old) }
    ensures one { result ≡ true → turned (slots_of slots.old slot) slot variable (slots_of slots.old) ≡ Some (slots_of slots.new) }
    ensures none { result ≡ false → turned (slots_of slots.old slot) slot variable (slots_of slots.old) ≡ None }
    ensures kept { result ≡ false → slots_of slots.new ≡ slots_of slots.old }
    ensures count { length slots.new ≡ length slots.old }
{
    match slots.turns(slot) {
        None => false,
        Some(Turns::Left(count)) => {
            if count == 0 {
                return false;
            }
            slots.put_turns(slot, Turns::Left(count - 1));
            true
        }
        Some(Turns::Numbers(numbers)) => {
            if is_past(numbers.next, numbers.last, numbers.step) {
                return false;
            }
            slots.put_turns(slot, Turns::Numbers(following(numbers)));
            set_number(slots, variable, number_of_turn(numbers));
            true
        }
    }
}

/// The next turn of a loop, or the place behind it.
#[tactic(auto, using(crate::proofs::LoopTurns::goes_on, crate::proofs::LoopTurns::goes_away))]
pub fn next_turn(
    running: &mut Running,
    slot: u32,
    variable: Option<u32>,
    place: u32,
) -> Result<Acted, Memory>
    requires room { running.old.pc + 1 < 2 ^ 64 }
    requires there { slot < length running.old.slots }
    requires variable { IfSome variable (λ v. v < length running.old.slots) }
    ensures acts { IfOk result (λ acted. Carries (λ frames. event_of usual [] (code.Next slot variable place) 0 (state_of running.old frames)) acted running.new) }
    ensures count { length running.new.slots ≡ length running.old.slots }
{
    if turn(&mut running.slots, slot, variable) {
        running.pc += 1;
    } else {
        running.pc = place as usize;
    }
    Ok(Acted::Moved)
}

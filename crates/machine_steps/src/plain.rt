//! Instructions on the operands and slots of the algorithm that runs.
ghost use Rattle.std.specs.Prelude.{◌≡◌, ◌<◌, ◌+◌, ◌^◌, ◌∷◌, [], List, Ok, not, IfOk, reverse, take, drop, length};
ghost use Rattle.kumir_meaning.specs.Operators.{combined, negated, applied, is_yes};
ghost use Rattle.stack_code.specs.CodeState.{top, rest, next};
ghost use Rattle.stack_code.specs.Instructions.{pushes_result, operates, applies, event_of, Go};
ghost use Rattle.stack_code.specs.declared.instruction.Instruction.TheVariants as code;
ghost use Rattle.kumir_meaning.specs.Runs.{usual};
ghost use Rattle.kumir_values.specs.declared.value.Value.TheVariants as Value;
ghost use Rattle.machine_steps.specs.States.{state_of, slots_of};
ghost use Rattle.machine_steps.specs.Acting.{Carries};

use crate::acted::Acted;
use crate::held::{Cell, Held};
use crate::operands::Operands;
use crate::running::Running;
use crate::values::{apply_to, combine, is_yes_value, negate};
use km_base::Memory;
use kumir_names::BuiltIn;
use kumir_tree::Op;
use kumir_values::{EndKind, RunFault, Value};

/// Pushes what was got and goes on, or ends with its fault.
pub fn push_or_end(
    running: &mut Running,
    line: u32,
    got: Result<Value, RunFault>,
) -> Result<Acted, Memory>
    requires { running.old.pc + 1 < 2 ^ 64 }
    ensures acts { IfOk result (λ acted. Carries (λ frames. pushes_result got line (state_of running.old frames) running.old.operands) acted running.new) }
    ensures count { length running.new.slots ≡ length running.old.slots }
{
    match got {
        Ok(value) => {
            running.operands.push(value)?;
            running.pc += 1;
            Ok(Acted::Moved)
        }
        Err(fault) => Ok(Acted::Over(EndKind::Fault { line, fault })),
    }
}

/// An operator over the two operands on top.
fn combine_top(operands: &mut Operands, op: Op) -> Result<Value, RunFault>
    ensures got { result ≡ combined op (top (rest operands.old)) (top operands.old) }
    ensures left { operands.new ≡ rest (rest operands.old) }
{
    let second = operands.pop();
    let first = operands.pop();
    combine(op, first, second)
}

/// An operator over the two operands on top.
pub fn operate(running: &mut Running, op: Op, line: u32) -> Result<Acted, Memory>
    requires { running.old.pc + 1 < 2 ^ 64 }
    ensures acts { IfOk result (λ acted. Carries (λ frames. operates op line (state_of running.old frames)) acted running.new) }
    ensures count { length running.new.slots ≡ length running.old.slots }
{
    let got = combine_top(&mut running.operands, op);
    push_or_end(running, line, got)
}

/// The operand on top with the other sign.
fn take_negated(operands: &mut Operands) -> Result<Value, RunFault>
    ensures got { result ≡ negated (top operands.old) }
    ensures left { operands.new ≡ rest operands.old }
{
    negate(operands.pop())
}

/// The operand on top with the other sign.
pub fn negate_top(running: &mut Running, line: u32) -> Result<Acted, Memory>
    requires { running.old.pc + 1 < 2 ^ 64 }
    ensures acts { IfOk result (λ acted. Carries (λ frames. event_of usual [] code.Neg line (state_of running.old frames)) acted running.new) }
    ensures count { length running.new.slots ≡ length running.old.slots }
{
    let got = take_negated(&mut running.operands);
    push_or_end(running, line, got)
}

/// A built-in algorithm on the operands on top.
fn apply_top(operands: &mut Operands, what: BuiltIn, count: usize) -> Result<Value, RunFault>
    ensures got { result ≡ applied what (reverse (take count operands.old)) }
    ensures left { operands.new ≡ drop count operands.old }
{
    let got = apply_to(what, operands.last(count));
    operands.discard(count);
    got
}

/// A built-in algorithm on the operands on top.
pub fn apply(running: &mut Running, what: BuiltIn, count: usize, line: u32) -> Result<Acted, Memory>
    requires { running.old.pc + 1 < 2 ^ 64 }
    ensures acts { IfOk result (λ acted. Carries (λ frames. applies what count line (state_of running.old frames)) acted running.new) }
    ensures count { length running.new.slots ≡ length running.old.slots }
{
    let got = apply_top(&mut running.operands, what, count);
    push_or_end(running, line, got)
}

/// Pushes a value.
pub fn push(running: &mut Running, value: Value) -> Result<Acted, Memory>
    requires { running.old.pc + 1 < 2 ^ 64 }
    ensures acts { IfOk result (λ acted. Carries (λ frames. Go (next (state_of running.old frames) (value ∷ running.old.operands))) acted running.new) }
    ensures count { length running.new.slots ≡ length running.old.slots }
{
    running.operands.push(value)?;
    running.pc += 1;
    Ok(Acted::Moved)
}

/// Takes the top away.
pub fn drop_top(running: &mut Running) -> Result<Acted, Memory>
    requires { running.old.pc + 1 < 2 ^ 64 }
    ensures acts { IfOk result (λ acted. Carries (λ frames. Go (next (state_of running.old frames) (rest running.old.operands))) acted running.new) }
    ensures count { length running.new.slots ≡ length running.old.slots }
{
    let _ = running.operands.pop();
    running.pc += 1;
    Ok(Acted::Moved)
}

/// `не` of the operand on top.
fn take_not(operands: &mut Operands) -> Result<Value, RunFault>
    ensures got { result ≡ Ok (Value.Truth (not (is_yes (top operands.old)))) }
    ensures left { operands.new ≡ rest operands.old }
{
    Ok(Value::Truth(!is_yes_value(operands.pop())))
}

/// `не` of the operand on top.
pub fn negate_truth(running: &mut Running, line: u32) -> Result<Acted, Memory>
    requires { running.old.pc + 1 < 2 ^ 64 }
    ensures acts { IfOk result (λ acted. Carries (λ frames. event_of usual [] code.Not line (state_of running.old frames)) acted running.new) }
    ensures count { length running.new.slots ≡ length running.old.slots }
{
    let got = take_not(&mut running.operands);
    push_or_end(running, line, got)
}

/// Pushes the value of a slot, or `unset`.
pub fn load(running: &mut Running, slot: u32, line: u32) -> Result<Acted, Memory>
    requires { running.old.pc + 1 < 2 ^ 64 }
    ensures acts { IfOk result (λ acted. Carries (λ frames. event_of usual [] (code.Load slot) line (state_of running.old frames)) acted running.new) }
    ensures count { length running.new.slots ≡ length running.old.slots }
{
    let value = running.slots.read(slot);
    push_or_end(running, line, value)
}

/// Pops a value into a slot.
pub fn store(running: &mut Running, slot: u32) -> Result<Acted, Memory>
    requires room { running.old.pc + 1 < 2 ^ 64 }
    requires there { slot < length running.old.slots }
    ensures acts { IfOk result (λ acted. Carries (λ frames. event_of usual [] (code.Store slot) 0 (state_of running.old frames)) acted running.new) }
    ensures count { length running.new.slots ≡ length running.old.slots }
{
    let value = running.operands.pop();
    running.slots.put_value(slot, value);
    running.pc += 1;
    Ok(Acted::Moved)
}

/// Takes the value of a slot away.
pub fn clear(running: &mut Running, slot: u32) -> Result<Acted, Memory>
    requires room { running.old.pc + 1 < 2 ^ 64 }
    requires there { slot < length running.old.slots }
    ensures acts { IfOk result (λ acted. Carries (λ frames. event_of usual [] (code.Clear slot) 0 (state_of running.old frames)) acted running.new) }
    ensures count { length running.new.slots ≡ length running.old.slots }
{
    running.slots.put(slot, Held::Plain(Cell::Empty));
    running.pc += 1;
    Ok(Acted::Moved)
}

/// Goes to a place.
pub fn jump(running: &mut Running, place: u32) -> Result<Acted, Memory>
    ensures acts { IfOk result (λ acted. Carries (λ frames. event_of usual [] (code.Jump place) 0 (state_of running.old frames)) acted running.new) }
    ensures count { length running.new.slots ≡ length running.old.slots }
{
    running.pc = place as usize;
    Ok(Acted::Moved)
}

/// Pops a truth value, and goes to a place on `нет`.
pub fn jump_on_no(running: &mut Running, place: u32) -> Result<Acted, Memory>
    requires { running.old.pc + 1 < 2 ^ 64 }
    ensures acts { IfOk result (λ acted. Carries (λ frames. event_of usual [] (code.JumpNo place) 0 (state_of running.old frames)) acted running.new) }
    ensures count { length running.new.slots ≡ length running.old.slots }
{
    if is_yes_value(running.operands.pop()) {
        running.pc += 1;
    } else {
        running.pc = place as usize;
    }
    Ok(Acted::Moved)
}

/// Pops a truth value; `нет` ends the run.
pub fn assert_top(running: &mut Running, line: u32) -> Result<Acted, Memory>
    requires { running.old.pc + 1 < 2 ^ 64 }
    ensures acts { IfOk result (λ acted. Carries (λ frames. event_of usual [] code.Assert line (state_of running.old frames)) acted running.new) }
    ensures count { length running.new.slots ≡ length running.old.slots }
{
    if is_yes_value(running.operands.pop()) {
        running.pc += 1;
        Ok(Acted::Moved)
    } else {
        Ok(Acted::Over(EndKind::Assert { line }))
    }
}

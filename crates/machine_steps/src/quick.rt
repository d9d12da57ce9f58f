//! A quick path for the instructions that are met most often. Where one goes on with what the operands and slots hold, it is carried out
//! here; else all is left as it is, for `carry_out`.
ghost use Rattle.std.specs.Prelude.{◌≡◌, ◌<◌, ◌≤◌, ◌+◌, ◌^◌, ℕ, length, true, Ok, IfSome, MatchOption, reverse, take};
ghost use Rattle.kumir_meaning.specs.Operators.{combined, applied};
ghost use Rattle.stack_code.specs.CodeState.{top, rest};
ghost use Rattle.stack_code.specs.Instructions.{operates, applies};
ghost use Rattle.stack_code.specs.declared.instruction.Instruction.TheVariants as code;
ghost use Rattle.machine_steps.specs.Local.{is_local, FitsIn};
ghost use Rattle.machine_steps.specs.Quick.{at_place, GoesTo, GoesOrStays, LeadsOrStays};

use crate::loops::turn;
use crate::operands::Operands;
use crate::quick_elements::{put_element, take_element};
use crate::running::Running;
use crate::values::{apply_to, combine, is_yes_value};
use kumir_names::BuiltIn;
use kumir_tree::Op;
use kumir_values::Value;
use stack_code::Instruction;

/// Pushes a value.
#[inline(always)]
fn push(running: &mut Running, pc: usize, value: Value) -> Option<usize>
    requires { pc + 1 < 2 ^ 64 }
    ensures goes { GoesOrStays (code.Push value) running.old pc result running.new }
    ensures count { length running.new.slots ≡ length running.old.slots }
{
    if running.operands.push_or_keep(value) {
        Some(pc + 1)
    } else {
        None
    }
}

/// Pushes the value of a slot that has one.
#[inline(always)]
fn load(running: &mut Running, pc: usize, slot: u32) -> Option<usize>
    requires { pc + 1 < 2 ^ 64 }
    ensures goes { GoesOrStays (code.Load slot) running.old pc result running.new }
    ensures count { length running.new.slots ≡ length running.old.slots }
{
    match running.slots.read(slot) {
        Ok(value) => push(running, pc, value),
        Err(_) => None,
    }
}

/// Pops a value into a slot.
#[inline(always)]
fn store(running: &mut Running, pc: usize, slot: u32) -> usize
    requires room { pc + 1 < 2 ^ 64 }
    requires there { slot < length running.old.slots }
    ensures goes { GoesTo (code.Store slot) (at_place running.old pc) (at_place running.new result) }
    ensures count { length running.new.slots ≡ length running.old.slots }
{
    let value = running.operands.pop();
    running.slots.put_value(slot, value);
    pc + 1
}

/// The next turn of a loop, or the place behind it.
#[inline(always)]
#[tactic(auto, using(crate::proofs::LoopTurns::goes_on, crate::proofs::LoopTurns::goes_away))]
fn next_turn(
    running: &mut Running,
    pc: usize,
    slot: u32,
    variable: Option<u32>,
    place: u32,
) -> usize
    requires room { pc + 1 < 2 ^ 64 }
    requires fits { FitsIn (length running.old.slots) (code.Next slot variable place) }
    ensures goes { GoesTo (code.Next slot variable place) (at_place running.old pc) (at_place running.new result) }
    ensures count { length running.new.slots ≡ length running.old.slots }
{
    if turn(&mut running.slots, slot, variable) {
        pc + 1
    } else {
        place as usize
    }
}

/// Pops a truth value, and goes to a place on `нет`.
#[inline(always)]
fn jump_on_no(running: &mut Running, pc: usize, place: u32) -> usize
    requires { pc + 1 < 2 ^ 64 }
    ensures goes { GoesTo (code.JumpNo place) (at_place running.old pc) (at_place running.new result) }
    ensures count { length running.new.slots ≡ length running.old.slots }
{
    if is_yes_value(running.operands.pop()) {
        pc + 1
    } else {
        place as usize
    }
}

/// An operator over the two numbers on top, where it has a value.
#[inline(always)]
fn combine_numbers(operands: &Operands, op: Op) -> Option<Value>
    ensures value { IfSome result (λ value. combined op (top (rest operands.now)) (top operands.now) ≡ Ok value) }
    ensures two { IfSome result (λ value. 2 ≤ length operands.now) }
{
    let (first, second) = operands.two_numbers()?;
    combine(op, Value::Whole(first), Value::Whole(second)).ok()
}

/// An operator over the two numbers on top.
#[inline(always)]
fn operate(running: &mut Running, pc: usize, op: Op) -> Option<usize>
    requires { pc + 1 < 2 ^ 64 }
    ensures goes { LeadsOrStays (operates op) running.old pc result running.new }
    ensures count { length running.new.slots ≡ length running.old.slots }
{
    let value = combine_numbers(&running.operands, op)?;
    running.operands.replace_two(value);
    Some(pc + 1)
}

/// A built-in algorithm on the two numbers on top, where it has a value.
#[inline(always)]
fn apply_numbers(operands: &Operands, what: BuiltIn) -> Option<Value>
    ensures value { IfSome result (λ value. applied what (reverse (take 2 operands.now)) ≡ Ok value) }
    ensures two { IfSome result (λ value. 2 ≤ length operands.now) }
{
    let (first, second) = operands.two_numbers()?;
    apply_to(what, &[Value::Whole(first), Value::Whole(second)]).ok()
}

/// A built-in algorithm on the two numbers on top.
#[inline(always)]
fn apply(running: &mut Running, pc: usize, what: BuiltIn) -> Option<usize>
    requires { pc + 1 < 2 ^ 64 }
    ensures goes { LeadsOrStays (applies what 2) running.old pc result running.new }
    ensures count { length running.new.slots ≡ length running.old.slots }
{
    let value = apply_numbers(&running.operands, what)?;
    running.operands.replace_two(value);
    Some(pc + 1)
}

/// Carries out the instruction at a place, if it goes on with what the operands and slots hold: the next place. Else nothing changes.
#[inline(always)]
pub fn quick(running: &mut Running, pc: usize, what: &Instruction) -> Option<usize>
    requires room { pc + 1 < 2 ^ 64 }
    requires fits { FitsIn (length running.old.slots) what.now }
    ensures goes { GoesOrStays what.now running.old pc result running.new }
    ensures local { IfSome result (λ next. is_local what.now ≡ true) }
    ensures count { length running.new.slots ≡ length running.old.slots }
{
    match what {
        Instruction::Push(value) => push(running, pc, *value),
        Instruction::Load(slot) => load(running, pc, *slot),
        Instruction::Store(slot) => Some(store(running, pc, *slot)),
        Instruction::Next(slot, variable, place) => Some(next_turn(
            running, pc, *slot, *variable, *place,
        )),
        Instruction::Elem(slot, count) => take_element(running, pc, *slot, *count),
        Instruction::PutElem(slot, count) => put_element(running, pc, *slot, *count),
        Instruction::Jump(place) => Some(*place as usize),
        Instruction::JumpNo(place) => Some(jump_on_no(running, pc, *place)),
        Instruction::Add => operate(running, pc, Op::Plus),
        Instruction::Sub => operate(running, pc, Op::Minus),
        Instruction::Mul => operate(running, pc, Op::Times),
        Instruction::Eq => operate(running, pc, Op::Equal),
        Instruction::Ne => operate(running, pc, Op::NotEqual),
        Instruction::Lt => operate(running, pc, Op::Less),
        Instruction::Le => operate(running, pc, Op::LessOrEqual),
        Instruction::Gt => operate(running, pc, Op::Greater),
        Instruction::Ge => operate(running, pc, Op::GreaterOrEqual),
        Instruction::Div => apply(running, pc, BuiltIn::Div),
        Instruction::Mod => apply(running, pc, BuiltIn::Mod),
        _ => None,
    }
}

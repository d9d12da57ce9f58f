//! Elements of tables on the quick path, at one index or two. Where there is a fault nothing changes.
ghost use Rattle.std.specs.Prelude.{◌≡◌, ◌<◌, ◌≤◌, ◌+◌, ◌^◌, length, Ok, IfSome};
ghost use Rattle.kumir_meaning.specs.Store.{element};
ghost use Rattle.stack_code.specs.CodeState.{cell_in, numbers};
ghost use Rattle.stack_code.specs.declared.instruction.Instruction.TheVariants as code;
ghost use Rattle.machine_steps.specs.States.{slots_of};
ghost use Rattle.machine_steps.specs.Quick.{GoesOrStays};

use crate::running::Running;
use crate::tables::element_of_slot;
use kumir_values::Value;

/// The element at the number on top, where it has a value.
#[inline(always)]
fn element_at_one(running: &Running, slot: u32) -> Option<Value>
    ensures value { IfSome result (λ value.
        element (cell_in (slots_of running.now.slots slot)) (numbers 1 running.now.operands) ≡ Ok value) }
    ensures there { IfSome result (λ value. 1 ≤ length running.now.operands) }
{
    let index = running.operands.top_number()?;
    element_of_slot(&running.slots, slot, &[index]).ok()
}

/// The element at the two numbers on top, where it has a value.
#[inline(always)]
fn element_at_two(running: &Running, slot: u32) -> Option<Value>
    ensures value { IfSome result (λ value.
        element (cell_in (slots_of running.now.slots slot)) (numbers 2 running.now.operands) ≡ Ok value) }
    ensures there { IfSome result (λ value. 2 ≤ length running.now.operands) }
{
    let (first, second) = running.operands.two_numbers()?;
    element_of_slot(&running.slots, slot, &[first, second]).ok()
}

/// Pops an index and pushes the element.
#[inline(always)]
fn take_at_one(running: &mut Running, pc: usize, slot: u32) -> Option<usize>
    requires { pc + 1 < 2 ^ 64 }
    ensures goes { GoesOrStays (code.Elem slot 1) running.old pc result running.new }
    ensures count { length running.new.slots ≡ length running.old.slots }
{
    let value = element_at_one(running, slot)?;
    running.operands.replace_top(value);
    Some(pc + 1)
}

/// Pops two indexes and pushes the element.
#[inline(always)]
fn take_at_two(running: &mut Running, pc: usize, slot: u32) -> Option<usize>
    requires { pc + 1 < 2 ^ 64 }
    ensures goes { GoesOrStays (code.Elem slot 2) running.old pc result running.new }
    ensures count { length running.new.slots ≡ length running.old.slots }
{
    let value = element_at_two(running, slot)?;
    running.operands.replace_two(value);
    Some(pc + 1)
}

/// Pops one index or two and pushes the element.
#[inline(always)]
pub fn take_element(running: &mut Running, pc: usize, slot: u32, count: u32) -> Option<usize>
    requires { pc + 1 < 2 ^ 64 }
    ensures goes { GoesOrStays (code.Elem slot count) running.old pc result running.new }
    ensures count { length running.new.slots ≡ length running.old.slots }
{
    match count {
        1 => take_at_one(running, pc, slot),
        2 => take_at_two(running, pc, slot),
        _ => None,
    }
}

/// Pops a value and an index, and puts the value into the element.
#[inline(always)]
fn put_at_one(running: &mut Running, pc: usize, slot: u32) -> Option<usize>
    requires room { pc + 1 < 2 ^ 64 }
    requires there { slot < length running.old.slots }
    ensures goes { GoesOrStays (code.PutElem slot 1) running.old pc result running.new }
    ensures count { length running.new.slots ≡ length running.old.slots }
{
    let (index, value) = running.operands.number_and_value()?;
    if !running.slots.set_element(slot, &[index], value) {
        return None;
    }
    running.operands.discard(2);
    Some(pc + 1)
}

/// Pops a value and two indexes, and puts the value into the element.
#[inline(always)]
fn put_at_two(running: &mut Running, pc: usize, slot: u32) -> Option<usize>
    requires room { pc + 1 < 2 ^ 64 }
    requires there { slot < length running.old.slots }
    ensures goes { GoesOrStays (code.PutElem slot 2) running.old pc result running.new }
    ensures count { length running.new.slots ≡ length running.old.slots }
{
    let (first, second, value) = running.operands.two_numbers_and_value()?;
    if !running.slots.set_element(slot, &[first, second], value) {
        return None;
    }
    running.operands.discard(3);
    Some(pc + 1)
}

/// Pops a value and one index or two, and puts the value into the element.
#[inline(always)]
pub fn put_element(running: &mut Running, pc: usize, slot: u32, count: u32) -> Option<usize>
    requires room { pc + 1 < 2 ^ 64 }
    requires there { slot < length running.old.slots }
    ensures goes { GoesOrStays (code.PutElem slot count) running.old pc result running.new }
    ensures count { length running.new.slots ≡ length running.old.slots }
{
    match count {
        1 => put_at_one(running, pc, slot),
        2 => put_at_two(running, pc, slot),
        _ => None,
    }
}

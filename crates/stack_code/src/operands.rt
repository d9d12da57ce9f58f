//! What an instruction does to the kinds of the operands.
ghost use Rattle.std.specs.Prelude.{◌≡◌, List, Some, IfOk, IsTrue};
ghost use Rattle.stack_code.specs.Operands.{pop, pop_numbers, pop_some, pop_values, pushing, push_some, push_answer, then_pop, leaving, after_ask, kinds_after};
ghost use Rattle.stack_code.specs.Instructions.{takes_value};
ghost use Rattle.stack_code.specs.Checking.{Applies, is_plain};

use crate::instruction::{CallPlace, CommandShape, Instruction};
use crate::kinds::OperandKinds;
use crate::shapes::{element_kind_of, shape_at, unit_of, value_kind_of};
use crate::unit::{CodeUnit, ParamSlot};
use kumir_tree::{Kind, Mode};
use std::alloc::{AllocError, Global};

/// Whether a parameter takes an operand.
pub fn takes_operand(mode: Mode, place: &CallPlace) -> bool
    ensures { result ≡ takes_value mode place.now }
{
    match place {
        CallPlace::Value => true,
        CallPlace::Table(_) => false,
        CallPlace::Slot(_) | CallPlace::Element(_, _) => match mode {
            Mode::Arg | Mode::ArgRes => true,
            Mode::Res => false,
        },
    }
}

/// Pops so many numbers and pushes a kind.
fn numbers_to(kinds: &mut OperandKinds, count: u64, kind: Kind) -> Result<bool, AllocError>
    ensures { IfOk result (λ fine. Applies fine (pushing kind (pop_numbers count kinds.old)) kinds.new) }
{
    if !kinds.pop_numbers(count) {
        return Ok(false);
    }
    kinds.push(kind)?;
    Ok(true)
}

/// Pops so many truth values and pushes one.
fn truths_to(kinds: &mut OperandKinds) -> Result<bool, AllocError>
    ensures { IfOk result (λ fine. Applies fine (pushing Kind.Truth (then_pop (pop Kind.Truth kinds.old) (pop Kind.Truth))) kinds.new) }
{
    if !kinds.pop(Kind::Truth) {
        return Ok(false);
    }
    if !kinds.pop(Kind::Truth) {
        return Ok(false);
    }
    kinds.push(Kind::Truth)?;
    Ok(true)
}

/// Pops a value of this kind, where there is one.
fn pop_of(kinds: &mut OperandKinds, kind: Option<Kind>) -> bool
    ensures { Applies result (pop_some kind kinds.old) kinds.new }
{
    match kind {
        Some(kind) => kinds.pop(kind),
        None => false,
    }
}

/// Pushes a value of this kind, where there is one.
fn push_of(kinds: &mut OperandKinds, kind: Option<Kind>) -> Result<bool, AllocError>
    ensures { IfOk result (λ fine. Applies fine (push_some kind (Some kinds.old)) kinds.new) }
{
    match kind {
        Some(kind) => {
            kinds.push(kind)?;
            Ok(true)
        }
        None => Ok(false),
    }
}

/// Pops the values of a call, the last parameter first.
fn pop_values_of(
    kinds: &mut OperandKinds,
    callee: &CodeUnit,
    params: &[ParamSlot],
    places: &[CallPlace],
) -> bool
    ensures { Applies result (pop_values callee.now params.now places.now kinds.old) kinds.new }
{
    let count = params.len().min(places.len());
    let mut left = count;
    while left > 0 {
        left -= 1;
        if takes_operand(params[left].mode, &places[left]) {
            let shape = shape_at(callee.slots.as_slice(), params[left].slot);
            if !pop_of(kinds, value_kind_of(shape)) {
                return false;
            }
        }
    }
    true
}

/// What a command does to the kinds.
fn apply_ask(kinds: &mut OperandKinds, command: CommandShape) -> Result<bool, AllocError>
    ensures { IfOk result (λ fine. Applies fine (after_ask command kinds.old) kinds.new) }
{
    match command {
        CommandShape::Robot(command) => {
            if command.is_test() {
                kinds.push(Kind::Truth)?;
            }
            Ok(true)
        }
        CommandShape::Pen(shape) => Ok(kinds.pop_numbers(shape.arity() as u64)),
    }
}

/// What a call does to the kinds.
fn apply_call(
    kinds: &mut OperandKinds,
    callee: &CodeUnit,
    places: &[CallPlace],
) -> Result<bool, AllocError>
    ensures { IfOk result (λ fine. Applies fine (push_answer callee.now callee.now.gives (pop_values callee.now callee.now.params places.now kinds.old)) kinds.new) }
{
    if !pop_values_of(kinds, callee, callee.params.as_slice(), places) {
        return Ok(false);
    }
    match callee.gives {
        Some(slot) => push_of(
            kinds,
            value_kind_of(shape_at(callee.slots.as_slice(), slot)),
        ),
        None => Ok(true),
    }
}

/// What reading an element does to the kinds.
fn apply_elem(kinds: &mut OperandKinds, count: u32, kind: Option<Kind>) -> Result<bool, AllocError>
    ensures { IfOk result (λ fine. Applies fine (push_some kind (pop_numbers count kinds.old)) kinds.new) }
{
    if !kinds.pop_numbers(u64::from(count)) {
        return Ok(false);
    }
    push_of(kinds, kind)
}

/// What writing an element does to the kinds.
fn apply_put(kinds: &mut OperandKinds, count: u32, kind: Option<Kind>) -> bool
    ensures { Applies result (then_pop (pop_some kind kinds.old) (pop_numbers count)) kinds.new }
{
    if !pop_of(kinds, kind) {
        return false;
    }
    kinds.pop_numbers(u64::from(count))
}

/// What a check of indexes does to the kinds.
fn apply_probe(alloc: Global, kinds: &mut OperandKinds, count: u32) -> Result<bool, AllocError>
    ensures { IfOk result (λ fine. Applies fine (leaving kinds.old (pop_numbers count kinds.old)) kinds.new) }
{
    let mut copy = kinds.copy(alloc)?;
    Ok(copy.pop_numbers(u64::from(count)))
}

/// What a negation does to the kinds.
fn apply_not(kinds: &mut OperandKinds) -> Result<bool, AllocError>
    ensures { IfOk result (λ fine. Applies fine (pushing Kind.Truth (pop Kind.Truth kinds.old)) kinds.new) }
{
    if !kinds.pop(Kind::Truth) {
        return Ok(false);
    }
    kinds.push(Kind::Truth)?;
    Ok(true)
}

/// What an instruction without slots and calls does to the kinds.
fn apply_plain(kinds: &mut OperandKinds, what: &Instruction) -> Result<bool, AllocError>
    requires { IsTrue (is_plain what.now) }
    ensures { (units : List CodeUnit) (unit : CodeUnit) → IfOk result (λ fine. Applies fine (kinds_after units unit what.now kinds.old) kinds.new) }
{
    match what {
        Instruction::Add
        | Instruction::Sub
        | Instruction::Mul
        | Instruction::Pow
        | Instruction::Div
        | Instruction::Mod
        | Instruction::Min
        | Instruction::Max => numbers_to(kinds, 2, Kind::Whole),
        Instruction::Neg | Instruction::Abs => numbers_to(kinds, 1, Kind::Whole),
        Instruction::Eq
        | Instruction::Ne
        | Instruction::Lt
        | Instruction::Le
        | Instruction::Gt
        | Instruction::Ge => numbers_to(kinds, 2, Kind::Truth),
        Instruction::EqTruth | Instruction::NeTruth => truths_to(kinds),
        Instruction::Not => apply_not(kinds),
        Instruction::Drop | Instruction::Out => Ok(kinds.pop_any()),
        Instruction::JumpNo(_) | Instruction::Assert => Ok(kinds.pop(Kind::Truth)),
        Instruction::Times(_) => Ok(kinds.pop_numbers(1)),
        Instruction::Turns(_) => Ok(kinds.pop_numbers(3)),
        Instruction::Ask(command) => apply_ask(kinds, *command),
        _ => Ok(true),
    }
}

/// What an instruction of a unit does to the kinds of the operands. Answers whether it finds the operands that it needs.
pub fn apply(
    alloc: Global,
    kinds: &mut OperandKinds,
    units: &[CodeUnit],
    unit: &CodeUnit,
    what: &Instruction,
) -> Result<bool, AllocError>
    ensures { IfOk result (λ fine. Applies fine (kinds_after units.now unit.now what.now kinds.old) kinds.new) }
{
    let slots = unit.slots.as_slice();
    match what {
        Instruction::Push(value) => push_of(kinds, Some(value.kind())),
        Instruction::Input(kind) => push_of(kinds, Some(*kind)),
        Instruction::Load(slot) => push_of(kinds, value_kind_of(shape_at(slots, *slot))),
        Instruction::Store(slot) => Ok(pop_of(kinds, value_kind_of(shape_at(slots, *slot)))),
        Instruction::Elem(slot, count) => {
            apply_elem(kinds, *count, element_kind_of(shape_at(slots, *slot)))
        }
        Instruction::PutElem(slot, count) => {
            Ok(apply_put(kinds, *count, element_kind_of(shape_at(slots, *slot))))
        }
        Instruction::Probe(_, count) => apply_probe(alloc, kinds, *count),
        Instruction::Make(_, _, count) | Instruction::Fit(_, count) => {
            Ok(kinds.pop_numbers(2 * u64::from(*count)))
        }
        Instruction::Call(number, places) => match unit_of(units, *number) {
            Some(callee) => apply_call(kinds, callee, places.as_slice()),
            None => Ok(true),
        },
        _ => apply_plain(kinds, what),
    }
}

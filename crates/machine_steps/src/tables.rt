//! Instructions on tables.
ghost use Rattle.std.specs.Prelude.{◌≡◌, ◌<◌, ◌+◌, ◌*◌, ◌^◌, [], length, IfOk};
ghost use Rattle.kumir_meaning.specs.Runs.{usual};
ghost use Rattle.kumir_meaning.specs.Store.{element, checked, fitted, with_element, elements_in};
ghost use Rattle.stack_code.specs.CodeState.{Plain, cell_in, paired, next, next_with};
ghost use Rattle.stack_code.specs.Instructions.{event_of, if_fine};
ghost use Rattle.stack_code.specs.declared.instruction.Instruction.TheVariants as code;
ghost use Rattle.machine_steps.specs.States.{state_of, slots_of};
ghost use Rattle.machine_steps.specs.Acting.{Carries};
ghost use Rattle.machine_steps.specs.Grids.{IsFine, goes, IsMade};

use crate::acted::Acted;
use crate::grid::{check_in, element_in, fit_in, size_of};
use crate::held::{Cell, Held};
use crate::plain::push_or_end;
use crate::running::Running;
use crate::slots::Slots;
use km_base::Memory;
use km_base::limits::TABLE_ELEMENTS;
use kumir_tree::Kind;
use kumir_values::{Bound, EndKind, RunFault, Table, TableRefusal, Value};
use std::alloc::Global;

/// The element of the table in a slot.
#[inline(always)]
pub fn element_of_slot(slots: &Slots, slot: u32, index: &[i32]) -> Result<Value, RunFault>
    ensures { result ≡ element (cell_in (slots_of slots.now slot)) index.now }
{
    match slots.cell(slot) {
        Some(cell) => element_in(cell, index),
        None => Err(RunFault::Unset),
    }
}

/// Checks the indexes of an element of the table in a slot.
fn check_slot(slots: &Slots, slot: u32, index: &[i32]) -> Result<(), RunFault>
    ensures { IsFine (checked (cell_in (slots_of slots.now slot)) index.now) result }
{
    match slots.cell(slot) {
        Some(cell) => check_in(cell, index),
        None => Err(RunFault::Unset),
    }
}

/// Compares numbers in pairs with the bounds of the table in a slot.
fn fit_slot(slots: &Slots, slot: u32, ends: &[i32]) -> Result<(), RunFault>
    ensures { IsFine (fitted (cell_in (slots_of slots.now slot)) (paired ends.now)) result }
{
    match slots.cell(slot) {
        Some(cell) => fit_in(cell, ends),
        None => Err(RunFault::Unset),
    }
}

/// How many elements the table in a slot has.
pub fn size_of_slot(slots: &Slots, slot: u32) -> u32
    ensures { result ≡ elements_in (cell_in (slots_of slots.now slot)) }
{
    match slots.cell(slot) {
        Some(cell) => size_of(cell),
        None => 0,
    }
}

/// Pops indexes and pushes the element.
pub fn take_element(
    alloc: Global,
    running: &mut Running,
    slot: u32,
    count: u32,
    line: u32,
) -> Result<Acted, Memory>
    requires { running.old.pc + 1 < 2 ^ 64 }
    ensures acts { IfOk result (λ acted. Carries (λ frames. event_of usual [] (code.Elem slot count) line (state_of running.old frames)) acted running.new) }
    ensures count { length running.new.slots ≡ length running.old.slots }
{
    let index = running.operands.last_numbers(alloc, count as usize)?;
    let got = element_of_slot(&running.slots, slot, index.as_slice());
    running.operands.discard(count as usize);
    push_or_end(running, line, got)
}

/// Goes on where a check passed, or ends with its fault.
fn go_or_end(running: &mut Running, line: u32, found: Result<(), RunFault>) -> Result<Acted, Memory>
    requires { running.old.pc + 1 < 2 ^ 64 }
    ensures acts { IfOk result (λ acted. Carries (λ frames. goes found line (next (state_of running.old frames) running.old.operands)) acted running.new) }
    ensures count { length running.new.slots ≡ length running.old.slots }
{
    match found {
        Ok(()) => {
            running.pc += 1;
            Ok(Acted::Moved)
        }
        Err(fault) => Ok(Acted::Over(EndKind::Fault { line, fault })),
    }
}

/// Checks the indexes on top, and leaves them.
pub fn probe(
    alloc: Global,
    running: &mut Running,
    slot: u32,
    count: u32,
    line: u32,
) -> Result<Acted, Memory>
    requires { running.old.pc + 1 < 2 ^ 64 }
    ensures acts { IfOk result (λ acted. Carries (λ frames. event_of usual [] (code.Probe slot count) line (state_of running.old frames)) acted running.new) }
    ensures count { length running.new.slots ≡ length running.old.slots }
{
    let index = running.operands.last_numbers(alloc, count as usize)?;
    let found = check_slot(&running.slots, slot, index.as_slice());
    go_or_end(running, line, found)
}

/// Pops bounds and compares them with those of the table there.
pub fn fit(
    alloc: Global,
    running: &mut Running,
    slot: u32,
    count: u32,
    line: u32,
) -> Result<Acted, Memory>
    requires { running.old.pc + 1 < 2 ^ 64 }
    ensures acts { IfOk result (λ acted. Carries (λ frames. event_of usual [] (code.Fit slot count) line (state_of running.old frames)) acted running.new) }
    ensures count { length running.new.slots ≡ length running.old.slots }
{
    let count = 2 * count as usize;
    let ends = running.operands.last_numbers(alloc, count)?;
    let found = fit_slot(&running.slots, slot, ends.as_slice());
    running.operands.discard(count);
    go_or_end(running, line, found)
}

/// Goes on with the element stored where the check of its indexes passed, or ends with its fault.
fn store_or_end(
    running: &mut Running,
    slot: u32,
    index: &[i32],
    value: Value,
    line: u32,
) -> Result<Acted, Memory>
    requires room { running.old.pc + 1 < 2 ^ 64 }
    requires there { slot < length running.old.slots }
    ensures acts { IfOk result (λ acted. Carries (λ frames. if_fine (checked (cell_in (slots_of running.old.slots slot)) index.now) line
        (λ at. next_with (state_of running.old frames) running.old.operands slot (Plain (with_element (cell_in (slots_of running.old.slots slot)) at (Some value))))) acted running.new) }
    ensures count { length running.new.slots ≡ length running.old.slots }
{
    match check_slot(&running.slots, slot, index) {
        Ok(()) => {
            running.slots.put_element(slot, index, Some(value));
            running.pc += 1;
            Ok(Acted::Moved)
        }
        Err(fault) => Ok(Acted::Over(EndKind::Fault { line, fault })),
    }
}

/// Pops a value and indexes, and stores the element.
pub fn put_element(
    alloc: Global,
    running: &mut Running,
    slot: u32,
    count: u32,
    line: u32,
) -> Result<Acted, Memory>
    requires room { running.old.pc + 1 < 2 ^ 64 }
    requires there { slot < length running.old.slots }
    ensures acts { IfOk result (λ acted. Carries (λ frames. event_of usual [] (code.PutElem slot count) line (state_of running.old frames)) acted running.new) }
    ensures count { length running.new.slots ≡ length running.old.slots }
{
    let value = running.operands.pop();
    let index = running.operands.last_numbers(alloc, count as usize)?;
    running.operands.discard(count as usize);
    store_or_end(running, slot, index.as_slice(), value, line)
}

/// A table of this kind and these bounds within the room that is left, and the elements in use then.
#[tactic(auto, using(kumir_values::proofs::Places::some_elements))]
fn table_within(
    alloc: Global,
    kind: Kind,
    bounds: &[Bound],
    used: u32,
) -> Result<Result<(Table, u32), RunFault>, Memory>
    ensures { IfOk result (λ found. IsMade usual.room kind bounds.now used found) }
{
    match Table::make(alloc, kind, bounds, TABLE_ELEMENTS.saturating_sub(used)) {
        Ok(table) => {
            let size = table.size();
            Ok(Ok((table, used + size)))
        }
        Err(TableRefusal::Bounds) => Ok(Err(RunFault::Bounds)),
        Err(TableRefusal::Elements) => Ok(Err(RunFault::Elements)),
        Err(TableRefusal::Memory) => Err(Memory),
    }
}

/// Pops bounds and makes the table of a slot anew.
pub fn make(
    alloc: Global,
    running: &mut Running,
    slot: u32,
    kind: Kind,
    count: u32,
    line: u32,
) -> Result<Acted, Memory>
    requires room { running.old.pc + 1 < 2 ^ 64 }
    requires there { slot < length running.old.slots }
    ensures acts { IfOk result (λ acted. Carries (λ frames. event_of usual [] (code.Make slot kind count) line (state_of running.old frames)) acted running.new) }
    ensures count { length running.new.slots ≡ length running.old.slots }
{
    let count = 2 * count as usize;
    let bounds = running.operands.last_bounds(alloc, count)?;
    running.operands.discard(count);
    let used = running
        .used
        .saturating_sub(size_of_slot(&running.slots, slot));
    match table_within(alloc, kind, bounds.as_slice(), used)? {
        Ok((table, used)) => {
            running.slots.put(slot, Held::Plain(Cell::Holds(table)));
            running.used = used;
            running.pc += 1;
            Ok(Acted::Moved)
        }
        Err(fault) => Ok(Acted::Over(EndKind::Fault { line, fault })),
    }
}

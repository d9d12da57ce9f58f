//! Entering an algorithm: its parameters, and the call that waits.
ghost use Rattle.std.specs.Prelude.{◌≡◌, ◌<◌, ◌≤◌, length, reverse, take, All, IfOk, if◌then◌else◌};
ghost use Rattle.kumir_meaning.specs.Store as store;
ghost use Rattle.kumir_meaning.specs.Algorithms.{table_for};
ghost use Rattle.kumir_meaning.specs.Runs.{usual};
ghost use Rattle.stack_code.specs.CodeState.{Plain, top, rest, with_slot, no_slots};
ghost use Rattle.stack_code.specs.Instructions.{takes_value, values_taken, table_of, fills_with_table, fills_slot, fills_slots};
ghost use Rattle.machine_steps.specs.States.{table_map, slots_of};
ghost use Rattle.machine_steps.specs.Calls.{Receives, IsSameBut, BeginsAs};

use crate::held::{Cell, Held};
use crate::running::Running;
use crate::slots::Slots;
use km_base::Memory;
use km_base::limits::TABLE_ELEMENTS;
use kumir_tree::Mode;
use kumir_values::{RunFault, Table, Value};
use stack_code::{CallPlace, CodeUnit, ParamSlot, takes_operand};
use std::alloc::Global;

/// The first of these values; `нет` where there is none.
fn first_or_no(values: &[Value]) -> Value
    ensures { result ≡ top values.now }
{
    match values {
        [first, ..] => *first,
        [] => Value::Truth(false),
    }
}

/// The values behind the first one.
fn others(values: &[Value]) -> &[Value]
    ensures { result.now ≡ rest values.now }
{
    match values {
        [_, others @ ..] => others,
        [] => values,
    }
}

/// The slot of the caller's table, where a table is passed.
fn table_slot(place: &CallPlace) -> Option<u32>
    ensures { result ≡ table_of place.now }
{
    match place {
        CallPlace::Table(slot) => Some(*slot),
        CallPlace::Value | CallPlace::Slot(_) | CallPlace::Element(_, _) => None,
    }
}

/// How many operands a parameter takes.
fn count_one(mode: Mode, place: &CallPlace) -> usize
    ensures { result ≡ (if takes_value mode place.now then 1 else 0) }
{
    usize::from(takes_operand(mode, place))
}

/// How many operands a call takes.
#[tactic(auto, using(crate::proofs::PassedParams::counted_one, crate::proofs::PassedParams::counted_all))]
pub fn count_operands(params: &[ParamSlot], places: &[CallPlace]) -> usize
    ensures { result ≡ values_taken params.now places.now }
{
    let mut count = 0;
    for at in 0..params.len().min(places.len()) {
        count += count_one(params[at].mode, &places[at]);
    }
    count
}

/// A table with this kind and these bounds, and without values.
fn without_values(alloc: Global, table: &Table) -> Result<Table, Memory>
    ensures { IfOk result (λ made. store.Holds (table_map made) ≡ store.without_values table.now.kind table.now.bounds) }
{
    // a table that is there has bounds in order, and no more elements than it has
    Table::make(alloc, table.kind(), table.bounds(), table.size()).map_err(|_| Memory)
}

/// The table that a parameter begins with: a copy, or for `рез` one without values.
fn passed_table(alloc: Global, mode: Mode, table: &Table) -> Result<Table, Memory>
    ensures { IfOk result (λ made. store.Holds (table_map made) ≡ table_for mode (table_map table.now)) }
{
    match mode {
        Mode::Arg | Mode::ArgRes => table.copy(alloc),
        Mode::Res => without_values(alloc, table),
    }
}

/// Gives a parameter a table, if there is room for it.
fn receive_table(
    alloc: Global,
    begun: &mut Running,
    param: ParamSlot,
    table: &Table,
) -> Result<Result<(), RunFault>, Memory>
    requires there { param.slot < length begun.old.slots }
    ensures received { IfOk result (λ done. Receives (fills_with_table usual.room param (store.Holds (table_map table.now)) (slots_of begun.old.slots, begun.old.used)) done begun.new) }
    ensures kept { IsSameBut begun.old begun.new }
{
    let size = table.size();
    if begun.used > TABLE_ELEMENTS || size > TABLE_ELEMENTS - begun.used {
        return Ok(Err(RunFault::Elements));
    }
    let made = passed_table(alloc, param.mode, table)?;
    begun.slots.put(param.slot, Held::Plain(Cell::Holds(made)));
    begun.used += size;
    Ok(Ok(()))
}

/// Gives a parameter the next of the operands, or no value.
fn receive_scalar(slots: &mut Slots, param: ParamSlot, place: &CallPlace, values: &[Value])
    requires { param.slot < length slots.old }
    ensures slots { slots_of slots.new ≡ with_slot (slots_of slots.old) param.slot (Plain (if takes_value param.mode place.now then store.Has (top values.now) else store.Empty)) }
    ensures count { length slots.new ≡ length slots.old }
{
    if takes_operand(param.mode, place) {
        slots.put_value(param.slot, first_or_no(values));
    } else {
        slots.put(param.slot, Held::Plain(Cell::Empty));
    }
}

/// Gives one parameter what it is passed: a table of the caller, the next of the operands, or no value.
fn receive(
    alloc: Global,
    begun: &mut Running,
    param: ParamSlot,
    place: &CallPlace,
    values: &[Value],
    slots: &Slots,
) -> Result<Result<(), RunFault>, Memory>
    requires there { param.slot < length begun.old.slots }
    ensures received { IfOk result (λ done. Receives (fills_slot usual.room param (table_of place.now) (takes_value param.mode place.now) values.now (slots_of slots.now) (slots_of begun.old.slots, begun.old.used)) done begun.new) }
    ensures kept { IsSameBut begun.old begun.new }
{
    match table_slot(place) {
        Some(slot) => match slots.cell(slot) {
            Some(Cell::Holds(table)) => receive_table(alloc, begun, param, table),
            Some(Cell::Empty) | Some(Cell::Has(_)) | None => Ok(Err(RunFault::Unset)),
        },
        None => {
            receive_scalar(&mut begun.slots, param, place, values);
            Ok(Ok(()))
        }
    }
}

/// The operands that are left behind a parameter.
fn left_behind<'a>(mode: Mode, place: &CallPlace, values: &'a [Value]) -> &'a [Value]
    ensures { result.now ≡ (if takes_value mode place.now then rest values.now else values.now) }
{
    if takes_operand(mode, place) {
        others(values)
    } else {
        values
    }
}

/// Gives the parameters what they are passed, in their order.
fn receive_all(
    alloc: Global,
    begun: &mut Running,
    params: &[ParamSlot],
    places: &[CallPlace],
    values: &[Value],
    slots: &Slots,
) -> Result<Result<(), RunFault>, Memory>
    requires { All (λ p. p.slot < length begun.old.slots) params.now }
    ensures received { IfOk result (λ done. Receives (fills_slots usual.room params.now places.now values.now (slots_of slots.now) (slots_of begun.old.slots, begun.old.used)) done begun.new) }
    ensures kept { IsSameBut begun.old begun.new }
{
    let mut left = values;
    for at in 0..params.len().min(places.len()) {
        match receive(alloc, begun, params[at], &places[at], left, slots)? {
            Ok(()) => left = left_behind(params[at].mode, &places[at], left),
            Err(fault) => return Ok(Err(fault)),
        }
    }
    Ok(Ok(()))
}

/// The algorithm that a call enters, with its parameters.
pub fn begin_call(
    alloc: Global,
    callee: &CodeUnit,
    number: u32,
    places: &[CallPlace],
    caller: &Running,
) -> Result<Result<Running, RunFault>, Memory>
    requires { All (λ p. p.slot < length callee.now.slots) callee.now.params }
    ensures { IfOk result (λ begun. BeginsAs (fills_slots usual.room callee.now.params places.now (reverse (take (values_taken callee.now.params places.now) caller.now.operands)) (slots_of caller.now.slots) (no_slots, caller.now.used)) begun number (length callee.now.slots)) }
{
    let params = callee.params.as_slice();
    let count = count_operands(params, places);
    let mut begun = Running::begin(alloc, number, callee)?;
    begun.used = caller.used;
    match receive_all(
        alloc,
        &mut begun,
        params,
        places,
        caller.operands.last(count),
        &caller.slots,
    )? {
        Ok(()) => Ok(Ok(begun)),
        Err(fault) => Ok(Err(fault)),
    }
}

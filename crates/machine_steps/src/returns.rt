//! The return of an algorithm: what is copied out, and the value that is given back.
ghost use Rattle.std.specs.Prelude.{◌≡◌, ◌≢◌, ◌<◌, ℕ, length, map, All, true, IfOk, OnOk, Ok, nat_eq};
ghost use Rattle.std.specs.List.{list_any};
ghost use Rattle.kumir_meaning.specs.Store as store;
ghost use Rattle.kumir_meaning.specs.Store.{value_in, with_element};
ghost use Rattle.stack_code.specs.CodeState.{Plain, with_slot, cell_in};
ghost use Rattle.stack_code.specs.Instructions.{index_in, copied, copied_to, copied_to_places};
ghost use Rattle.machine_steps.specs.States.{cell_view, slots_of};
ghost use Rattle.machine_steps.specs.Returns.{PlaceIsThere, GivesBack};

use crate::held::{Cell, Held};
use crate::operands::Numbers;
use crate::slots::Slots;
use crate::values::number_in;
use km_base::Memory;
use kumir_tree::Mode;
use kumir_values::{RunFault, Value};
use smallvec::SmallVec;
use stack_code::{CallPlace, ParamSlot};
use std::alloc::{AllocError, Global};

/// The value of a slot, if it has one.
fn value_of(slots: &Slots, slot: u32) -> Option<Value>
    ensures { result ≡ value_in (cell_in (slots_of slots.now slot)) }
{
    match slots.cell(slot) {
        Some(Cell::Has(value)) => Some(*value),
        Some(Cell::Empty) | Some(Cell::Holds(_)) | None => None,
    }
}

/// A value, or none, as what a variable holds.
fn cell_with(value: Option<Value>) -> Cell
    ensures { cell_view result ≡ store.cell_of value }
{
    match value {
        Some(value) => Cell::Has(value),
        None => Cell::Empty,
    }
}

/// The index that a hidden slot holds.
fn index_at(slots: &Slots, slot: u32) -> i32
    ensures { result ≡ index_in (cell_in (slots_of slots.now slot)) }
{
    match slots.cell(slot) {
        Some(Cell::Has(value)) => number_in(*value),
        Some(Cell::Empty) | Some(Cell::Holds(_)) | None => 0,
    }
}

/// The indexes that hidden slots hold. Up to six take no memory.
fn indexes_at(alloc: Global, slots: &Slots, hidden: &[u32]) -> Result<Numbers, AllocError>
    ensures { IfOk result (λ found. found.items ≡ map (λ h. index_in (cell_in (slots_of slots.now h))) hidden.now) }
{
    let mut found = SmallVec::new(alloc);
    for slot in hidden {
        found.push(index_at(slots, *slot))?;
    }
    Ok(found)
}

/// Takes what a slot of the callee holds, or copies it where it is needed again.
fn take_or_copy(
    alloc: Global,
    callee: &mut Slots,
    slot: u32,
    is_needed: bool,
) -> Result<Cell, Memory>
    requires { slot < length callee.old }
    ensures cell { IfOk result (λ cell. cell_view cell ≡ cell_in (slots_of callee.old slot)) }
    ensures kept { is_needed ≡ true → slots_of callee.new ≡ slots_of callee.old }
    ensures others { (y : ℕ) → y ≢ slot → slots_of callee.new y ≡ slots_of callee.old y }
    ensures count { length callee.new ≡ length callee.old }
{
    if is_needed {
        callee.copy_cell(alloc, slot)
    } else {
        Ok(callee.take(slot))
    }
}

/// Gives an element, with its indexes in hidden slots, a value, or takes it away.
fn copy_to_element(
    alloc: Global,
    slots: &mut Slots,
    own: u32,
    hidden: &[u32],
    value: Option<Value>,
) -> Result<(), Memory>
    requires { own < length slots.old }
    ensures slots { OnOk result (slots_of slots.new ≡ with_slot (slots_of slots.old) own (Plain (with_element (cell_in (slots_of slots.old own)) (map (λ h. index_in (cell_in (slots_of slots.old h))) hidden.now) value))) }
    ensures count { length slots.new ≡ length slots.old }
{
    let index = indexes_at(alloc, slots, hidden)?;
    slots.put_element(own, index.as_slice(), value);
    Ok(())
}

/// Copies what a slot of the callee holds to the place of the call.
fn copy_back(
    alloc: Global,
    slots: &mut Slots,
    place: &CallPlace,
    callee: &mut Slots,
    slot: u32,
    is_needed: bool,
) -> Result<(), Memory>
    requires place { PlaceIsThere (length slots.old) place.now }
    requires slot { slot < length callee.old }
    ensures copied { OnOk result (slots_of slots.new ≡ copied place.now (cell_in (slots_of callee.old slot)) (slots_of slots.old)) }
    ensures kept { is_needed ≡ true → slots_of callee.new ≡ slots_of callee.old }
    ensures others { (y : ℕ) → y ≢ slot → slots_of callee.new y ≡ slots_of callee.old y }
    ensures count { length slots.new ≡ length slots.old }
    ensures callee_count { length callee.new ≡ length callee.old }
{
    match place {
        CallPlace::Value => {}
        CallPlace::Slot(own) => slots.put(*own, Held::Plain(cell_with(value_of(callee, slot)))),
        CallPlace::Element(own, hidden) => {
            copy_to_element(
                alloc,
                slots,
                *own,
                hidden.as_slice(),
                value_of(callee, slot),
            )?;
        }
        CallPlace::Table(own) => {
            let cell = take_or_copy(alloc, callee, slot, is_needed)?;
            slots.put(*own, Held::Plain(cell));
        }
    }
    Ok(())
}

/// Copies `рез` and `аргрез` back.
fn copy_one(
    alloc: Global,
    slots: &mut Slots,
    param: ParamSlot,
    place: &CallPlace,
    callee: &mut Slots,
    is_needed: bool,
) -> Result<(), Memory>
    requires place { PlaceIsThere (length slots.old) place.now }
    requires slot { param.slot < length callee.old }
    ensures copied { OnOk result (slots_of slots.new ≡ copied_to param.mode place.now (cell_in (slots_of callee.old param.slot)) (slots_of slots.old)) }
    ensures kept { is_needed ≡ true → slots_of callee.new ≡ slots_of callee.old }
    ensures others { (y : ℕ) → y ≢ param.slot → slots_of callee.new y ≡ slots_of callee.old y }
    ensures count { length slots.new ≡ length slots.old }
    ensures callee_count { length callee.new ≡ length callee.old }
{
    match param.mode {
        Mode::Arg => Ok(()),
        Mode::Res | Mode::ArgRes => copy_back(alloc, slots, place, callee, param.slot, is_needed),
    }
}

/// Whether a slot is that of one of these parameters.
fn is_parameter(params: &[ParamSlot], slot: u32) -> bool
    ensures { result ≡ list_any (λ p. nat_eq p.slot slot) params.now }
{
    params.iter().any(|param| param.slot == slot)
}

/// Copies `рез` and `аргрез` out to the places of the call, in the order of the parameters.
pub fn copy_out(
    alloc: Global,
    slots: &mut Slots,
    params: &[ParamSlot],
    places: &[CallPlace],
    callee: &mut Slots,
) -> Result<(), Memory>
    requires places { All (PlaceIsThere (length slots.old)) places.now }
    requires params { All (λ p. p.slot < length callee.old) params.now }
    ensures copied { OnOk result (slots_of slots.new ≡ copied_to_places params.now places.now (slots_of callee.old) (slots_of slots.old)) }
    ensures count { length slots.new ≡ length slots.old }
{
    for at in 0..params.len().min(places.len()) {
        let is_needed = is_parameter(&params[at + 1..], params[at].slot);
        copy_one(alloc, slots, params[at], &places[at], callee, is_needed)?;
    }
    Ok(())
}

/// The value that an algorithm gives back, where it has a kind; `NoValue` where `знач` has none.
pub fn answer_of(slots: &Slots, gives: Option<u32>) -> Result<Option<Value>, RunFault>
    ensures { GivesBack gives (slots_of slots.now) result }
{
    match gives {
        Some(slot) => match value_of(slots, slot) {
            Some(value) => Ok(Some(value)),
            None => Err(RunFault::NoValue),
        },
        None => Ok(None),
    }
}

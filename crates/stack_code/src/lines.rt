//! Whether a line of code fits: what it names, where it jumps, where it stands.
ghost use Rattle.std.specs.Prelude.{◌≡◌, ◌<◌, ℕ, length, slice_get, Some, IsTrue, ◌↔◌, option_map};
ghost use Rattle.stack_code.specs.Validity.{is_hidden, is_value_place, is_place_of, is_table_place, fits_scalar, place_fits, places_fit, call_fits, is_counter, names_fit, is_step, is_call, leads_on, jump_fits, after_step, call_stands, line_fits};
ghost use Rattle.stack_code.specs.Operands.{target_of};
ghost use Rattle.stack_code.specs.declared.instruction.CodeLine.{CodeLine};
ghost use Rattle.std.specs.List.{list_all};

use crate::instruction::{CallPlace, CodeLine, Instruction};
use crate::shapes::{
    is_call_line, is_hidden_shape, is_scalar_shape, is_scalar_shape_of, is_table_shape,
    is_table_shape_of, line_at, shape_at, unit_of,
};
use crate::unit::{CodeUnit, ParamSlot, Shape};
use kumir_tree::{Kind, Mode};

/// Whether all these slots are hidden.
fn are_hidden(slots: &[Shape], hidden: &[u32]) -> bool
    ensures { result ≡ list_all (λ h. is_hidden (slice_get slots.now h)) hidden.now }
{
    hidden
        .iter()
        .all(|slot| is_hidden_shape(shape_at(slots, *slot)))
}

/// Whether it is a place of a `рез` or `аргрез` scalar of this kind.
fn is_scalar_place(kind: Kind, slots: &[Shape], place: &CallPlace) -> bool
    ensures { result ≡ is_place_of kind slots.now place.now }
{
    match place {
        CallPlace::Slot(slot) => is_scalar_shape_of(kind, shape_at(slots, *slot)),
        CallPlace::Element(slot, hidden) => {
            is_table_shape_of(kind, hidden.len(), shape_at(slots, *slot))
                && are_hidden(slots, hidden.as_slice())
        }
        CallPlace::Value | CallPlace::Table(_) => false,
    }
}

/// Whether it is the place of a value.
fn is_place_of_value(place: &CallPlace) -> bool
    ensures { result ≡ is_value_place place.now }
{
    match place {
        CallPlace::Value => true,
        CallPlace::Slot(_) | CallPlace::Element(_, _) | CallPlace::Table(_) => false,
    }
}

/// Whether it is the place of a table of this kind with this number of bounds.
fn is_place_of_table(kind: Kind, bounds: u32, slots: &[Shape], place: &CallPlace) -> bool
    ensures { result ≡ is_table_place kind bounds slots.now place.now }
{
    match place {
        CallPlace::Table(slot) => is_table_shape_of(kind, bounds as usize, shape_at(slots, *slot)),
        CallPlace::Value | CallPlace::Slot(_) | CallPlace::Element(_, _) => false,
    }
}

/// Whether a place fits a parameter of this mode and shape.
fn does_place_fit(mode: Mode, shape: Option<Shape>, slots: &[Shape], place: &CallPlace) -> bool
    ensures { result ≡ place_fits mode shape slots.now place.now }
{
    match shape {
        Some(Shape::Scalar(kind)) => match mode {
            Mode::Arg => is_place_of_value(place),
            Mode::Res | Mode::ArgRes => is_scalar_place(kind, slots, place),
        },
        Some(Shape::Table(kind, bounds)) => is_place_of_table(kind, bounds, slots, place),
        Some(Shape::Hidden) | None => false,
    }
}

/// Whether there is one place for each parameter, and each fits.
fn do_places_fit(
    formal: &[Shape],
    params: &[ParamSlot],
    slots: &[Shape],
    places: &[CallPlace],
) -> bool
    ensures { result ≡ places_fit formal.now params.now slots.now places.now }
{
    if params.len() != places.len() {
        return false;
    }
    let mut at = 0;
    while at < params.len() {
        let shape = shape_at(formal, params[at].slot);
        if !does_place_fit(params[at].mode, shape, slots, &places[at]) {
            return false;
        }
        at += 1;
    }
    true
}

/// Whether the unit of a call is there, and its places fit.
fn does_call_fit(units: &[CodeUnit], number: u32, slots: &[Shape], places: &[CallPlace]) -> bool
    ensures { result ≡ call_fits (slice_get units.now number) slots.now places.now }
{
    match unit_of(units, number) {
        Some(callee) => do_places_fit(
            callee.slots.as_slice(),
            callee.params.as_slice(),
            slots,
            places,
        ),
        None => false,
    }
}

/// Whether the variable of a loop, if it has one, is a number.
fn is_counter_slot(slots: &[Shape], variable: Option<u32>) -> bool
    ensures { result ≡ is_counter slots.now variable }
{
    match variable {
        Some(slot) => is_scalar_shape_of(Kind::Whole, shape_at(slots, slot)),
        None => true,
    }
}

/// Whether what an instruction names is there and has the shape that it needs.
fn do_names_fit(units: &[CodeUnit], unit: &CodeUnit, what: &Instruction) -> bool
    ensures { result ≡ names_fit units.now unit.now what.now }
{
    let slots = unit.slots.as_slice();
    match what {
        Instruction::Load(slot) | Instruction::Store(slot) => {
            let shape = shape_at(slots, *slot);
            is_scalar_shape(shape) || is_hidden_shape(shape)
        }
        Instruction::Clear(slot) => is_scalar_shape(shape_at(slots, *slot)),
        Instruction::Elem(slot, bounds)
        | Instruction::PutElem(slot, bounds)
        | Instruction::Probe(slot, bounds)
        | Instruction::Fit(slot, bounds) => is_table_shape(*bounds, shape_at(slots, *slot)),
        Instruction::Make(slot, kind, bounds) => {
            is_table_shape_of(*kind, *bounds as usize, shape_at(slots, *slot))
        }
        Instruction::Times(slot) | Instruction::Turns(slot) => {
            is_hidden_shape(shape_at(slots, *slot))
        }
        Instruction::Next(slot, variable, _) => {
            is_hidden_shape(shape_at(slots, *slot)) && is_counter_slot(slots, *variable)
        }
        Instruction::Call(number, places) => {
            does_call_fit(units, *number, slots, places.as_slice())
        }
        _ => true,
    }
}

/// Whether a step stands there.
fn is_step_at(body: &[CodeLine], place: usize) -> bool
    ensures { result ≡ is_step (slice_get body.now place) }
{
    match line_at(body, place) {
        Some(line) => matches!(line.what, Instruction::Step),
        None => false,
    }
}

/// Whether a call stands there.
fn is_call_at(body: &[CodeLine], place: usize) -> bool
    ensures { result ≡ is_call (slice_get body.now place) }
{
    match line_at(body, place) {
        Some(line) => is_call_line(line),
        None => false,
    }
}

/// The place to which an instruction jumps.
pub fn target(what: &Instruction) -> Option<u32>
    ensures { result ≡ target_of what.now }
{
    match what {
        Instruction::Jump(place) | Instruction::JumpNo(place) | Instruction::Next(_, _, place) => {
            Some(*place)
        }
        _ => None,
    }
}

/// Whether a jump from one place to another goes forward within the body or back to a step, and not to a call.
fn does_jump_fit(body: &[CodeLine], from: usize, to: Option<u32>) -> bool
    ensures { result ≡ jump_fits body.now from to }
{
    match to {
        Some(to) => {
            let place = to as usize;
            let stands = if from < place {
                place < body.len()
            } else {
                is_step_at(body, place)
            };
            stands && !is_call_at(body, place)
        }
        None => true,
    }
}

/// Whether a line stands where it may: a call directly after a step.
fn does_call_stand(body: &[CodeLine], place: usize, line: &CodeLine) -> bool
    ensures { result ≡ call_stands body.now place line.now }
{
    !is_call_line(line) || (place > 0 && is_step_at(body, place - 1))
}

/// Whether a line at a place of a unit fits.
fn does_line_fit(units: &[CodeUnit], unit: &CodeUnit, place: usize, line: &CodeLine) -> bool
    ensures { result ≡ line_fits units.now unit.now place line.now }
{
    do_names_fit(units, unit, &line.what)
        && does_jump_fit(unit.body.as_slice(), place, target(&line.what))
        && does_call_stand(unit.body.as_slice(), place, line)
}

/// Whether each line of a unit fits.
pub fn do_lines_fit(units: &[CodeUnit], unit: &CodeUnit) -> bool
    ensures { IsTrue result ↔ ((place : ℕ) (l : CodeLine) → slice_get unit.now.body place ≡ Some l → IsTrue (line_fits units.now unit.now place l)) }
{
    let body = unit.body.as_slice();
    let mut place = 0;
    while place < body.len() {
        if !does_line_fit(units, unit, place, &body[place]) {
            return false;
        }
        place += 1;
    }
    true
}

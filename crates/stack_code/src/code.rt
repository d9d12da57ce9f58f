//! Which code is valid, and valid code.
ghost use Rattle.std.specs.Prelude.{◌≡◌, IfOk, slice_get, ℕ, Some, List, Option};
ghost use Rattle.std.specs.Bool.{Decides};
ghost use Rattle.std.specs.List.{list_all};
ghost use Rattle.stack_code.specs.Validity.{is_param, is_answer, has_no_params, entry_fits, IsUnit, IsValid};
ghost use Rattle.stack_code.specs.declared.unit.CodeUnit.{CodeUnit};

use crate::flow::do_operands_fit;
use crate::lines::do_lines_fit;
use crate::shapes::{is_param_shape, is_scalar_shape, shape_at, unit_of};
use crate::unit::{CodeUnit, CodeUnits, ParamSlot, Shape};
use km_base::Memory;
use std::alloc::{AllocError, Global};
use std::marker::Model;

/// Whether the slot of each parameter is there.
fn are_params(slots: &[Shape], params: &[ParamSlot]) -> bool
    ensures { result ≡ list_all (λ p. is_param (slice_get slots.now p.slot)) params.now }
{
    params
        .iter()
        .all(|param| is_param_shape(shape_at(slots, param.slot)))
}

/// Whether the slot of `знач`, if there is one, is there.
fn is_answer_slot(slots: &[Shape], slot: Option<u32>) -> bool
    ensures { result ≡ is_answer slots.now slot }
{
    match slot {
        Some(slot) => is_scalar_shape(shape_at(slots, slot)),
        None => true,
    }
}

/// Whether a unit is valid among these units.
fn is_unit(alloc: Global, units: &[CodeUnit], unit: &CodeUnit) -> Result<bool, AllocError>
    ensures { IfOk result (λ fine. Decides fine (IsUnit units.now unit.now)) }
{
    if !are_params(unit.slots.as_slice(), unit.params.as_slice()) {
        return Ok(false);
    }
    if !is_answer_slot(unit.slots.as_slice(), unit.gives) {
        return Ok(false);
    }
    if unit.body.len() == 0 {
        return Ok(false);
    }
    if !do_lines_fit(units, unit) {
        return Ok(false);
    }
    do_operands_fit(alloc, units, unit)
}

/// Whether the entry, if there is one, names a unit without parameters.
fn is_entry(units: &[CodeUnit], entry: Option<u32>) -> bool
    ensures { result ≡ entry_fits units.now entry }
{
    match entry {
        Some(number) => match unit_of(units, number) {
            Some(unit) => unit.params.len() == 0,
            None => false,
        },
        None => true,
    }
}

/// Whether each unit is valid.
fn are_units(alloc: Global, units: &[CodeUnit]) -> Result<bool, AllocError>
    ensures { IfOk result (λ fine. Decides fine ((k : ℕ) (u : CodeUnit) → slice_get units.now k ≡ Some u → IsUnit units.now u)) }
{
    let mut at = 0;
    while at < units.len() {
        if !is_unit(alloc, units, &units[at])? {
            return Ok(false);
        }
        at += 1;
    }
    Ok(true)
}

/// Whether code of these units with this entry is valid (docs/LANGUAGE.md, "Stack code"). `Memory` where memory is wanted.
pub fn valid(alloc: Global, units: &CodeUnits, entry: Option<u32>) -> Result<bool, Memory>
    ensures exactly { IfOk result (λ fine. Decides fine (IsValid units.now entry)) }
{
    if !are_units(alloc, units.as_slice())? {
        return Ok(false);
    }
    Ok(is_entry(units.as_slice(), entry))
}

/// Valid code: its units, and the unit with which a run begins, if there is one.
#[derive(Drop)]
pub struct Code {
    units: CodeUnits,
    entry: Option<u32>,
}

impl Model for Code {
    ghost use Rattle.stack_code.specs.Validity.{ValidCode, IsValid};

    ghost Value = { ValidCode };

    ghost view = { λ c. record { units = c.units; entry = c.entry } };

    ghost invariant = { λ c. IsValid c.units c.entry };
}

impl Code {
    /// Code of these units with this entry.
    pub fn new(units: CodeUnits, entry: Option<u32>) -> Code
        requires { IsValid units entry }
        ensures units { result.units ≡ units }
        ensures entry { result.entry ≡ entry }
    {
        Code { units, entry }
    }

    /// The number of the unit with which a run begins, if there is one.
    pub fn entry(&self) -> Option<u32>
        ensures { result ≡ self.now.entry }
    {
        self.entry
    }

    /// The units.
    pub fn units(&self) -> &CodeUnits
        ensures answer { result.now ≡ self.now.units }
        ensures valid { IsValid self.now.units self.now.entry }
    {
        &self.units
    }
}

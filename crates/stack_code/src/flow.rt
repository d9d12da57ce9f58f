//! The kinds of the operands at each place of a body to which a way leads.
ghost use Rattle.std.specs.Prelude.{◌≡◌, ◌<◌, ◌+◌, ◌^◌, ℕ, [], length, get_or, Option, Some, None, IfOk, true, false};
ghost use Rattle.std.specs.Bool.{Decides};
ghost use Rattle.stack_code.specs.Operands.{Kinds, falls_through, target_of};
ghost use Rattle.stack_code.specs.Validity.{HasKinds, next_of};
ghost use Rattle.stack_code.specs.Checking.{Meets, clashes, MeetsSome, AllUnknown, Visits, VisitsAll, both, kinds_at};

use crate::instruction::Instruction;
use crate::kinds::OperandKinds;
use crate::lines::target;
use crate::operands::apply;
use crate::unit::CodeUnit;
use std::alloc::{AllocError, Global};

/// What a way met at a place: the same kinds, none yet, or others.
#[derive(Clone, Copy, Debug, PartialEq, Eq)]
pub enum Met {
    Same,
    New,
    Clash,
}

/// Whether the next instruction may follow.
fn does_fall_through(what: &Instruction) -> bool
    ensures { result ≡ falls_through what.now }
{
    match what {
        Instruction::Jump(_) | Instruction::Quit | Instruction::Return => false,
        _ => true,
    }
}

/// No kinds are known at any of so many places.
fn nothing_known(alloc: Global, count: usize) -> Result<Vec<Option<OperandKinds>>, AllocError>
    ensures { IfOk result (λ found. AllUnknown count found.items) }
{
    let mut found = Vec::new(alloc);
    let mut at = 0;
    while at < count {
        found.push(None)?;
        at += 1;
    }
    Ok(found)
}

/// The kinds that are known at a place.
fn known_at(
    alloc: Global,
    found: &Vec<Option<OperandKinds>>,
    place: usize,
) -> Result<Option<OperandKinds>, AllocError>
    requires { place < length found.now.items }
    ensures { IfOk result (λ kinds. kinds ≡ get_or found.now.items place None) }
{
    match &found[place] {
        Some(kinds) => Ok(Some(kinds.copy(alloc)?)),
        None => Ok(None),
    }
}

/// A way leads to a place with these kinds.
fn meet(
    alloc: Global,
    found: &mut Vec<Option<OperandKinds>>,
    place: usize,
    kinds: &OperandKinds,
) -> Result<Met, AllocError>
    ensures { IfOk result (λ met. Meets found.old.items place kinds.now met found.new.items) }
{
    if place >= found.len() {
        return Ok(Met::Clash);
    }
    match known_at(alloc, found, place)? {
        Some(other) => {
            if other.is_same(kinds) {
                Ok(Met::Same)
            } else {
                Ok(Met::Clash)
            }
        }
        None => {
            let copy = kinds.copy(alloc)?;
            found[place] = Some(copy);
            Ok(Met::New)
        }
    }
}

/// Whether a way met other kinds, or led out of the body.
fn is_clash(met: Met) -> bool
    ensures { result ≡ clashes met }
{
    match met {
        Met::Clash => true,
        Met::Same | Met::New => false,
    }
}

/// What two ways met.
fn both_met(first: Met, second: Met) -> Met
    ensures { result ≡ both first second }
{
    match (first, second) {
        (Met::Same, second) => second,
        (Met::Clash, _) | (_, Met::Clash) => Met::Clash,
        (Met::New, _) => Met::New,
    }
}

/// The place of the next instruction, where it may follow.
fn next_place(place: usize, what: &Instruction) -> Option<usize>
    requires { place + 1 < 2 ^ 64 }
    ensures { result ≡ next_of place what.now }
{
    if does_fall_through(what) {
        Some(place + 1)
    } else {
        None
    }
}

/// A way, if there is one, leads to a place with these kinds.
fn meet_some(
    alloc: Global,
    found: &mut Vec<Option<OperandKinds>>,
    place: Option<usize>,
    kinds: &OperandKinds,
) -> Result<Met, AllocError>
    ensures { IfOk result (λ met. MeetsSome found.old.items place kinds.now met found.new.items) }
{
    match place {
        Some(place) => meet(alloc, found, place, kinds),
        None => Ok(Met::Same),
    }
}

/// The place to which an instruction jumps.
fn target_place(what: &Instruction) -> Option<usize>
    ensures { result ≡ target_of what.now }
{
    match target(what) {
        Some(place) => Some(place as usize),
        None => None,
    }
}

/// Follows the ways from a place, where kinds are known there.
fn visit(
    alloc: Global,
    found: &mut Vec<Option<OperandKinds>>,
    units: &[CodeUnit],
    unit: &CodeUnit,
    place: usize,
) -> Result<Met, AllocError>
    requires size { length found.old.items ≡ length unit.now.body }
    requires within { place < length unit.now.body }
    requires few { place + 1 < 2 ^ 64 }
    ensures { IfOk result (λ met. Visits units.now unit.now place found.old.items met found.new.items) }
{
    let Some(mut kinds) = known_at(alloc, found, place)? else {
        return Ok(Met::Same);
    };
    if kinds.count() > unit.depth as usize {
        return Ok(Met::Clash);
    }
    let what = &unit.body.as_slice()[place].what;
    if !apply(alloc, &mut kinds, units, unit, what)? {
        return Ok(Met::Clash);
    }
    let first = meet_some(alloc, found, next_place(place, what), &kinds)?;
    if is_clash(first) {
        return Ok(Met::Clash);
    }
    let second = meet_some(alloc, found, target_place(what), &kinds)?;
    Ok(both_met(first, second))
}

/// Follows the ways from each place with known kinds once.
fn visit_all(
    alloc: Global,
    found: &mut Vec<Option<OperandKinds>>,
    units: &[CodeUnit],
    unit: &CodeUnit,
) -> Result<Met, AllocError>
    requires { length found.old.items ≡ length unit.now.body }
    ensures { IfOk result (λ met. VisitsAll units.now unit.now found.old.items met found.new.items) }
{
    let mut so_far = Met::Same;
    let mut place = 0;
    while place < unit.body.len() {
        let met = visit(alloc, found, units, unit, place)?;
        if is_clash(met) {
            return Ok(Met::Clash);
        }
        so_far = both_met(so_far, met);
        place += 1;
    }
    Ok(so_far)
}

/// Whether all ways to each place of a body agree on the kinds of the operands, and each instruction finds its own.
pub fn do_operands_fit(
    alloc: Global,
    units: &[CodeUnit],
    unit: &CodeUnit,
) -> Result<bool, AllocError>
    requires { 0 < length unit.now.body }
    ensures { IfOk result (λ fine. Decides fine ((kinds : ℕ → Option Kinds) × HasKinds units.now unit.now kinds)) }
{
    let mut found = nothing_known(alloc, unit.body.len())?;
    found[0] = Some(OperandKinds::new(alloc));
    loop {
        match visit_all(alloc, &mut found, units, unit)? {
            Met::Same => return Ok(true),
            Met::Clash => return Ok(false),
            Met::New => {}
        }
    }
}

//! The slots of an algorithm that runs.
ghost use Rattle.std.specs.Prelude.{◌≡◌, ◌<◌, length, true, false, Ok, Some, IfOk, MatchOption};
ghost use Rattle.stack_code.specs.CodeState.{Plain, with_slot, no_slots, cell_in};
ghost use Rattle.kumir_meaning.specs.Store as store;
ghost use Rattle.kumir_meaning.specs.Store.{read, checked, with_element};
ghost use Rattle.machine_steps.specs.States.{cell_view, slot_of, turns_view, slots_of, AllEmpty};
ghost use Rattle.machine_steps.specs.Grids.{element_put};

use crate::grid::{put_element, set_in};
use crate::held::{Cell, Held, Turns};
use km_base::Memory;
use kumir_values::{RunFault, Value};
use std::alloc::{AllocError, Global};
use std::marker::Model;
use std::mem;

/// The slots.
#[derive(Drop)]
pub struct Slots {
    held: Vec<Held>,
}

impl Model for Slots {
    ghost use Rattle.std.specs.Prelude.{List};
    ghost use Rattle.machine_steps.specs.declared.held.Held.{Held};

    ghost Value = { List Held };

    ghost view = { λ s. s.held.items };
}

/// So many slots that hold nothing.
fn nothing_held(alloc: Global, count: usize) -> Result<Vec<Held>, AllocError>
    ensures { IfOk result (λ held. AllEmpty count held.items) }
{
    let mut held = Vec::with_capacity(alloc, count)?;
    let mut at = 0;
    while at < count {
        held.push(Held::Plain(Cell::Empty))?;
        at += 1;
    }
    Ok(held)
}

/// Gives a slot a value: where it stands, if it holds one already.
#[inline(always)]
fn overwrite_value(place: &mut Held, value: Value)
    ensures { place.new ≡ Held.Plain (Cell.Has value) }
{
    match place {
        Held::Plain(Cell::Has(stands)) => *stands = value,
        _ => *place = Held::Plain(Cell::Has(value)),
    }
}

/// Gives a slot the turns of a loop: where they stand, if it is a loop's already.
#[inline(always)]
fn overwrite_turns(place: &mut Held, turns: Turns)
    ensures { place.new ≡ Held.Loop turns }
{
    match place {
        Held::Loop(stands) => *stands = turns,
        _ => *place = Held::Loop(turns),
    }
}

/// Gives an element of the table in a slot a value, or takes it away, where it stands.
#[inline(always)]
fn change_element(place: &mut Held, index: &[i32], value: Option<Value>)
    ensures { slot_of place.new ≡ Plain (with_element (cell_in (slot_of place.old)) index.now value) }
{
    match place {
        Held::Plain(cell) => put_element(cell, index, value),
        Held::Loop(_) => *place = Held::Plain(Cell::Empty),
    }
}

/// Gives an element of the table in a slot a value, if it is there and the table can take it; else nothing changes.
#[inline(always)]
fn set_held(place: &mut Held, index: &[i32], value: Value) -> bool
    ensures there { result ≡ true → checked (cell_in (slot_of place.old)) index.now ≡ Ok index.now }
    ensures set { result ≡ true → slot_of place.new ≡ Plain (with_element (cell_in (slot_of place.old)) index.now (Some value)) }
    ensures kept { result ≡ false → place.new ≡ place.old }
{
    match place {
        Held::Plain(cell) => set_in(cell, index, value),
        Held::Loop(_) => false,
    }
}

impl Slots {
    /// So many slots, which hold nothing.
    #[tactic(auto, using(crate::proofs::WrittenSlots::nothing_is))]
    pub fn new(alloc: Global, count: usize) -> Result<Slots, Memory>
        ensures slots { IfOk result (λ slots. slots_of slots ≡ no_slots) }
        ensures count { IfOk result (λ slots. length slots ≡ count) }
    {
        let held = nothing_held(alloc, count)?;
        Ok(Slots { held })
    }

    /// Puts it into a slot.
    pub fn put(&mut self, slot: u32, held: Held)
        requires { slot < length self.old }
        ensures slots { slots_of self.new ≡ with_slot (slots_of self.old) slot (slot_of held) }
        ensures count { length self.new ≡ length self.old }
    {
        self.held[slot as usize] = held;
    }

    /// Puts a value into a slot.
    #[inline(always)]
    pub fn put_value(&mut self, slot: u32, value: Value)
        requires { slot < length self.old }
        ensures slots { slots_of self.new ≡ with_slot (slots_of self.old) slot (Plain (store.Has value)) }
        ensures count { length self.new ≡ length self.old }
    {
        overwrite_value(&mut self.held[slot as usize], value);
    }

    /// Puts the turns of a loop into a slot.
    #[inline(always)]
    pub fn put_turns(&mut self, slot: u32, turns: Turns)
        requires { slot < length self.old }
        ensures slots { slots_of self.new ≡ with_slot (slots_of self.old) slot (turns_view turns) }
        ensures count { length self.new ≡ length self.old }
    {
        overwrite_turns(&mut self.held[slot as usize], turns);
    }

    /// The value of a slot, or `Unset`.
    #[inline(always)]
    pub fn read(&self, slot: u32) -> Result<Value, RunFault>
        ensures { result ≡ read (cell_in (slots_of self.now slot)) }
    {
        match self.held.get(slot as usize) {
            Some(Held::Plain(Cell::Has(value))) => Ok(*value),
            Some(Held::Plain(Cell::Empty)) | Some(Held::Plain(Cell::Holds(_))) => {
                Err(RunFault::Unset)
            }
            Some(Held::Loop(_)) | None => Err(RunFault::Unset),
        }
    }

    /// What the variable of a slot holds, if the slot is there and is no loop's.
    #[inline(always)]
    pub fn cell(&self, slot: u32) -> Option<&Cell>
        ensures { MatchOption result (cell_in (slots_of self.now slot) ≡ store.Empty) (λ cell. cell_in (slots_of self.now slot) ≡ cell_view cell.now) }
    {
        match self.held.get(slot as usize) {
            Some(Held::Plain(cell)) => Some(cell),
            Some(Held::Loop(_)) | None => None,
        }
    }

    /// How the loop of a slot stands, if it is a loop's.
    #[inline(always)]
    pub fn turns(&self, slot: u32) -> Option<Turns>
        ensures { MatchOption result (slots_of self.now slot ≡ Plain (cell_in (slots_of self.now slot))) (λ turns. slots_of self.now slot ≡ turns_view turns) }
    {
        match self.held.get(slot as usize) {
            Some(Held::Loop(turns)) => Some(*turns),
            Some(Held::Plain(_)) | None => None,
        }
    }

    /// Takes out what the variable of a slot holds; nothing where the slot is a loop's.
    pub fn take(&mut self, slot: u32) -> Cell
        requires { slot < length self.old }
        ensures cell { cell_view result ≡ cell_in (slots_of self.old slot) }
        ensures slots { slots_of self.new ≡ with_slot (slots_of self.old) slot (Plain store.Empty) }
        ensures count { length self.new ≡ length self.old }
    {
        match mem::replace(&mut self.held[slot as usize], Held::Plain(Cell::Empty)) {
            Held::Plain(cell) => cell,
            Held::Loop(_) => Cell::Empty,
        }
    }

    /// A copy of what the variable of a slot holds; nothing where the slot is a loop's.
    pub fn copy_cell(&self, alloc: Global, slot: u32) -> Result<Cell, Memory>
        ensures { IfOk result (λ cell. cell_view cell ≡ cell_in (slots_of self.now slot)) }
    {
        match self.cell(slot) {
            Some(Cell::Has(value)) => Ok(Cell::Has(*value)),
            Some(Cell::Holds(table)) => Ok(Cell::Holds(table.copy(alloc)?)),
            Some(Cell::Empty) | None => Ok(Cell::Empty),
        }
    }

    /// Gives an element of the table in a slot a value, or takes it away.
    #[inline(always)]
    pub fn put_element(&mut self, slot: u32, index: &[i32], value: Option<Value>)
        requires { slot < length self.old }
        ensures slots { slots_of self.new ≡ with_slot (slots_of self.old) slot (Plain (with_element (cell_in (slots_of self.old slot)) index.now value)) }
        ensures count { length self.new ≡ length self.old }
    {
        change_element(&mut self.held[slot as usize], index, value);
    }

    /// Gives an element of the table in a slot a value, if it is there and the table can take it; else nothing changes.
    #[inline(always)]
    pub fn set_element(&mut self, slot: u32, index: &[i32], value: Value) -> bool
        requires { slot < length self.old }
        ensures there { result ≡ true → checked (cell_in (slots_of self.old slot)) index.now ≡ Ok index.now }
        ensures slots { result ≡ true → slots_of self.new ≡ element_put (slots_of self.old) slot index.now value }
        ensures kept { result ≡ false → self.new ≡ self.old }
        ensures count { length self.new ≡ length self.old }
    {
        set_held(&mut self.held[slot as usize], index, value)
    }
}

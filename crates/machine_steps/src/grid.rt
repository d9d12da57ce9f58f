//! What a variable holds, as a table.
ghost use Rattle.std.specs.Prelude.{◌≡◌, true, false, Ok, Some, IfOk, IfErr, IsOk, IsTrue, IsFalse, ◌↔◌, ◌&&◌};
ghost use Rattle.std.specs.Ordering.{int_eq};
ghost use Rattle.kumir_values.specs.Bounds.{inside};
ghost use Rattle.kumir_values.specs.Tables.{is_of_kind};
ghost use Rattle.kumir_meaning.specs.Store as store;
ghost use Rattle.kumir_meaning.specs.Store.{element, checked, fitted, same_bounds, with_element, elements_in};
ghost use Rattle.stack_code.specs.CodeState.{paired};
ghost use Rattle.machine_steps.specs.States.{table_map, cell_view};
ghost use Rattle.machine_steps.specs.Grids.{IsFine};

use crate::held::Cell;
use kumir_tree::Kind;
use kumir_values::{Bound, RunFault, Table, Value};

/// The element of a table: `Index` outside its bounds, `Unset` where it has no value.
#[inline(always)]
#[tactic(auto, using(crate::proofs::TableChecks::other_length))]
pub fn element_of(table: &Table, index: &[i32]) -> Result<Value, RunFault>
    ensures { result ≡ element (store.Holds (table_map table.now)) index.now }
{
    if index.len() != table.bounds().len() {
        return Err(RunFault::Index);
    }
    table.get(index)
}

/// The element of what a variable holds; `Unset` where it is no table.
#[inline(always)]
pub fn element_in(cell: &Cell, index: &[i32]) -> Result<Value, RunFault>
    ensures { result ≡ element (cell_view cell.now) index.now }
{
    match cell {
        Cell::Holds(table) => element_of(table, index),
        Cell::Empty | Cell::Has(_) => Err(RunFault::Unset),
    }
}

/// Whether the indexes lie within the bounds.
#[inline(always)]
pub fn is_inside(table: &Table, index: &[i32]) -> bool
    ensures { result ≡ inside table.now.bounds index.now }
{
    match element_of(table, index) {
        Err(RunFault::Index) => false,
        Ok(_) | Err(_) => true,
    }
}

/// Checks the indexes of an element: `Unset` where there is no table, `Index` outside its bounds.
#[inline(always)]
pub fn check_in(cell: &Cell, index: &[i32]) -> Result<(), RunFault>
    ensures { IsFine (checked (cell_view cell.now) index.now) result }
{
    match cell {
        Cell::Holds(table) => {
            if is_inside(table, index) {
                Ok(())
            } else {
                Err(RunFault::Index)
            }
        }
        Cell::Empty | Cell::Has(_) => Err(RunFault::Unset),
    }
}

/// Whether a bound has these ends.
fn has_ends(bound: Bound, low: i32, high: i32) -> bool
    ensures { result ≡ (int_eq bound.low low && int_eq bound.high high) }
{
    bound.low == low && bound.high == high
}

/// Whether the bounds are these numbers in pairs; a last number alone is left out.
#[tactic(auto, using(crate::proofs::BoundPairs::other_count, crate::proofs::BoundPairs::differs, crate::proofs::BoundPairs::agrees, crate::proofs::BoundPairs::none_behind))]
fn are_bounds(bounds: &[Bound], ends: &[i32]) -> bool
    ensures { result ≡ same_bounds bounds.now (paired ends.now) }
{
    if bounds.len() != ends.len() / 2 {
        return false;
    }
    let mut at = 0;
    while at < bounds.len() {
        if !has_ends(bounds[at], ends[2 * at], ends[2 * at + 1]) {
            return false;
        }
        at += 1;
    }
    true
}

/// Compares the bounds of a table with numbers in pairs: `Unset` where there is no table, `Bounds` where they differ.
pub fn fit_in(cell: &Cell, ends: &[i32]) -> Result<(), RunFault>
    ensures { IsFine (fitted (cell_view cell.now) (paired ends.now)) result }
{
    match cell {
        Cell::Holds(table) => {
            if are_bounds(table.bounds(), ends) {
                Ok(())
            } else {
                Err(RunFault::Bounds)
            }
        }
        Cell::Empty | Cell::Has(_) => Err(RunFault::Unset),
    }
}

/// How many elements a variable has.
pub fn size_of(cell: &Cell) -> u32
    ensures { result ≡ elements_in (cell_view cell.now) }
{
    match cell {
        Cell::Holds(table) => table.size(),
        Cell::Empty | Cell::Has(_) => 0,
    }
}

/// Whether a table of this kind can take it.
#[inline(always)]
fn can_take(kind: Kind, value: Option<Value>) -> bool
    ensures { result ≡ is_of_kind kind value }
{
    match (kind, value) {
        (_, None) => true,
        (Kind::Whole, Some(Value::Whole(_))) | (Kind::Truth, Some(Value::Truth(_))) => true,
        (Kind::Whole, Some(Value::Truth(_))) | (Kind::Truth, Some(Value::Whole(_))) => false,
    }
}

/// Gives an element of a table a value, or takes it away, where the table can take it.
#[inline(always)]
#[tactic(auto, using(crate::proofs::TableChecks::other_length, crate::proofs::TableChecks::outside_kept, crate::proofs::TableChecks::other_kind_kept))]
fn change(table: &mut Table, index: &[i32], value: Option<Value>)
    ensures { store.Holds (table_map table.new) ≡ with_element (store.Holds (table_map table.old)) index.now value }
{
    if index.len() != table.bounds().len() {
        return;
    }
    if !can_take(table.kind(), value) {
        return;
    }
    let changed = match value {
        Some(value) => table.set(index, value),
        None => table.clear(index),
    };
    match changed {
        Ok(()) | Err(_) => {}
    }
}

/// Gives an element of what a variable holds a value, or takes it away.
#[inline(always)]
pub fn put_element(cell: &mut Cell, index: &[i32], value: Option<Value>)
    ensures { cell_view cell.new ≡ with_element (cell_view cell.old) index.now value }
{
    match cell {
        Cell::Holds(table) => change(table, index, value),
        Cell::Empty | Cell::Has(_) => {}
    }
}

/// Gives an element of a table a value, if it is there and the table can take it; else nothing changes.
#[inline(always)]
fn set_in_table(table: &mut Table, index: &[i32], value: Value) -> bool
    ensures there { result ≡ true → checked (store.Holds (table_map table.old)) index.now ≡ Ok index.now }
    ensures set { result ≡ true → store.Holds (table_map table.new) ≡ with_element (store.Holds (table_map table.old)) index.now (Some value) }
    ensures kept { result ≡ false → table.new ≡ table.old }
{
    if index.len() != table.bounds().len() || !can_take(table.kind(), Some(value)) {
        return false;
    }
    table.set(index, value).is_ok()
}

/// Gives an element of what a variable holds a value, if it is there and can take it; else nothing changes.
#[inline(always)]
pub fn set_in(cell: &mut Cell, index: &[i32], value: Value) -> bool
    ensures there { result ≡ true → checked (cell_view cell.old) index.now ≡ Ok index.now }
    ensures set { result ≡ true → cell_view cell.new ≡ with_element (cell_view cell.old) index.now (Some value) }
    ensures kept { result ≡ false → cell.new ≡ cell.old }
{
    match cell {
        Cell::Holds(table) => set_in_table(table, index, value),
        Cell::Empty | Cell::Has(_) => false,
    }
}

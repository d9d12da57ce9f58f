//! Tables: one value or none for each list of indexes within the bounds. An element is read and written in constant time.
ghost use Rattle.std.specs.Prelude.{◌≡◌, ℤ, List, Ok, Err, length, true, false, ◌<◌, ◌≤◌, IfOk, IfErr, OnOk, OnErr, IsOk, IsErr, MatchResult, IsTrue, IsFalse, Some, None, ◌↔◌, if◌then◌else◌};
ghost use Rattle.kumir_values.specs.Values.{kind_of};
ghost use Rattle.kumir_values.specs.Bounds.{all_ordered, elements, inside};
ghost use Rattle.kumir_values.specs.Tables.{value_at, no_value, changed, read_at, IsOfKind};

use crate::bounds::{Bound, are_ordered, count_elements, place_of};
use crate::run_end::RunFault;
use crate::value::Value;
use km_base::Memory;
use kumir_tree::Kind;
use std::alloc::{AllocError, Global};
use std::marker::Model;

/// Why a table is not made.
#[derive(Clone, Copy, Debug, PartialEq, Eq)]
pub enum TableRefusal {
    /// An upper bound is below its lower one.
    Bounds,
    /// There are more elements than there is room for.
    Elements,
    /// Want of memory.
    Memory,
}

impl From<AllocError> for TableRefusal {
    ghost use Rattle.kumir_values.specs.declared.table.TableRefusal.{TableRefusal};

    ghost from_gives = { λ refused refusal. refusal ≡ TableRefusal.Memory };

    fn from(_refused: AllocError) -> TableRefusal {
        TableRefusal::Memory
    }
}

impl From<Memory> for TableRefusal {
    ghost use Rattle.kumir_values.specs.declared.table.TableRefusal.{TableRefusal};

    ghost from_gives = { λ refused refusal. refusal ≡ TableRefusal.Memory };

    fn from(_refused: Memory) -> TableRefusal {
        TableRefusal::Memory
    }
}

/// A table. Contracts see its kind, its bounds and the map `value_at` from lists of indexes to values.
#[derive(Drop)]
pub struct Table {
    kind: Kind,
    bounds: Vec<Bound>,
    held: Vec<Option<Value>>,
}

impl Model for Table {
    ghost use Rattle.kumir_values.specs.Tables.{Grid, IsTable};

    ghost Value = { Grid };

    ghost view = { λ t. record { kind = t.kind; bounds = t.bounds.items; held = t.held.items } };

    ghost invariant = { λ t. IsTable t.kind t.bounds.items t.held.items };
}

impl Table {
    /// A table of this kind without values, if it has not more than `room` elements (docs/LANGUAGE.md, "Values").
    pub fn make(
        alloc: Global,
        kind: Kind,
        bounds: &[Bound],
        room: u32,
    ) -> Result<Table, TableRefusal>
        ensures bounds { all_ordered bounds.now ≡ false → result ≡ Err TableRefusal.Bounds }
        ensures elements { all_ordered bounds.now ≡ true → room < elements bounds.now → result ≡ Err TableRefusal.Elements }
        ensures made { all_ordered bounds.now ≡ true → elements bounds.now ≤ room
            → MatchResult result (λ t. (t.kind ≡ kind) × (t.bounds ≡ bounds.now) × (value_at t ≡ no_value)) (λ refusal. refusal ≡ TableRefusal.Memory) }
    {
        if !are_ordered(bounds) {
            return Err(TableRefusal::Bounds);
        }
        let Some(count) = count_elements(bounds, room) else {
            return Err(TableRefusal::Elements);
        };
        Ok(Table {
            kind,
            bounds: Vec::from_slice(alloc, bounds)?,
            held: vec![in alloc; None; count as usize]?,
        })
    }

    /// The bounds, one for each index.
    pub fn bounds(&self) -> &[Bound]
        ensures { result.now ≡ self.now.bounds }
    {
        self.bounds.as_slice()
    }

    /// The kind of its values.
    pub fn kind(&self) -> Kind
        ensures { result ≡ self.now.kind }
    {
        self.kind
    }

    /// How many elements it has, with or without a value.
    pub fn size(&self) -> u32
        ensures { result ≡ elements self.now.bounds }
    {
        self.held.len() as u32
    }

    /// The value of an element: `Index` outside the bounds, else `Unset` where it has none.
    pub fn get(&self, index: &[i32]) -> Result<Value, RunFault>
        requires { length index.now ≡ length self.now.bounds }
        ensures answer { result ≡ read_at self.now index.now }
        ensures of_kind { IfOk result (λ value. kind_of value ≡ self.now.kind) }
    {
        match place_of(self.bounds.as_slice(), index) {
            Some(place) => match self.held[place] {
                Some(value) => Ok(value),
                None => Err(RunFault::Unset),
            },
            None => Err(RunFault::Index),
        }
    }

    /// Gives an element a value. `Index` outside the bounds, and then nothing changed.
    pub fn set(&mut self, index: &[i32], value: Value) -> Result<(), RunFault>
        requires as_many { length index.now ≡ length self.old.bounds }
        requires of_kind { kind_of value ≡ self.old.kind }
        ensures within { IsOk result ↔ IsTrue (inside self.old.bounds index.now) }
        ensures refused { IfErr result (λ fault. fault ≡ RunFault.Index) }
        ensures same_kind { self.new.kind ≡ self.old.kind }
        ensures same_bounds { self.new.bounds ≡ self.old.bounds }
        ensures changed { OnOk result (value_at self.new ≡ changed (value_at self.old) index.now (Some value)) }
        ensures unchanged { OnErr result (self.new ≡ self.old) }
    {
        self.put(index, Some(value))
    }

    /// Takes the value of an element away. `Index` outside the bounds, and then nothing changed.
    pub fn clear(&mut self, index: &[i32]) -> Result<(), RunFault>
        requires { length index.now ≡ length self.old.bounds }
        ensures within { IsOk result ↔ IsTrue (inside self.old.bounds index.now) }
        ensures refused { IfErr result (λ fault. fault ≡ RunFault.Index) }
        ensures same_kind { self.new.kind ≡ self.old.kind }
        ensures same_bounds { self.new.bounds ≡ self.old.bounds }
        ensures changed { OnOk result (value_at self.new ≡ changed (value_at self.old) index.now None) }
        ensures unchanged { OnErr result (self.new ≡ self.old) }
    {
        self.put(index, None)
    }

    fn put(&mut self, index: &[i32], value: Option<Value>) -> Result<(), RunFault>
        requires as_many { length index.now ≡ length self.old.bounds }
        requires of_kind { IsOfKind self.old.kind value }
        ensures within { IsOk result ↔ IsTrue (inside self.old.bounds index.now) }
        ensures refused { IfErr result (λ fault. fault ≡ RunFault.Index) }
        ensures same_kind { self.new.kind ≡ self.old.kind }
        ensures same_bounds { self.new.bounds ≡ self.old.bounds }
        ensures changed { OnOk result (value_at self.new ≡ changed (value_at self.old) index.now value) }
        ensures unchanged { OnErr result (self.new ≡ self.old) }
    {
        let Some(place) = place_of(self.bounds.as_slice(), index) else {
            return Err(RunFault::Index);
        };
        self.held[place] = value;
        Ok(())
    }

    /// A table with the same kind, bounds and values.
    pub fn copy(&self, alloc: Global) -> Result<Table, Memory>
        ensures { IfOk result (λ table. table ≡ self.now) }
    {
        Ok(Table {
            kind: self.kind,
            bounds: Vec::from_slice(alloc, self.bounds.as_slice())?,
            held: Vec::from_slice(alloc, self.held.as_slice())?,
        })
    }
}

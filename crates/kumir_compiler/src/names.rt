//! The names of an algorithm.

ghost use Rattle.std.specs.Prelude.{◌≡◌, ◌∷◌, ◌++◌, [], length, slice_get, OnOk};
ghost use Rattle.kumir_compiler.specs.FirstPlaces.{first_place, names_in, variables_in};

use crate::first::FirstPlaces;
use km_base::{Memory, Noted};
use kumir_names::Variable;
use kumir_tree::Name;
use std::alloc::Global;
use std::marker::Model;

/// A name with its variable.
#[derive(Drop)]
pub struct NamedVariable {
    pub name: Name,
    pub variable: Variable,
}

/// The names of an algorithm with their variables, in the order of the text. Each is found by its
/// first place.
#[derive(Drop)]
pub struct UnitNames {
    alloc: Global,
    named: Noted<NamedVariable>,
    variables: Vec<Variable>,
    places: FirstPlaces,
}

impl Model for UnitNames {
    ghost use Rattle.std.specs.Prelude.{◌≡◌, map};
    ghost use Rattle.kumir_names.specs.Variables.{Names};
    ghost use Rattle.kumir_compiler.specs.FirstPlaces.{names_in, variables_in};
    ghost use Rattle.kumir_compiler.specs.NamesSeen.{pair_of};

    ghost Value = { Names };

    ghost view = { λ n. map pair_of n.named };

    ghost invariant = { λ n. (n.variables.items ≡ variables_in (map pair_of n.named))
        × (n.places ≡ names_in (map pair_of n.named)) };
}

impl UnitNames {
    /// No names.
    pub fn new(alloc: Global) -> UnitNames
        ensures { result ≡ [] }
    {
        UnitNames {
            alloc,
            named: Noted::new(),
            variables: Vec::new(alloc),
            places: FirstPlaces::new(alloc),
        }
    }

    /// How many there are.
    pub fn count(&self) -> usize
        ensures { result ≡ length self.now }
    {
        self.variables.len()
    }

    /// The variable of the name at that place.
    pub fn get(&self, place: usize) -> Option<Variable>
        ensures { result ≡ slice_get (variables_in self.now) place }
    {
        self.variables.get(place).copied()
    }

    /// The place of the first name that is this one. None comes exactly where none is. No memory is
    /// taken.
    pub fn place_of(&self, name: &Name) -> Option<u32>
        ensures { result ≡ first_place name.now (names_in self.now) }
    {
        self.places.place_of(name)
    }

    /// The name without characters. No memory is taken.
    pub fn nameless(&self) -> Name
        ensures { result ≡ [] }
    {
        Name::new(self.alloc)
    }

    /// One name more. A place that does not fit its 32 bits is answered as want of memory.
    pub fn add(&mut self, alloc: Global, name: &Name, variable: Variable) -> Result<(), Memory>
        ensures { OnOk result (self.new ≡ self.old ++ (name.now, variable) ∷ []) }
    {
        let named = NamedVariable {
            name: name.copy(alloc)?,
            variable,
        };
        let found = name.copy(alloc)?;
        self.variables.push(variable)?;
        if self.places.add(Some(found)).is_err() {
            self.variables.pop();
            return Err(Memory);
        }
        self.named.note(&named);
        Ok(())
    }
}

//! The names that an algorithm asks for.

ghost use Rattle.std.specs.Prelude.{◌≡◌, [], IfOk, OnOk};
ghost use Rattle.type_check.specs.Checked.{noted};

use indexmap::IndexSet;
use km_base::Memory;
use kumir_tree::{Name, Names, copy_names};
use std::alloc::Global;
use std::marker::Model;

/// Names, each once, in the order in which they were first asked for.
#[derive(Drop)]
pub struct Asked {
    names: IndexSet<Name>,
}

impl Model for Asked {
    ghost use Rattle.std.specs.Prelude.{List, ℕ};

    ghost Value = { List (List ℕ) };

    ghost view = { λ a. a.names.keys };
}

impl Asked {
    pub fn new(alloc: Global) -> Asked
        ensures { result ≡ [] }
    {
        Asked {
            names: IndexSet::new(alloc),
        }
    }

    /// Adds a name where it is not there.
    pub fn add(&mut self, alloc: Global, name: &Name) -> Result<(), Memory>
        ensures { OnOk result (self.new ≡ noted self.old name.now) }
    {
        if self.names.contains(name) {
            return Ok(());
        }
        let name = name.copy(alloc)?;
        self.names.insert(name)?;
        Ok(())
    }

    /// The names.
    pub fn names(&self, alloc: Global) -> Result<Names, Memory>
        ensures { IfOk result (λ names. names ≡ self.now) }
    {
        Ok(copy_names(alloc, self.names.as_slice())?)
    }
}

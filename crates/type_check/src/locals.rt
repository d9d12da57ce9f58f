//! The local names of an algorithm.

ghost use Rattle.std.specs.Prelude.{◌≡◌, [], IfOk, OnOk};
ghost use Rattle.kumir_names.specs.Variables.{variable};
ghost use Rattle.type_check.specs.Checked.{is_local, with_local};

use indexmap::IndexMap;
use km_base::Memory;
use kumir_names::Variable;
use kumir_tree::Name;
use std::alloc::Global;
use std::marker::Model;

/// The local names with their variables, in the order of their declarations.
#[derive(Drop)]
pub struct Locals {
    variables: IndexMap<Name, Variable>,
}

impl Model for Locals {
    ghost use Rattle.kumir_names.specs.Variables.{Names};

    ghost Value = { Names };

    ghost view = { λ l. l.variables.entries };
}

impl Locals {
    pub fn new(alloc: Global) -> Locals
        ensures { result ≡ [] }
    {
        Locals {
            variables: IndexMap::new(alloc),
        }
    }

    /// The variable with this name. No memory is taken.
    pub fn get(&self, name: &Name) -> Option<Variable>
        ensures { result ≡ variable self.now name.now }
    {
        self.variables.get(name).copied()
    }

    /// Adds a name where it is not there, and answers whether it was there.
    #[tactic(auto, using(crate::proofs::Local::new_name))]
    pub fn declare(
        &mut self,
        alloc: Global,
        name: &Name,
        variable: Variable,
    ) -> Result<bool, Memory>
        ensures added { OnOk result (self.new ≡ with_local self.old (name.now, variable)) }
        ensures again { IfOk result (λ again. again ≡ is_local self.old name.now) }
    {
        if self.get(name).is_some() {
            return Ok(true);
        }
        let name = name.copy(alloc)?;
        self.variables.insert(name, variable)?;
        Ok(false)
    }
}

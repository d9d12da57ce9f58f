//! Programs without a fault.

ghost use Rattle.std.specs.Prelude.{◌≡◌, ◌≢◌, ◌++◌, [], IfOk, IfErr, OnOk};
ghost use Rattle.kumir_tree.specs.Units.{units_of};
ghost use Rattle.kumir_tree.specs.Sound.{IsSound};
ghost use Rattle.type_rules.specs.Headers.{callees_of, some_head_behind};
ghost use Rattle.type_rules.specs.Counted.{headers_in};
ghost use Rattle.type_check.specs.Margin.{program_faults, first_head};
ghost use Rattle.type_check.specs.Placed.{units_in};
ghost use Rattle.type_check.specs.Refused.{IsRefusalOf};

use crate::first::first_header;
use crate::margin::{faults_of, mark_faults};
use crate::refusal::CleanRefusal;
use km_base::{Memory, Steps, Uncounted};
use kumir_tree::{Fault, Header, PlacedUnit, Units};
use sqlite_items::Items;
use std::alloc::Global;
use std::marker::Model;
use type_rules::{Headers, HeadersRead};

/// A program without a fault: its units are sound and its margin has no mark. Contracts see its units, each with its
/// first line.
#[derive(Drop)]
pub struct Clean {
    units: Units,
    headers: Headers,
}

impl Model for Clean {
    ghost use Rattle.std.specs.Prelude.{◌≡◌, ℕ, List, []};
    ghost use Rattle.std.specs.Coded.{codes};
    ghost use Rattle.kumir_tree.specs.contracts.expr.Expr as e;
    ghost use Rattle.kumir_tree.specs.contracts.statement.What as w;
    ghost use Rattle.kumir_tree.specs.declared.unit.UnitRead.{UnitRead};
    ghost use Rattle.kumir_tree.specs.Units.{units_of};
    ghost use Rattle.kumir_tree.specs.Sound.{IsSound};
    ghost use Rattle.type_rules.specs.Headers.{callees_of};
    ghost use Rattle.type_rules.specs.Counted.{headers_in};
    ghost use Rattle.type_check.specs.Margin.{program_faults};
    ghost use Rattle.type_check.specs.Placed.{reads_of};

    ghost Value = { List (ℕ × UnitRead) };

    ghost coded = { Prim.hlevel (codes, e.the_row.coded, w.the_row.coded) };

    ghost view = { λ c. reads_of c.units };

    ghost invariant = { λ c. IsSound (units_of c.units) × (program_faults (units_of c.units) ≡ [])
        × (callees_of c.headers ≡ headers_in (units_of c.units)) };
}

/// The same units once more.
fn share_units(alloc: Global, units: &[PlacedUnit]) -> Result<Units, Memory>
    ensures { IfOk result (λ shared. units_of shared ≡ units_of units.now) }
{
    let mut shared = Items::new(alloc);
    for unit in units {
        let read = unit.read.clone()?;
        shared.push(PlacedUnit {
            first: unit.first,
            read,
        })?;
    }
    Ok(shared)
}

/// The margin of these faults, as a refusal.
#[tactic(auto, using(crate::proofs::Marked::has_marks))]
fn refusal_of(alloc: Global, faults: &[Fault]) -> CleanRefusal
    requires { faults.now ≢ [] }
    ensures { IsRefusalOf faults.now result }
{
    match mark_faults(alloc, faults) {
        Ok(margin) => CleanRefusal::Faults(margin),
        Err(_) => CleanRefusal::Memory,
    }
}

/// The program, where its margin has no mark; else its margin. The units are shared, not copied.
#[tactic(auto, using(crate::proofs::FirstUnit::units_seen))]
pub fn clean_of(alloc: Global, units: &Units) -> Result<Clean, CleanRefusal>
    requires { IsSound (units_of units.now) }
    ensures same { IfOk result (λ clean. units_in clean ≡ units_of units.now) }
    ensures without_fault { OnOk result (program_faults (units_of units.now) ≡ []) }
    ensures refused { IfErr result (λ refusal. IsRefusalOf (program_faults (units_of units.now)) refusal) }
{
    let mut steps = Steps::<Uncounted>::new();
    let HeadersRead { headers, faults } = faults_of(alloc, units, &mut steps)?;
    if !faults.is_empty() {
        return Err(refusal_of(alloc, faults.as_slice()));
    }
    let units = share_units(alloc, units.as_slice())?;
    Ok(Clean { units, headers })
}

#[tactic(auto, using(crate::proofs::FirstUnit::units_seen))]
impl Clean {
    /// The prelude and the units of the program.
    pub fn units(&self) -> &Units
        ensures same { units_of result.now ≡ units_in self.now }
        ensures sound { IsSound (units_of result.now) }
        ensures without_fault { program_faults (units_of result.now) ≡ [] }
    {
        &self.units
    }

    /// The headers of the program; each counts.
    pub fn headers(&self) -> &Headers
        ensures { callees_of result.now ≡ headers_in (units_in self.now) }
    {
        &self.headers
    }

    /// The header of the first algorithm. None comes exactly where there is no algorithm.
    #[tactic(auto, using(crate::proofs::FirstUnit::first_seen))]
    pub fn main(&self) -> Option<&Header>
        ensures { some_head_behind result ≡ first_head (units_in self.now) }
    {
        first_header(&self.units)
    }
}

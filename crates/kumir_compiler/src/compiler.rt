//! The code of a program without a fault.

ghost use Rattle.std.specs.Prelude.{◌≡◌, [], ◌∷◌, ◌++◌, map, IfOk, OnOk};
ghost use Rattle.kumir_tree.specs.Units.{units_of};
ghost use Rattle.kumir_meaning.specs.Program.{Program, grown, program_of};
ghost use Rattle.type_check.specs.Placed.{units_in};
ghost use Rattle.kumir_compiler.specs.AlgorithmsSeen.{program_seen};
ghost use Rattle.kumir_compiler.specs.UnitCode.{unit_code};
ghost use Rattle.kumir_compiler.specs.Code as code;
ghost use Rattle.kumir_compiler.specs.Code.{code_of};
ghost use Rattle.kumir_compiler.specs.Laws.{RunsAs};

use crate::algorithms::Algorithms;
use crate::laws::{code_means_the_program, faultless_code_is_valid, faultless_is_compilable};
use crate::placed::tree_of;
use crate::units::code_of_unit;
use km_base::{Memory, Performers};
use kumir_tree::PlacedUnit;
use sqlite_items::Items;
use stack_code::{Code, CodeUnit, CodeUnits};
use std::alloc::Global;
use type_check::Clean;

/// The algorithms of units, behind those that are there.
fn add_algorithms<'p>(
    alloc: Global,
    program: &mut Algorithms<'p>,
    units: &'p [PlacedUnit],
) -> Result<(), Memory>
    ensures { OnOk result (program_seen program.new ≡ record (program_seen program.old) {
      algorithms = (program_seen program.old).algorithms ++ grown (units_of units.now);
    }) }
{
    for unit in units {
        if let Some(algorithm) = tree_of(unit) {
            program.add(alloc, algorithm)?;
        }
    }
    Ok(())
}

/// The code of the algorithms of units.
fn add_code(
    alloc: Global,
    program: &Algorithms<'_>,
    units: &[PlacedUnit],
    code: &mut CodeUnits,
) -> Result<(), Memory>
    ensures { OnOk result (code.new ≡ code.old ++ map (unit_code (program_seen program.now)) (grown (units_of units.now))) }
{
    for unit in units {
        if let Some(algorithm) = tree_of(unit) {
            code.push(code_of_unit(alloc, program, &algorithm)?)?;
        }
    }
    Ok(())
}

/// The code of all algorithms of a program: the prelude, and the units behind it.
#[tactic(auto, unfolding(crate::specs::Code::code_of))]
fn code_behind(
    alloc: Global,
    prelude: &PlacedUnit,
    units: &[PlacedUnit],
) -> Result<CodeUnits, Memory>
    ensures { IfOk result (λ made. made ≡ code_of (program_of (units_of (prelude.now ∷ units.now)))) }
{
    let mut program = Algorithms::new(alloc, prelude.read.performers);
    add_algorithms(alloc, &mut program, units)?;
    let mut code = Items::new(alloc);
    add_code(alloc, &program, units, &mut code)?;
    Ok(code)
}

#[tactic(auto, unfolding(crate::specs::Code::code_of))]
fn code_of_units(alloc: Global, units: &[PlacedUnit]) -> Result<CodeUnits, Memory>
    ensures { IfOk result (λ made. made ≡ code_of (program_of (units_of units.now))) }
{
    match units {
        [prelude, units @ ..] => code_behind(alloc, prelude, units),
        [] => Ok(Items::new(alloc)),
    }
}

/// The unit with which a run begins: the first, where it has no parameters.
fn entry_of(units: &[CodeUnit]) -> Option<u32>
    ensures { (p : Program) → units.now ≡ code_of p → result ≡ code.entry_of p }
{
    match units {
        [first, ..] => {
            if first.params.is_empty() {
                Some(0)
            } else {
                None
            }
        }
        [] => None,
    }
}

/// The code of a program without a fault. It is valid, it has an entry exactly where there is a first algorithm and it has no
/// parameters, and it runs as the program means. `Memory` also where a number of the code does not fit its 32 bits.
pub fn compile(alloc: Global, clean: &Clean) -> Result<Code, Memory>
    ensures units { IfOk result (λ made. made.units ≡ code_of (program_of (units_in clean.now))) }
    ensures entry { IfOk result (λ made. made.entry ≡ code.entry_of (program_of (units_in clean.now))) }
    ensures meaning { IfOk result (λ made. RunsAs made.units (program_of (units_in clean.now))) }
{
    code_means_the_program();
    faultless_is_compilable();
    faultless_code_is_valid();
    let units = code_of_units(alloc, clean.units().as_slice())?;
    let entry = entry_of(units.as_slice());
    Ok(Code::new(units, entry))
}

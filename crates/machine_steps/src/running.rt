//! An algorithm that runs, or that waits for the return of a call.
ghost use Rattle.std.specs.Prelude.{◌≡◌, [], IfOk, length};
ghost use Rattle.stack_code.specs.CodeRuns.{start};
ghost use Rattle.machine_steps.specs.States.{state_of};

use crate::operands::Operands;
use crate::slots::Slots;
use km_base::Memory;
use stack_code::CodeUnit;
use std::alloc::Global;

/// An algorithm that runs, or that waits for the return of a call.
#[derive(Drop)]
pub struct Running {
    /// The number of its unit.
    pub unit: u32,
    /// The place of the next instruction in the unit's body.
    pub pc: usize,
    pub operands: Operands,
    pub slots: Slots,
    /// Table elements in use in it and in all that wait for it.
    pub used: u32,
}

impl Running {
    /// The begin of a run in a unit: empty slots and no operands, with room for as many as the unit may have. `Memory` where memory is wanted.
    pub fn begin(alloc: Global, number: u32, unit: &CodeUnit) -> Result<Running, Memory>
        ensures state { IfOk result (λ running. state_of running [] ≡ start number) }
        ensures slots { IfOk result (λ running. length running.slots ≡ length unit.now.slots) }
    {
        Ok(Running {
            unit: number,
            pc: 0,
            operands: Operands::new(alloc, unit.depth as usize)?,
            slots: Slots::new(alloc, unit.slots.len())?,
            used: 0,
        })
    }
}

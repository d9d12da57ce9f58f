//! Builders of code written by hand, for tests and measurements.
#![tactic(auto)]

ghost use Rattle.std.specs.Prelude.{◌≡◌, ◌≤◌, [], ◌∷◌, None, IfOk};
ghost use Rattle.std.specs.Arc.{arc_value};

use sqlite_items::Items;
use stack_code::{Code, CodeLine, CodeLines, CodeUnit, CodeUnits, Instruction, Shape};
use std::alloc::{AllocError, Global};
use std::sync::Arc;

/// A line of code.
pub fn on(line: u32, what: Instruction) -> CodeLine
    ensures { result ≡ record { line = line; what = what } }
{
    CodeLine { line, what }
}

/// A body of these lines.
pub fn body_of<const N: usize>(alloc: Global, lines: [CodeLine; N]) -> Result<CodeLines, AllocError>
    requires { N ≤ 100 }
    ensures { IfOk result (λ body. body ≡ lines.entry) }
{
    Ok(Items::from_vec(Vec::from_array(alloc, lines)?))
}

/// A unit with these slots and without parameters, which gives nothing.
pub fn unit_of(
    alloc: Global,
    slots: &[Shape],
    depth: u32,
    body: CodeLines,
) -> Result<CodeUnit, AllocError>
    ensures { IfOk result (λ unit. unit ≡ record { slots = slots.now; params = []; gives = None; depth = depth; body = body }) }
{
    Ok(CodeUnit {
        slots: Items::from_slice(alloc, slots)?,
        params: Items::new(alloc),
        gives: None,
        depth,
        body,
    })
}

/// A program of one unit.
pub fn program_of(alloc: Global, unit: CodeUnit) -> Result<CodeUnits, AllocError>
    ensures { IfOk result (λ units. units ≡ unit ∷ []) }
{
    let mut units = Items::new(alloc);
    units.push(unit)?;
    Ok(units)
}

/// Code that several hold.
pub fn shared(alloc: Global, code: Code) -> Result<Arc<Code>, AllocError>
    ensures { IfOk result (λ held. arc_value held ≡ code) }
{
    Ok(Arc::new(alloc, code)?)
}

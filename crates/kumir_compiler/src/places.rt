//! Lines at their places.
ghost use Rattle.std.specs.Prelude.{◌≡◌, ◌+◌, ◌-◌, IfOk};
ghost use Rattle.kumir_compiler.specs.Code.{placed};
ghost use Rattle.kumir_compiler.specs.PendingCode.{code_of, line_of};

use crate::pending::{Pending, PendingLine, PendingLines};
use crate::put::narrow;
use km_base::Memory;
use sqlite_items::Items;
use stack_code::{CodeLine, CodeLines, Instruction};
use std::alloc::Global;

/// The place behind so many lines.
fn forward(at: usize, over: usize) -> Result<u32, Memory>
    ensures { IfOk result (λ to. to ≡ at + 1 + over) }
{
    let Some(next) = at.checked_add(1) else {
        return Err(Memory);
    };
    match next.checked_add(over) {
        Some(to) => narrow(to),
        None => Err(Memory),
    }
}

/// A line at its place.
fn at_its_place(line: PendingLine, at: usize) -> Result<CodeLine, Memory>
    ensures { IfOk result (λ l. l ≡ line_of line at) }
{
    let PendingLine { line, what } = line;
    let what = match what {
        Pending::Known(what) => what,
        Pending::Jump(over) => Instruction::Jump(forward(at, over)?),
        Pending::JumpNo(over) => Instruction::JumpNo(forward(at, over)?),
        Pending::Back(over) => Instruction::Jump(narrow(at.saturating_sub(over))?),
        Pending::BackNo(over) => Instruction::JumpNo(narrow(at.saturating_sub(over))?),
        Pending::Next(slot, variable, over) => Instruction::Next(
            slot,
            variable,
            forward(at, over)?,
        ),
    };
    Ok(CodeLine { line, what })
}

/// All lines at their places.
pub fn body_of(alloc: Global, lines: PendingLines) -> Result<CodeLines, Memory>
    ensures { IfOk result (λ body. body ≡ placed 0 (code_of lines)) }
{
    let mut lines = lines;
    let mut body = Items::new(alloc);
    while let Some(line) = lines.take() {
        let line = at_its_place(line, body.len())?;
        body.push(line)?;
    }
    Ok(body)
}

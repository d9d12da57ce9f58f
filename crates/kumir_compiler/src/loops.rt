//! What stands around the bodies of loops. A loop is made from its end on: a line that is to go back, the body, and what stands
//! before it, after which that line goes back to the step in front of all.
ghost use Rattle.std.specs.Prelude.{◌≡◌, ◌∷◌, ◌++◌, length, None, Some, OnOk, IfOk};
ghost use Rattle.kumir_tree.specs.Seen.{tree, some_tree};
ghost use Rattle.kumir_meaning.specs.Store.{Local};
ghost use Rattle.stack_code.specs.declared.instruction.Instruction.TheVariants as instruction;
ghost use Rattle.kumir_compiler.specs.Sites.{jump_back, jump_no_back, on, on_line, slot};
ghost use Rattle.kumir_compiler.specs.ExpressionCode.{tree_code};
ghost use Rattle.kumir_compiler.specs.LoopCode.{turns_code, while_code};
ghost use Rattle.kumir_compiler.specs.StatementCode.{stride_code};
ghost use Rattle.kumir_compiler.specs.PendingCode.{code_of};
ghost use Rattle.kumir_compiler.specs.SitesSeen.{site_of, with_locals};
ghost use Rattle.kumir_compiler.specs.BlocksPut.{BecomesLoop, GoesBack};

use crate::expressions::emit_tree;
use crate::pending::{Pending, PendingLines};
use crate::put::{put, put_pending};
use crate::simple::put_stride;
use crate::site::{Site, slot_of};
use km_base::Memory;
use kumir_tree::{Expr, Name};
use stack_code::Instruction;

/// The turns of a loop that counts.
#[derive(Clone, Copy)]
pub struct Turns<'a> {
    pub variable: &'a Name,
    pub from: &'a Expr,
    pub to: &'a Expr,
    pub step: &'a Option<Expr>,
}

/// The line at the end of a loop that is to go back, and how many lines are behind it.
pub fn begin_back(site: &Site<'_, '_>, out: &mut PendingLines) -> Result<usize, Memory>
    ensures code { OnOk result (code_of out.new ≡ jump_back (site_of site.now) 0 ∷ code_of out.old) }
    ensures end { IfOk result (λ end. end ≡ length out.old) }
{
    let end = out.count();
    put_pending(site, out, Pending::Back(0))?;
    Ok(end)
}

/// The step at the head of a loop, to which the line now goes back that has so many behind it.
pub fn step_back(site: &Site<'_, '_>, end: usize, out: &mut PendingLines) -> Result<(), Memory>
    ensures { OnOk result (GoesBack jump_back (site_of site.now) end out.old out.new) }
{
    put(site, out, Instruction::Step)?;
    let count = out.count();
    if end < count {
        out.change(end, Pending::Back(count - end - 1));
    }
    Ok(())
}

/// As `step_back`, for a line that goes back on `нет`.
pub fn step_back_on_no(
    site: &Site<'_, '_>,
    end: usize,
    out: &mut PendingLines,
) -> Result<(), Memory>
    ensures { OnOk result (GoesBack jump_no_back (site_of site.now) end out.old out.new) }
{
    put(site, out, Instruction::Step)?;
    let count = out.count();
    if end < count {
        out.change(end, Pending::BackNo(count - end - 1));
    }
    Ok(())
}

/// The test and the step before the body of `нц пока`.
pub fn end_while(
    site: &Site<'_, '_>,
    hidden: usize,
    start: usize,
    end: usize,
    e: &Expr,
    out: &mut PendingLines,
) -> Result<(), Memory>
    ensures { OnOk result (BecomesLoop (site_of site.now) end (λ body. while_code
        (tree_code (tree e.now) (with_locals site.now start) hidden) body (site_of site.now))
        out.old out.new) }
{
    let before = Site {
        locals: start,
        ..*site
    };
    let over = out.count().saturating_sub(end);
    put_pending(site, out, Pending::JumpNo(over))?;
    emit_tree(&before, hidden, e, out)?;
    step_back(site, end, out)
}

/// The next turn and the step before the body of a loop whose turns are kept in that slot.
fn end_turns(
    site: &Site<'_, '_>,
    kept: u32,
    variable: Option<u32>,
    end: usize,
    out: &mut PendingLines,
) -> Result<(), Memory>
    ensures { OnOk result (BecomesLoop (site_of site.now) end
        (λ body. turns_code kept variable body (site_of site.now)) out.old out.new) }
{
    let over = out.count().saturating_sub(end);
    put_pending(site, out, Pending::Next(kept, variable, over))?;
    step_back(site, end, out)
}

/// What stands before the body of `нц раз`: how many turns there are, and the turns.
pub fn end_times(
    site: &Site<'_, '_>,
    hidden: usize,
    start: usize,
    kept: u32,
    end: usize,
    e: &Expr,
    out: &mut PendingLines,
) -> Result<(), Memory>
    ensures { OnOk result (BecomesLoop (site_of site.now) end
        (λ body. tree_code (tree e.now) (with_locals site.now start) hidden
        ++ (on (site_of site.now) (instruction.Times kept)
        ∷ turns_code kept None body (site_of site.now))) out.old out.new) }
{
    let before = Site {
        locals: start,
        ..*site
    };
    end_turns(site, kept, None, end, out)?;
    put(site, out, Instruction::Times(kept))?;
    emit_tree(&before, hidden, e, out)
}

/// The first and the last number of a loop that counts, and its step.
fn put_range(
    site: &Site<'_, '_>,
    hidden: usize,
    turns: &Turns<'_>,
    out: &mut PendingLines,
) -> Result<(), Memory>
    ensures { OnOk result (code_of out.new
        ≡ tree_code (tree turns.now.from.now) (site_of site.now) hidden
        ++ (tree_code (tree turns.now.to.now) (site_of site.now) hidden
        ++ (stride_code (some_tree turns.now.step.now) (site_of site.now) hidden ++ code_of out.old))) }
{
    put_stride(site, hidden, turns.step, out)?;
    emit_tree(site, hidden, turns.to, out)?;
    emit_tree(site, hidden, turns.from, out)
}

/// What stands before the body of `нц для`: its numbers, and the turns.
pub fn end_count(
    site: &Site<'_, '_>,
    hidden: usize,
    start: usize,
    kept: u32,
    end: usize,
    turns: &Turns<'_>,
    out: &mut PendingLines,
) -> Result<(), Memory>
    ensures { OnOk result (BecomesLoop (site_of site.now) end
        (λ body. tree_code (tree turns.now.from.now) (with_locals site.now start) hidden
        ++ (tree_code (tree turns.now.to.now) (with_locals site.now start) hidden
        ++ (stride_code (some_tree turns.now.step.now) (with_locals site.now start) hidden
        ++ (on (site_of site.now) (instruction.Turns kept) ∷ turns_code kept
        (Some (slot (site_of site.now) (Local turns.now.variable.now))) body (site_of site.now)))))
        out.old out.new) }
{
    let before = Site {
        locals: start,
        ..*site
    };
    let variable = slot_of(site, turns.variable)?;
    end_turns(site, kept, Some(variable), end, out)?;
    put(site, out, Instruction::Turns(kept))?;
    put_range(&before, hidden, turns, out)
}

/// The end of a loop with its test, which is to go back, and how many lines are behind it.
pub fn begin_until(
    site: &Site<'_, '_>,
    hidden: usize,
    line: u32,
    e: &Expr,
    out: &mut PendingLines,
) -> Result<usize, Memory>
    ensures code { OnOk result (code_of out.new ≡ on (on_line (site_of site.now) line) instruction.Step
        ∷ (tree_code (tree e.now) (on_line (site_of site.now) line) hidden
        ++ (jump_no_back (on_line (site_of site.now) line) 0 ∷ code_of out.old))) }
    ensures end { IfOk result (λ end. end ≡ length out.old) }
{
    let Some(line) = site.first.checked_add(line) else {
        return Err(Memory);
    };
    let here = Site { line, ..*site };
    let end = out.count();
    put_pending(&here, out, Pending::BackNo(0))?;
    emit_tree(&here, hidden, e, out)?;
    put(&here, out, Instruction::Step)?;
    Ok(end)
}

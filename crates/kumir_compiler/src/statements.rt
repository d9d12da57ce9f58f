//! The code of statements.
ghost use Rattle.std.specs.Prelude.{◌≡◌, [], ◌∷◌, ◌++◌, OnOk, IfOk};
ghost use Rattle.kumir_tree.specs.Seen.{tree, some_tree};
ghost use Rattle.kumir_tree.specs.Program as t;
ghost use Rattle.kumir_tree.specs.Blocks.{act_of, arms_of, block_of, stmt_of};
ghost use Rattle.kumir_compiler.specs.StatementCode.{claim_code};
ghost use Rattle.kumir_compiler.specs.PendingCode.{code_of};
ghost use Rattle.kumir_compiler.specs.SitesSeen.{site_of};
ghost use Rattle.kumir_compiler.specs.BlocksPut.{PutsAct, PutsArms, PutsBlock, PutsClosed, PutsStatement};

use crate::choices::{put_over, put_test};
use crate::loops::{
    Turns, begin_back, begin_until, end_count, end_times, end_while, step_back, step_back_on_no,
};
use crate::pending::PendingLines;
use crate::put::put;
use crate::simple::{
    put_assign, put_claim, put_declare, put_inputs, put_invoke, put_leave, put_outputs,
};
use crate::site::{Site, hidden_slot};
use km_base::Memory;
use kumir_tree::{Case, Expr, Statement, What};
use stack_code::Instruction;

/// Statements, one behind another, in front. The site has the names that are local behind them; the answer is how many are
/// local before them. `выход` leads to the line that has `exit` lines behind it and itself. A number that does not fit its 32
/// bits is answered as want of memory.
#[cycle(emit)]
pub fn emit_block(
    site: &Site<'_, '_>,
    hidden: usize,
    exit: usize,
    block: &[Statement],
    out: &mut PendingLines,
) -> Result<usize, Memory>
    ensures { IfOk result (λ start.
        PutsBlock site.now start hidden exit (block_of block.now) out.old out.new) }
{
    let mut at = block.len();
    let mut locals = site.locals;
    while at > 0 {
        at -= 1;
        let here = Site { locals, ..*site };
        locals = emit_statement(&here, hidden, exit, &block[at], out)?;
    }
    Ok(locals)
}

/// The step of a statement, and the statement.
#[cycle(emit)]
fn emit_statement(
    site: &Site<'_, '_>,
    hidden: usize,
    exit: usize,
    statement: &Statement,
    out: &mut PendingLines,
) -> Result<usize, Memory>
    ensures { IfOk result (λ start.
        PutsStatement site.now start hidden exit (stmt_of statement.now) out.old out.new) }
{
    let Some(line) = site.first.checked_add(statement.line) else {
        return Err(Memory);
    };
    let here = Site { line, ..*site };
    let start = emit_act(&here, hidden, exit, &statement.what, out)?;
    put(&here, out, Instruction::Step)?;
    Ok(start)
}

/// What a statement does.
#[cycle(emit)]
#[tactic(auto, using(kumir_tree::proofs::Views::acts))]
fn emit_act(
    site: &Site<'_, '_>,
    hidden: usize,
    exit: usize,
    what: &What,
    out: &mut PendingLines,
) -> Result<usize, Memory>
    ensures { IfOk result (λ start.
        PutsAct site.now start hidden exit (act_of what.now) out.old out.new) }
{
    match what {
        What::Declare(declared) => put_declare(site, hidden, declared, out),
        What::Assign(target, e) => {
            put_assign(site, hidden, target, e, out)?;
            Ok(site.locals)
        }
        What::Call(name, arguments) => {
            put_invoke(site, hidden, name, arguments.as_slice(), out)?;
            Ok(site.locals)
        }
        What::Times(e, body) => emit_times(site, hidden, body.as_slice(), e, out),
        What::While(e, body) => emit_while(site, hidden, body.as_slice(), e, out),
        What::Count(variable, from, to, step, body) => {
            let turns = Turns {
                variable,
                from,
                to,
                step,
            };
            emit_count(site, hidden, body.as_slice(), &turns, out)
        }
        What::Forever(body) => emit_forever(site, hidden, body.as_slice(), out),
        What::Until(body, line, e) => emit_until(site, hidden, body.as_slice(), *line, e, out),
        What::Choose(e, a, b) => {
            let end = out.count();
            let middle = emit_block(site, hidden, exit, b.as_slice(), out)?;
            let other = put_over(site, end, out)?;
            let before = Site {
                locals: middle,
                ..*site
            };
            let start = emit_block(&before, hidden, exit, a.as_slice(), out)?;
            put_test(site, hidden, start, other, e, out)?;
            Ok(start)
        }
        What::Select(cases, b) => {
            let end = out.count();
            let middle = emit_block(site, hidden, exit, b.as_slice(), out)?;
            let before = Site {
                locals: middle,
                ..*site
            };
            emit_cases(&before, hidden, exit, end, cases.as_slice(), out)
        }
        What::Assert(e) => {
            put_claim(site, hidden, e, out)?;
            Ok(site.locals)
        }
        What::Input(targets) => {
            put_inputs(site, hidden, targets.as_slice(), out)?;
            Ok(site.locals)
        }
        What::Output(items) => {
            put_outputs(site, hidden, items.as_slice(), out)?;
            Ok(site.locals)
        }
        What::Leave => {
            put_leave(site, exit, out)?;
            Ok(site.locals)
        }
        What::Quit => {
            put(site, out, Instruction::Quit)?;
            Ok(site.locals)
        }
    }
}

/// `нц раз`
#[cycle(emit)]
fn emit_times(
    site: &Site<'_, '_>,
    hidden: usize,
    body: &[Statement],
    e: &Expr,
    out: &mut PendingLines,
) -> Result<usize, Memory>
    ensures { IfOk result (λ start. PutsClosed site.now start hidden
        (t.Times (tree e.now) (block_of body.now)) out.old out.new) }
{
    let kept = hidden_slot(site, hidden)?;
    let end = begin_back(site, out)?;
    let start = emit_block(site, hidden + 1, end, body, out)?;
    end_times(site, hidden, start, kept, end, e, out)?;
    Ok(start)
}

/// `нц пока`
#[cycle(emit)]
fn emit_while(
    site: &Site<'_, '_>,
    hidden: usize,
    body: &[Statement],
    e: &Expr,
    out: &mut PendingLines,
) -> Result<usize, Memory>
    ensures { IfOk result (λ start. PutsClosed site.now start hidden
        (t.While (tree e.now) (block_of body.now)) out.old out.new) }
{
    let end = begin_back(site, out)?;
    let start = emit_block(site, hidden, end, body, out)?;
    end_while(site, hidden, start, end, e, out)?;
    Ok(start)
}

/// `нц для`
#[cycle(emit)]
fn emit_count(
    site: &Site<'_, '_>,
    hidden: usize,
    body: &[Statement],
    turns: &Turns<'_>,
    out: &mut PendingLines,
) -> Result<usize, Memory>
    ensures { IfOk result (λ start. PutsClosed site.now start hidden
        (t.Count turns.now.variable.now (tree turns.now.from.now) (tree turns.now.to.now)
        (some_tree turns.now.step.now) (block_of body.now)) out.old out.new) }
{
    let kept = hidden_slot(site, hidden)?;
    let end = begin_back(site, out)?;
    let start = emit_block(site, hidden + 1, end, body, out)?;
    end_count(site, hidden, start, kept, end, turns, out)?;
    Ok(start)
}

/// `нц` without a condition
#[cycle(emit)]
fn emit_forever(
    site: &Site<'_, '_>,
    hidden: usize,
    body: &[Statement],
    out: &mut PendingLines,
) -> Result<usize, Memory>
    ensures { IfOk result (λ start. PutsClosed site.now start hidden
        (t.Forever (block_of body.now)) out.old out.new) }
{
    let end = begin_back(site, out)?;
    let start = emit_block(site, hidden, end, body, out)?;
    step_back(site, end, out)?;
    Ok(start)
}

/// `нц` with its condition at `кц при`, in that line
#[cycle(emit)]
fn emit_until(
    site: &Site<'_, '_>,
    hidden: usize,
    body: &[Statement],
    line: u32,
    e: &Expr,
    out: &mut PendingLines,
) -> Result<usize, Memory>
    ensures { IfOk result (λ start. PutsClosed site.now start hidden
        (t.Until (block_of body.now) line (tree e.now)) out.old out.new) }
{
    let end = begin_until(site, hidden, line, e, out)?;
    let start = emit_block(site, hidden, end, body, out)?;
    step_back_on_no(site, end, out)?;
    Ok(start)
}

/// The arms of `выбор`, with so many lines behind it. What follows where no condition holds is there.
#[cycle(emit)]
fn emit_cases(
    site: &Site<'_, '_>,
    hidden: usize,
    exit: usize,
    end: usize,
    cases: &[Case],
    out: &mut PendingLines,
) -> Result<usize, Memory>
    ensures { IfOk result (λ start.
        PutsArms site.now start hidden exit end (arms_of cases.now) out.old out.new) }
{
    let mut at = cases.len();
    let mut locals = site.locals;
    while at > 0 {
        at -= 1;
        let here = Site { locals, ..*site };
        locals = emit_case(&here, hidden, exit, end, &cases[at], out)?;
    }
    Ok(locals)
}

/// An arm.
#[cycle(emit)]
fn emit_case(
    site: &Site<'_, '_>,
    hidden: usize,
    exit: usize,
    end: usize,
    case: &Case,
    out: &mut PendingLines,
) -> Result<usize, Memory>
    ensures { IfOk result (λ start.
        PutsArms site.now start hidden exit end (arms_of (case.now ∷ [])) out.old out.new) }
{
    let Some(line) = site.first.checked_add(case.line) else {
        return Err(Memory);
    };
    let here = Site { line, ..*site };
    let other = put_over(&here, end, out)?;
    let start = emit_block(site, hidden, exit, case.body.as_slice(), out)?;
    put_test(&here, hidden, start, other, &case.condition, out)?;
    Ok(start)
}

/// A claim: its condition and the test of it.
pub fn emit_claim(site: &Site<'_, '_>, e: &Expr, out: &mut PendingLines) -> Result<(), Memory>
    ensures { OnOk result (code_of out.new ≡ claim_code (tree e.now) (site_of site.now) 0 ++ code_of out.old) }
{
    put_claim(site, 0, e, out)
}

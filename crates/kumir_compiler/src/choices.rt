//! What stands around the ways of choices. A choice is made from its end on, with jumps over what is behind them.
ghost use Rattle.std.specs.Prelude.{◌≡◌, ◌-◌, ◌∷◌, ◌++◌, length, OnOk, IfOk};
ghost use Rattle.kumir_tree.specs.Seen.{tree};
ghost use Rattle.kumir_compiler.specs.Sites.{jump, jump_no};
ghost use Rattle.kumir_compiler.specs.ExpressionCode.{tree_code};
ghost use Rattle.kumir_compiler.specs.PendingCode.{code_of};
ghost use Rattle.kumir_compiler.specs.SitesSeen.{site_of, with_locals};

use crate::expressions::emit_tree;
use crate::pending::{Pending, PendingLines};
use crate::put::put_pending;
use crate::site::Site;
use km_base::Memory;
use kumir_tree::Expr;

/// The jump over the lines that were put since there were `end`, and how many there are now without it.
pub fn put_over(site: &Site<'_, '_>, end: usize, out: &mut PendingLines) -> Result<usize, Memory>
    ensures code { OnOk result (code_of out.new
        ≡ jump (site_of site.now) (length out.old - end) ∷ code_of out.old) }
    ensures other { IfOk result (λ other. other ≡ length out.old) }
{
    let other = out.count();
    put_pending(site, out, Pending::Jump(other.saturating_sub(end)))?;
    Ok(other)
}

/// A test, and the jump over the lines that were put since there were `other`.
pub fn put_test(
    site: &Site<'_, '_>,
    hidden: usize,
    start: usize,
    other: usize,
    e: &Expr,
    out: &mut PendingLines,
) -> Result<(), Memory>
    ensures { OnOk result (code_of out.new ≡ tree_code (tree e.now) (with_locals site.now start) hidden
        ++ (jump_no (site_of site.now) (length out.old - other) ∷ code_of out.old)) }
{
    let before = Site {
        locals: start,
        ..*site
    };
    let over = out.count().saturating_sub(other);
    put_pending(site, out, Pending::JumpNo(over))?;
    emit_tree(&before, hidden, e, out)
}

//! Lines that are put in front.
ghost use Rattle.std.specs.Prelude.{◌≡◌, ◌∷◌, ◌++◌, IfOk, OnOk};
ghost use Rattle.kumir_compiler.specs.Sites.{on};
ghost use Rattle.kumir_compiler.specs.PendingCode.{code_of, line_of};
ghost use Rattle.kumir_compiler.specs.SitesSeen.{site_of};

use crate::pending::{Pending, PendingLine, PendingLines};
use crate::site::Site;
use km_base::Memory;
use stack_code::Instruction;

/// The number in 32 bits. A number that does not fit is answered as want of memory.
pub fn narrow(number: usize) -> Result<u32, Memory>
    ensures { IfOk result (λ n. n ≡ number) }
{
    match u32::try_from(number) {
        Ok(number) => Ok(number),
        Err(_) => Err(Memory),
    }
}

/// A line that waits for its place, in front.
pub fn put_pending(site: &Site<'_, '_>, out: &mut PendingLines, what: Pending) -> Result<(), Memory>
    ensures { OnOk result (code_of out.new
        ≡ line_of (record { line = (site_of site.now).line; what = what }) ∷ code_of out.old) }
{
    out.push(PendingLine {
        line: site.line,
        what,
    })?;
    Ok(())
}

/// A line with an instruction, in front.
pub fn put(site: &Site<'_, '_>, out: &mut PendingLines, what: Instruction) -> Result<(), Memory>
    ensures { OnOk result (code_of out.new ≡ on (site_of site.now) what ∷ code_of out.old) }
{
    put_pending(site, out, Pending::Known(what))
}

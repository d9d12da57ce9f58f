//! Margins as they are printed.
ghost use Rattle.std.specs.Prelude.{◌≡◌, ◌++◌, IfOk, OnOk};
ghost use Rattle.std.specs.String.{string_bytes};
ghost use Rattle.margins.specs.Printed.{printed_line, printed_mark, printed_lines, printed_margin};

use crate::margin::{Margin, Mark};
use km_base::Memory;
use std::alloc::{AllocError, Global};
use std::fmt::Write;

fn push_line(out: &mut String, mark: Mark) -> Result<(), AllocError>
    ensures { OnOk result (string_bytes out.new ≡ string_bytes out.old ++ printed_line mark) }
{
    let line = mark.line;
    let code = mark.code;
    write!(out, "{line} {code}\n")
}

/// The lines of `check`: for each mark its line and its code, parted by one blank (docs/PROGRAM.md, "check").
pub fn print_lines(alloc: Global, margin: &Margin) -> Result<String, Memory>
    ensures { IfOk result (λ text. string_bytes text ≡ printed_lines margin.now) }
{
    let mut out = String::new(alloc);
    for mark in margin.marks() {
        push_line(&mut out, *mark)?;
    }
    Ok(out)
}

fn push_mark(out: &mut String, mark: Mark) -> Result<(), AllocError>
    ensures { OnOk result (string_bytes out.new ≡ string_bytes out.old ++ printed_mark mark) }
{
    let line = mark.line;
    let code = mark.code;
    write!(out, " {line}:{code}")
}

/// The margin as the transcript shows it: ` LINE:CODE` for each mark (docs/PROGRAM.md, "Transcript").
pub fn print_margin(alloc: Global, margin: &Margin) -> Result<String, Memory>
    ensures { IfOk result (λ text. string_bytes text ≡ printed_margin margin.now) }
{
    let mut out = String::new(alloc);
    for mark in margin.marks() {
        push_mark(&mut out, *mark)?;
    }
    Ok(out)
}

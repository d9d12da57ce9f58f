//! Summaries, and how they print (docs/PROGRAM.md, "Sample").

ghost use Rattle.std.specs.Prelude.{◌≡◌, ◌++◌, IfOk, OnOk};
ghost use Rattle.std.specs.Str.{encode_utf8_all};
ghost use Rattle.std.specs.String.{string_bytes};
ghost use Rattle.sample_maker.specs.Summaries.{printed_summary};

use km_base::Memory;
use kumir_tree::Chars;
use std::alloc::{AllocError, Global};
use std::fmt::Write;

/// What came of carrying out the sample of a number.
#[derive(Debug, Drop)]
pub struct Summary {
    /// The number.
    pub number: u32,
    /// How many algorithms the text of the newest version has.
    pub algorithms: u32,
    /// The number of the newest version.
    pub versions: u32,
    /// How many marks all margins have together.
    pub faults: u32,
    /// All outputs, one behind the other.
    pub output: Chars,
}

// Puts a text behind another, in UTF-8.
fn push_text(out: &mut String, text: &[char]) -> Result<(), AllocError>
    ensures { OnOk result (string_bytes out.new ≡ string_bytes out.old ++ encode_utf8_all text.now) }
{
    for c in text {
        out.push(*c)?;
    }
    Ok(())
}

/// A summary as it is printed: the lines `sample`, `algorithms`, `versions`, `faults` and `out`, each with its value
/// behind one blank (docs/PROGRAM.md, "Sample"). The only error is want of memory.
pub fn print_summary(alloc: Global, summary: &Summary) -> Result<String, Memory>
    ensures { IfOk result (λ text. string_bytes text ≡ printed_summary summary.now) }
{
    let mut out = String::new(alloc);
    write!(
        out,
        "sample {}\nalgorithms {}\nversions {}\nfaults {}\nout ",
        summary.number, summary.algorithms, summary.versions, summary.faults
    )?;
    push_text(&mut out, summary.output.as_slice())?;
    out.push_str("\n")?;
    Ok(out)
}

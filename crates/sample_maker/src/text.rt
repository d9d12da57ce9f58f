//! The command `sample`.

ghost use Rattle.std.specs.Prelude.{IfOk};
ghost use Rattle.std.specs.String.{string_bytes};
ghost use Rattle.sample_maker.specs.SampleRuns.{IsSampleText, IsSampleRun};

use crate::laws::one_summary;
use crate::printed::print_summary;
use crate::summed::summary;
use km_base::Memory;
use km_ports::{Sink, Status, put_all};
use std::alloc::Global;

// The printed summary of a number.
fn summary_text(alloc: Global, number: u32) -> Result<String, Memory>
    ensures { IfOk result (λ text. IsSampleText number (string_bytes text)) }
{
    let summary = summary(alloc, number)?;
    print_summary(alloc, &summary)
}

/// Makes the sample of the number, carries it out and prints its summary (docs/PROGRAM.md, "Sample"). It answers `Fine`,
/// `Write` or `Memory`.
pub fn sample_text<O: Sink>(alloc: Global, number: u32, output: &mut O) -> Status
    ensures run { IsSampleRun number (O.state output.old) (O.state output.new) result }
{
    one_summary();
    let text = match summary_text(alloc, number) {
        Ok(text) => text,
        Err(Memory) => return Status::Memory,
    };
    match put_all(output, text.as_bytes()) {
        Ok(()) => Status::Fine,
        Err(fault) => Status::from(fault),
    }
}

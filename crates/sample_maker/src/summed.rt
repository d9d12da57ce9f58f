//! The summary of a number (docs/PROGRAM.md, "Sample").

ghost use Rattle.std.specs.Prelude.{IfOk};
ghost use Rattle.sample_maker.specs.Summaries.{IsSummaryOf};

use crate::carried::carry_out;
use crate::counted::{count_marks, joined_outputs, newest_version};
use crate::newest::count_algorithms;
use crate::printed::Summary;
use crate::sample::make;
use km_base::Memory;
use std::alloc::Global;

/// Makes the sample of the number, carries it out as `plain` does, where a run takes at most the usual number of steps,
/// and sums up what came of it (docs/PROGRAM.md, "Sample"). The only error is want of memory.
pub fn summary(alloc: Global, number: u32) -> Result<Summary, Memory>
    ensures { IfOk result (IsSummaryOf number) }
{
    let script = make(alloc, number)?.into_bytes();
    let algorithms = count_algorithms(alloc, &script)?;
    let entries = carry_out(alloc, script)?;
    Ok(Summary {
        number,
        algorithms,
        versions: newest_version(entries.as_slice()),
        faults: count_marks(entries.as_slice()),
        output: joined_outputs(alloc, entries.as_slice())?,
    })
}

//! The full analysis of one text.

ghost use Rattle.std.specs.Prelude.{IfOk};
ghost use Rattle.std.specs.Arc.{arc_value};
ghost use Rattle.incr_analysis.specs.Answers.{IsAnalysisOf};
ghost use Rattle.incr_analysis.specs.Full.{Full};

use incr_analysis::{Analysed, Analyser, Analysis, NeverStop};
use km_base::{Memory, Steps, Uncounted};
use margins::Margin;
use std::alloc::Global;
use std::sync::Arc;
use text_versions::Text;

/// The text of this version with its full analysis. The only error is want of memory.
pub fn analysis_of(alloc: Global, version: u32, text: Arc<Text>) -> Result<Analysed, Memory>
    ensures { IfOk result (λ analysed. IsAnalysisOf version (arc_value text) analysed) }
{
    let mut reads = Steps::<Uncounted>::new();
    let mut checks = Steps::<Uncounted>::new();
    let mut analyser = Analyser::new(alloc)?;
    match analyser.analyse(version, text, &mut NeverStop, &mut reads, &mut checks)? {
        Analysis::Done(analysed) => Ok(analysed),
        Analysis::Skipped(_) => unreachable!(),
    }
}

/// The margin of a text, which is its full analysis. The only error is want of memory.
pub fn margin_of(alloc: Global, text: Arc<Text>) -> Result<Margin, Memory>
    ensures { IfOk result (λ margin. Full (arc_value text) margin) }
{
    analysis_of(alloc, 0, text)?.margin().copy(alloc)
}

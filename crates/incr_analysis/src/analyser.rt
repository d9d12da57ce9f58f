//! The analysis of texts.

ghost use Rattle.std.specs.Prelude.{◌≡◌, ◌≤◌, ◌<◌, ◌+◌, ℕ, List, Bool, false, true, length, IfOk, None};
ghost use Rattle.std.specs.Arc.{arc_value};
ghost use Rattle.kumir_tree.specs.Unit.{Known};
ghost use Rattle.kumir_tree.specs.Units.{units_of, placed_of};
ghost use Rattle.kumir_tree.specs.Sound.{IsSound};
ghost use Rattle.line_pieces.specs.declared.spans.LineSpan.{LineSpan};
ghost use Rattle.line_pieces.specs.Spans.{AreSpans, AreShort, IsUnitSpan};
ghost use Rattle.incr_analysis.specs.Full.{Along, IsReadAt, AreUnits};
ghost use Rattle.incr_analysis.specs.Stops.{SeesMore, IsNewer};
ghost use Rattle.incr_analysis.specs.Answers.{IsSoundAt, newer_of, read_newer_of, IfWhole, IfDone, IsAnalysisOf};

use crate::analysed::Analysed;
use crate::stop::Stop;
use algo_parser::{LineSpan, read_unit, split_units};
use km_base::{Ledger, Memory, Steps};
use kumir_tree::{Line, PlacedUnit, UnitRead, Units};
use sqlite_items::Items;
use std::alloc::{AllocError, Global};
use std::sync::Arc;
use text_versions::Text;
use type_check::margin_of;

/// What came of an analysis.
#[derive(Drop)]
pub enum Analysis {
    /// The full analysis of the text.
    Done(Analysed),
    /// It was broken off for this newer version.
    Skipped(u32),
}

/// What came of the reading of units.
#[derive(Drop)]
pub enum Reading {
    Whole(Units),
    Skipped(u32),
}

/// Analyses texts, one after the other. Each text is read and checked anew.
#[derive(Drop)]
pub struct Analyser {
    alloc: Global,
}

// The number of a newer version than this one, if the stop tells of one.
fn newer_than<S: Stop>(stop: &mut S, version: u32) -> Option<u32>
    ensures seen { SeesMore (S.seen stop.old) (S.seen stop.new) result }
    ensures newer { IsNewer version result }
    ensures name { S.name stop.new ≡ S.name stop.old }
{
    match stop.newer() {
        Some(newer) if newer > version => Some(newer),
        _ => None,
    }
}

// What was read, to be shared.
fn shared(alloc: Global, read: UnitRead) -> Result<Arc<UnitRead>, AllocError>
    ensures { IfOk result (λ shared. arc_value shared ≡ read) }
{
    Ok(Arc::new(alloc, read)?)
}

// What is read from the lines of a span, at its place in the text.
fn read_span<R: Ledger>(
    alloc: Global,
    lines: &[Line],
    span: LineSpan,
    prelude: bool,
    reads: &mut Steps<R>,
) -> Result<PlacedUnit, Memory>
    requires few { length lines.now < 4294967295 }
    requires short { AreShort lines.now }
    requires from_one { 1 ≤ span.first }
    requires within { span.first + span.count ≤ length lines.now + 1 }
    requires begins { prelude ≡ false → IsUnitSpan lines.now span }
    ensures read { IfOk result (λ u. IsReadAt lines.now prelude span (placed_of u)) }
    ensures sound { IfOk result (λ u. IsSoundAt (length lines.now) prelude span (placed_of u)) }
{
    let first = span.first as usize - 1;
    let part = &lines[first..first + span.count as usize];
    let read = read_unit(alloc, part, prelude, reads)?;
    Ok(PlacedUnit {
        first: span.first,
        read: shared(alloc, read)?,
    })
}

// What is read from the lines of each span; before each of them the stop is asked.
fn read_units<S: Stop, R: Ledger>(
    alloc: Global,
    lines: &[Line],
    spans: &[LineSpan],
    version: u32,
    stop: &mut S,
    reads: &mut Steps<R>,
) -> Result<Reading, Memory>
    requires few { length lines.now < 4294967295 }
    requires short { AreShort lines.now }
    requires spans { AreSpans lines.now spans.now }
    ensures read { IfOk result (λ r. IfWhole r (λ units. Along (IsReadAt lines.now) true spans.now (units_of units))) }
    ensures sound { IfOk result (λ r. IfWhole r (λ units. Along (IsSoundAt (length lines.now)) true spans.now (units_of units))) }
    ensures seen { SeesMore (S.seen stop.old) (S.seen stop.new) (read_newer_of result) }
    ensures newer { IsNewer version (read_newer_of result) }
    ensures name { S.name stop.new ≡ S.name stop.old }
{
    let mut units = Items::new(alloc);
    for (i, span) in spans.iter().enumerate() {
        if let Some(newer) = newer_than(stop, version) {
            return Ok(Reading::Skipped(newer));
        }
        units.push(read_span(alloc, lines, *span, i == 0, reads)?)?;
    }
    Ok(Reading::Whole(units))
}

impl Analyser {
    /// An analyser that has analysed nothing yet.
    pub fn new(alloc: Global) -> Result<Analyser, Memory> {
        Ok(Analyser { alloc })
    }

    /// The full analysis of the text, under the number of its version. It is broken off where the stop tells of a newer
    /// version; this is asked before each unit. After `Skipped` and `Memory` the analyser can be used on.
    pub fn analyse<S: Stop, R: Ledger, C: Ledger>(
        &mut self,
        version: u32,
        text: Arc<Text>,
        stop: &mut S,
        reads: &mut Steps<R>,
        checks: &mut Steps<C>,
    ) -> Result<Analysis, Memory>
        // what is done is the full analysis of this text, under this number
        ensures done { IfOk result (λ a. IfDone a (λ d. IsAnalysisOf version (arc_value text) d)) }
        // it is skipped only for a number that the stop told in this call and that is above the version
        ensures seen { SeesMore (S.seen stop.old) (S.seen stop.new) (newer_of result) }
        ensures newer { IsNewer version (newer_of result) }
        ensures name { S.name stop.new ≡ S.name stop.old }
    {
        let lines = text.piece(self.alloc, 1, text.count())?;
        let spans = split_units(self.alloc, lines.as_slice())?;
        match read_units(
            self.alloc,
            lines.as_slice(),
            spans.as_slice(),
            version,
            stop,
            reads,
        )? {
            Reading::Skipped(newer) => Ok(Analysis::Skipped(newer)),
            Reading::Whole(units) => self.analysed(version, text, units, checks),
        }
    }

    // The margin of the units that were read from the text.
    fn analysed<C: Ledger>(
        &self,
        version: u32,
        text: Arc<Text>,
        units: Units,
        checks: &mut Steps<C>,
    ) -> Result<Analysis, Memory>
        requires units { AreUnits (arc_value text) (units_of units) }
        requires sound { IsSound (units_of units) }
        ensures done { IfOk result (λ a. IfDone a (λ d. IsAnalysisOf version (arc_value text) d)) }
        ensures whole { newer_of result ≡ None }
    {
        let margin = margin_of(self.alloc, &units, checks)?;
        Ok(Analysis::Done(Analysed {
            version,
            text,
            units,
            margin,
        }))
    }
}

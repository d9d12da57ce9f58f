//! A text with its full analysis.

ghost use Rattle.std.specs.Prelude.{◌≡◌, ◌||◌, [], IfOk, IfErr, OnOk};
ghost use Rattle.std.specs.Arc.{arc_value};
ghost use Rattle.type_check.specs.Margin.{first_head};
ghost use Rattle.type_rules.specs.Headers.{some_head_behind};
ghost use Rattle.type_check.specs.Placed.{units_in};
ghost use Rattle.kumir_tree.specs.Sound.{IsSound};
ghost use Rattle.kumir_tree.specs.Units.{units_of, placed_of};
ghost use Rattle.incr_analysis.specs.Full.{AreUnits, IsAnalysis, Full, has_main, knows_performer};
ghost use Rattle.incr_analysis.specs.Answers.{IsRefusedWith};

use km_base::Performers;
use kumir_tree::{Header, PlacedUnit, Units};
use margins::Margin;
use std::alloc::Global;
use std::marker::Model;
use std::sync::Arc;
use text_versions::Text;
use type_check::{Clean, CleanRefusal, clean_of, first_header};

/// A version of a text with its margin, which is the full analysis of the text. Contracts see the number of the version,
/// the lines, the units, each with its first line, and the margin.
#[derive(Drop)]
pub struct Analysed {
    pub(crate) version: u32,
    pub(crate) text: Arc<Text>,
    pub(crate) units: Units,
    pub(crate) margin: Margin,
}

impl Model for Analysed {
    ghost use Rattle.std.specs.Coded.{codes};
    ghost use Rattle.std.specs.Arc.{arc_value};
    ghost use Rattle.kumir_tree.specs.contracts.expr.Expr as e;
    ghost use Rattle.kumir_tree.specs.contracts.statement.What as w;
    ghost use Rattle.kumir_tree.specs.Units.{units_of};
    ghost use Rattle.kumir_tree.specs.Sound.{IsSound};
    ghost use Rattle.type_check.specs.Placed.{reads_of};
    ghost use Rattle.incr_analysis.specs.Full.{IsAnalysis};
    ghost use Rattle.incr_analysis.specs.Seen.{AnalysedText};

    ghost Value = { AnalysedText };

    ghost coded = { Prim.hlevel (codes, e.the_row.coded, w.the_row.coded) };

    ghost view = { λ a. record { version = a.version; text = arc_value a.text; units = reads_of a.units; margin = a.margin } };

    ghost invariant = { λ a. IsSound (units_of a.units) × IsAnalysis (arc_value a.text) (units_of a.units) a.margin };
}

// The performers that a unit makes known.
fn performers_of(unit: &PlacedUnit) -> Performers
    ensures { result ≡ (placed_of unit.now).1.performers }
{
    unit.read.performers
}

// Whether the first of the units, the prelude, makes a performer known.
#[tactic(auto, using(crate::proofs::Preludes::no_prelude))]
fn knows_performer(units: &Units) -> bool
    ensures { result ≡ knows_performer (units_of units.now) }
{
    match units.get(0) {
        Some(prelude) => {
            let known = performers_of(prelude);
            known.robot || known.pen
        }
        None => false,
    }
}

impl Analysed {
    /// The number of the version.
    pub fn version(&self) -> u32
        ensures { result ≡ self.now.version }
    {
        self.version
    }

    /// The text.
    pub fn text(&self) -> &Arc<Text>
        ensures { arc_value result.now ≡ self.now.text }
    {
        &self.text
    }

    /// The margin, which is the full analysis of the text.
    #[tactic(auto, using(crate::proofs::Shown::shown_full))]
    pub fn margin(&self) -> &Margin
        ensures same { result.now ≡ self.now.margin }
        ensures full { Full self.now.text result.now }
        ensures analysis { IsAnalysis self.now.text (units_in self.now.units) result.now }
    {
        &self.margin
    }

    /// The program, where the margin has no mark; else the margin.
    #[tactic(auto, using(crate::proofs::Shown::same_units))]
    pub fn clean(&self, alloc: Global) -> Result<Clean, CleanRefusal>
        ensures same { IfOk result (λ clean. units_in clean ≡ units_in self.now.units) }
        ensures of_text { IfOk result (λ clean. AreUnits self.now.text (units_in clean)) }
        ensures sound { IfOk result (λ clean. IsSound (units_in clean)) }
        ensures without_fault { OnOk result (self.now.margin ≡ []) }
        ensures refused { IfErr result (λ refusal. IsRefusedWith self.now.margin refusal) }
    {
        clean_of(alloc, &self.units)
    }

    // The header of the first algorithm.
    #[tactic(auto, using(type_check::proofs::FirstUnit::first_seen))]
    fn first_header(&self) -> Option<&Header>
        ensures header { some_head_behind result ≡ first_head (units_in self.now.units) }
        ensures of_text { AreUnits self.now.text (units_in self.now.units) }
    {
        first_header(&self.units)
    }

    /// Whether there is a first algorithm and it has no parameters. The margin has no mark.
    pub fn has_main(&self) -> bool
        requires { self.now.margin ≡ [] }
        ensures main { result ≡ has_main (units_in self.now.units) }
        ensures of_text { AreUnits self.now.text (units_in self.now.units) }
    {
        match self.first_header() {
            Some(header) => header.params.is_empty(),
            None => false,
        }
    }

    /// Whether the prelude makes a performer known.
    #[tactic(auto, using(crate::proofs::Preludes::known_seen))]
    pub fn knows_performer(&self) -> bool
        ensures known { result ≡ knows_performer (units_in self.now.units) }
        ensures of_text { AreUnits self.now.text (units_in self.now.units) }
    {
        knows_performer(&self.units)
    }
}

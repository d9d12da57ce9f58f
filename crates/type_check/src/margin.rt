//! The margin of a program (docs/LANGUAGE.md, "The margin").

ghost use Rattle.std.specs.Prelude.{◌≡◌, ◌≤◌, ◌+◌, ◌++◌, ◌∷◌, [], map, true, IfOk, OnOk};
ghost use Rattle.std.specs.List.{AllByRecursion};
ghost use Rattle.kumir_tree.specs.Units.{units_of, placed_of, ending_of, algorithm_of};
ghost use Rattle.kumir_tree.specs.Sound.{IsSound, IsPlaced, FaultsHold, EndingHolds, AlgorithmHolds, HasDimensions};
ghost use Rattle.type_rules.specs.Callees.{callee};
ghost use Rattle.type_rules.specs.Headers.{callees_of};
ghost use Rattle.type_check.specs.Checked.{unit_faults};
ghost use Rattle.type_check.specs.Margin.{on_line, own_faults, placed_faults, all_placed_faults, program_faults, IsMarginOf};
ghost use Rattle.type_check.specs.Kept.{pair_of, pair_order, kept, all_before};
ghost use Rattle.std.specs.List.Sorted.{IsPermutation, IsSorted};
ghost use Rattle.margins.specs.Marks.{IsBefore};
ghost use Rattle.type_rules.specs.Counted.{headers_in};

use crate::check::check_unit;
use km_base::{Ledger, Memory, Steps};
use kumir_tree::{Fault, Faults, Outcome, PlacedUnit, UnitTree, Units};
use margins::{Margin, Mark};
use sqlite_items::Items;
use std::alloc::Global;
use type_rules::{Headers, HeadersRead, headers_of};

/// Adds faults whose lines count from this line of the text.
fn add_faults(out: &mut Faults, first: u32, faults: &[Fault]) -> Result<(), Memory>
    requires { FaultsHold (λ line. first + line ≤ 4294967295) faults.now }
    ensures { OnOk result (out.new ≡ out.old ++ map (on_line first) faults.now) }
{
    for fault in faults {
        out.push(Fault {
            line: first + fault.line,
            code: fault.code,
        })?;
    }
    Ok(())
}

/// Adds the faults of a unit: those of its reading, or else those in its names and types, and the unknown performers.
fn add_unit_faults<L: Ledger>(
    alloc: Global,
    out: &mut Faults,
    headers: &Headers,
    unit: &PlacedUnit,
    steps: &mut Steps<L>,
) -> Result<(), Memory>
    requires { IsPlaced (placed_of unit.now) }
    ensures { OnOk result (out.new ≡ out.old ++ placed_faults (callee (callees_of headers.now)) (placed_of unit.now)) }
{
    add_own_faults(alloc, out, headers, unit.first, &unit.read.outcome, steps)?;
    add_faults(out, unit.first, unit.read.unknown.as_slice())
}

fn add_own_faults<L: Ledger>(
    alloc: Global,
    out: &mut Faults,
    headers: &Headers,
    first: u32,
    outcome: &Outcome,
    steps: &mut Steps<L>,
) -> Result<(), Memory>
    requires { EndingHolds (λ line. first + line ≤ 4294967295) HasDimensions (ending_of outcome.now) }
    ensures { OnOk result (out.new ≡ out.old ++ map (on_line first) (own_faults (callee (callees_of headers.now)) (ending_of outcome.now))) }
{
    match outcome {
        Outcome::Tree(tree) => add_tree_faults(alloc, out, headers, first, tree, steps),
        Outcome::Prelude => Ok(()),
        Outcome::Faults(faults) => add_faults(out, first, faults.as_slice()),
    }
}

#[tactic(auto, using(crate::proofs::Lines::faults_stand))]
fn add_tree_faults<L: Ledger>(
    alloc: Global,
    out: &mut Faults,
    headers: &Headers,
    first: u32,
    tree: &UnitTree,
    steps: &mut Steps<L>,
) -> Result<(), Memory>
    requires { AlgorithmHolds (λ line. first + line ≤ 4294967295) HasDimensions (algorithm_of tree.now) }
    ensures { OnOk result (out.new ≡ out.old ++ map (on_line first) (unit_faults (callee (callees_of headers.now)) (algorithm_of tree.now))) }
{
    let found = check_unit(alloc, tree, headers, steps)?;
    add_faults(out, first, found.faults.as_slice())
}

fn add_all_faults<L: Ledger>(
    alloc: Global,
    out: &mut Faults,
    headers: &Headers,
    units: &[PlacedUnit],
    steps: &mut Steps<L>,
) -> Result<(), Memory>
    requires { AllByRecursion IsPlaced (units_of units.now) }
    ensures { OnOk result (out.new ≡ out.old ++ all_placed_faults (callee (callees_of headers.now)) (units_of units.now)) }
{
    for unit in units {
        add_unit_faults(alloc, out, headers, unit, steps)?;
    }
    Ok(())
}

/// The faults of a program, on the lines of its text, with the headers that count in it.
#[tactic(auto, using(type_rules::proofs::Counting::sound_placed))]
pub fn faults_of<L: Ledger>(
    alloc: Global,
    units: &Units,
    steps: &mut Steps<L>,
) -> Result<HeadersRead, Memory>
    requires { IsSound (units_of units.now) }
    ensures headers { IfOk result (λ read. callees_of read.headers ≡ headers_in (units_of units.now)) }
    ensures faults { IfOk result (λ read. read.faults ≡ program_faults (units_of units.now)) }
{
    let HeadersRead {
        headers,
        faults: of_headers,
    } = headers_of(alloc, units)?;
    let mut faults = Items::new(alloc);
    add_all_faults(alloc, &mut faults, &headers, units.as_slice(), steps)?;
    faults.append(of_headers)?;
    Ok(HeadersRead { headers, faults })
}

// ---- the smallest code of each line

fn in_order(alloc: Global, faults: &[Fault]) -> Result<Vec<(u32, u16)>, Memory>
    ensures same { IfOk result (λ pairs. IsPermutation (map pair_of faults.now) pairs.items) }
    ensures sorted { IfOk result (λ pairs. IsSorted pair_order pairs.items) }
{
    let mut pairs = pairs_of(alloc, faults)?;
    pairs.sort()?;
    Ok(pairs)
}

fn pairs_of(alloc: Global, faults: &[Fault]) -> Result<Vec<(u32, u16)>, Memory>
    ensures { IfOk result (λ pairs. pairs.items ≡ map pair_of faults.now) }
{
    let mut pairs = Vec::new(alloc);
    for fault in faults {
        pairs.push((fault.line, fault.code))?;
    }
    Ok(pairs)
}

#[tactic(auto, using(crate::proofs::Marked::before_test))]
fn is_behind(margin: &Margin, line: u32) -> bool
    ensures test { result ≡ all_before margin.now line }
    ensures behind { result ≡ true → IsBefore margin.now line }
{
    margin.is_before(line)
}

/// The first code of each line.
fn keep_first(alloc: Global, pairs: &[(u32, u16)]) -> Result<Margin, Memory>
    ensures { IfOk result (λ margin. margin ≡ kept [] pairs.now) }
{
    let mut margin = Margin::new(alloc);
    for pair in pairs {
        let (line, code) = *pair;
        if is_behind(&margin, line) {
            margin.push(Mark { line, code })?;
        }
    }
    Ok(margin)
}

/// The smallest code of each line with a fault.
#[tactic(auto, using(crate::proofs::Marked::kept_is_margin))]
pub fn mark_faults(alloc: Global, faults: &[Fault]) -> Result<Margin, Memory>
    ensures { IfOk result (λ margin. IsMarginOf faults.now margin) }
{
    let pairs = in_order(alloc, faults)?;
    let margin = keep_first(alloc, pairs.as_slice())?;
    let _ = margin.marks();
    Ok(margin)
}

/// The margin of a program (docs/LANGUAGE.md, "The margin").
pub fn margin_of<L: Ledger>(
    alloc: Global,
    units: &Units,
    steps: &mut Steps<L>,
) -> Result<Margin, Memory>
    requires { IsSound (units_of units.now) }
    ensures { IfOk result (λ margin. IsMarginOf (program_faults (units_of units.now)) margin) }
{
    let read = faults_of(alloc, units, steps)?;
    mark_faults(alloc, read.faults.as_slice())
}

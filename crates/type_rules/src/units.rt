//! The headers of a program that count, and the faults of the others.

ghost use Rattle.std.specs.Prelude.{◌≡◌, ◌+◌, ◌≤◌, ◌++◌, ◌∷◌, [], IfOk, OnOk};
ghost use Rattle.std.specs.List.{AllByRecursion};
ghost use Rattle.std.specs.Arc.{arc_value};
ghost use Rattle.kumir_tree.specs.Parts.{head_of, some_head};
ghost use Rattle.kumir_tree.specs.Units.{units_of};
ghost use Rattle.kumir_tree.specs.Sound.{IsSound, IsPlaced, SomeHead, HasDimensions};
ghost use Rattle.type_rules.specs.Headers.{callees_of};
ghost use Rattle.type_rules.specs.Counted.{counted_with, head_fault, without_fault, fault_at, all_counted, all_faults, performers_in, headers_in, header_faults};

use crate::headers::{AddRefusal, Headers};
use km_base::{Memory, Performers};
use kumir_tree::fault_codes::{NAME_TAKEN, WITHOUT_NAME};
use kumir_tree::{Fault, Faults, Header, PlacedUnit, Units};
use sqlite_items::Items;
use std::alloc::Global;

/// The headers of a program that count, with its performers, and the faults of the others, `NAME_TAKEN` or `WITHOUT_NAME`. Their lines are
/// those of the text.
#[derive(Drop)]
pub struct HeadersRead {
    pub headers: Headers,
    pub faults: Faults,
}

/// The performers that the prelude makes known.
fn performers_of(units: &[PlacedUnit]) -> Performers
    ensures { result ≡ performers_in (units_of units.now) }
{
    match units.first() {
        Some(prelude) => prelude.read.performers,
        None => Performers {
            robot: false,
            pen: false,
        },
    }
}

/// Adds a fault.
fn add_fault(faults: &mut Faults, line: u32, code: u16) -> Result<(), Memory>
    ensures { OnOk result (faults.new ≡ faults.old ++ record { line = line; code = code } ∷ []) }
{
    faults.push(Fault { line, code })?;
    Ok(())
}

/// Adds a header, or answers the code of its fault.
#[tactic(auto, using(crate::proofs::Counting::counts, crate::proofs::Counting::gets_no_fault, crate::proofs::Counting::gets_taken, crate::proofs::Counting::gets_nameless))]
fn add_or_refuse(headers: &mut Headers, header: Header) -> Result<Option<u16>, Memory>
    ensures code { IfOk result (λ code. code ≡ head_fault (callees_of headers.old) (head_of header)) }
    ensures counted { OnOk result (callees_of headers.new ≡ without_fault (callees_of headers.old) (head_of header) (head_fault (callees_of headers.old) (head_of header))) }
{
    match headers.add(header) {
        Ok(()) => Ok(None),
        Err(AddRefusal::Taken) => Ok(Some(NAME_TAKEN)),
        Err(AddRefusal::Nameless) => Ok(Some(WITHOUT_NAME)),
        Err(AddRefusal::Memory) => Err(Memory),
    }
}

/// Adds the header of one more unit, or its fault.
fn count_header(
    alloc: Global,
    headers: &mut Headers,
    faults: &mut Faults,
    unit: &PlacedUnit,
) -> Result<(), Memory>
    requires { SomeHead (λ line. unit.now.first + line ≤ 4294967295) HasDimensions (some_head (arc_value unit.now.read).header) }
    ensures counted { OnOk result (callees_of headers.new ≡ counted_with (callees_of headers.old) (some_head (arc_value unit.now.read).header)) }
    ensures faulty { OnOk result (faults.new ≡ faults.old ++ fault_at unit.now.first (callees_of headers.old) (some_head (arc_value unit.now.read).header)) }
{
    let Some(header) = &unit.read.header else {
        return Ok(());
    };
    let line = unit.first + header.line;
    let header = header.copy(alloc)?;
    let refused = add_or_refuse(headers, header)?;
    if let Some(code) = refused {
        add_fault(faults, line, code)?;
    }
    Ok(())
}

fn count_headers(
    alloc: Global,
    headers: &mut Headers,
    faults: &mut Faults,
    units: &[PlacedUnit],
) -> Result<(), Memory>
    requires { AllByRecursion IsPlaced (units_of units.now) }
    ensures counted { OnOk result (callees_of headers.new ≡ all_counted (callees_of headers.old) (units_of units.now)) }
    ensures faulty { OnOk result (faults.new ≡ faults.old ++ all_faults (callees_of headers.old) (units_of units.now)) }
{
    for unit in units {
        count_header(alloc, headers, faults, unit)?;
    }
    Ok(())
}

/// The headers that count among those of the units, and the faults of the others (docs/LANGUAGE.md, "Headers").
#[tactic(auto, using(crate::proofs::Counting::sound_placed))]
pub fn headers_of(alloc: Global, units: &Units) -> Result<HeadersRead, Memory>
    requires { IsSound (units_of units.now) }
    ensures headers { IfOk result (λ read. callees_of read.headers ≡ headers_in (units_of units.now)) }
    ensures faults { IfOk result (λ read. read.faults ≡ header_faults (units_of units.now)) }
{
    let units = units.as_slice();
    let mut headers = Headers::new(alloc, performers_of(units))?;
    let mut faults = Items::new(alloc);
    count_headers(alloc, &mut headers, &mut faults, units)?;
    Ok(HeadersRead { headers, faults })
}

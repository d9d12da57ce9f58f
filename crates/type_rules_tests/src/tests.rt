ghost use Rattle.std.specs.Prelude.{◌≡◌, ◌≤◌, [], ◌∷◌, IfOk, OnOk};
ghost use Rattle.kumir_tree.specs.Units.{units_of, placed_of};
ghost use Rattle.kumir_tree.specs.Sound.{IsSound, IsUnitRead, IsPlaced};

use km_base::{Memory, Performers};
use kumir_tree::fault_codes::{NAME_TAKEN, NOT_UNDERSTOOD, WITHOUT_NAME};
use kumir_tree::{Fault, Faults, Header, Name, Outcome, PlacedUnit, UnitRead, Units};
use performer_kit::{PenShape, RobotCommand};
use sqlite_items::Items;
use std::alloc::{AllocError, Global};
use std::sync::Arc;
use std::test::Fail;
use type_rules::{AddRefusal, BuiltIn, Callee, Headers, headers_of};

fn name_of(alloc: Global, text: &str) -> Result<Name, AllocError> {
    Ok(Name::from_vec(text.chars().collect(alloc)?))
}

// A header with this name; the empty text stands for none.
fn header_of(alloc: Global, text: &str) -> Result<Header, AllocError>
    ensures { IfOk result (λ h. (h.line ≡ 0) × (h.params ≡ [])) }
{
    let name = if text.is_empty() {
        None
    } else {
        Some(name_of(alloc, text)?)
    };
    Ok(Header {
        name,
        gives: None,
        params: Items::new(alloc),
        line: 0,
    })
}

// A number that says what was found.
fn found(callee: Option<Callee<'_>>) -> usize {
    match callee {
        None => 0,
        Some(Callee::Algorithm(_)) => 1,
        Some(Callee::BuiltIn(BuiltIn::Imax)) => 5,
        Some(Callee::BuiltIn(_)) => 6,
        Some(Callee::Robot(RobotCommand::CellClean)) => 7,
        Some(Callee::Pen(PenShape::By)) => 8,
        Some(_) => 4,
    }
}

// What is found by this name.
fn found_by(alloc: Global, headers: &Headers, text: &str) -> Result<usize, AllocError> {
    let name = name_of(alloc, text)?;
    Ok(found(headers.find(&name)))
}

// Adds a header with this name, and answers why it does not count.
fn add(alloc: Global, headers: &mut Headers, text: &str) -> Result<Option<AddRefusal>, AllocError> {
    let header = header_of(alloc, text)?;
    Ok(headers.add(header).err())
}

// Headers that are added one after another where the Robot is known.
const ADDED: [(&str, Option<AddRefusal>); 10] = [
    ("", None),
    ("", Some(AddRefusal::Nameless)),
    ("a", None),
    ("b c", None),
    ("a", Some(AddRefusal::Taken)),
    ("imin", Some(AddRefusal::Taken)),
    ("вниз", Some(AddRefusal::Taken)),
    ("поднять перо", None),
    ("", Some(AddRefusal::Nameless)),
    ("b c", Some(AddRefusal::Taken)),
];

// The first of these headers that is not added or refused so.
fn first_not_added(
    alloc: Global,
    headers: &mut Headers,
    rows: &[(&'static str, Option<AddRefusal>)],
) -> Result<Option<&'static str>, AllocError> {
    for (text, refusal) in rows {
        if add(alloc, headers, text)? != *refusal {
            return Ok(Some(*text));
        }
    }
    Ok(None)
}

// The first of these names by which something else is found.
fn first_not_found(
    alloc: Global,
    headers: &Headers,
    rows: &[(&'static str, usize)],
) -> Result<Option<&'static str>, AllocError> {
    for (text, what) in rows {
        if found_by(alloc, headers, text)? != *what {
            return Ok(Some(*text));
        }
    }
    Ok(None)
}

const FOUND: [(&str, usize); 9] = [
    ("a", 1),
    ("b c", 1),
    ("поднять перо", 1),
    ("imax", 5),
    ("div", 6),
    ("клетка чистая", 7),
    ("сместиться на вектор", 0),
    ("c", 0),
    ("", 0),
];

#[test]
fn headers_are_added_and_found(rt: HostRuntime) -> Result<(), Fail> {
    let alloc = rt.alloc();
    let robot = Performers {
        robot: true,
        pen: false,
    };
    let mut headers = Headers::new(alloc, robot)?;
    let not_added = first_not_added(alloc, &mut headers, &ADDED)?;
    let not_found = first_not_found(alloc, &headers, &FOUND)?;
    assert_eq!(rt; (not_added, not_found), (None, None));
    Ok(())
}

const FOUND_WITH_PEN: [(&str, usize); 6] = [
    ("вниз", 1),
    ("imax", 5),
    ("iabs", 6),
    ("клетка чистая", 0),
    ("сместиться на вектор", 8),
    ("опустить перо", 4),
];

#[test]
fn commands_are_found_where_their_performer_is_known(rt: HostRuntime) -> Result<(), Fail> {
    let alloc = rt.alloc();
    let pen = Performers {
        robot: false,
        pen: true,
    };
    let mut headers = Headers::new(alloc, pen)?;
    let not_added = first_not_added(alloc, &mut headers, &[("вниз", None)])?;
    let not_found = first_not_found(alloc, &headers, &FOUND_WITH_PEN)?;
    assert_eq!(rt; (not_added, not_found), (None, None));
    Ok(())
}

fn some_faults(alloc: Global) -> Result<Faults, AllocError>
    ensures { IfOk result (λ faults. faults ≡ record { line = 0; code = NOT_UNDERSTOOD } ∷ []) }
{
    let mut faults = Items::new(alloc);
    faults.push(Fault {
        line: 0,
        code: NOT_UNDERSTOOD,
    })?;
    Ok(faults)
}

// The prelude of a program that knows the Robot.
fn prelude(alloc: Global) -> Result<Units, AllocError>
    ensures { IfOk result (λ units. IsSound (units_of units)) }
{
    let read = UnitRead {
        header: None,
        performers: Performers {
            robot: true,
            pen: false,
        },
        unknown: Items::new(alloc),
        outcome: Outcome::Prelude,
    };
    let mut units = Items::new(alloc);
    units.push(PlacedUnit {
        first: 1,
        read: Arc::new(alloc, read)?,
    })?;
    Ok(units)
}

// A unit on this line whose pieces are not understood and whose header is.
fn unit_on(alloc: Global, first: u32, text: &str) -> Result<PlacedUnit, AllocError>
    requires { (1 ≤ first) × (first ≤ 1000) }
    ensures { IfOk result (λ u. IsUnitRead (placed_of u).1 × IsPlaced (placed_of u)) }
{
    let header = header_of(alloc, text)?;
    let faults = some_faults(alloc)?;
    let read = UnitRead {
        header: Some(header),
        performers: Performers {
            robot: false,
            pen: false,
        },
        unknown: Items::new(alloc),
        outcome: Outcome::Faults(faults),
    };
    Ok(PlacedUnit {
        first,
        read: Arc::new(alloc, read)?,
    })
}

// Adds such a unit.
#[tactic(auto, using(type_rules::proofs::Counting::sound_more))]
fn add_unit(alloc: Global, units: &mut Units, first: u32, text: &str) -> Result<(), AllocError>
    requires sound { IsSound (units_of units.old) }
    requires placed { (1 ≤ first) × (first ≤ 1000) }
    ensures { OnOk result (IsSound (units_of units.new)) }
{
    units.push(unit_on(alloc, first, text)?)?;
    Ok(())
}

const FAULTS: [Fault; 4] = [
    Fault {
        line: 3,
        code: NAME_TAKEN,
    },
    Fault {
        line: 7,
        code: WITHOUT_NAME,
    },
    Fault {
        line: 9,
        code: NAME_TAKEN,
    },
    Fault {
        line: 11,
        code: NAME_TAKEN,
    },
];

// A program with a header on each of some lines.
fn program(alloc: Global) -> Result<Units, AllocError>
    ensures { IfOk result (λ units. IsSound (units_of units)) }
{
    let mut units = prelude(alloc)?;
    add_unit(alloc, &mut units, 3, "div")?;
    add_unit(alloc, &mut units, 4, "")?;
    add_unit(alloc, &mut units, 6, "a")?;
    add_unit(alloc, &mut units, 7, "")?;
    add_unit(alloc, &mut units, 9, "a")?;
    add_unit(alloc, &mut units, 11, "вверх")?;
    add_unit(alloc, &mut units, 12, "поднять перо")?;
    Ok(units)
}

// The lines and codes of its faults.
fn faults_of(alloc: Global, units: &Units) -> Result<Faults, Memory>
    requires { IsSound (units_of units.now) }
{
    Ok(headers_of(alloc, units)?.faults)
}

// What is found by a name among its headers.
fn found_in(alloc: Global, units: &Units, text: &str) -> Result<usize, Memory>
    requires { IsSound (units_of units.now) }
{
    let read = headers_of(alloc, units)?;
    Ok(found_by(alloc, &read.headers, text)?)
}

#[test]
fn the_first_header_of_each_name_counts(rt: HostRuntime) -> Result<(), Fail> {
    let alloc = rt.alloc();
    let units = program(alloc)?;
    let faults = faults_of(alloc, &units)?;
    let found = found_in(alloc, &units, "a")?;
    let same = faults.as_slice() == FAULTS.as_slice();
    assert_eq!(rt; (found, same), (1, true));
    Ok(())
}

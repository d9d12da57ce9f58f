use code_samples::{body_of, on, program_of, unit_of};
use km_base::Memory;
use kumir_tree::{Kind, Mode};
use kumir_values::Value;
use sqlite_items::Items;
use stack_code::{CallPlace, CodeUnit, CodeUnits, Instruction, ParamSlot, Shape, valid};
use std::alloc::{AllocError, Global};

/// The slots of a loop: its number, its turns, and a table.
const LOOP_SHAPES: [Shape; 3] = [
    Shape::Scalar(Kind::Whole),
    Shape::Hidden,
    Shape::Table(Kind::Whole, 1),
];

/// `нц для i от 2147483646 до 2147483647`, `вывод i, нс`, `кц`, with the places of its jumps, the slot that is printed
/// and the depth of operands.
fn counting(
    alloc: Global,
    back: u32,
    away: u32,
    printed: u32,
    depth: u32,
) -> Result<CodeUnits, AllocError> {
    let body = body_of(
        alloc,
        [
            on(1, Instruction::Step),
            on(1, Instruction::Push(Value::Whole(2_147_483_646))),
            on(1, Instruction::Push(Value::Whole(2_147_483_647))),
            on(1, Instruction::Push(Value::Whole(1))),
            on(1, Instruction::Turns(1)),
            on(1, Instruction::Step),
            on(1, Instruction::Next(1, Some(0), away)),
            on(1, Instruction::Load(printed)),
            on(1, Instruction::Out),
            on(1, Instruction::OutLine),
            on(1, Instruction::Jump(back)),
            on(1, Instruction::Return),
        ],
    )?;
    program_of(alloc, unit_of(alloc, &LOOP_SHAPES, depth, body)?)
}

/// A unit with one parameter that returns at once.
fn called_unit(alloc: Global) -> Result<CodeUnit, AllocError> {
    let body = body_of(alloc, [on(1, Instruction::Return)])?;
    let mut unit = unit_of(alloc, &[Shape::Scalar(Kind::Whole)], 0, body)?;
    unit.params.push(ParamSlot {
        mode: Mode::Arg,
        slot: 0,
    })?;
    Ok(unit)
}

/// A unit that calls another one with one parameter, after a step or after a line feed.
fn calling_unit(
    alloc: Global,
    step: bool,
    value: Value,
    called: u32,
    place: CallPlace,
) -> Result<CodeUnit, AllocError> {
    let mut places = Items::new(alloc);
    places.push(place)?;
    let before = if step {
        Instruction::Step
    } else {
        Instruction::OutLine
    };
    let body = body_of(
        alloc,
        [
            on(1, Instruction::Push(value)),
            on(1, before),
            on(1, Instruction::Call(called, places)),
            on(1, Instruction::Return),
        ],
    )?;
    unit_of(alloc, &[], 1, body)
}

fn calling(
    alloc: Global,
    step: bool,
    value: Value,
    called: u32,
    place: CallPlace,
) -> Result<CodeUnits, AllocError> {
    let caller = calling_unit(alloc, step, value, called, place)?;
    let mut units = program_of(alloc, caller)?;
    units.push(called_unit(alloc)?)?;
    Ok(units)
}

/// Whether the code of a loop is valid, with these places and this entry.
fn is_counting_valid(
    alloc: Global,
    places: (u32, u32),
    printed: u32,
    depth: u32,
    entry: u32,
) -> Result<bool, Memory> {
    let units = counting(alloc, places.0, places.1, printed, depth)?;
    valid(alloc, &units, Some(entry))
}

#[test]
fn jumps_slots_and_operands_are_looked_at(rt: HostRuntime) {
    for (places, printed, depth, entry, want) in [
        ((5, 11), 0, 3, 0, true),
        // back to a jump
        ((6, 11), 0, 3, 0, false),
        // past the end
        ((5, 12), 0, 3, 0, false),
        // into a table
        ((5, 11), 2, 3, 0, false),
        // deeper than stated
        ((5, 11), 0, 2, 0, false),
        // from one place more and less operands
        ((5, 8), 0, 3, 0, false),
        // no such entry
        ((5, 11), 0, 3, 1, false),
    ] {
        let fine = is_counting_valid(rt.alloc(), places, printed, depth, entry);
        assert_eq!(rt; fine, Ok(want), "{printed} {depth} {entry}");
    }
}

#[test]
fn no_code_is_valid_without_an_entry(rt: HostRuntime) {
    assert_eq!(rt; valid(rt.alloc(), &Items::new(rt.alloc()), None), Ok(true));
}

/// Whether the code of a call is valid.
fn is_calling_valid(
    alloc: Global,
    step: bool,
    value: Value,
    called: u32,
    slot: Option<u32>,
    entry: Option<u32>,
) -> Result<bool, Memory> {
    let place = match slot {
        Some(slot) => CallPlace::Table(slot),
        None => CallPlace::Value,
    };
    let units = calling(alloc, step, value, called, place)?;
    valid(alloc, &units, entry)
}

#[test]
fn calls_are_looked_at(rt: HostRuntime) {
    let one = Value::Whole(1);
    for (step, value, called, slot, entry, want) in [
        (true, one, 1, None, Some(0), true),
        // not after a step
        (false, one, 1, None, None, false),
        // another kind
        (true, Value::Truth(true), 1, None, None, false),
        // no such unit
        (true, one, 2, None, None, false),
        // another place
        (true, one, 1, Some(0), None, false),
        // an entry with parameters
        (true, one, 1, None, Some(1), false),
    ] {
        let fine = is_calling_valid(rt.alloc(), step, value, called, slot, entry);
        assert_eq!(rt; fine, Ok(want), "unit {called}");
    }
}

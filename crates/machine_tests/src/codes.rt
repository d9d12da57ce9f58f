//! Code written by hand.
ghost use Rattle.std.specs.Prelude.{◌≤◌};

use code_samples::{body_of, on, program_of, unit_of};
use kumir_tree::{Kind, Mode};
use kumir_values::Value;
use performer_kit::{PenShape, RobotCommand};
use sqlite_items::Items;
use stack_code::{
    CallPlace, CallPlaces, CodeLine, CodeUnit, CodeUnits, CommandShape, Instruction, ParamSlot,
    Shape,
};
use std::alloc::{AllocError, Global};

/// The slots of each unit here: `цел`, a table of `цел`, `лог`, and what is hidden.
const SHAPES: [Shape; 4] = [
    Shape::Scalar(Kind::Whole),
    Shape::Table(Kind::Whole, 1),
    Shape::Scalar(Kind::Truth),
    Shape::Hidden,
];

pub fn number(value: i32) -> Instruction {
    Instruction::Push(Value::Whole(value))
}

fn robot(command: RobotCommand) -> Instruction {
    Instruction::Ask(CommandShape::Robot(command))
}

/// A unit with these lines, and `Return` behind them on line 9.
pub fn unit<const N: usize>(alloc: Global, lines: [CodeLine; N]) -> Result<CodeUnit, AllocError>
    requires { N ≤ 100 }
{
    let mut body = body_of(alloc, lines)?;
    body.push(on(9, Instruction::Return))?;
    unit_of(alloc, &SHAPES, 4, body)
}

/// A program of one unit.
pub fn alone<const N: usize>(alloc: Global, lines: [CodeLine; N]) -> Result<CodeUnits, AllocError>
    requires { N ≤ 100 }
{
    program_of(alloc, unit(alloc, lines)?)
}

/// A program of two units: the second has one parameter.
pub fn calling<const N: usize, const M: usize>(
    alloc: Global,
    lines: [CodeLine; N],
    mode: Mode,
    slot: u32,
    called: [CodeLine; M],
) -> Result<CodeUnits, AllocError>
    requires first { N ≤ 100 }
    requires second { M ≤ 100 }
{
    let mut units = alone(alloc, lines)?;
    let mut second = unit(alloc, called)?;
    second.params.push(ParamSlot { mode, slot })?;
    units.push(second)?;
    Ok(units)
}

/// A call of the second unit with this place.
pub fn call(alloc: Global, place: CallPlace) -> Result<Instruction, AllocError> {
    let mut places: CallPlaces = Items::new(alloc);
    places.push(place)?;
    Ok(Instruction::Call(1, places))
}

/// `цел i`, `нц для i от first до last шаг step`, `вывод i`, `кц`.
pub fn counting(alloc: Global, first: i32, last: i32, step: i32) -> Result<CodeUnits, AllocError> {
    alone(
        alloc,
        [
            on(3, Instruction::Step),
            on(4, Instruction::Step),
            on(4, number(first)),
            on(4, number(last)),
            on(4, number(step)),
            on(4, Instruction::Turns(3)),
            on(4, Instruction::Step),
            on(4, Instruction::Next(3, Some(0), 12)),
            on(5, Instruction::Step),
            on(5, Instruction::Load(0)),
            on(5, Instruction::Out),
            on(5, Instruction::Jump(6)),
        ],
    )
}

/// `нц пока да`, `кц`.
pub fn endless(alloc: Global) -> Result<CodeUnits, AllocError> {
    alone(
        alloc,
        [
            on(3, Instruction::Step),
            on(3, Instruction::Push(Value::Truth(true))),
            on(3, Instruction::JumpNo(4)),
            on(3, Instruction::Jump(0)),
        ],
    )
}

/// `если справа свободно то вправо все`, then the Draughtsman.
pub fn commanding(alloc: Global) -> Result<CodeUnits, AllocError> {
    alone(
        alloc,
        [
            on(3, Instruction::Step),
            on(3, Instruction::Step),
            on(3, robot(RobotCommand::RightFree)),
            on(3, Instruction::JumpNo(7)),
            on(4, Instruction::Step),
            on(4, Instruction::Step),
            on(4, robot(RobotCommand::Right)),
            on(6, Instruction::Step),
            on(6, number(3)),
            on(6, number(-4)),
            on(6, Instruction::Step),
            on(6, Instruction::Ask(CommandShape::Pen(PenShape::To))),
        ],
    )
}

/// The inputs `цел` and `лог`, printed.
pub fn reading(alloc: Global) -> Result<CodeUnits, AllocError> {
    alone(
        alloc,
        [
            on(3, Instruction::Step),
            on(3, Instruction::Input(Kind::Whole)),
            on(3, Instruction::Out),
            on(4, Instruction::Step),
            on(4, Instruction::Input(Kind::Truth)),
            on(4, Instruction::Out),
            on(4, Instruction::OutLine),
        ],
    )
}

/// A table `[low:high]` made twice, then its element `at` stored and printed.
pub fn tabling(alloc: Global, low: i32, high: i32, at: i32) -> Result<CodeUnits, AllocError> {
    alone(
        alloc,
        [
            on(3, number(low)),
            on(3, number(high)),
            on(3, Instruction::Make(1, Kind::Whole, 1)),
            on(4, number(low)),
            on(4, number(high)),
            on(4, Instruction::Make(1, Kind::Whole, 1)),
            on(5, number(at)),
            on(5, number(50)),
            on(5, Instruction::PutElem(1, 1)),
            on(6, number(at)),
            on(6, Instruction::Elem(1, 1)),
            on(6, Instruction::Out),
        ],
    )
}

/// The second unit, with one parameter `аргрез`, is given 5, and what it makes of it is printed.
fn given_five<const M: usize>(alloc: Global, called: [CodeLine; M]) -> Result<CodeUnits, AllocError>
    requires { M ≤ 100 }
{
    let first = call(alloc, CallPlace::Slot(0))?;
    calling(
        alloc,
        [
            on(1, number(5)),
            on(1, Instruction::Store(0)),
            on(2, Instruction::Load(0)),
            on(2, Instruction::Step),
            on(2, first),
            on(3, Instruction::Load(0)),
            on(3, Instruction::Out),
        ],
        Mode::ArgRes,
        0,
        called,
    )
}

/// `f(аргрез цел y)` is given 5 and adds it to itself.
pub fn doubling(alloc: Global) -> Result<CodeUnits, AllocError> {
    given_five(
        alloc,
        [
            on(8, Instruction::Load(0)),
            on(8, Instruction::Load(0)),
            on(8, Instruction::Add),
            on(8, Instruction::Store(0)),
        ],
    )
}

/// `f(аргрез цел y)` is given 5 and calls itself until the depth ends.
pub fn calling_itself(alloc: Global) -> Result<CodeUnits, AllocError> {
    let again = call(alloc, CallPlace::Slot(0))?;
    given_five(
        alloc,
        [
            on(7, Instruction::Load(0)),
            on(7, Instruction::Step),
            on(7, again),
        ],
    )
}

/// `t[1:3]` and an index 2, fixed at the call; `f(рез цел y)` is given that element and stores 7.
pub fn copying_to_an_element(alloc: Global) -> Result<CodeUnits, AllocError> {
    let mut at = Items::new(alloc);
    at.push(3)?;
    let called = call(alloc, CallPlace::Element(1, at))?;
    calling(
        alloc,
        [
            on(1, number(1)),
            on(1, number(3)),
            on(1, Instruction::Make(1, Kind::Whole, 1)),
            on(2, number(2)),
            on(2, Instruction::Store(3)),
            on(2, Instruction::Step),
            on(2, called),
            on(3, number(2)),
            on(3, Instruction::Elem(1, 1)),
            on(3, Instruction::Out),
            on(4, number(1)),
            on(4, Instruction::Elem(1, 1)),
        ],
        Mode::Res,
        0,
        [on(8, number(7)), on(8, Instruction::Store(0))],
    )
}

/// A table of 500,000 elements is given twice, by value or to be changed, and its first element is printed. The room is enough for two such tables at one time.
pub fn giving_a_table(alloc: Global, mode: Mode) -> Result<CodeUnits, AllocError> {
    let first = call(alloc, CallPlace::Table(1))?;
    let second = call(alloc, CallPlace::Table(1))?;
    calling(
        alloc,
        [
            on(1, number(1)),
            on(1, number(500_000)),
            on(1, Instruction::Make(1, Kind::Whole, 1)),
            on(2, number(1)),
            on(2, number(50)),
            on(2, Instruction::PutElem(1, 1)),
            on(3, Instruction::Step),
            on(3, first),
            on(4, Instruction::Step),
            on(4, second),
            on(5, number(1)),
            on(5, Instruction::Elem(1, 1)),
            on(5, Instruction::Out),
        ],
        mode,
        1,
        [
            on(8, number(1)),
            on(8, number(60)),
            on(8, Instruction::PutElem(1, 1)),
        ],
    )
}

/// `f(арг цел y)` is given 41 and gives back one more, or nothing.
pub fn giving_back(alloc: Global, value: bool) -> Result<CodeUnits, AllocError> {
    let called = call(alloc, CallPlace::Value)?;
    let mut units = alone(
        alloc,
        [
            on(1, number(41)),
            on(1, Instruction::Step),
            on(1, called),
            on(1, Instruction::Out),
        ],
    )?;
    let mut called = unit(
        alloc,
        [
            on(7, Instruction::Load(0)),
            on(7, number(1)),
            on(7, Instruction::Add),
            on(7, Instruction::Store(0)),
            on(8, Instruction::Push(Value::Truth(value))),
            on(8, Instruction::JumpNo(7)),
            on(8, Instruction::Jump(8)),
            on(8, Instruction::Clear(0)),
        ],
    )?;
    called.params.push(ParamSlot {
        mode: Mode::Arg,
        slot: 0,
    })?;
    called.gives = Some(0);
    units.push(called)?;
    Ok(units)
}

/// One operation over two numbers, printed.
pub fn operating(
    alloc: Global,
    a: i32,
    b: i32,
    what: Instruction,
) -> Result<CodeUnits, AllocError> {
    alone(
        alloc,
        [
            on(6, number(a)),
            on(6, number(b)),
            on(6, what),
            on(6, Instruction::Out),
        ],
    )
}

/// What is read without a value; an assertion; `стоп`.
pub fn ending(alloc: Global, value: bool, what: Instruction) -> Result<CodeUnits, AllocError> {
    alone(
        alloc,
        [
            on(5, Instruction::Push(Value::Truth(value))),
            on(6, what),
            on(7, Instruction::Load(0)),
            on(7, Instruction::Out),
        ],
    )
}

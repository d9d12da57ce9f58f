use km_base::Memory;
use kumir_tree::Kind;
use kumir_values::{
    Bound, RunFault, Table, TableRefusal, Value, Values, add, div, iabs, imax, imin, mul, neg,
    power, print_value, rem, sub,
};
use std::alloc::Global;
use std::process::Abort;

const LOWEST: i32 = i32::MIN;

const HIGHEST: i32 = i32::MAX;

/// An operation of the language on numbers.
#[derive(Clone, Copy)]
enum Operation {
    Add,
    Sub,
    Mul,
    Div,
    Mod,
    Power,
    Min,
    Max,
    /// The first number alone.
    Neg,
    Abs,
}

fn answer(operation: Operation, a: i32, b: i32) -> Result<i32, RunFault> {
    match operation {
        Operation::Add => add(a, b),
        Operation::Sub => sub(a, b),
        Operation::Mul => mul(a, b),
        Operation::Div => div(a, b),
        Operation::Mod => rem(a, b),
        Operation::Power => power(a, b),
        Operation::Min => imin(a, b),
        Operation::Max => imax(a, b),
        Operation::Neg => neg(a),
        Operation::Abs => iabs(a),
    }
}

/// A row: an operation, its numbers and its answer.
type Row = (Operation, i32, i32, Result<i32, RunFault>);

fn assert_rows(rt: &impl Abort, rows: &[Row]) {
    for (operation, a, b, want) in rows {
        assert_eq!(rt; answer(*operation, *a, *b), *want, "{a} and {b}");
    }
}

#[test]
fn sums_products_and_signs(rt: HostRuntime) {
    let range = Err(RunFault::Range);
    assert_rows(
        &rt,
        &[
            (Operation::Add, 2, 3, Ok(5)),
            (Operation::Add, HIGHEST, 0, Ok(HIGHEST)),
            (Operation::Add, HIGHEST, 1, range),
            (Operation::Add, LOWEST, -1, range),
            (Operation::Sub, 2, 3, Ok(-1)),
            (Operation::Sub, -1, HIGHEST, Ok(LOWEST)),
            (Operation::Sub, -2, HIGHEST, range),
            (Operation::Sub, 0, LOWEST, range),
            (Operation::Mul, -7, 3, Ok(-21)),
            (Operation::Mul, 46_341, 46_341, range),
            (Operation::Mul, 46_340, 46_340, Ok(2_147_395_600)),
            (Operation::Mul, 65_536, -32_768, Ok(LOWEST)),
            (Operation::Mul, 65_536, 32_768, range),
            (Operation::Mul, LOWEST, LOWEST, range),
            (Operation::Mul, LOWEST, -1, range),
            (Operation::Neg, 5, 0, Ok(-5)),
            (Operation::Neg, -5, 0, Ok(5)),
            (Operation::Neg, LOWEST, 0, range),
            (Operation::Neg, HIGHEST, 0, Ok(-HIGHEST)),
            (Operation::Abs, 5, 0, Ok(5)),
            (Operation::Abs, -5, 0, Ok(5)),
            (Operation::Abs, LOWEST, 0, range),
            (Operation::Abs, HIGHEST, 0, Ok(HIGHEST)),
            (Operation::Min, LOWEST, 4, Ok(LOWEST)),
            (Operation::Max, LOWEST, 4, Ok(4)),
        ],
    );
}

#[test]
fn division_and_its_remainder(rt: HostRuntime) {
    let divisor = Err(RunFault::Divisor);
    assert_rows(
        &rt,
        &[
            (Operation::Div, 7, 3, Ok(2)),
            (Operation::Mod, 7, 3, Ok(1)),
            (Operation::Div, -7, 3, Ok(-3)),
            (Operation::Mod, -7, 3, Ok(2)),
            (Operation::Div, 7, -3, Ok(-2)),
            (Operation::Mod, 7, -3, Ok(1)),
            (Operation::Div, -7, -3, Ok(3)),
            (Operation::Mod, -7, -3, Ok(2)),
            (Operation::Div, 6, -3, Ok(-2)),
            (Operation::Mod, 6, -3, Ok(0)),
            (Operation::Div, 1, 0, divisor),
            (Operation::Mod, 1, 0, divisor),
            (Operation::Div, 0, 0, divisor),
            (Operation::Mod, 0, 0, divisor),
            (Operation::Div, LOWEST, -1, Err(RunFault::Range)),
            (Operation::Mod, LOWEST, -1, Ok(0)),
            (Operation::Div, LOWEST, HIGHEST, Ok(-2)),
            (Operation::Mod, LOWEST, HIGHEST, Ok(2_147_483_646)),
            (Operation::Div, HIGHEST, LOWEST, Ok(0)),
            (Operation::Mod, HIGHEST, LOWEST, Ok(HIGHEST)),
            (Operation::Div, -1, LOWEST, Ok(1)),
            (Operation::Mod, -1, LOWEST, Ok(HIGHEST)),
        ],
    );
}

#[test]
fn powers(rt: HostRuntime) {
    let range = Err(RunFault::Range);
    let exponent = Err(RunFault::Exponent);
    assert_rows(
        &rt,
        &[
            (Operation::Power, 2, 30, Ok(1_073_741_824)),
            (Operation::Power, 2, 31, range),
            (Operation::Power, -2, 31, Ok(LOWEST)),
            (Operation::Power, -2, 30, Ok(1_073_741_824)),
            (Operation::Power, -2, 32, range),
            (Operation::Power, -3, 3, Ok(-27)),
            (Operation::Power, 0, 0, Ok(1)),
            (Operation::Power, LOWEST, 1, Ok(LOWEST)),
            (Operation::Power, 2, HIGHEST, range),
            (Operation::Power, LOWEST, HIGHEST, range),
            (Operation::Power, 0, HIGHEST, Ok(0)),
            (Operation::Power, 1, HIGHEST, Ok(1)),
            (Operation::Power, -1, HIGHEST, Ok(-1)),
            (Operation::Power, -1, 2_147_483_646, Ok(1)),
            (Operation::Power, 2, -1, exponent),
            (Operation::Power, 1, -1, exponent),
            (Operation::Power, 0, LOWEST, exponent),
        ],
    );
}

#[test]
fn printed_values(rt: HostRuntime) {
    for (value, want) in [
        (Value::Whole(0), "0"),
        (Value::Whole(LOWEST), "-2147483648"),
        (Value::Whole(HIGHEST), "2147483647"),
        (Value::Truth(true), "да"),
        (Value::Truth(false), "нет"),
    ] {
        match print_value(rt.alloc(), value) {
            Ok(text) => assert_eq!(rt; text.as_str(), want),
            Err(Memory) => assert!(rt; false, "want of memory"),
        }
    }
}

/// Reads where there are as many indexes as bounds.
fn read(table: &Table, index: &[i32]) -> Result<Value, RunFault> {
    if index.len() == table.bounds().len() {
        table.get(index)
    } else {
        Err(RunFault::Bounds)
    }
}

/// Writes where there are as many indexes as bounds, and the value is of the table's kind.
fn write(table: &mut Table, index: &[i32], value: Value) -> Result<(), RunFault> {
    if index.len() != table.bounds().len() {
        Err(RunFault::Bounds)
    } else if value.kind() != table.kind() {
        Err(RunFault::InputType)
    } else {
        table.set(index, value)
    }
}

fn take_away(table: &mut Table, index: &[i32]) -> Result<(), RunFault> {
    if index.len() == table.bounds().len() {
        table.clear(index)
    } else {
        Err(RunFault::Bounds)
    }
}

fn bound(low: i32, high: i32) -> Bound {
    Bound { low, high }
}

/// The elements of a table of two bounds have places of their own, and there are none outside.
fn rows(alloc: Global) -> Result<bool, TableRefusal> {
    let mut table = Table::make(alloc, Kind::Whole, &[bound(-1, 1), bound(2, 5)], 12)?;
    let mut right = table.size() == 12;
    let places = [
        (1, [-1, 2]),
        (2, [-1, 5]),
        (3, [0, 3]),
        (4, [1, 2]),
        (5, [1, 5]),
    ];
    for (number, index) in &places {
        right &= read(&table, index) == Err(RunFault::Unset);
        right &= write(&mut table, index, Value::Whole(*number)) == Ok(());
    }
    for (number, index) in &places {
        right &= read(&table, index) == Ok(Value::Whole(*number));
    }
    right &= read(&table, &[0, 2]) == Err(RunFault::Unset);
    for outside in [[-2, 2], [2, 2], [0, 1], [0, 6], [2, 0]] {
        right &= read(&table, &outside) == Err(RunFault::Index);
        right &= write(&mut table, &outside, Value::Whole(0)) == Err(RunFault::Index);
        right &= take_away(&mut table, &outside) == Err(RunFault::Index);
    }
    Ok(right)
}

/// One bound at the ends of the range, `clear`, and a copy that keeps its values.
fn ends(alloc: Global) -> Result<bool, TableRefusal> {
    let low = [LOWEST];
    let mut table = Table::make(alloc, Kind::Truth, &[bound(LOWEST, LOWEST + 1)], 2)?;
    let mut right = write(&mut table, &low, Value::Truth(false)) == Ok(());
    right &= read(&table, &[HIGHEST]) == Err(RunFault::Index);
    let copy = table.copy(alloc)?;
    right &= take_away(&mut table, &low) == Ok(());
    right &= read(&table, &low) == Err(RunFault::Unset);
    right &= read(&copy, &low) == Ok(Value::Truth(false));
    right &= read(&copy, &[LOWEST + 1]) == Err(RunFault::Unset);
    right &= copy.kind() == Kind::Truth && copy.bounds() == [bound(LOWEST, LOWEST + 1)].as_slice();
    Ok(right)
}

/// Three bounds are no case of their own.
fn layers(alloc: Global) -> Result<bool, TableRefusal> {
    let mut table = Table::make(
        alloc,
        Kind::Whole,
        &[bound(1, 2), bound(0, 0), bound(-3, -1)],
        6,
    )?;
    let mut right = write(&mut table, &[2, 0, -2], Value::Whole(7)) == Ok(());
    right &= read(&table, &[2, 0, -2]) == Ok(Value::Whole(7));
    right &= read(&table, &[1, 0, -2]) == Err(RunFault::Unset);
    right &= read(&table, &[2, 0, 0]) == Err(RunFault::Index);
    Ok(right)
}

#[test]
fn elements_of_tables(rt: HostRuntime) {
    assert_eq!(rt; rows(rt.alloc()), Ok(true));
    assert_eq!(rt; ends(rt.alloc()), Ok(true));
    assert_eq!(rt; layers(rt.alloc()), Ok(true));
}

#[test]
fn tables_that_are_refused(rt: HostRuntime) {
    let whole = bound(LOWEST, HIGHEST);
    for (bounds, room, want) in [
        ([bound(2, 1), bound(1, 1)], 9, Some(TableRefusal::Bounds)),
        (
            [whole, bound(HIGHEST, LOWEST)],
            9,
            Some(TableRefusal::Bounds),
        ),
        ([whole, whole], u32::MAX, Some(TableRefusal::Elements)),
        ([whole, bound(0, 0)], u32::MAX, Some(TableRefusal::Elements)),
        ([bound(1, 3), bound(1, 3)], 9, None),
        ([bound(1, 3), bound(1, 3)], 8, Some(TableRefusal::Elements)),
        ([bound(1, 1), bound(1, 1)], 0, Some(TableRefusal::Elements)),
    ] {
        let refusal = Table::make(rt.alloc(), Kind::Whole, &bounds, room).err();
        assert_eq!(rt; refusal, want, "room {room}");
    }
}

#[test]
fn a_list_of_values(rt: HostRuntime) {
    let mut values = Values::new(rt.alloc());
    assert!(rt; values.push(Value::Whole(3)).is_ok());
    assert_eq!(rt; values.as_slice(), [Value::Whole(3)].as_slice());
}

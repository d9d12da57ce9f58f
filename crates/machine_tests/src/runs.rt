ghost use Rattle.std.specs.Prelude.{◌≤◌};

use crate::codes::{
    calling_itself, commanding, copying_to_an_element, counting, doubling, ending, endless,
    giving_a_table, giving_back, operating, reading, tabling,
};
use crate::story::{Given, story};
use kumir_tree::Mode;
use kumir_values::Value;
use stack_code::{CodeUnits, Instruction};
use std::alloc::{AllocError, Global};
use std::process::Abort;
use std::test::Fail;

const USUAL: Given = Given {
    inputs: &[],
    replies: &[],
    budget: 100,
    most: 100,
};

/// A machine over this code tells what is wanted.
fn tells(
    rt: &impl Abort,
    alloc: Global,
    units: Result<CodeUnits, AllocError>,
    given: Given,
    wanted: &str,
) -> Result<(), Fail>
    requires budget { given.budget ≤ 100000000 }
    requires most { 1 ≤ given.most }
{
    assert_eq!(rt; story(alloc, units?, given)?.as_str(), wanted);
    Ok(())
}

#[test]
fn steps_are_taken_within_the_budget(rt: HostRuntime) -> Result<(), Fail> {
    let alloc = rt.alloc();
    for (first, last, step, budget, most, wanted) in [
        (1, 2, 1, 7, 100, "12 Done 7"),
        (1, 2, 1, 6, 100, "12 Steps 6"),
        (1, 2, 1, 5, 100, "1 Steps 5"),
        (1, 2, 1, 0, 100, " Steps 0"),
        (1, 2, 1, 7, 3, " 3..12 Done 7"),
        (1, 2, 1, 7, 1, " 1.. 2.. 3..1 5..2 Done 7"),
        (1, 2, 0, 7, 100, " Fault { line: 4, fault: StepZero } 2"),
        (1, 2, -1, 7, 100, " Done 3"),
        (
            2147483646,
            2147483647,
            1,
            7,
            100,
            "21474836462147483647 Done 7",
        ),
        (
            -2147483647,
            -2147483648,
            -1,
            7,
            100,
            "-2147483647-2147483648 Done 7",
        ),
    ] {
        let given = Given {
            budget,
            most,
            ..USUAL
        };
        tells(
            &rt,
            alloc,
            counting(alloc, first, last, step),
            given,
            wanted,
        )?;
    }
    let given = Given {
        budget: 2500,
        most: 1000,
        ..USUAL
    };
    tells(
        &rt,
        alloc,
        endless(alloc),
        given,
        " 1000.. 2000.. Steps 2500",
    )
}

#[test]
fn replies_are_awaited(rt: HostRuntime) -> Result<(), Fail> {
    let alloc = rt.alloc();
    let replies: [(&'static [bool], &str); 6] = [
        (&[], "<Robot(RightFree)>?"),
        (&[false], "<Robot(RightFree)><Pen(To { x: 3, y: -4 })>?"),
        (
            &[false, true],
            "<Robot(RightFree)><Pen(To { x: 3, y: -4 })> Done 4",
        ),
        (&[true], "<Robot(RightFree)><Robot(Right)>?"),
        (
            &[true, false],
            "<Robot(RightFree)><Robot(Right)> Wall { line: 4 } 4",
        ),
        (
            &[true, true, true],
            "<Robot(RightFree)><Robot(Right)><Pen(To { x: 3, y: -4 })> Done 6",
        ),
    ];
    for (replies, wanted) in replies {
        let given = Given { replies, ..USUAL };
        tells(&rt, alloc, commanding(alloc), given, wanted)?;
    }
    Ok(())
}

#[test]
fn inputs_are_taken_in_order(rt: HostRuntime) -> Result<(), Fail> {
    let alloc = rt.alloc();
    let inputs: [(&'static [Value], &str); 4] = [
        (&[], " Fault { line: 3, fault: NoInput } 1"),
        (
            &[Value::Truth(true)],
            " Fault { line: 3, fault: InputType } 1",
        ),
        (
            &[Value::Whole(-7)],
            "-7 Fault { line: 4, fault: NoInput } 2",
        ),
        (&[Value::Whole(-7), Value::Truth(false)], "-7нет\n Done 2"),
    ];
    for (inputs, wanted) in inputs {
        let given = Given { inputs, ..USUAL };
        tells(&rt, alloc, reading(alloc), given, wanted)?;
    }
    Ok(())
}

#[test]
fn tables_have_bounds_and_room(rt: HostRuntime) -> Result<(), Fail> {
    let alloc = rt.alloc();
    for (low, high, at, wanted) in [
        (1, 600_000, 600_000, "50 Done 0"),
        (1, 1_000_001, 1, " Fault { line: 3, fault: Elements } 0"),
        (3, 1, 1, " Fault { line: 3, fault: Bounds } 0"),
        (-1, 1, -2, " Fault { line: 5, fault: Index } 0"),
    ] {
        tells(&rt, alloc, tabling(alloc, low, high, at), USUAL, wanted)?;
    }
    Ok(())
}

#[test]
fn calls_copy_in_and_out(rt: HostRuntime) -> Result<(), Fail> {
    let alloc = rt.alloc();
    let deep = Given {
        budget: 2000,
        most: 2000,
        ..USUAL
    };
    for (units, wanted) in [
        (doubling(alloc), "10 Done 1"),
        (
            calling_itself(alloc),
            " Fault { line: 7, fault: Depth } 1000",
        ),
        (
            copying_to_an_element(alloc),
            "7 Fault { line: 4, fault: Unset } 1",
        ),
        (giving_a_table(alloc, Mode::Arg), "50 Done 2"),
        (giving_a_table(alloc, Mode::ArgRes), "60 Done 2"),
        (giving_back(alloc, true), "42 Done 1"),
        (
            giving_back(alloc, false),
            " Fault { line: 9, fault: NoValue } 1",
        ),
    ] {
        tells(&rt, alloc, units, deep, wanted)?;
    }
    Ok(())
}

#[test]
fn faults_have_their_lines(rt: HostRuntime) -> Result<(), Fail> {
    let alloc = rt.alloc();
    for (units, wanted) in [
        (operating(alloc, 7, 3, Instruction::Sub), "4 Done 0"),
        (
            operating(alloc, 2_147_483_647, 1, Instruction::Add),
            " Fault { line: 6, fault: Range } 0",
        ),
        (
            operating(alloc, 1, 0, Instruction::Div),
            " Fault { line: 6, fault: Divisor } 0",
        ),
        (
            operating(alloc, 2, -1, Instruction::Pow),
            " Fault { line: 6, fault: Exponent } 0",
        ),
        (
            ending(alloc, true, Instruction::Assert),
            " Fault { line: 7, fault: Unset } 0",
        ),
        (
            ending(alloc, false, Instruction::Assert),
            " Assert { line: 6 } 0",
        ),
        (ending(alloc, true, Instruction::Quit), " Quit 0"),
        (ending(alloc, true, Instruction::Add), "not valid"),
    ] {
        tells(&rt, alloc, units, USUAL, wanted)?;
    }
    Ok(())
}

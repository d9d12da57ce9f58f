//! Fields in scripts, and what the Robot sees of them.

use crate::row::{told, transcript, wanted};
use std::alloc::{AllocError, Global};
use std::fmt::Write;
use std::test::Fail;

// Field texts, and their answer.
const FIELDS: [(&str, &str); 18] = [
    ("1 1 1 1", "field ok"),
    ("128 128 128 128", "field ok"),
    (
        "3 2 1 1\npaint 3 2\npaint 3 2\nright 2 2\nbelow 3 1",
        "field ok",
    ),
    ("0 1 1 1", "field bad 1"),
    ("129 1 1 1", "field bad 1"),
    ("1 129 1 1", "field bad 1"),
    ("3 1 4 1", "field bad 1"),
    ("3 1 1 2", "field bad 1"),
    ("3 1 0 1", "field bad 1"),
    ("3 1 1", "field bad 1"),
    ("3 1 1 1 ", "field bad 1"),
    ("03 1 1 1", "field bad 1"),
    ("3 1 1 1\npaint 4 1", "field bad 2"),
    ("3 1 1 1\nright 3 1", "field bad 2"),
    ("3 1 1 1\nbelow 1 1", "field bad 2"),
    ("3 1 1 1\npaint 1 1\nwall 1 1", "field bad 3"),
    ("3 1 1 1\npaint 1  1\npaint 1 1", "field bad 2"),
    ("3 1 1 1\n\npaint 1 1", "field bad 2"),
];

#[test]
fn fields_are_answered(rt: HostRuntime) -> Result<(), Fail> {
    let alloc = rt.alloc();
    for (field, answer) in FIELDS {
        let count = field.lines().count();
        let script = format!(in alloc; "field {count}\n{field}\n")?;
        let told = transcript(alloc, "plain", script.as_str())?;
        let due = format!(in alloc; "margin 0\n{answer}\nbye\n0")?;
        assert_eq!(rt; told.as_str(), due.as_str(), "at {field}");
    }
    Ok(())
}

#[test]
fn a_field_has_as_many_lines_as_a_script_gives(rt: HostRuntime) -> Result<(), Fail> {
    let alloc = rt.alloc();
    let mut script = String::from_str(alloc, "field 65536\n1 1 1 1\n")?;
    for _ in 0..65_535_u32 {
        script.push_str("paint 1 1\n")?;
    }
    script.push_str("field 65537\nwait\n")?;
    let told = transcript(alloc, "plain", script.as_str())?;
    assert_eq!(rt;
        told.as_str(),
        "margin 0\nfield ok\nbad 65538\nwaited\nbye\n0"
    );
    Ok(())
}

const LOOKING: &str =
    "использовать Робот\nалг\nнач\nвывод сверху свободно, сверху стена\nвывод снизу свободно, снизу стена\nвывод слева свободно, слева стена\nвывод справа свободно, справа стена\nкон";

// Fields, and whether a wall is above, below, to the left and to the right of the Robot.
const WALLS: [(&str, [bool; 4]); 7] = [
    ("1 1 1 1", [true, true, true, true]),
    ("3 3 2 2", [false, false, false, false]),
    ("2 2 1 1", [true, false, true, false]),
    ("2 2 2 2", [false, true, false, true]),
    ("3 3 2 2\nright 2 2\nbelow 2 1", [true, false, false, true]),
    ("3 3 2 2\nright 1 2\nbelow 2 2", [false, true, true, false]),
    (
        "3 3 2 2\nright 2 1\nright 1 3\nbelow 1 2\nbelow 3 1",
        [false, false, false, false],
    ),
];

const SIDES: [&str; 4] = ["сверху", "снизу", "слева", "справа"];

fn word(holds: bool) -> &'static str {
    if holds { "да" } else { "нет" }
}

// The entries of a run that looks at each side.
fn seen(alloc: Global, walls: [bool; 4]) -> Result<String, AllocError> {
    let mut out = String::from_str(alloc, "field ok\nrun 1 1\n")?;
    for at in 0..4_usize {
        let side = SIDES[at];
        let free = word(!walls[at]);
        let wall = word(walls[at]);
        write!(
            out,
            "robot 1 {} {side}_свободно {free}\nout 1 {free}\n",
            2 * at + 1
        )?;
        write!(
            out,
            "robot 1 {} {side}_стена {wall}\nout 1 {wall}\n",
            2 * at + 2
        )?;
    }
    out.push_str("end 1 done\n")?;
    Ok(out)
}

#[test]
fn walls_are_seen_from_both_cells(rt: HostRuntime) -> Result<(), Fail> {
    let alloc = rt.alloc();
    for (field, walls) in WALLS {
        let count = field.lines().count();
        let requests = format!(in alloc; "field {count}\n{field}\nrun")?;
        let told = told(alloc, "plain", LOOKING, requests.as_str())?;
        let due = wanted(alloc, seen(alloc, walls)?.as_str())?;
        assert_eq!(rt; told.as_str(), due.as_str(), "at {field}");
    }
    Ok(())
}

// The text of the largest field with every wall.
fn largest(alloc: Global) -> Result<String, AllocError> {
    let mut out = String::from_str(alloc, "field 32513\n128 128 64 64\n")?;
    for row in 0..128_u32 {
        for column in 0..127_u32 {
            write!(
                out,
                "right {} {}\nbelow {} {}\n",
                column + 1,
                row + 1,
                row + 1,
                column + 1
            )?;
        }
    }
    Ok(out)
}

#[test]
fn the_largest_field_has_every_wall(rt: HostRuntime) -> Result<(), Fail> {
    let alloc = rt.alloc();
    let field = largest(alloc)?;
    let requests = format!(in alloc; "{field}run")?;
    let told = told(alloc, "plain", LOOKING, requests.as_str())?;
    let due = wanted(alloc, seen(alloc, [true, true, true, true])?.as_str())?;
    assert_eq!(rt; told.as_str(), due.as_str());
    Ok(())
}

// Moves on a field of one cell, each a step into its border.
const MOVES: [&str; 4] = ["вверх", "вниз", "влево", "вправо"];

#[test]
fn a_step_into_a_wall_ends_a_run(rt: HostRuntime) -> Result<(), Fail> {
    let alloc = rt.alloc();
    for step in MOVES {
        let program = format!(in alloc; "использовать Робот\nалг\nнач\n{step}\nкон")?;
        let told = told(alloc, "plain", program.as_str(), "field 1\n1 1 1 1\nrun")?;
        let entries = format!(in alloc;
            "field ok\nrun 1 1\nrobot 1 1 {step} wall\nend 1 wall 4\n"
        )?;
        let due = wanted(alloc, entries.as_str())?;
        assert_eq!(rt; told.as_str(), due.as_str(), "at {step}");
    }
    Ok(())
}

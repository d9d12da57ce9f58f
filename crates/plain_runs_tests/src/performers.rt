//! Runs that command the Robot and the Draughtsman.

use crate::row::{are_answered, run_as, run_within, transcript};
use std::alloc::{AllocError, Global};
use std::fmt::Write;
use std::test::Fail;

const BOTH: [(&str, &str); 4] = [
    (
        "использовать Робот\nиспользовать Чертежник\nалг\nнач\nопустить перо\nнц 2 раз\nвниз\nсместиться на вектор(1, -2)\nкц\nкон",
        "run 1 1\npen 1 1 опустить_перо done\nrobot 1 1 вниз done\npen 1 2 сместиться_на_вектор 1 -2 line 0 0 1 -2\nrobot 1 2 вниз done\npen 1 3 сместиться_на_вектор 1 -2 line 1 -2 2 -4\nend 1 done\n",
    ),
    (
        "использовать Чертежник\nалг\nнач\nсместиться в точку(5, 5)\nопустить перо\nсместиться в точку(2147483647, -2147483647 - 1)\nсместиться на вектор(1, -1)\nсместиться на вектор(0, 0)\nподнять перо\nсместиться в точку(0, 0)\nкон",
        "run 1 1\npen 1 1 сместиться_в_точку 5 5 done\npen 1 2 опустить_перо done\npen 1 3 сместиться_в_точку 2147483647 -2147483648 line 5 5 2147483647 -2147483648\npen 1 4 сместиться_на_вектор 1 -1 line 2147483647 -2147483648 2147483648 -2147483649\npen 1 5 сместиться_на_вектор 0 0 done\npen 1 6 поднять_перо done\npen 1 7 сместиться_в_точку 0 0 done\nend 1 done\n",
    ),
    (
        "использовать Робот\nалг\nнач\nвниз; вбок\nвывод 1\nкон\nалг вбок\nнач\nвлево\nкон",
        "run 1 1\nrobot 1 1 вниз done\nrobot 1 2 влево wall\nend 1 wall 9\n",
    ),
    (
        "использовать Робот\nалг\nнач\nесли клетка чистая и справа свободно то вправо иначе вниз все\nвывод \"а\"\nкон",
        "run 1 1\nrobot 1 1 клетка_чистая да\nrobot 1 2 справа_свободно да\nrobot 1 3 вправо done\nout 1 а\nend 1 done\n",
    ),
];

#[test]
fn commands_are_reported_in_program_order(rt: HostRuntime) -> Result<(), Fail> {
    run_as(&rt, rt.alloc(), &BOTH)
}

const PAINTING: &str =
    "использовать Робот\nалг\nнач\nвывод клетка закрашена\nзакрасить\nвывод клетка закрашена, клетка чистая\nкон";

// Paint stays between commands and is gone in the next run, and each run stands on the last field that was accepted.
const RUNS: [(&str, &str, &str); 2] = [
    (
        PAINTING,
        "run\nfield 2\n1 1 1 1\npaint 1 1\nfield 1\n1 1 2 1\nrun",
        "run 1 1\nrobot 1 1 клетка_закрашена нет\nout 1 нет\nrobot 1 2 закрасить done\nrobot 1 3 клетка_закрашена да\nout 1 да\nrobot 1 4 клетка_чистая нет\nout 1 нет\nend 1 done\nfield ok\nfield bad 1\nrun 2 1\nrobot 2 1 клетка_закрашена да\nout 2 да\nrobot 2 2 закрасить done\nrobot 2 3 клетка_закрашена да\nout 2 да\nrobot 2 4 клетка_чистая нет\nout 2 нет\nend 2 done\n",
    ),
    (
        "использовать Робот\nалг\nнач\nзакрасить\nвправо\nвправо\nкон",
        "field 1\n2 1 1 1\nrun\nrun",
        "field ok\nrun 1 1\nrobot 1 1 закрасить done\nrobot 1 2 вправо done\nrobot 1 3 вправо wall\nend 1 wall 6\nrun 2 1\nrobot 2 1 закрасить done\nrobot 2 2 вправо done\nrobot 2 3 вправо wall\nend 2 wall 6\n",
    ),
];

#[test]
fn each_run_has_a_field_of_its_own(rt: HostRuntime) -> Result<(), Fail> {
    are_answered(&rt, rt.alloc(), &RUNS)
}

const DOWN: &str = "использовать Робот\nалг\nнач\nвниз\nвниз\nкон";

// A statement takes a step, and so does its command.
const STEPS: [(&str, &str, &str); 4] = [
    ("plain --steps 1", DOWN, "run 1 1\nend 1 steps\n"),
    (
        "plain --steps 2",
        DOWN,
        "run 1 1\nrobot 1 1 вниз done\nend 1 steps\n",
    ),
    (
        "plain --steps 3",
        DOWN,
        "run 1 1\nrobot 1 1 вниз done\nend 1 steps\n",
    ),
    (
        "plain --steps 4",
        DOWN,
        "run 1 1\nrobot 1 1 вниз done\nrobot 1 2 вниз done\nend 1 done\n",
    ),
];

#[test]
fn a_command_within_the_steps_has_its_report(rt: HostRuntime) -> Result<(), Fail> {
    run_within(&rt, rt.alloc(), &STEPS)
}

// The edits of a pupil who types a program in, and their margins.
const TYPED: &str =
    "edit 1 0 1\nиспользовать Робот\nedit 2 0 1\nалг обход поля\nedit 3 0 2\nдано | Робот в углу\nнадо | ряд закрашен\nedit 5 0 1\nнач\nedit 6 0 3\nряд\nвниз\nназад\nedit 9 0 1\nкон\nedit 10 0 2\nалг ряд\nнач\nedit 12 0 3\nнц пока справа свободно\nзакрасить; вправо\nкц\nedit 15 0 2\nзакрасить\nкон\nedit 17 0 1\nалг назад\nedit 18 0 2\nнач\nнц 10 раз влево кц\nedit 20 0 1\nкон\n";

const SHOWN: &str =
    "margin 0\nedit 1\nmargin 1\nedit 2\nmargin 2 2:302\nedit 3\nmargin 3 4:302\nedit 4\nmargin 4 5:302\nedit 5\nmargin 5 8:302\nedit 6\nmargin 6 6:402 8:402\nedit 7\nmargin 7 8:402 11:302\nedit 8\nmargin 8 8:402 14:302\nedit 9\nmargin 9 8:402\nedit 10\nmargin 10 17:302\nedit 11\nmargin 11 19:302\nedit 12\nmargin 12\n";

// The reports of the row that is painted, and of nine steps back.
fn push_walk(out: &mut String, run: u32) -> Result<(), AllocError> {
    for cell in 0..9_u32 {
        let at = 3 * cell;
        write!(out, "robot {run} {} справа_свободно да\n", at + 1)?;
        write!(out, "robot {run} {} закрасить done\n", at + 2)?;
        write!(out, "robot {run} {} вправо done\n", at + 3)?;
    }
    write!(
        out,
        "robot {run} 28 справа_свободно нет\nrobot {run} 29 закрасить done\nrobot {run} 30 вниз done\n"
    )?;
    for step in 0..9_u32 {
        write!(out, "robot {run} {} влево done\n", step + 31)?;
    }
    Ok(())
}

#[test]
fn a_program_is_typed_in_and_run(rt: HostRuntime) -> Result<(), Fail> {
    let alloc = rt.alloc();
    let script = format!(in alloc; "{TYPED}run\nedit 19 1 1\nнц 9 раз влево кц\nrun\n")?;
    let mut wanted = format!(in alloc; "{SHOWN}run 1 12\n")?;
    push_walk(&mut wanted, 1)?;
    wanted.push_str("robot 1 40 влево wall\nend 1 wall 19\nedit 13\nmargin 13\nrun 2 13\n")?;
    push_walk(&mut wanted, 2)?;
    wanted.push_str("end 2 done\nbye\n0")?;
    let told = transcript(alloc, "plain", script.as_str())?;
    assert_eq!(rt; told.as_str(), wanted.as_str());
    Ok(())
}

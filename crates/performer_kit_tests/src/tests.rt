use km_base::{Memory, Performer};
use performer_kit::{
    Command, PenCommand, PenShape, Reply, Report, RobotCommand, Segment, pen_shape, pen_shape_of,
    performer_of, performer_of_name, print_command, robot_command, robot_command_of,
};
use std::alloc::{AllocError, Global};
use std::test::Fail;

const ROBOT_NAMES: [(&str, RobotCommand, &str); 15] = [
    ("вверх", RobotCommand::Up, "вверх"),
    ("вниз", RobotCommand::Down, "вниз"),
    ("влево", RobotCommand::Left, "влево"),
    ("вправо", RobotCommand::Right, "вправо"),
    ("закрасить", RobotCommand::Paint, "закрасить"),
    (
        "сверху свободно",
        RobotCommand::AboveFree,
        "сверху_свободно",
    ),
    ("снизу свободно", RobotCommand::BelowFree, "снизу_свободно"),
    ("слева свободно", RobotCommand::LeftFree, "слева_свободно"),
    (
        "справа свободно",
        RobotCommand::RightFree,
        "справа_свободно",
    ),
    ("сверху стена", RobotCommand::AboveWall, "сверху_стена"),
    ("снизу стена", RobotCommand::BelowWall, "снизу_стена"),
    ("слева стена", RobotCommand::LeftWall, "слева_стена"),
    ("справа стена", RobotCommand::RightWall, "справа_стена"),
    (
        "клетка закрашена",
        RobotCommand::CellPainted,
        "клетка_закрашена",
    ),
    ("клетка чистая", RobotCommand::CellClean, "клетка_чистая"),
];

const PEN_NAMES: [(&str, PenShape, PenCommand, &str); 4] = [
    (
        "поднять перо",
        PenShape::Raise,
        PenCommand::Raise,
        "поднять_перо",
    ),
    (
        "опустить перо",
        PenShape::Lower,
        PenCommand::Lower,
        "опустить_перо",
    ),
    (
        "сместиться в точку",
        PenShape::To,
        PenCommand::To {
            x: 2147483647,
            y: -2147483648,
        },
        "сместиться_в_точку 2147483647 -2147483648",
    ),
    (
        "сместиться на вектор",
        PenShape::By,
        PenCommand::By { dx: 1, dy: -2 },
        "сместиться_на_вектор 1 -2",
    ),
];

const OTHER_NAMES: [&str; 12] = [
    "",
    "вверх ",
    " вверх",
    "Вверх",
    "вверх вниз",
    "сверху_свободно",
    "сверху  свободно",
    "сверху",
    "робот",
    "Чертёжник",
    "сместиться",
    "Робот Чертежник",
];

// Whether this is what is found by the name as a text, and by its characters.
fn finds_performer(
    alloc: Global,
    name: &str,
    found: Option<Performer>,
) -> Result<bool, AllocError> {
    let letters: Vec<char> = name.chars().collect(alloc)?;
    Ok(performer_of(name) == found && performer_of_name(&letters) == found)
}

fn finds_robot_command(
    alloc: Global,
    name: &str,
    found: Option<RobotCommand>,
) -> Result<bool, AllocError> {
    let letters: Vec<char> = name.chars().collect(alloc)?;
    Ok(robot_command(name) == found && robot_command_of(&letters) == found)
}

fn finds_pen_shape(alloc: Global, name: &str, found: Option<PenShape>) -> Result<bool, AllocError> {
    let letters: Vec<char> = name.chars().collect(alloc)?;
    Ok(pen_shape(name) == found && pen_shape_of(&letters) == found)
}

fn is_printed_as(alloc: Global, command: Command, printed: &str) -> Result<bool, Memory> {
    let text = print_command(alloc, command)?;
    Ok(text.as_str() == printed)
}

#[test]
fn every_robot_name_is_found_and_printed(rt: HostRuntime) -> Result<(), Fail> {
    let alloc = rt.alloc();
    for (name, command, printed) in ROBOT_NAMES {
        let right = finds_robot_command(alloc, name, Some(command))?
            && finds_pen_shape(alloc, name, None)?
            && is_printed_as(alloc, Command::Robot(command), printed)?;
        assert!(rt; right, "{name}");
    }
    Ok(())
}

#[test]
fn every_pen_name_is_found_and_printed(rt: HostRuntime) -> Result<(), Fail> {
    let alloc = rt.alloc();
    for (name, shape, command, printed) in PEN_NAMES {
        let right = finds_pen_shape(alloc, name, Some(shape))?
            && finds_robot_command(alloc, name, None)?
            && is_printed_as(alloc, Command::Pen(command), printed)?;
        assert!(rt; right, "{name}");
    }
    Ok(())
}

#[test]
fn performers_are_found(rt: HostRuntime) -> Result<(), Fail> {
    for (name, performer) in [("Робот", Performer::Robot), ("Чертежник", Performer::Pen)] {
        assert!(rt;
            finds_performer(rt.alloc(), name, Some(performer))?,
            "{name}"
        );
    }
    Ok(())
}

#[test]
fn near_misses_are_not_found(rt: HostRuntime) -> Result<(), Fail> {
    let alloc = rt.alloc();
    for name in OTHER_NAMES {
        let right = finds_performer(alloc, name, None)?
            && finds_robot_command(alloc, name, None)?
            && finds_pen_shape(alloc, name, None)?;
        assert!(rt; right, "{name}");
    }
    Ok(())
}

#[test]
fn reports_are_compared_by_all_their_parts(rt: HostRuntime) {
    let drawn = Reply::Drawn(Segment {
        x1: 0,
        y1: 0,
        x2: 1,
        y2: -2,
    });
    let command = Command::Pen(PenCommand::By { dx: 1, dy: -2 });
    let report = Report {
        run: 1,
        number: 2,
        command,
        reply: drawn,
    };
    assert_eq!(rt; report, report);
    assert!(rt;
        report
            != Report {
                number: 3,
                ..report
            }
    );
    assert!(rt;
        report
            != Report {
                reply: Reply::Done,
                ..report
            }
    );
}

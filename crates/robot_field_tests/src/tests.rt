use kumir_tree::Line;
use performer_kit::{Reply, RobotCommand};
use robot_field::{Field, FieldRefusal};
use std::alloc::{AllocError, Global};
use std::test::Fail;

#[test]
fn usual_field_is_walked_along_its_border(rt: HostRuntime) -> Result<(), Fail> {
    let mut field = Field::usual(rt.alloc())?;
    let steps = [
        (RobotCommand::Up, Reply::Wall),
        (RobotCommand::Left, Reply::Wall),
        (RobotCommand::LeftWall, Reply::Yes),
        (RobotCommand::AboveFree, Reply::No),
        (RobotCommand::BelowFree, Reply::Yes),
        (RobotCommand::CellClean, Reply::Yes),
        (RobotCommand::Paint, Reply::Done),
        (RobotCommand::Paint, Reply::Done),
        (RobotCommand::CellPainted, Reply::Yes),
        (RobotCommand::CellClean, Reply::No),
        (RobotCommand::Right, Reply::Done),
        (RobotCommand::CellPainted, Reply::No),
        (RobotCommand::LeftFree, Reply::Yes),
        (RobotCommand::Down, Reply::Done),
        (RobotCommand::AboveWall, Reply::No),
    ];
    for (command, reply) in steps {
        assert_eq!(rt; field.act(command), reply, "{command:?}");
    }
    assert_eq!(rt; field.place(), (2, 2));
    for _ in 0..8 {
        assert_eq!(rt; field.act(RobotCommand::Right), Reply::Done);
        assert_eq!(rt; field.act(RobotCommand::Down), Reply::Done);
    }
    assert_eq!(rt; field.place(), (10, 10));
    assert_eq!(rt; field.act(RobotCommand::RightWall), Reply::Yes);
    assert_eq!(rt; field.act(RobotCommand::BelowWall), Reply::Yes);
    assert_eq!(rt; field.act(RobotCommand::Right), Reply::Wall);
    assert_eq!(rt; field.act(RobotCommand::RightFree), Reply::No);
    Ok(())
}

#[test]
fn copy_keeps_its_own_paint(rt: HostRuntime) -> Result<(), Fail> {
    let mut field = Field::usual(rt.alloc())?;
    assert_eq!(rt; field.act(RobotCommand::Paint), Reply::Done);
    let mut copied = field.copy(rt.alloc())?;
    assert_eq!(rt; copied.act(RobotCommand::CellPainted), Reply::Yes);
    assert_eq!(rt; copied.act(RobotCommand::Down), Reply::Done);
    assert_eq!(rt; copied.act(RobotCommand::Paint), Reply::Done);
    assert_eq!(rt; field.act(RobotCommand::Down), Reply::Done);
    assert_eq!(rt; field.act(RobotCommand::CellPainted), Reply::No);
    Ok(())
}

/// The field of that text, line by line.
fn field_of(alloc: Global, text: &str) -> Result<Field, FieldRefusal> {
    let mut lines = Vec::new(alloc);
    for line in text.lines() {
        let Ok(line) = Line::of_text(alloc, line) else {
            return Err(FieldRefusal::Memory);
        };
        lines.push(line).map_err(AllocError::from)?;
    }
    if lines.len() >= 4_294_967_295 {
        return Err(FieldRefusal::Memory);
    }
    Field::read(alloc, &lines)
}

/// The line that is refused, and 0 where none is.
fn bad_line(alloc: Global, text: &str) -> u32 {
    match field_of(alloc, text) {
        Ok(_field) => 0,
        Err(FieldRefusal::BadField { line }) => line,
        Err(FieldRefusal::Memory) => 4_294_967_295,
    }
}

#[test]
fn texts_that_are_no_field_are_refused_at_their_first_bad_line(rt: HostRuntime) {
    let cases = [
        ("3 1 1 1", 0),
        (
            "128 128 128 128\npaint 128 128\nright 127 128\nbelow 128 127",
            0,
        ),
        ("1 1 1 1\npaint 1 1\npaint 1 1", 0),
        ("", 1),
        ("3 1 4 1", 1),
        ("129 1 1 1", 1),
        ("1 129 1 1", 1),
        ("0 1 1 1", 1),
        ("1 1 1 0", 1),
        ("007 1 1 1", 1),
        ("+1 1 1 1", 1),
        ("-1 1 1 1", 1),
        ("1  1 1 1", 1),
        ("1 1 1 1 ", 1),
        (" 1 1 1 1", 1),
        ("1\t1 1 1", 1),
        ("1 1 1", 1),
        ("1 1 1 1 1", 1),
        ("99999999999999999999999 1 1 1", 1),
        ("3 3 1 1\nright 3 1", 2),
        ("3 3 1 1\nbelow 1 3", 2),
        ("3 3 1 1\npaint 3 3\npaint 4 1", 3),
        ("3 3 1 1\npaint 1 1 ", 2),
        ("3 3 1 1\n\npaint 1 1", 2),
        ("3 3 1 1\nPaint 1 1", 2),
        ("3 3 1 1\nleft 2 2", 2),
        ("3 3 1 1\nbelow 1 1\nright 01 1\nleft 1 1", 3),
        ("3 3 1 1\npaint", 2),
    ];
    for (text, line) in cases {
        assert_eq!(rt; bad_line(rt.alloc(), text), line, "{text}");
    }
}

#[test]
fn row_of_three_is_walked_against_its_walls(rt: HostRuntime) -> Result<(), Fail> {
    let mut field = field_of(rt.alloc(), "3 1 1 1")?;
    let steps = [
        (RobotCommand::Up, Reply::Wall),
        (RobotCommand::Down, Reply::Wall),
        (RobotCommand::Left, Reply::Wall),
        (RobotCommand::RightFree, Reply::Yes),
        (RobotCommand::Right, Reply::Done),
        (RobotCommand::Right, Reply::Done),
        (RobotCommand::RightFree, Reply::No),
        (RobotCommand::Right, Reply::Wall),
    ];
    for (command, reply) in steps {
        assert_eq!(rt; field.act(command), reply, "{command:?}");
    }
    assert_eq!(rt; field.place(), (3, 1));
    Ok(())
}

#[test]
fn inner_walls_are_seen_from_both_cells(rt: HostRuntime) -> Result<(), Fail> {
    let walls = "3 3 2 2\nright 1 2\nright 2 2\nbelow 2 1\nbelow 2 2\npaint 1 2";
    let mut field = field_of(rt.alloc(), walls)?;
    for command in [
        RobotCommand::AboveWall,
        RobotCommand::BelowWall,
        RobotCommand::LeftWall,
        RobotCommand::RightWall,
        RobotCommand::CellClean,
    ] {
        assert_eq!(rt; field.act(command), Reply::Yes, "{command:?}");
    }
    let around = [
        ("1 2", RobotCommand::RightWall, RobotCommand::LeftWall),
        ("3 2", RobotCommand::LeftWall, RobotCommand::RightWall),
        ("2 1", RobotCommand::BelowWall, RobotCommand::AboveWall),
        ("2 3", RobotCommand::AboveWall, RobotCommand::BelowWall),
    ];
    for (cell, inner, border) in around {
        let text = format!(in rt.alloc();
            "3 3 {cell}\nright 1 2\nright 2 2\nbelow 2 1\nbelow 2 2\npaint 1 2"
        )?;
        let mut field = field_of(rt.alloc(), &text)?;
        assert_eq!(rt; field.act(inner), Reply::Yes, "{cell}");
        assert_eq!(rt; field.act(border), Reply::Yes, "{cell}");
        let painted = if cell == "1 2" { Reply::Yes } else { Reply::No };
        assert_eq!(rt; field.act(RobotCommand::CellPainted), painted, "{cell}");
    }
    Ok(())
}

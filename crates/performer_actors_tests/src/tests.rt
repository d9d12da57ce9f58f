use crate::side::{Step, Told};
use crate::{pen_stories, robot_stories};
use performer_kit::{Command, PenCommand, Reply, RobotCommand, Segment};
use std::test::*;

const DOWN: RobotCommand = RobotCommand::Down;

const ROBOT_DOWN: Command = Command::Robot(DOWN);

const THREE_STEPS: [Step<RobotCommand>; 5] = [
    Step::Begin(1),
    Step::Act(1, 1, DOWN),
    Step::Act(1, 2, DOWN),
    Step::Act(1, 3, DOWN),
    Step::Close,
];

const THREE_TOLD: [Told; 3] = [
    (1, 1, ROBOT_DOWN, Reply::Done),
    (1, 2, ROBOT_DOWN, Reply::Done),
    (1, 3, ROBOT_DOWN, Reply::Done),
];

// Commands before a run, of another run, out of their order and repeated are dropped.
const STRAY_STEPS: [Step<RobotCommand>; 15] = [
    Step::Act(1, 1, DOWN),
    Step::Begin(1),
    Step::Act(2, 1, DOWN),
    Step::Act(1, 2, DOWN),
    Step::Act(1, 1, RobotCommand::Left),
    Step::Act(1, 1, DOWN),
    Step::Act(1, 2, DOWN),
    Step::Act(1, 3, RobotCommand::AboveFree),
    Step::Act(1, 4, RobotCommand::AboveWall),
    Step::Act(1, 5, RobotCommand::Paint),
    Step::Act(1, 6, RobotCommand::CellPainted),
    Step::Begin(7),
    Step::Act(1, 7, DOWN),
    Step::Act(7, 1, RobotCommand::AboveFree),
    Step::Close,
];

const STRAY_TOLD: [Told; 7] = [
    (1, 1, Command::Robot(RobotCommand::Left), Reply::Wall),
    (1, 2, ROBOT_DOWN, Reply::Done),
    (1, 3, Command::Robot(RobotCommand::AboveFree), Reply::Yes),
    (1, 4, Command::Robot(RobotCommand::AboveWall), Reply::No),
    (1, 5, Command::Robot(RobotCommand::Paint), Reply::Done),
    (1, 6, Command::Robot(RobotCommand::CellPainted), Reply::Yes),
    (7, 1, Command::Robot(RobotCommand::AboveFree), Reply::No),
];

#[test]
fn reports_wait_for_their_one_place(rt: HostRuntime) -> Result<(), Fail> {
    let steps = [
        Step::Begin(1),
        Step::Act(1, 1, DOWN),
        Step::Act(1, 2, DOWN),
        Step::Act(1, 3, DOWN),
    ];
    for idle in [1, 2, 10] {
        assert!(rt;
            robot_stories::notes_of_one_place(&rt, rt.alloc(), idle, &steps, &THREE_TOLD)?,
            "{idle} idle turns"
        );
    }
    Ok(())
}

#[test]
fn robot_acts_once_beside_a_slow_side(rt: HostRuntime) -> Result<(), Fail> {
    for most in [1, 2, 7] {
        assert!(rt;
            robot_stories::by_hand(&rt, rt.alloc(), most, &THREE_STEPS, &THREE_TOLD)?,
            "{most} turns"
        );
        assert!(rt;
            robot_stories::by_hand(&rt, rt.alloc(), most, &STRAY_STEPS, &STRAY_TOLD)?,
            "{most} turns"
        );
    }
    Ok(())
}

#[test]
fn robot_in_a_thread_of_its_own(rt: HostRuntime) -> Result<(), Fail> {
    for room in [1, 1, 1, 2, 64] {
        assert!(rt;
            robot_stories::in_threads(&rt, rt.alloc(), room, &STRAY_STEPS, &STRAY_TOLD)?,
            "room for {room}"
        );
    }
    Ok(())
}

const BY: PenCommand = PenCommand::By { dx: 1, dy: -2 };

const TO: PenCommand = PenCommand::To { x: 5, y: 5 };

const PEN_STEPS: [Step<PenCommand>; 11] = [
    Step::Act(1, 1, BY),
    Step::Begin(1),
    Step::Act(1, 1, PenCommand::Lower),
    Step::Act(1, 2, BY),
    Step::Act(1, 2, BY),
    Step::Act(1, 4, BY),
    Step::Act(2, 3, BY),
    Step::Act(1, 3, BY),
    Step::Begin(2),
    Step::Act(2, 1, TO),
    Step::Close,
];

const FIRST: Segment = Segment {
    x1: 0,
    y1: 0,
    x2: 1,
    y2: -2,
};

const SECOND: Segment = Segment {
    x1: 1,
    y1: -2,
    x2: 2,
    y2: -4,
};

const PEN_TOLD: [Told; 4] = [
    (1, 1, Command::Pen(PenCommand::Lower), Reply::Done),
    (1, 2, Command::Pen(BY), Reply::Drawn(FIRST)),
    (1, 3, Command::Pen(BY), Reply::Drawn(SECOND)),
    (2, 1, Command::Pen(TO), Reply::Done),
];

#[test]
fn draughtsman_acts_once_beside_a_slow_side(rt: HostRuntime) -> Result<(), Fail> {
    for most in [1, 2, 7] {
        assert!(rt;
            pen_stories::by_hand(&rt, rt.alloc(), most, &PEN_STEPS, &PEN_TOLD)?,
            "{most} turns"
        );
    }
    Ok(())
}

#[test]
fn draughtsman_in_a_thread_of_its_own(rt: HostRuntime) -> Result<(), Fail> {
    for room in [1, 1, 1, 2, 64] {
        assert!(rt;
            pen_stories::in_threads(&rt, rt.alloc(), room, &PEN_STEPS, &PEN_TOLD)?,
            "room for {room}"
        );
    }
    Ok(())
}

//! The Robot and its other side over links, in one thread and in two.

ghost use Rattle.std.specs.Prelude.{◌≡◌, ◌<◌, IfOk};
ghost use Rattle.performer_actors.specs.RobotLaw.{AreUnused, RobotEnded};

use crate::side::{Side, Step, Told, by_idle_turns, by_turns, reports_of};
use actor_kit::{NoGate, Note, RobotTask, drive};
use km_base::Memory;
use mail_link::{Receiver, Sender, link, settle};
use performer_actors::{RobotActor, RobotEnds};
use performer_kit::{Reply, RobotCommand};
use robot_field::Field;
use std::alloc::Global;
use std::sync::Wait;
use std::thread::{Threads, join_mut};

// The task of a step; its field is the usual one.
fn task(alloc: Global, step: Step<RobotCommand>) -> Result<RobotTask, Memory> {
    Ok(match step {
        Step::Begin(run) => RobotTask::Begin {
            run,
            field: Field::usual(alloc)?,
        },
        Step::Act(run, number, command) => RobotTask::Act {
            run,
            number,
            command,
        },
        Step::Close => RobotTask::Close,
    })
}

fn tasks_of(alloc: Global, steps: &[Step<RobotCommand>]) -> Result<Vec<RobotTask>, Memory> {
    let mut tasks = Vec::new(alloc);
    for step in steps.iter().rev() {
        tasks.push(task(alloc, *step)?)?;
    }
    Ok(tasks)
}

// The Robot's ends, and those of its other side.
#[derive(Drop)]
struct Links {
    robot: RobotEnds,
    tasks: Sender<RobotTask>,
    notes: Receiver<Note>,
    replies: Receiver<Reply>,
}

fn make_links(alloc: Global, room: usize, notes_room: usize) -> Result<Links, Memory>
    requires room { 0 < room }
    requires notes_room { 0 < notes_room }
    ensures tasks { IfOk result (λ l. l.robot.tasks.link ≡ l.tasks.link) }
    ensures notes { IfOk result (λ l. l.notes.link ≡ l.robot.notes.link) }
    ensures replies { IfOk result (λ l. l.replies.link ≡ l.robot.replies.link) }
    ensures unused { IfOk result (λ l. AreUnused l.robot) }
{
    let (tasks, tasks_out) = link(alloc, room)?;
    let (notes, notes_out) = link(alloc, notes_room)?;
    let (replies, replies_out) = link(alloc, room)?;
    Ok(Links {
        robot: RobotEnds {
            tasks: tasks_out,
            replies,
            notes,
        },
        tasks,
        notes: notes_out,
        replies: replies_out,
    })
}

// A Robot and its other side, over links with room for so many items.
fn pair(
    alloc: Global,
    room: usize,
    notes_room: usize,
    steps: &[Step<RobotCommand>],
    told: &[Told],
) -> Result<(RobotActor, Side<RobotTask>), Memory>
    requires room { 0 < room }
    requires notes_room { 0 < notes_room }
    ensures tasks { IfOk result (λ both. both.0.tasks.link ≡ both.1.tasks.link) }
    ensures notes { IfOk result (λ both. both.1.notes.link ≡ both.0.notes.link) }
    ensures replies { IfOk result (λ both. both.1.replies.link ≡ both.0.replies.link) }
{
    let later = tasks_of(alloc, steps)?;
    let reports = reports_of(alloc, told)?;
    let Links {
        robot,
        tasks,
        notes,
        replies,
    } = make_links(alloc, room, notes_room)?;
    let side = Side::new(tasks, notes, replies, later, reports, told.len());
    Ok((RobotActor::new(robot), side))
}

/// The Robot takes `most` turns for each one of its other side, over links of one place, until both have ended: whether
/// each command that should be told was told once and right.
pub fn by_hand<R: Wait>(
    rt: &R,
    alloc: Global,
    most: u32,
    steps: &[Step<RobotCommand>],
    told: &[Told],
) -> Result<bool, Memory> {
    let (mut robot, mut side) = pair(alloc, 1, 1, steps, told)?;
    Ok(by_turns(rt, &mut robot, &mut side, most))
}

/// A Robot with the tasks of the steps, of which there are at most four, whose notes have room for one. Each note is taken
/// once so many turns were idle: whether each command that should be told was told once and right, and no more.
pub fn notes_of_one_place<R: Wait>(
    rt: &R,
    alloc: Global,
    idle: u32,
    steps: &[Step<RobotCommand>],
    told: &[Told],
) -> Result<bool, Memory> {
    let (mut robot, mut side) = pair(alloc, 4, 1, steps, told)?;
    Ok(by_idle_turns(rt, &mut robot, &mut side, idle, steps.len(), told.len()))
}

fn beside<R: Threads + Wait + Sync>(rt: &R, robot: &mut RobotActor, side: &mut Side<RobotTask>)
    ensures robot_tasks { robot.new.tasks.link ≡ robot.old.tasks.link }
    ensures robot_notes { robot.new.notes.link ≡ robot.old.notes.link }
    ensures robot_replies { robot.new.replies.link ≡ robot.old.replies.link }
    ensures ended { RobotEnded robot.new }
    ensures side_tasks { side.new.tasks.link ≡ side.old.tasks.link }
    ensures side_notes { side.new.notes.link ≡ side.old.notes.link }
    ensures side_replies { side.new.replies.link ≡ side.old.replies.link }
{
    join_mut(
        rt,
        &mut || drive(rt, robot, &mut (), &NoGate),
        &mut || side.serve(rt),
    );
}

/// The Robot and its other side go on in two threads, over links with room for so many items: whether each command that
/// should be told was told once and right, and nothing is left on the links.
pub fn in_threads<R: Threads + Wait + Sync>(
    rt: &R,
    alloc: Global,
    room: usize,
    steps: &[Step<RobotCommand>],
    told: &[Told],
) -> Result<bool, Memory>
    requires { 0 < room }
{
    let (mut robot, mut side) = pair(alloc, room, room, steps, told)?;
    beside(rt, &mut robot, &mut side);
    let RobotEnds {
        tasks,
        replies,
        notes,
    } = robot.finish();
    let (tasks_in, notes_out, replies_out, right) = side.finish();
    let left = settle(rt, tasks_in, tasks)
        .max(settle(rt, notes, notes_out))
        .max(settle(rt, replies, replies_out));
    Ok(left == 0 && right)
}

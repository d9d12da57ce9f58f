//! The Draughtsman and its other side over links, in one thread and in two.

ghost use Rattle.std.specs.Prelude.{◌≡◌, ◌<◌, IfOk};
ghost use Rattle.performer_actors.specs.PenLaw.{AreUnused, PenEnded};

use crate::side::{Side, Step, Told, by_turns, reports_of};
use actor_kit::{NoGate, Note, PenTask, drive};
use km_base::Memory;
use mail_link::{Receiver, Sender, link, settle};
use performer_actors::{PenActor, PenEnds};
use performer_kit::{PenCommand, Reply};
use std::alloc::Global;
use std::sync::Wait;
use std::thread::{Threads, join_mut};

fn task(step: Step<PenCommand>) -> PenTask {
    match step {
        Step::Begin(run) => PenTask::Begin { run },
        Step::Act(run, number, command) => PenTask::Act {
            run,
            number,
            command,
        },
        Step::Close => PenTask::Close,
    }
}

fn tasks_of(alloc: Global, steps: &[Step<PenCommand>]) -> Result<Vec<PenTask>, Memory> {
    let mut tasks = Vec::new(alloc);
    for step in steps.iter().rev() {
        tasks.push(task(*step))?;
    }
    Ok(tasks)
}

// The Draughtsman's ends, and those of its other side. Nobody sends a reply.
#[derive(Drop)]
struct Links {
    pen: PenEnds,
    tasks: Sender<PenTask>,
    notes: Receiver<Note>,
    replies: Receiver<Reply>,
}

fn make_links(alloc: Global, room: usize) -> Result<Links, Memory>
    requires { 0 < room }
    ensures tasks { IfOk result (λ l. l.pen.tasks.link ≡ l.tasks.link) }
    ensures notes { IfOk result (λ l. l.notes.link ≡ l.pen.notes.link) }
    ensures unused { IfOk result (λ l. AreUnused l.pen) }
{
    let (tasks, tasks_out) = link(alloc, room)?;
    let (notes, notes_out) = link(alloc, room)?;
    let (_nobody, replies) = link(alloc, 1)?;
    Ok(Links {
        pen: PenEnds {
            tasks: tasks_out,
            notes,
        },
        tasks,
        notes: notes_out,
        replies,
    })
}

// A Draughtsman and its other side, over links with room for so many items.
fn pair(
    alloc: Global,
    room: usize,
    steps: &[Step<PenCommand>],
    told: &[Told],
) -> Result<(PenActor, Side<PenTask>), Memory>
    requires { 0 < room }
    ensures tasks { IfOk result (λ both. both.0.tasks.link ≡ both.1.tasks.link) }
    ensures notes { IfOk result (λ both. both.1.notes.link ≡ both.0.notes.link) }
{
    let later = tasks_of(alloc, steps)?;
    let reports = reports_of(alloc, told)?;
    let Links {
        pen,
        tasks,
        notes,
        replies,
    } = make_links(alloc, room)?;
    let side = Side::new(tasks, notes, replies, later, reports, 0);
    Ok((PenActor::new(pen), side))
}

/// The Draughtsman takes `most` turns for each one of its other side, over links of one place, until both have ended:
/// whether each command that should be told was told once and right, and no reply came.
pub fn by_hand<R: Wait>(
    rt: &R,
    alloc: Global,
    most: u32,
    steps: &[Step<PenCommand>],
    told: &[Told],
) -> Result<bool, Memory> {
    let (mut pen, mut side) = pair(alloc, 1, steps, told)?;
    Ok(by_turns(rt, &mut pen, &mut side, most) && side.replied == 0)
}

fn beside<R: Threads + Wait + Sync>(rt: &R, pen: &mut PenActor, side: &mut Side<PenTask>)
    ensures pen_tasks { pen.new.tasks.link ≡ pen.old.tasks.link }
    ensures pen_notes { pen.new.notes.link ≡ pen.old.notes.link }
    ensures ended { PenEnded pen.new }
    ensures side_tasks { side.new.tasks.link ≡ side.old.tasks.link }
    ensures side_notes { side.new.notes.link ≡ side.old.notes.link }
{
    join_mut(
        rt,
        &mut || drive(rt, pen, &mut (), &NoGate),
        &mut || side.serve(rt),
    );
}

/// The Draughtsman and its other side go on in two threads, over links with room for so many items: whether each command
/// that should be told was told once and right, and nothing is left on the links.
pub fn in_threads<R: Threads + Wait + Sync>(
    rt: &R,
    alloc: Global,
    room: usize,
    steps: &[Step<PenCommand>],
    told: &[Told],
) -> Result<bool, Memory>
    requires { 0 < room }
{
    let (mut pen, mut side) = pair(alloc, room, steps, told)?;
    beside(rt, &mut pen, &mut side);
    let PenEnds { tasks, notes } = pen.finish();
    let (tasks_in, notes_out, _replies, right) = side.finish();
    let left = settle(rt, tasks_in, tasks).max(settle(rt, notes, notes_out));
    Ok(left == 0 && right)
}

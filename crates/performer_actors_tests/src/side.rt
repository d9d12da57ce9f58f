//! The other side of a performer.

ghost use Rattle.std.specs.Prelude.{◌≡◌};

use actor_kit::{Actor, NoGate, Note, Turn};
use km_base::Memory;
use mail_link::{Full, Receiver, Sender};
use performer_kit::{Command, Reply, Report};
use std::alloc::Global;
use std::sync::Wait;
use std::thread;

/// A task, short.
#[derive(Clone, Copy)]
pub enum Step<C> {
    Begin(u32),
    Act(u32, u32, C),
    Close,
}

/// What should be told of a command: the run, its number in the run, the command and the reply.
pub type Told = (u32, u32, Command, Reply);

/// The reports that should come.
pub fn reports_of(alloc: Global, told: &[Told]) -> Result<Vec<Report>, Memory> {
    let mut reports = Vec::new(alloc);
    for (run, number, command, reply) in told {
        reports.push(Report {
            run: *run,
            number: *number,
            command: *command,
            reply: *reply,
        })?;
    }
    Ok(reports)
}

/// Sends the tasks, and holds what comes back against what should come: the reports, their replies, and `Gone`.
#[derive(Drop)]
pub struct Side<T> {
    pub tasks: Sender<T>,
    pub notes: Receiver<Note>,
    pub replies: Receiver<Reply>,
    /// The tasks that are still to be sent, the last first, and one that found no room.
    pub later: Vec<T>,
    pub due: Option<T>,
    /// The reports that should come.
    pub reports: Vec<Report>,
    /// How many replies should come.
    pub replies_due: usize,
    pub noted: usize,
    pub replied: usize,
    /// All that came is as it should be.
    pub right: bool,
    pub gone: bool,
}

impl<T: Send + Drop> Side<T> {
    /// Nothing was sent and nothing came yet. `later` has the tasks, the last first.
    pub fn new(
        tasks: Sender<T>,
        notes: Receiver<Note>,
        replies: Receiver<Reply>,
        later: Vec<T>,
        reports: Vec<Report>,
        replies_due: usize,
    ) -> Side<T>
        ensures tasks { result.tasks ≡ tasks }
        ensures notes { result.notes ≡ notes }
        ensures replies { result.replies ≡ replies }
    {
        Side {
            tasks,
            notes,
            replies,
            later,
            due: None,
            reports,
            replies_due,
            noted: 0,
            replied: 0,
            right: true,
            gone: false,
        }
    }

    /// Sends one task, if there is one and room for it.
    pub fn send<R: Wait>(&mut self, rt: &R)
        ensures tasks { self.new.tasks.link ≡ self.old.tasks.link }
        ensures notes { self.new.notes ≡ self.old.notes }
        ensures replies { self.new.replies ≡ self.old.replies }
    {
        let item = match self.due.take() {
            Some(item) => item,
            None => match self.later.pop() {
                Some(item) => item,
                None => return,
            },
        };
        if let Err(Full(item)) = self.tasks.post(rt, item) {
            self.due = Some(item);
        }
    }

    /// Takes one note, if there is one.
    pub fn hear<R: Wait>(&mut self, rt: &R)
        ensures tasks { self.new.tasks ≡ self.old.tasks }
        ensures notes { self.new.notes.link ≡ self.old.notes.link }
        ensures replies { self.new.replies ≡ self.old.replies }
    {
        let Some(note) = self.notes.take(rt) else {
            return;
        };
        let wanted = match self.reports.as_slice().get(self.noted) {
            Some(report) => Note::Report(*report),
            None => Note::Gone,
        };
        self.right = self.right && !self.gone && note == wanted;
        self.gone = note == Note::Gone;
        self.noted = self.noted.saturating_add(1);
    }

    // Takes one reply, if there is one.
    fn hear_reply<R: Wait>(&mut self, rt: &R)
        ensures tasks { self.new.tasks ≡ self.old.tasks }
        ensures notes { self.new.notes ≡ self.old.notes }
        ensures replies { self.new.replies.link ≡ self.old.replies.link }
    {
        let Some(reply) = self.replies.take(rt) else {
            return;
        };
        let wanted = self.reports.as_slice().get(self.replied);
        self.right = self.right && wanted.is_some_and(|report| report.reply == reply);
        self.replied = self.replied.saturating_add(1);
    }

    /// Sends a task, takes a note and takes a reply, as far as there is room and there is one. True once all came.
    pub fn turn<R: Wait>(&mut self, rt: &R) -> bool
        ensures tasks { self.new.tasks.link ≡ self.old.tasks.link }
        ensures notes { self.new.notes.link ≡ self.old.notes.link }
        ensures replies { self.new.replies.link ≡ self.old.replies.link }
    {
        self.send(rt);
        self.hear(rt);
        self.hear_reply(rt);
        self.gone && self.replied >= self.replies_due
    }

    /// Takes turns until all came.
    pub fn serve<R: Wait>(&mut self, rt: &R)
        ensures tasks { self.new.tasks.link ≡ self.old.tasks.link }
        ensures notes { self.new.notes.link ≡ self.old.notes.link }
        ensures replies { self.new.replies.link ≡ self.old.replies.link }
    {
        for _ in rt.forever() {
            if self.turn(rt) {
                return;
            }
            thread::yield_now();
        }
    }

    /// The ends, and whether all that came was right.
    pub fn finish(self) -> (Sender<T>, Receiver<Note>, Receiver<Reply>, bool)
        ensures tasks { result.0 ≡ self.tasks }
        ensures notes { result.1 ≡ self.notes }
        ensures replies { result.2 ≡ self.replies }
    {
        (self.tasks, self.notes, self.replies, self.right)
    }
}

/// The actor takes `most` turns for each one of its other side, until both have ended: whether they have, and all that came
/// was right.
pub fn by_turns<A: Actor<Outside = ()>, T: Send + Drop, R: Wait>(
    rt: &R,
    actor: &mut A,
    side: &mut Side<T>,
    most: u32,
) -> bool {
    for _ in 0..1_000 {
        for _ in 0..most {
            actor.turn(rt, &mut (), &NoGate);
        }
        if side.turn(rt) {
            break;
        }
    }
    actor.turn(rt, &mut (), &NoGate) == Turn::Ended && side.gone && side.right
}

// The actor takes turns until so many of them were idle.
fn idle_turns<A: Actor<Outside = ()>, R: Wait>(rt: &R, actor: &mut A, most: u32) {
    let mut idle = 0u32;
    for _ in 0..1_000 {
        if idle >= most {
            break;
        }
        if actor.turn(rt, &mut (), &NoGate) == Turn::Idle {
            idle = idle.saturating_add(1);
        }
    }
}

/// The other side sends so many tasks, and takes as often a note, each once so many turns of the actor were idle: whether as
/// many notes came as wanted, and all were right.
pub fn by_idle_turns<A: Actor<Outside = ()>, T: Send + Drop, R: Wait>(
    rt: &R,
    actor: &mut A,
    side: &mut Side<T>,
    idle: u32,
    count: usize,
    wanted: usize,
) -> bool {
    for _ in 0..count {
        side.send(rt);
    }
    for _ in 0..count {
        idle_turns(rt, actor, idle);
        side.hear(rt);
    }
    side.right && side.noted == wanted
}

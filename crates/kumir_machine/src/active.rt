//! How a machine goes on.
ghost use Rattle.std.specs.Prelude.{◌≡◌, ◌≤◌};
ghost use Rattle.machine_steps.specs.Frames.{AllValid};
ghost use Rattle.machine_steps.specs.Stages.{full_state_of, IsStage, AsksNext};
ghost use Rattle.kumir_machine.specs.ActiveRuns.{phase_at, answer_at, phase_after, answer_after, Goes, AfterReply, Moves, IsAt};

use crate::answer::Advanced;
use km_base::Memory;
use kumir_values::EndKind;
use machine_steps::{Question, Reached, Stage, run_steps, take_reply};
use performer_kit::{Command, PenCommand, Reply};
use stack_code::CodeUnit;
use std::alloc::Global;

/// What a machine is at between two calls.
#[derive(Clone, Copy)]
pub enum Phase {
    /// The run goes on.
    Ready,
    /// The Robot's reply is owed.
    OwesRobot(Question),
    /// The Robot's reply is there and was not carried out.
    Replied(Question, Reply),
    /// The Draughtsman's reply is owed.
    OwesPen(PenCommand),
    /// The run is over.
    Over(EndKind),
    /// Memory was wanted.
    Failed,
}

/// A run that goes on.
#[derive(Drop)]
pub struct ActiveRun {
    pub stage: Stage,
    /// How many steps were taken.
    pub steps: u32,
    pub phase: Phase,
}

/// What a machine is at, and what it answers.
#[derive(Drop)]
struct Turn {
    phase: Phase,
    answer: Advanced,
}

/// What is answered where a run came to something.
fn turn_at(reached: Reached) -> Turn
    ensures phase { result.phase ≡ phase_at reached }
    ensures answer { result.answer ≡ answer_at reached }
{
    match reached {
        Reached::Printed(text) => Turn {
            phase: Phase::Ready,
            answer: Advanced::Out(text),
        },
        Reached::Told(command) => Turn {
            phase: Phase::OwesPen(command),
            answer: Advanced::Command(Command::Pen(command)),
        },
        Reached::Asks(question) => Turn {
            phase: Phase::OwesRobot(question),
            answer: Advanced::Command(Command::Robot(question.command)),
        },
        Reached::Over(end) => Turn {
            phase: Phase::Over(end),
            answer: Advanced::Ended(end),
        },
        Reached::Paused => Turn {
            phase: Phase::Ready,
            answer: Advanced::Paused,
        },
        Reached::Spent => Turn {
            phase: Phase::Over(EndKind::Steps),
            answer: Advanced::Ended(EndKind::Steps),
        },
    }
}

/// What is answered where a run came to something or memory was wanted.
fn turn_after(came: Result<Reached, Memory>) -> Turn
    ensures phase { result.phase ≡ phase_after came }
    ensures answer { result.answer ≡ answer_after came }
{
    match came {
        Ok(reached) => turn_at(reached),
        Err(Memory) => Turn {
            phase: Phase::Failed,
            answer: Advanced::Memory,
        },
    }
}

/// Takes steps, and answers what they led to.
fn go_on(alloc: Global, units: &[CodeUnit], run: &mut ActiveRun, budget: u32, most: u32) -> Advanced
    requires valid { AllValid units.now }
    requires stage { IsStage units.now run.old.stage }
    requires within { run.old.steps ≤ budget }
    ensures goes { Goes units.now budget most (full_state_of units.now run.old.stage) run.old.steps result run.new }
    ensures inputs { run.new.stage.inputs ≡ run.old.stage.inputs }
{
    let came = run_steps(alloc, units, &mut run.stage, &mut run.steps, budget, most);
    let turn = turn_after(came);
    run.phase = turn.phase;
    turn.answer
}

/// Carries the Robot's reply out, and goes on.
fn go_on_behind(
    alloc: Global,
    units: &[CodeUnit],
    run: &mut ActiveRun,
    question: Question,
    reply: Reply,
    budget: u32,
    most: u32,
) -> Advanced
    requires valid { AllValid units.now }
    requires stage { IsStage units.now run.old.stage }
    requires asks { AsksNext units.now question (full_state_of units.now run.old.stage) }
    requires within { run.old.steps ≤ budget }
    ensures goes { AfterReply units.now budget most run.old question reply result run.new }
    ensures inputs { run.new.stage.inputs ≡ run.old.stage.inputs }
{
    match take_reply(units, &mut run.stage, question, reply) {
        Ok(None) => go_on(alloc, units, run, budget, most),
        Ok(Some(end)) => {
            run.phase = Phase::Over(end);
            Advanced::Ended(end)
        }
        Err(Memory) => {
            run.phase = Phase::Failed;
            Advanced::Memory
        }
    }
}

/// What is answered next.
pub fn move_on(
    alloc: Global,
    units: &[CodeUnit],
    run: &mut ActiveRun,
    budget: u32,
    most: u32,
) -> Advanced
    requires valid { AllValid units.now }
    requires phase { IsAt units.now run.old.phase run.old.stage }
    requires within { run.old.steps ≤ budget }
    ensures moves { Moves units.now budget most run.old.phase run.old result run.new }
    ensures inputs { run.new.stage.inputs ≡ run.old.stage.inputs }
{
    match run.phase {
        Phase::Ready => go_on(alloc, units, run, budget, most),
        Phase::OwesRobot(_) | Phase::OwesPen(_) => Advanced::AwaitReply,
        Phase::Replied(question, reply) => {
            go_on_behind(alloc, units, run, question, reply, budget, most)
        }
        Phase::Over(end) => Advanced::Ended(end),
        Phase::Failed => Advanced::Memory,
    }
}

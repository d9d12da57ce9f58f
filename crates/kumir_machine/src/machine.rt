//! The machine.
ghost use Rattle.std.specs.Prelude.{◌≡◌, ◌≤◌, ◌+◌, Some, IfOk};
ghost use Rattle.std.specs.Arc.{arc_value};
ghost use Rattle.kumir_machine.specs.Course.{Course, begun, owes, IsOwed, replied, advanced, Stays, AnswersNext, NeedsAll, IsWhole, IsLawful};
ghost use Rattle.kumir_meaning.specs.Runs as state;
ghost use Rattle.kumir_machine.specs.declared.answer.Advanced.TheVariants as answer;

use crate::active::{ActiveRun, Phase, move_on};
use crate::answer::Advanced;
use km_base::{Memory, Noted};
use kumir_values::Values;
use machine_steps::begin_run;
use performer_kit::Reply;
use stack_code::Code;
use std::alloc::Global;
use std::marker::Model;
use std::sync::Arc;

/// A machine that carries out the run of a code, seen as its course.
#[derive(Drop)]
pub struct Machine {
    code: Arc<Code>,
    run: ActiveRun,
    budget: u32,
    /// The Robot's replies, which take no bytes.
    replies: Noted<Reply>,
    /// What was answered, which takes no bytes.
    answers: Noted<Advanced>,
}

impl Model for Machine {
    ghost use Rattle.std.specs.Arc.{arc_value};
    ghost use Rattle.kumir_machine.specs.Course.{Course};
    ghost use Rattle.kumir_machine.specs.Phases.{course_of, IsMachine};

    ghost Value = { Course };

    ghost view = { λ m. course_of (arc_value m.code) m.budget m.run m.replies m.answers };

    ghost invariant = { λ m. IsMachine (course_of (arc_value m.code) m.budget m.run m.replies m.answers) m.run };
}

impl Machine {
    /// A machine at the begin of the run of a code on these inputs, which may take so many steps. `Memory` where memory is wanted.
    pub fn new(
        alloc: Global,
        code: Arc<Code>,
        inputs: Values,
        budget: u32,
    ) -> Result<Machine, Memory>
        requires entry { (arc_value code).entry ≡ None → ⊥ }
        requires budget { budget ≤ 100000000 }
        ensures { IfOk result (λ machine. machine ≡ begun (arc_value code) inputs budget) }
    {
        let Some(entry) = code.entry() else {
            unreachable!()
        };
        let stage = begin_run(alloc, code.units().as_slice(), entry, inputs)?;
        Ok(Machine {
            code,
            run: ActiveRun {
                stage,
                steps: 0,
                phase: Phase::Ready,
            },
            budget,
            replies: Noted::new(),
            answers: Noted::new(),
        })
    }

    /// How many steps were taken.
    pub fn steps(&self) -> u32
        ensures { result ≡ self.now.steps }
    {
        self.run.steps
    }

    /// Whether the reply to a command is owed.
    pub fn awaits(&self) -> bool
        ensures { result ≡ owes self.now.condition }
    {
        matches!(self.run.phase, Phase::OwesRobot(_) | Phase::OwesPen(_))
    }

    /// Gives the reply to the last command.
    pub fn give(&mut self, reply: Reply)
        requires owed { IsOwed self.old.condition reply }
        ensures replied { self.new ≡ replied self.old reply }
        ensures lawful { IsLawful self.new }
    {
        match self.run.phase {
            Phase::OwesRobot(question) => {
                self.replies.note(&reply);
                self.run.phase = Phase::Replied(question, reply);
            }
            Phase::OwesPen(_) => self.run.phase = Phase::Ready,
            Phase::Ready | Phase::Replied(_, _) | Phase::Over(_) | Phase::Failed => unreachable!(),
        }
    }

    /// Goes on until there is something to answer, by at most so many steps. An end for want of steps comes at the budget:
    /// that follows from `advanced` and `lawful` (`budget_is_spent`). That a pause has all acts of the run so far follows
    /// from `next`, as each run has a trace (`valid_code_has_a_trace`).
    pub fn advance(&mut self, alloc: Global, most_steps: u32) -> Advanced
        requires some { 1 ≤ most_steps }
        ensures advanced { self.new ≡ advanced self.old result self.new.steps }
        ensures stays { Stays self.old result self.new.steps }
        ensures next { AnswersNext self.old most_steps result }
        ensures exact { NeedsAll self.old self.new.steps }
        ensures lawful { IsLawful self.new }
        ensures rise { self.old.steps ≤ self.new.steps }
        ensures few { self.new.steps ≤ self.old.steps + most_steps }
        ensures paused { result ≡ answer.Paused → (self.new.steps ≡ self.old.steps + most_steps) × IsWhole state.Going self.new }
    {
        let answer = move_on(
            alloc,
            self.code.units().as_slice(),
            &mut self.run,
            self.budget,
            most_steps,
        );
        self.answers.note(&answer);
        answer
    }
}

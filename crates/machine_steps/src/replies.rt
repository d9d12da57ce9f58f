//! The reply to a command of the Robot.
ghost use Rattle.std.specs.Prelude.{◌≡◌, ◌∷◌, ◌+◌, ◌<◌, ◌^◌, true, false, IfOk, IfNone, OnOk};
ghost use Rattle.kumir_meaning.specs.Runs.{reply_value, is_wall};
ghost use Rattle.machine_steps.specs.Frames.{AllValid, IsEntered};
ghost use Rattle.machine_steps.specs.Stages.{full_state_of, IsStage, AsksNext};
ghost use Rattle.machine_steps.specs.Replying.{IsAtLine, with_reply_value, Answers};

use crate::running::Running;
use crate::stage::{Question, Stage};
use km_base::Memory;
use kumir_values::{EndKind, Value};
use performer_kit::Reply;
use stack_code::{CodeUnit, line_at};
use std::alloc::AllocError;

/// What a test gives.
fn value_of(reply: Reply) -> Value
    ensures { result ≡ reply_value reply }
{
    Value::Truth(matches!(reply, Reply::Yes))
}

/// Whether the Robot met a wall.
fn met_wall(reply: Reply) -> bool
    ensures { result ≡ is_wall reply }
{
    matches!(reply, Reply::Wall)
}

/// Goes behind a command, whose value, if it gives one, is pushed.
fn go_behind(
    units: &[CodeUnit],
    running: &mut Running,
    value: Option<Value>,
) -> Result<(), AllocError>
    requires entered { IsEntered units.now running.old }
    requires there { IsAtLine units.now running.old }
    ensures { OnOk result (running.new ≡ with_reply_value running.old value) }
{
    let unit = &units[running.unit as usize];
    let Some(_) = line_at(unit.body.as_slice(), running.pc) else {
        unreachable!()
    };
    if let Some(value) = value {
        running.operands.push(value)?;
    }
    running.pc += 1;
    Ok(())
}

/// Carries out the reply to the command of the Robot that stands next: a test gives its value, and the run goes on behind the command; or the run is over at a wall.
pub fn take_reply(
    units: &[CodeUnit],
    stage: &mut Stage,
    question: Question,
    reply: Reply,
) -> Result<Option<EndKind>, Memory>
    requires valid { AllValid units.now }
    requires stage { IsStage units.now stage.old }
    requires asks { AsksNext units.now question (full_state_of units.now stage.old) }
    ensures answers { IfOk result (λ end. Answers units.now (full_state_of units.now stage.old) question reply end (full_state_of units.now stage.new)) }
    ensures stage { IfOk result (λ end. IfNone end (IsStage units.now stage.new)) }
    ensures inputs { stage.new.inputs ≡ stage.old.inputs }
{
    if question.command.is_test() {
        go_behind(units, &mut stage.running, Some(value_of(reply)))?;
        return Ok(None);
    }
    if met_wall(reply) {
        return Ok(Some(EndKind::Wall {
            line: question.line,
        }));
    }
    go_behind(units, &mut stage.running, None)?;
    Ok(None)
}

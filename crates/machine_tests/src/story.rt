//! What a machine tells, as a text.
ghost use Rattle.std.specs.Prelude.{◌≡◌, ◌≤◌};
ghost use Rattle.performer_kit.specs.declared.commands.Command.TheVariants.{Robot};
ghost use Rattle.kumir_machine.specs.Course.{CanHave, Owes};
ghost use Rattle.performer_kit.specs.declared.commands.Command.{Command};

use code_samples::shared;
use km_base::Memory;
use kumir_machine::{Advanced, Machine};
use kumir_tree::Chars;
use kumir_values::{Value, Values};
use performer_kit::{Command, Reply, RobotCommand};
use sqlite_items::Items;
use stack_code::{Code, CodeUnits, valid};
use std::alloc::{AllocError, Global};
use std::fmt::Write;

/// What is given to a machine. A command has its best reply, or its other one, as told for each.
#[derive(Clone, Copy)]
pub struct Given {
    pub inputs: &'static [Value],
    pub replies: &'static [bool],
    pub budget: u32,
    pub most: u32,
}

fn robot_reply(command: RobotCommand, best: bool) -> Reply
    ensures { CanHave (Robot command) result }
{
    match command {
        RobotCommand::Up | RobotCommand::Down | RobotCommand::Left | RobotCommand::Right => {
            if best { Reply::Done } else { Reply::Wall }
        }
        RobotCommand::Paint => Reply::Done,
        RobotCommand::AboveFree
        | RobotCommand::BelowFree
        | RobotCommand::LeftFree
        | RobotCommand::RightFree
        | RobotCommand::AboveWall
        | RobotCommand::BelowWall
        | RobotCommand::LeftWall
        | RobotCommand::RightWall
        | RobotCommand::CellPainted
        | RobotCommand::CellClean => { if best { Reply::Yes } else { Reply::No } }
    }
}

/// A reply that the command can have.
fn reply_to(command: Command, best: bool) -> Reply
    ensures { CanHave command result }
{
    match command {
        Command::Robot(command) => robot_reply(command, best),
        Command::Pen(_) => Reply::Done,
    }
}

fn tell(told: &mut String, text: &Chars) -> Result<(), AllocError> {
    for c in text.as_slice() {
        told.push(*c)?;
    }
    Ok(())
}

fn values(alloc: Global, values: &[Value]) -> Result<Values, AllocError> {
    let mut list = Items::new(alloc);
    for value in values {
        list.push(*value)?;
    }
    Ok(list)
}

/// Whether the machine still awaits a reply when it is asked again.
fn still_awaits(alloc: Global, machine: &mut Machine, most: u32) -> bool
    requires most { 1 ≤ most }
    ensures owes { (c : Command) → machine.old.condition ≡ Owes c → machine.new.condition ≡ Owes c }
{
    let again = machine.advance(alloc, most);
    matches!(again, Advanced::AwaitReply) && machine.awaits()
}

/// Gives the reply to the command, if there is one left.
fn answer(
    alloc: Global,
    machine: &mut Machine,
    command: Command,
    best: Option<bool>,
    told: &mut String,
    most: u32,
) -> Result<bool, AllocError>
    requires most { 1 ≤ most }
    requires owed { machine.old.condition ≡ Owes command }
{
    write!(told, "<{command:?}>")?;
    if !still_awaits(alloc, machine, most) {
        told.push('!')?;
    }
    match best {
        Some(best) => {
            machine.give(reply_to(command, best));
            Ok(true)
        }
        None => {
            told.push('?')?;
            Ok(false)
        }
    }
}

/// One call: whether the machine goes on.
fn one_call(
    alloc: Global,
    machine: &mut Machine,
    best: Option<bool>,
    told: &mut String,
    most: u32,
) -> Result<Turn, Memory>
    requires most { 1 ≤ most }
{
    match machine.advance(alloc, most) {
        Advanced::Out(text) => {
            tell(told, &text)?;
            Ok(Turn::On)
        }
        Advanced::Command(command) => {
            if answer(alloc, machine, command, best, told, most)? {
                Ok(Turn::Replied)
            } else {
                Ok(Turn::Over)
            }
        }
        Advanced::Paused => {
            let steps = machine.steps();
            write!(told, " {steps}..")?;
            Ok(Turn::On)
        }
        Advanced::Ended(end) => {
            let steps = machine.steps();
            write!(told, " {end:?} {steps}")?;
            Ok(Turn::Over)
        }
        Advanced::AwaitReply | Advanced::Memory => Err(Memory),
    }
}

/// What a call of the machine led to.
enum Turn {
    On,
    Replied,
    Over,
}

/// A machine at the begin of the code, where the code is valid.
fn machine_of(alloc: Global, units: CodeUnits, given: Given) -> Result<Option<Machine>, Memory>
    requires budget { given.budget ≤ 100000000 }
{
    if !valid(alloc, &units, Some(0))? {
        return Ok(None);
    }
    let code = shared(alloc, Code::new(units, Some(0)))?;
    let inputs = values(alloc, given.inputs)?;
    let machine = Machine::new(alloc, code, inputs, given.budget)?;
    Ok(Some(machine))
}

/// Calls the machine until it is over, or for 2,000 calls.
fn go_on(
    alloc: Global,
    machine: &mut Machine,
    given: Given,
    told: &mut String,
) -> Result<(), Memory>
    requires most { 1 ≤ given.most }
{
    let mut replied: usize = 0;
    for _ in 0..2000 {
        let best = given.replies.get(replied).copied();
        match one_call(alloc, machine, best, told, given.most)? {
            Turn::On => {}
            Turn::Replied => replied = replied.saturating_add(1),
            Turn::Over => return Ok(()),
        }
    }
    Ok(())
}

fn not_valid(alloc: Global) -> Result<String, Memory> {
    let mut told = String::new(alloc);
    told.push_str("not valid")?;
    Ok(told)
}

fn all_of(alloc: Global, mut machine: Machine, given: Given) -> Result<String, Memory>
    requires most { 1 ≤ given.most }
{
    let mut told = String::new(alloc);
    go_on(alloc, &mut machine, given, &mut told)?;
    Ok(told)
}

/// The outputs, the commands, the steps at each pause, and the end with its steps. `?` where the reply to a command is missing, `!` where a machine does not await the reply when it is asked again.
pub fn story(alloc: Global, units: CodeUnits, given: Given) -> Result<String, Memory>
    requires budget { given.budget ≤ 100000000 }
    requires most { 1 ≤ given.most }
{
    match machine_of(alloc, units, given)? {
        Some(machine) => all_of(alloc, machine, given),
        None => not_valid(alloc),
    }
}

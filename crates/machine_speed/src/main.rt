//! The time of a long run: a loop of as many turns as the argument tells, carried out by the machine.
#![tactic(auto)]

use code_samples::{body_of, on, program_of, shared, unit_of};
use km_base::Memory;
use kumir_machine::{Advanced, Machine};
use kumir_tree::{Chars, Kind};
use kumir_values::Value;
use sqlite_items::Items;
use stack_code::{Code, CodeUnits, Instruction, Shape, valid};
use std::alloc::{AllocError, Global};
use std::env;

const BUDGET: u32 = 100_000_000;

/// The slots: the number of a turn, the turns of the loop, the sum.
const SHAPES: [Shape; 3] = [
    Shape::Scalar(Kind::Whole),
    Shape::Hidden,
    Shape::Scalar(Kind::Whole),
];

/// `s := 0`, `нц для i от 1 до turns`, `s := mod(s + i, 1000)`, `кц`, `вывод s`
fn units_of(alloc: Global, turns: i32) -> Result<CodeUnits, AllocError> {
    let body = body_of(
        alloc,
        [
            on(1, Instruction::Push(Value::Whole(0))),
            on(1, Instruction::Store(2)),
            on(1, Instruction::Push(Value::Whole(1))),
            on(1, Instruction::Push(Value::Whole(turns))),
            on(1, Instruction::Push(Value::Whole(1))),
            on(1, Instruction::Turns(1)),
            on(1, Instruction::Step),
            on(1, Instruction::Next(1, Some(0), 16)),
            on(1, Instruction::Step),
            on(1, Instruction::Load(2)),
            on(1, Instruction::Load(0)),
            on(1, Instruction::Add),
            on(1, Instruction::Push(Value::Whole(1000))),
            on(1, Instruction::Mod),
            on(1, Instruction::Store(2)),
            on(1, Instruction::Jump(6)),
            on(1, Instruction::Load(2)),
            on(1, Instruction::Out),
            on(1, Instruction::Return),
        ],
    )?;
    program_of(alloc, unit_of(alloc, &SHAPES, 3, body)?)
}

fn machine_of(alloc: Global, turns: i32) -> Result<Option<Machine>, Memory> {
    let units = units_of(alloc, turns)?;
    if !valid(alloc, &units, Some(0))? {
        return Ok(None);
    }
    let code = shared(alloc, Code::new(units, Some(0)))?;
    let machine = Machine::new(alloc, code, Items::new(alloc), BUDGET)?;
    Ok(Some(machine))
}

/// The output, where the run prints one.
fn output_of(alloc: Global, machine: &mut Machine) -> Option<Chars> {
    match machine.advance(alloc, BUDGET) {
        Advanced::Out(text) => Some(text),
        _ => None,
    }
}

fn printed(alloc: Global, text: &Chars) -> Result<String, AllocError> {
    let mut line = String::new(alloc);
    for c in text.as_slice() {
        line.push(*c)?;
    }
    Ok(line)
}

/// How many turns the first argument tells; one where it tells none.
fn turns_of(rt: &HostRuntime) -> i32 {
    match env::args(rt) {
        Ok(arguments) => match arguments.skip(1).next() {
            Some(word) => word.parse().unwrap_or(1),
            None => 1,
        },
        Err(_) => 1,
    }
}

fn main(rt: HostRuntime) -> Result<(), Memory> {
    let alloc = rt.alloc();
    let Some(mut machine) = machine_of(alloc, turns_of(&rt))? else {
        return Ok(());
    };
    if let Some(text) = output_of(alloc, &mut machine) {
        let _ = rt.println(printed(alloc, &text)?);
    }
    Ok(())
}

//! One instruction of the algorithm that runs.
ghost use Rattle.std.specs.Prelude.{◌≡◌, ◌<◌, ◌+◌, ◌^◌, List, length, true, IfOk};
ghost use Rattle.kumir_meaning.specs.Runs.{usual};
ghost use Rattle.stack_code.specs.Instructions.{event_of};
ghost use Rattle.stack_code.specs.declared.unit.CodeUnit.{CodeUnit};
ghost use Rattle.machine_steps.specs.States.{state_of};
ghost use Rattle.machine_steps.specs.Acting.{Carries};
ghost use Rattle.machine_steps.specs.Local.{is_local, is_operator, FitsIn};

use crate::acted::Acted;
use crate::loops::{begin_times, begin_turns, next_turn};
use crate::plain::{
    apply, assert_top, clear, drop_top, jump, jump_on_no, load, negate_top, negate_truth, operate,
    push, store,
};
use crate::running::Running;
use crate::showing::{ask, print_line_feed, print_text, print_top};
use crate::tables::{fit, make, probe, put_element, take_element};
use km_base::Memory;
use kumir_names::BuiltIn;
use kumir_tree::Op;
use kumir_values::EndKind;
use stack_code::Instruction;
use std::alloc::Global;

/// Carries out an operator or a built-in algorithm on the operands on top.
fn compute(running: &mut Running, what: &Instruction, line: u32) -> Result<Acted, Memory>
    requires operator { is_operator what.now ≡ true }
    requires room { running.old.pc + 1 < 2 ^ 64 }
    ensures acts { IfOk result (λ acted. (units : List CodeUnit) → Carries (λ frames. event_of usual units what.now line (state_of running.old frames)) acted running.new) }
    ensures count { length running.new.slots ≡ length running.old.slots }
{
    match what {
        Instruction::Add => operate(running, Op::Plus, line),
        Instruction::Sub => operate(running, Op::Minus, line),
        Instruction::Mul => operate(running, Op::Times, line),
        Instruction::Pow => operate(running, Op::Power, line),
        Instruction::Neg => negate_top(running, line),
        Instruction::Div => apply(running, BuiltIn::Div, 2, line),
        Instruction::Mod => apply(running, BuiltIn::Mod, 2, line),
        Instruction::Abs => apply(running, BuiltIn::Iabs, 1, line),
        Instruction::Min => apply(running, BuiltIn::Imin, 2, line),
        Instruction::Max => apply(running, BuiltIn::Imax, 2, line),
        Instruction::Eq | Instruction::EqTruth => operate(running, Op::Equal, line),
        Instruction::Ne | Instruction::NeTruth => operate(running, Op::NotEqual, line),
        Instruction::Lt => operate(running, Op::Less, line),
        Instruction::Le => operate(running, Op::LessOrEqual, line),
        Instruction::Gt => operate(running, Op::Greater, line),
        Instruction::Ge => operate(running, Op::GreaterOrEqual, line),
        Instruction::Not => negate_truth(running, line),
        _ => unreachable!(),
    }
}

/// Carries out an instruction that concerns the algorithm that runs alone (docs/LANGUAGE.md, "Stack code"). `Memory` where memory is wanted.
pub fn carry_out(
    alloc: Global,
    running: &mut Running,
    what: &Instruction,
    line: u32,
) -> Result<Acted, Memory>
    requires local { is_local what.now ≡ true }
    requires room { running.old.pc + 1 < 2 ^ 64 }
    requires fits { FitsIn (length running.old.slots) what.now }
    ensures acts { IfOk result (λ acted. (units : List CodeUnit) → Carries (λ frames. event_of usual units what.now line (state_of running.old frames)) acted running.new) }
    ensures count { length running.new.slots ≡ length running.old.slots }
{
    match what {
        Instruction::Push(value) => push(running, *value),
        Instruction::Drop => drop_top(running),
        Instruction::Load(slot) => load(running, *slot, line),
        Instruction::Store(slot) => store(running, *slot),
        Instruction::Clear(slot) => clear(running, *slot),
        Instruction::Jump(place) => jump(running, *place),
        Instruction::JumpNo(place) => jump_on_no(running, *place),
        Instruction::Out => print_top(alloc, running),
        Instruction::OutText(text) => print_text(alloc, running, text),
        Instruction::OutLine => print_line_feed(alloc, running),
        Instruction::Assert => assert_top(running, line),
        Instruction::Quit => Ok(Acted::Over(EndKind::Quit)),
        Instruction::Elem(slot, count) => take_element(alloc, running, *slot, *count, line),
        Instruction::PutElem(slot, count) => put_element(alloc, running, *slot, *count, line),
        Instruction::Probe(slot, count) => probe(alloc, running, *slot, *count, line),
        Instruction::Make(slot, kind, count) => make(alloc, running, *slot, *kind, *count, line),
        Instruction::Fit(slot, count) => fit(alloc, running, *slot, *count, line),
        Instruction::Times(slot) => begin_times(running, *slot),
        Instruction::Turns(slot) => begin_turns(running, *slot, line),
        Instruction::Next(slot, variable, place) => next_turn(running, *slot, *variable, *place),
        Instruction::Ask(shape) => ask(running, *shape, line),
        Instruction::Step | Instruction::Input(_) | Instruction::Call(_, _) | Instruction::Return =>
            unreachable!(),
        _ => compute(running, what, line),
    }
}

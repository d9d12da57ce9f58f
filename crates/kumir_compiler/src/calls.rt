//! Calls: places, and the lines that need no expression.
ghost use Rattle.std.specs.Prelude.{◌≡◌, ◌+◌, [], ◌∷◌, ◌++◌, map, IfOk, OnOk};
ghost use Rattle.kumir_tree.specs.Seen.{tree, trees};
ghost use Rattle.kumir_tree.specs.Parts.{formal_of};
ghost use Rattle.kumir_meaning.specs.Expressions.{name_of};
ghost use Rattle.kumir_meaning.specs.Program.{callee_in};
ghost use Rattle.kumir_meaning.specs.Store.{Local};
ghost use Rattle.stack_code.specs.declared.instruction.Instruction.TheVariants as instruction;
ghost use Rattle.kumir_compiler.specs.Sites as code;
ghost use Rattle.kumir_compiler.specs.Sites.{on, slot};
ghost use Rattle.kumir_compiler.specs.ArgumentCode.{call_place, call_places, keep_code, kept_at, read_code, tree_place};
ghost use Rattle.kumir_compiler.specs.ExpressionCode.{built_in_code, call_code, enter_code};
ghost use Rattle.kumir_compiler.specs.PendingCode.{code_of};
ghost use Rattle.kumir_compiler.specs.SitesSeen.{site_of};

use crate::algorithms::Target;
use crate::kept::{kept_by, kept_slots, slot_behind};
use crate::pending::PendingLines;
use crate::put::{narrow, put};
use crate::site::{Site, hidden_slot, slot_of, target_of};
use km_base::Memory;
use kumir_names::BuiltIn;
use kumir_tree::{Expr, Mode, Name, Param};
use sqlite_items::Items;
use stack_code::{CallPlace, CallPlaces, CommandShape, Instruction};

/// The slot of the name that an expression is; that of the empty name where it is none.
#[tactic(auto, using(kumir_tree::proofs::Views::views))]
fn slot_named(site: &Site<'_, '_>, e: &Expr) -> Result<u32, Memory>
    ensures { IfOk result (λ n. n ≡ slot (site_of site.now) (Local (name_of (tree e.now)))) }
{
    match e {
        Expr::Named(x) => slot_of(site, x),
        Expr::Number(_)
        | Expr::Truth(_)
        | Expr::Result
        | Expr::Element(_, _)
        | Expr::Call(_, _)
        | Expr::Plus(_)
        | Expr::Minus(_)
        | Expr::Not(_)
        | Expr::Binary(_, _, _) => {
            let none = site.names.nameless();
            slot_of(site, &none)
        }
    }
}

/// The values that are popped into hidden slots.
fn put_keep(
    site: &Site<'_, '_>,
    first: u32,
    count: usize,
    out: &mut PendingLines,
) -> Result<(), Memory>
    ensures { OnOk result (code_of out.new
        ≡ keep_code count first (site_of site.now) ++ code_of out.old) }
{
    let mut at = count;
    while at > 0 {
        at -= 1;
        let slot = slot_behind(first, at)?;
        put(site, out, Instruction::Store(slot))?;
    }
    Ok(())
}

/// The values of hidden slots, the last slot first.
fn put_loads(
    site: &Site<'_, '_>,
    first: u32,
    count: usize,
    out: &mut PendingLines,
) -> Result<(), Memory>
    ensures { OnOk result (code_of out.new
        ≡ map (λ x. on (site_of site.now) (instruction.Load x)) (kept_at count first [])
        ++ code_of out.old) }
{
    for at in 0..count {
        let slot = slot_behind(first, at)?;
        put(site, out, Instruction::Load(slot))?;
    }
    Ok(())
}

/// The test of an element's indexes, and the hidden slots that keep them.
pub fn put_probe(
    site: &Site<'_, '_>,
    hidden: usize,
    x: &Name,
    count: usize,
    out: &mut PendingLines,
) -> Result<(), Memory>
    ensures { OnOk result (code_of out.new
        ≡ on (site_of site.now) (instruction.Probe (slot (site_of site.now) (Local x.now)) count)
        ∷ (keep_code count (code.hidden (site_of site.now) hidden) (site_of site.now)
        ++ code_of out.old)) }
{
    let first = hidden_slot(site, hidden)?;
    put_keep(site, first, count, out)?;
    let slot = slot_of(site, x)?;
    let count = narrow(count)?;
    put(site, out, Instruction::Probe(slot, count))
}

/// The value at a place that is fixed.
#[tactic(auto, using(kumir_tree::proofs::Views::views, crate::proofs::CodeInFront::joins))]
pub fn put_read(
    site: &Site<'_, '_>,
    hidden: usize,
    e: &Expr,
    out: &mut PendingLines,
) -> Result<(), Memory>
    ensures { OnOk result (code_of out.new
        ≡ read_code (tree e.now) (site_of site.now) hidden ++ code_of out.old) }
{
    match e {
        Expr::Element(x, indexes) => {
            let slot = slot_of(site, x)?;
            let count = narrow(indexes.len())?;
            put(site, out, Instruction::Elem(slot, count))?;
            let first = hidden_slot(site, hidden)?;
            put_loads(site, first, indexes.len(), out)
        }
        Expr::Number(_)
        | Expr::Truth(_)
        | Expr::Result
        | Expr::Named(_)
        | Expr::Call(_, _)
        | Expr::Plus(_)
        | Expr::Minus(_)
        | Expr::Not(_)
        | Expr::Binary(_, _, _) => {
            let slot = slot_named(site, e)?;
            put(site, out, Instruction::Load(slot))
        }
    }
}

/// A name or an element as a place.
#[tactic(auto, using(kumir_tree::proofs::Views::views))]
fn tree_place_of(site: &Site<'_, '_>, hidden: usize, e: &Expr) -> Result<CallPlace, Memory>
    ensures { IfOk result (λ place. place ≡ tree_place (tree e.now) (site_of site.now) hidden) }
{
    match e {
        Expr::Element(x, indexes) => {
            let slot = slot_of(site, x)?;
            let first = hidden_slot(site, hidden)?;
            let kept = kept_slots(site.program.alloc(), first, indexes.len())?;
            Ok(CallPlace::Element(slot, kept))
        }
        Expr::Number(_)
        | Expr::Truth(_)
        | Expr::Result
        | Expr::Named(_)
        | Expr::Call(_, _)
        | Expr::Plus(_)
        | Expr::Minus(_)
        | Expr::Not(_)
        | Expr::Binary(_, _, _) => { Ok(CallPlace::Slot(slot_named(site, e)?)) }
    }
}

/// What a parameter is given.
#[tactic(auto, using(kumir_tree::proofs::Views::views))]
fn place_of(
    site: &Site<'_, '_>,
    hidden: usize,
    param: &Param,
    e: &Expr,
) -> Result<CallPlace, Memory>
    ensures { IfOk result (λ place. place
        ≡ call_place (formal_of param.now).bounds (formal_of param.now).mode (tree e.now)
        (site_of site.now) hidden) }
{
    match &param.bounds {
        Some(_) => Ok(CallPlace::Table(slot_named(site, e)?)),
        None => match param.mode {
            Mode::Arg => Ok(CallPlace::Value),
            Mode::Res => tree_place_of(site, hidden, e),
            Mode::ArgRes => tree_place_of(site, hidden, e),
        },
    }
}

/// The places of a call. A number of hidden slots that does not fit its bits is answered as want of
/// memory.
fn places_of(
    site: &Site<'_, '_>,
    hidden: usize,
    params: &[Param],
    all: &[Expr],
) -> Result<CallPlaces, Memory>
    ensures { IfOk result (λ places. places
        ≡ call_places (trees all.now) (map formal_of params.now) (site_of site.now) hidden) }
{
    let mut places = Items::new(site.program.alloc());
    let mut kept = hidden;
    for at in 0..params.len().min(all.len()) {
        let place = place_of(site, kept, &params[at], &all[at])?;
        places.push(place)?;
        let Some(more) = kept.checked_add(kept_by(&params[at], &all[at])) else {
            return Err(Memory);
        };
        kept = more;
    }
    Ok(places)
}

/// A step and the call of a unit.
pub fn put_call(
    site: &Site<'_, '_>,
    hidden: usize,
    number: u32,
    params: &[Param],
    all: &[Expr],
    out: &mut PendingLines,
) -> Result<(), Memory>
    ensures { OnOk result (code_of out.new ≡ on (site_of site.now) instruction.Step
        ∷ on (site_of site.now) (instruction.Call number
        (call_places (trees all.now) (map formal_of params.now) (site_of site.now) hidden))
        ∷ code_of out.old) }
{
    let places = places_of(site, hidden, params, all)?;
    put(site, out, Instruction::Call(number, places))?;
    put(site, out, Instruction::Step)
}

/// The instruction of a built-in.
fn instruction_of(built_in: BuiltIn) -> Instruction
    ensures { result ≡ built_in_code built_in }
{
    match built_in {
        BuiltIn::Div => Instruction::Div,
        BuiltIn::Mod => Instruction::Mod,
        BuiltIn::Iabs => Instruction::Abs,
        BuiltIn::Imin => Instruction::Min,
        BuiltIn::Imax => Instruction::Max,
    }
}

/// A built-in, behind its numbers.
pub fn put_built_in(
    site: &Site<'_, '_>,
    built_in: BuiltIn,
    out: &mut PendingLines,
) -> Result<(), Memory>
    ensures { OnOk result (code_of out.new
        ≡ on (site_of site.now) (built_in_code built_in) ∷ code_of out.old) }
{
    put(site, out, instruction_of(built_in))
}

/// A step and a command.
pub fn put_ask(
    site: &Site<'_, '_>,
    command: CommandShape,
    out: &mut PendingLines,
) -> Result<(), Memory>
    ensures { OnOk result (code_of out.new ≡ on (site_of site.now) instruction.Step
        ∷ on (site_of site.now) (instruction.Ask command) ∷ code_of out.old) }
{
    put(site, out, Instruction::Ask(command))?;
    put(site, out, Instruction::Step)
}

/// A call without parentheses that gives a value.
#[tactic(auto, using(crate::proofs::CallsInFront::calls))]
pub fn put_named_call(site: &Site<'_, '_>, x: &Name, out: &mut PendingLines) -> Result<(), Memory>
    ensures { OnOk result (code_of out.new
        ≡ call_code (callee_in (site_of site.now).program x.now)
        (λ a. enter_code x.now [] (site_of site.now)) [] (site_of site.now) ++ code_of out.old) }
{
    match target_of(site, x) {
        Some(Target::Unit(number, _)) => {
            let places = Items::new(site.program.alloc());
            put(site, out, Instruction::Call(number, places))?;
            put(site, out, Instruction::Step)
        }
        Some(Target::BuiltIn(built_in)) => put_built_in(site, built_in, out),
        Some(Target::Robot(command)) => put_ask(site, CommandShape::Robot(command), out),
        Some(Target::Pen(_)) => Ok(()),
        None => Ok(()),
    }
}

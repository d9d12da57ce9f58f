//! The code of an algorithm.

ghost use Rattle.std.specs.Prelude.{◌≡◌, ◌∷◌, ◌++◌, ◌-◌, [], length, map, replicate, IfOk, OnOk};
ghost use Rattle.kumir_tree.specs.Parts.{formal_of};
ghost use Rattle.kumir_tree.specs.Units.{algorithm_of, some_claim};
ghost use Rattle.stack_code.specs.declared.instruction.Instruction.TheVariants as instruction;
ghost use Rattle.stack_code.specs.declared.unit.Shape.TheVariants.{Hidden};
ghost use Rattle.kumir_compiler.specs.Sites.{on, on_line};
ghost use Rattle.kumir_compiler.specs.StatementCode.{block_code};
ghost use Rattle.kumir_compiler.specs.UnitCode as code;
ghost use Rattle.kumir_compiler.specs.UnitCode.{algorithm_code, bounds_code, fits_code, param_slots, some_claim_code, unit_code};
ghost use Rattle.kumir_compiler.specs.PendingCode.{code_of};
ghost use Rattle.kumir_compiler.specs.AlgorithmsSeen.{program_seen, seen};
ghost use Rattle.kumir_compiler.specs.SitesSeen.{site_of};
ghost use Rattle.kumir_compiler.specs.UnitsSeen.{unit_names, IsAtHeader};

use crate::algorithms::Algorithms;
use crate::names::UnitNames;
use crate::pending::PendingLines;
use crate::placed::PlacedTree;
use crate::places::body_of;
use crate::put::{narrow, put};
use crate::simple::put_limits;
use crate::site::{Site, answer_slot, slot_of};
use crate::slots::{Slots, slots_of};
use crate::statements::{emit_block, emit_claim};
use km_base::Memory;
use kumir_tree::{Check, Param, UnitTree};
use sqlite_items::Items;
use stack_code::{CodeLine, CodeUnit, Instruction, ParamSlot, ParamSlots, Shape, Shapes};
use std::alloc::Global;

/// The site of the header of an algorithm with these names.
#[tactic(auto, using(crate::proofs::NamesBehind::parameters_first))]
fn header_site<'p, 'a>(
    program: &'a Algorithms<'p>,
    names: &'a UnitNames,
    algorithm: &PlacedTree<'_>,
) -> Result<Site<'p, 'a>, Memory>
    requires { names.now ≡ unit_names (seen algorithm.now) }
    ensures site { IfOk result (λ site.
        site_of site ≡ code.header_site (program_seen program.now) (seen algorithm.now)) }
    ensures names { IfOk result (λ site. IsAtHeader site (seen algorithm.now)) }
{
    let header = &algorithm.tree.header;
    let Some(line) = algorithm.first.checked_add(header.line) else {
        return Err(Memory);
    };
    Ok(Site {
        program,
        names,
        gives: header.gives,
        first: algorithm.first,
        line,
        locals: header.params.len(),
    })
}

// ---- lines

/// The test of the bounds of a parameter that is a table.
fn put_fit(site: &Site<'_, '_>, param: &Param, out: &mut PendingLines) -> Result<(), Memory>
    ensures { OnOk result (code_of out.new ≡ bounds_code (formal_of param.now).bounds
        (formal_of param.now).name (site_of site.now) ++ code_of out.old) }
{
    match &param.bounds {
        Some(bounds) => {
            let slot = slot_of(site, &param.name)?;
            let count = narrow(bounds.len())?;
            put(site, out, Instruction::Fit(slot, count))?;
            put_limits(site, 0, bounds.as_slice(), out)
        }
        None => Ok(()),
    }
}

/// The tests of the bounds of all parameters that are tables.
fn put_fits(site: &Site<'_, '_>, params: &[Param], out: &mut PendingLines) -> Result<(), Memory>
    ensures { OnOk result (code_of out.new
        ≡ fits_code (map formal_of params.now) (site_of site.now) ++ code_of out.old) }
{
    let mut at = params.len();
    while at > 0 {
        at -= 1;
        put_fit(site, &params[at], out)?;
    }
    Ok(())
}

/// `дано` or `надо`, where there is one.
fn put_claim(
    site: &Site<'_, '_>,
    claim: &Option<Check>,
    out: &mut PendingLines,
) -> Result<(), Memory>
    ensures { OnOk result (code_of out.new
        ≡ some_claim_code (some_claim claim.now) (site_of site.now) ++ code_of out.old) }
{
    match claim {
        Some(claim) => {
            let Some(line) = site.first.checked_add(claim.line) else {
                return Err(Memory);
            };
            let here = Site { line, ..*site };
            emit_claim(&here, &claim.condition, out)
        }
        None => Ok(()),
    }
}

/// `надо`, and then the return.
#[tactic(auto, using(crate::proofs::AlgorithmInFront::return_behind))]
fn put_return(site: &Site<'_, '_>, tree: &UnitTree, out: &mut PendingLines) -> Result<(), Memory>
    ensures { OnOk result (code_of out.new
        ≡ (some_claim_code (algorithm_of tree.now).wanted (site_of site.now)
        ++ (on (on_line (site_of site.now) (algorithm_of tree.now).close) instruction.Return ∷ []))
        ++ code_of out.old) }
{
    let Some(line) = site.first.checked_add(tree.close) else {
        return Err(Memory);
    };
    let close = Site { line, ..*site };
    put(&close, out, Instruction::Return)?;
    put_claim(site, &tree.wanted, out)
}

/// The body, where all names are local behind it.
#[tactic(auto, using(crate::proofs::NamesBehind::block_made))]
fn put_block(
    site: &Site<'_, '_>,
    algorithm: &PlacedTree<'_>,
    out: &mut PendingLines,
) -> Result<(), Memory>
    requires { IsAtHeader site.now (seen algorithm.now) }
    ensures { OnOk result (code_of out.new
        ≡ block_code (seen algorithm.now).algorithm.body (site_of site.now) 0 0 ++ code_of out.old) }
{
    let behind = Site {
        locals: site.names.count(),
        ..*site
    };
    let exit = out.count();
    emit_block(&behind, 0, exit, algorithm.tree.body.as_slice(), out)?;
    Ok(())
}

/// The lines of an algorithm: its formal bounds, `дано`, the body, `надо` and the return.
#[tactic(auto, using(crate::proofs::AlgorithmInFront::algorithm_made))]
fn put_algorithm(
    site: &Site<'_, '_>,
    algorithm: &PlacedTree<'_>,
    out: &mut PendingLines,
) -> Result<(), Memory>
    requires { IsAtHeader site.now (seen algorithm.now) }
    ensures { OnOk result (code_of out.new
        ≡ algorithm_code (seen algorithm.now) (site_of site.now) ++ code_of out.old) }
{
    let tree = algorithm.tree;
    put_return(site, tree, out)?;
    put_block(site, algorithm, out)?;
    put_claim(site, &tree.given, out)?;
    put_fits(site, tree.header.params.as_slice(), out)
}

// ---- slots

/// The slots that an instruction writes end before this one.
fn written_below(what: &Instruction) -> usize
    ensures { result ≡ code.written_below what.now }
{
    match what {
        Instruction::Store(slot) | Instruction::Times(slot) | Instruction::Turns(slot) => {
            *slot as usize + 1
        }
        _ => 0,
    }
}

/// The slots that the lines write end before this one.
fn all_written_below(body: &[CodeLine]) -> usize
    ensures { result ≡ code.all_written_below body.now }
{
    let mut below = 0;
    for line in body {
        below = written_below(&line.what).max(below);
    }
    below
}

/// So many hidden slots more.
#[tactic(auto, using(crate::proofs::SlotsAdded::one_more))]
fn add_hidden(shapes: &mut Shapes, count: usize) -> Result<(), Memory>
    ensures { OnOk result (shapes.new ≡ shapes.old ++ replicate count Hidden) }
{
    for _ in 0..count {
        shapes.push(Shape::Hidden)?;
    }
    Ok(())
}

/// How many of the slots that the lines write are hidden.
fn hidden_in(site: &Site<'_, '_>, body: &[CodeLine]) -> usize
    ensures { result ≡ code.all_written_below body.now - length (site_of site.now).variables }
{
    let behind_names = all_written_below(body).saturating_sub(site.names.count());
    match site.gives {
        Some(_) => behind_names.saturating_sub(1),
        None => behind_names,
    }
}

/// The parameters with their slots.
fn params_of(alloc: Global, site: &Site<'_, '_>, params: &[Param]) -> Result<ParamSlots, Memory>
    ensures { IfOk result (λ slots. slots ≡ param_slots (map formal_of params.now) (site_of site.now)) }
{
    let mut slots = Items::new(alloc);
    for param in params {
        slots.push(ParamSlot {
            mode: param.mode,
            slot: slot_of(site, &param.name)?,
        })?;
    }
    Ok(slots)
}

/// The slot of `знач`, where the algorithm has a kind.
fn some_answer_slot(site: &Site<'_, '_>) -> Result<Option<u32>, Memory>
    ensures { IfOk result (λ slot. slot ≡ code.answer_slot (site_of site.now).gives (site_of site.now)) }
{
    match site.gives {
        Some(_) => Ok(Some(answer_slot(site)?)),
        None => Ok(None),
    }
}

/// The code of an algorithm of the program. `Memory` also where a number of it does not fit its 32 bits.
pub fn code_of_unit(
    alloc: Global,
    program: &Algorithms<'_>,
    algorithm: &PlacedTree<'_>,
) -> Result<CodeUnit, Memory>
    ensures { IfOk result (λ unit. unit ≡ unit_code (program_seen program.now) (seen algorithm.now)) }
{
    let Slots { names, mut shapes } = slots_of(alloc, algorithm.tree)?;
    let site = header_site(program, &names, algorithm)?;
    let mut lines = PendingLines::new(alloc);
    put_algorithm(&site, algorithm, &mut lines)?;
    let body = body_of(alloc, lines)?;
    add_hidden(&mut shapes, hidden_in(&site, body.as_slice()))?;
    Ok(CodeUnit {
        slots: shapes,
        params: params_of(alloc, &site, algorithm.tree.header.params.as_slice())?,
        gives: some_answer_slot(&site)?,
        depth: narrow(body.len())?,
        body,
    })
}

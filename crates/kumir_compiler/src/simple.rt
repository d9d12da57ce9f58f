//! The code of statements without blocks. Code is made from its end on.
ghost use Rattle.std.specs.Prelude.{◌≡◌, ◌-◌, [], ◌∷◌, ◌++◌, length, map, OnOk, IfOk};
ghost use Rattle.kumir_tree.specs.Seen.{tree, trees, some_tree};
ghost use Rattle.kumir_tree.specs.Program as t;
ghost use Rattle.kumir_tree.specs.Parts.{place_of, places_of, shown_of, all_shown, limits_of, table_of, declares_of};
ghost use Rattle.kumir_names.specs.Variables.{declares};
ghost use Rattle.kumir_meaning.specs.Program.{callee_in, local_kind};
ghost use Rattle.kumir_meaning.specs.Store.{Local};
ghost use Rattle.stack_code.specs.declared.instruction.Instruction.TheVariants as instruction;
ghost use Rattle.kumir_compiler.specs.Sites.{jump, on, slot};
ghost use Rattle.kumir_compiler.specs.ExpressionCode.{limits_code, tree_code};
ghost use Rattle.kumir_compiler.specs.StatementCode.{aim_code, claim_code, declares_code, inputs_code, invoke_code, kind_or_whole, outputs_code, place_kind, store_code, stride_code, tables_code};
ghost use Rattle.kumir_compiler.specs.PendingCode.{code_of};
ghost use Rattle.kumir_compiler.specs.SitesSeen.{site_of};
ghost use Rattle.kumir_compiler.specs.BlocksPut.{PutsClosed};

use crate::algorithms::Target as Called;
use crate::calls::{put_ask, put_call};
use crate::expressions::{emit_arguments, emit_tree, emit_trees};
use crate::pending::{Pending, PendingLines};
use crate::put::{narrow, put, put_pending};
use crate::site::{Site, answer_slot, slot_of, target_of, variable_of};
use km_base::Memory;
use kumir_tree::{BoundExpr, Declared, Expr, Item, Kind, Name, TableName, Target};
use kumir_values::Value;
use stack_code::{CommandShape, Instruction};

/// The bounds of a table, one behind another.
pub fn put_limits(
    site: &Site<'_, '_>,
    hidden: usize,
    bounds: &[BoundExpr],
    out: &mut PendingLines,
) -> Result<(), Memory>
    ensures { OnOk result (code_of out.new
        ≡ limits_code (limits_of bounds.now) (site_of site.now) hidden ++ code_of out.old) }
{
    let mut at = bounds.len();
    while at > 0 {
        at -= 1;
        let bound = &bounds[at];
        emit_tree(site, hidden, &bound.high, out)?;
        emit_tree(site, hidden, &bound.low, out)?;
    }
    Ok(())
}

/// How many names are declared.
fn names_in(declared: &Declared) -> usize
    ensures { result ≡ length (declares (declares_of declared.now)) }
{
    match declared {
        Declared::Scalars(_, names) => names.len(),
        Declared::Tables(_, tables) => tables.len(),
    }
}

/// Scalars lose their values.
fn put_clears(site: &Site<'_, '_>, names: &[Name], out: &mut PendingLines) -> Result<(), Memory>
    ensures { OnOk result (code_of out.new ≡ map (λ x. on (site_of site.now)
        (instruction.Clear (slot (site_of site.now) (Local x)))) names.now ++ code_of out.old) }
{
    let mut at = names.len();
    while at > 0 {
        at -= 1;
        let slot = slot_of(site, &names[at])?;
        put(site, out, Instruction::Clear(slot))?;
    }
    Ok(())
}

/// A table is made.
fn put_table(
    site: &Site<'_, '_>,
    hidden: usize,
    kind: Kind,
    table: &TableName,
    out: &mut PendingLines,
) -> Result<(), Memory>
    ensures { OnOk result (code_of out.new
        ≡ limits_code (limits_of table.now.bounds) (site_of site.now) hidden
        ++ (on (site_of site.now) (instruction.Make (slot (site_of site.now) (Local table.now.name))
        kind (length (limits_of table.now.bounds))) ∷ code_of out.old)) }
{
    let slot = slot_of(site, &table.name)?;
    let bounds = narrow(table.bounds.len())?;
    put(site, out, Instruction::Make(slot, kind, bounds))?;
    put_limits(site, hidden, table.bounds.as_slice(), out)
}

/// Tables are made, one after another.
fn put_tables(
    site: &Site<'_, '_>,
    hidden: usize,
    kind: Kind,
    tables: &[TableName],
    out: &mut PendingLines,
) -> Result<(), Memory>
    ensures { OnOk result (code_of out.new
        ≡ tables_code kind (map table_of tables.now) (site_of site.now) hidden ++ code_of out.old) }
{
    let mut at = tables.len();
    while at > 0 {
        at -= 1;
        put_table(site, hidden, kind, &tables[at], out)?;
    }
    Ok(())
}

/// What a declaration does.
fn put_declared(
    site: &Site<'_, '_>,
    hidden: usize,
    declared: &Declared,
    out: &mut PendingLines,
) -> Result<(), Memory>
    ensures { OnOk result (code_of out.new
        ≡ declares_code (declares_of declared.now) (site_of site.now) hidden ++ code_of out.old) }
{
    match declared {
        Declared::Scalars(_, names) => put_clears(site, names.as_slice(), out),
        Declared::Tables(kind, tables) => {
            put_tables(site, hidden, *kind, tables.as_slice(), out)
        }
    }
}

/// A declaration. The answer is how many names are local before it.
pub fn put_declare(
    site: &Site<'_, '_>,
    hidden: usize,
    declared: &Declared,
    out: &mut PendingLines,
) -> Result<usize, Memory>
    ensures { IfOk result (λ start. PutsClosed site.now start hidden
        (t.Declare (declares_of declared.now)) out.old out.new) }
{
    let locals = site.locals.saturating_sub(names_in(declared));
    let before = Site { locals, ..*site };
    put_declared(&before, hidden, declared, out)?;
    Ok(locals)
}

/// The indexes of what a value is given to.
fn put_aim(
    site: &Site<'_, '_>,
    hidden: usize,
    target: &Target,
    out: &mut PendingLines,
) -> Result<(), Memory>
    ensures { OnOk result (code_of out.new
        ≡ aim_code (place_of target.now) (site_of site.now) hidden ++ code_of out.old) }
{
    match target {
        Target::Result | Target::Scalar(_) => Ok(()),
        Target::Element(_, indexes) => emit_trees(site, hidden, indexes.as_slice(), out),
    }
}

/// The store of a value.
#[tactic(auto, using(kumir_tree::proofs::Views::views))]
fn put_store(site: &Site<'_, '_>, target: &Target, out: &mut PendingLines) -> Result<(), Memory>
    ensures { OnOk result (code_of out.new
        ≡ store_code (place_of target.now) (site_of site.now) ∷ code_of out.old) }
{
    match target {
        Target::Result => {
            let slot = answer_slot(site)?;
            put(site, out, Instruction::Store(slot))
        }
        Target::Scalar(x) => {
            let slot = slot_of(site, x)?;
            put(site, out, Instruction::Store(slot))
        }
        Target::Element(x, indexes) => {
            let slot = slot_of(site, x)?;
            let indexes = narrow(indexes.len())?;
            put(site, out, Instruction::PutElem(slot, indexes))
        }
    }
}

/// `:=`
#[tactic(auto, using(crate::proofs::CodeInFront::joins))]
pub fn put_assign(
    site: &Site<'_, '_>,
    hidden: usize,
    target: &Target,
    e: &Expr,
    out: &mut PendingLines,
) -> Result<(), Memory>
    ensures { OnOk result (code_of out.new ≡ (aim_code (place_of target.now) (site_of site.now) hidden
        ++ (tree_code (tree e.now) (site_of site.now) hidden
        ++ (store_code (place_of target.now) (site_of site.now) ∷ []))) ++ code_of out.old) }
{
    put_store(site, target, out)?;
    emit_tree(site, hidden, e, out)?;
    put_aim(site, hidden, target, out)
}

/// A call that stands alone. What stands for no algorithm and no command has no code.
#[tactic(auto, using(crate::proofs::CodeInFront::joins))]
pub fn put_invoke(
    site: &Site<'_, '_>,
    hidden: usize,
    name: &Name,
    arguments: &[Expr],
    out: &mut PendingLines,
) -> Result<(), Memory>
    ensures { OnOk result (code_of out.new
        ≡ invoke_code (callee_in (site_of site.now).program name.now) name.now (trees arguments.now)
        (site_of site.now) hidden ++ code_of out.old) }
{
    let Some(target) = target_of(site, name) else {
        return Ok(());
    };
    match target {
        Called::Unit(number, params) => {
            put_call(site, hidden, number, params.as_slice(), arguments, out)?;
            emit_arguments(site, hidden, params.as_slice(), arguments, out)
        }
        Called::BuiltIn(_) => Ok(()),
        Called::Robot(command) => put_ask(site, CommandShape::Robot(command), out),
        Called::Pen(shape) => {
            put_ask(site, CommandShape::Pen(shape), out)?;
            emit_trees(site, hidden, arguments, out)
        }
    }
}

/// The kind of a local name, or of whole numbers.
fn kind_named(site: &Site<'_, '_>, name: &Name) -> Kind
    ensures { result ≡ kind_or_whole (local_kind (site_of site.now).locals name.now) }
{
    match variable_of(site, name) {
        Some(variable) => variable.kind,
        None => Kind::Whole,
    }
}

/// The kind of an input.
fn kind_at(site: &Site<'_, '_>, target: &Target) -> Kind
    ensures { result ≡ kind_or_whole (place_kind (place_of target.now) (site_of site.now)) }
{
    match target {
        Target::Result => Kind::Whole,
        Target::Scalar(name) | Target::Element(name, _) => kind_named(site, name),
    }
}

/// An input.
fn put_input(
    site: &Site<'_, '_>,
    hidden: usize,
    target: &Target,
    out: &mut PendingLines,
) -> Result<(), Memory>
    ensures { OnOk result (code_of out.new ≡ aim_code (place_of target.now) (site_of site.now) hidden
        ++ (on (site_of site.now) (instruction.Input (kind_or_whole (place_kind (place_of target.now) (site_of site.now))))
        ∷ store_code (place_of target.now) (site_of site.now) ∷ code_of out.old)) }
{
    put_store(site, target, out)?;
    put(site, out, Instruction::Input(kind_at(site, target)))?;
    put_aim(site, hidden, target, out)
}

/// `ввод`
pub fn put_inputs(
    site: &Site<'_, '_>,
    hidden: usize,
    targets: &[Target],
    out: &mut PendingLines,
) -> Result<(), Memory>
    ensures { OnOk result (code_of out.new
        ≡ inputs_code (places_of targets.now) (site_of site.now) hidden ++ code_of out.old) }
{
    let mut at = targets.len();
    while at > 0 {
        at -= 1;
        put_input(site, hidden, &targets[at], out)?;
    }
    Ok(())
}

/// What is printed.
fn put_output(
    site: &Site<'_, '_>,
    hidden: usize,
    item: &Item,
    out: &mut PendingLines,
) -> Result<(), Memory>
    ensures { OnOk result (code_of out.new
        ≡ outputs_code (shown_of item.now ∷ []) (site_of site.now) hidden ++ code_of out.old) }
{
    match item {
        Item::Value(e) => {
            put(site, out, Instruction::Out)?;
            emit_tree(site, hidden, e, out)
        }
        Item::Literal(text) => {
            let text = text.copy(out.alloc())?;
            put(site, out, Instruction::OutText(text))
        }
        Item::NewLine => put(site, out, Instruction::OutLine),
    }
}

/// `вывод`
pub fn put_outputs(
    site: &Site<'_, '_>,
    hidden: usize,
    items: &[Item],
    out: &mut PendingLines,
) -> Result<(), Memory>
    ensures { OnOk result (code_of out.new
        ≡ outputs_code (all_shown items.now) (site_of site.now) hidden ++ code_of out.old) }
{
    let mut at = items.len();
    while at > 0 {
        at -= 1;
        put_output(site, hidden, &items[at], out)?;
    }
    Ok(())
}

/// The step of a loop that counts.
pub fn put_stride(
    site: &Site<'_, '_>,
    hidden: usize,
    step: &Option<Expr>,
    out: &mut PendingLines,
) -> Result<(), Memory>
    ensures { OnOk result (code_of out.new
        ≡ stride_code (some_tree step.now) (site_of site.now) hidden ++ code_of out.old) }
{
    match step {
        Some(e) => emit_tree(site, hidden, e, out),
        None => put(site, out, Instruction::Push(Value::Whole(1))),
    }
}

/// `выход`
pub fn put_leave(site: &Site<'_, '_>, exit: usize, out: &mut PendingLines) -> Result<(), Memory>
    ensures { OnOk result (code_of out.new
        ≡ jump (site_of site.now) (length out.old - exit) ∷ code_of out.old) }
{
    put_pending(site, out, Pending::Jump(out.count().saturating_sub(exit)))
}

/// A claim: its condition and the test of it; so many hidden slots are in use.
#[tactic(auto, using(crate::proofs::CodeInFront::joins))]
pub fn put_claim(
    site: &Site<'_, '_>,
    hidden: usize,
    e: &Expr,
    out: &mut PendingLines,
) -> Result<(), Memory>
    ensures { OnOk result (code_of out.new
        ≡ claim_code (tree e.now) (site_of site.now) hidden ++ code_of out.old) }
{
    put(site, out, Instruction::Assert)?;
    emit_tree(site, hidden, e, out)
}

//! The slots of an algorithm: first that of `знач`, then those of its names in the order of the text.

ghost use Rattle.std.specs.Prelude.{◌≡◌, ◌∷◌, ◌++◌, [], ◌+◌, length, map, IfOk, OnOk};
ghost use Rattle.kumir_tree.specs.Parts.{formal_of, table_of, declares_of};
ghost use Rattle.kumir_tree.specs.Units.{algorithm_of};
ghost use Rattle.kumir_tree.specs.Blocks.{act_of, arms_of, block_of};
ghost use Rattle.kumir_names.specs.Variables.{scalar, table, declares, parameter, parameters};
ghost use Rattle.kumir_meaning.specs.Program.{act_names, arm_names, block_names};
ghost use Rattle.stack_code.specs.declared.unit.Shape.TheVariants as shape;
ghost use Rattle.kumir_compiler.specs.UnitCode.{act_shapes, answer_shape, arm_shapes, block_shapes, declared_shapes, formal_shape};

use crate::names::UnitNames;
use crate::put::narrow;
use km_base::Memory;
use kumir_names::Variable;
use kumir_tree::{Case, Declared, Kind, Name, Param, Statement, TableName, UnitTree, What};
use sqlite_items::Items;
use stack_code::{Shape, Shapes};
use std::alloc::Global;

/// The names of an algorithm, and the shapes of the slots so far.
#[derive(Drop)]
pub struct Slots {
    pub names: UnitNames,
    pub shapes: Shapes,
}

/// One name more with its slot.
fn add_variable(
    alloc: Global,
    slots: &mut Slots,
    name: &Name,
    variable: Variable,
    shape: Shape,
) -> Result<(), Memory>
    ensures names { OnOk result (slots.new.names ≡ slots.old.names ++ (name.now, variable) ∷ []) }
    ensures shapes { OnOk result (slots.new.shapes ≡ slots.old.shapes ++ shape ∷ []) }
{
    slots.names.add(alloc, name, variable)?;
    slots.shapes.push(shape)?;
    Ok(())
}

fn add_scalars(alloc: Global, slots: &mut Slots, kind: Kind, names: &[Name]) -> Result<(), Memory>
    ensures names { OnOk result (slots.new.names ≡ slots.old.names ++ map (scalar kind) names.now) }
    ensures shapes { OnOk result (slots.new.shapes
        ≡ slots.old.shapes ++ map (λ x. shape.Scalar kind) names.now) }
{
    for name in names {
        let variable = Variable { kind, bounds: 0 };
        add_variable(alloc, slots, name, variable, Shape::Scalar(kind))?;
    }
    Ok(())
}

fn add_tables(
    alloc: Global,
    slots: &mut Slots,
    kind: Kind,
    tables: &[TableName],
) -> Result<(), Memory>
    ensures names { OnOk result (slots.new.names
        ≡ slots.old.names ++ map (table kind) (map table_of tables.now)) }
    ensures shapes { OnOk result (slots.new.shapes
        ≡ slots.old.shapes ++ map (λ x. shape.Table kind (length x.1)) (map table_of tables.now)) }
{
    for table in tables {
        let bounds = table.bounds.len();
        let shape = Shape::Table(kind, narrow(bounds)?);
        add_variable(alloc, slots, &table.name, Variable { kind, bounds }, shape)?;
    }
    Ok(())
}

fn add_declared(alloc: Global, slots: &mut Slots, declared: &Declared) -> Result<(), Memory>
    ensures names { OnOk result (slots.new.names ≡ slots.old.names ++ declares (declares_of declared.now)) }
    ensures shapes { OnOk result (slots.new.shapes
        ≡ slots.old.shapes ++ declared_shapes (declares_of declared.now)) }
{
    match declared {
        Declared::Scalars(kind, names) => add_scalars(alloc, slots, *kind, names.as_slice()),
        Declared::Tables(kind, tables) => add_tables(alloc, slots, *kind, tables.as_slice()),
    }
}

/// A parameter.
fn add_param(alloc: Global, slots: &mut Slots, param: &Param) -> Result<(), Memory>
    ensures names { OnOk result (slots.new.names ≡ slots.old.names ++ parameter (formal_of param.now) ∷ []) }
    ensures shapes { OnOk result (slots.new.shapes
        ≡ slots.old.shapes ++ formal_shape (formal_of param.now).kind (formal_of param.now).bounds ∷ []) }
{
    let kind = param.kind;
    match &param.bounds {
        Some(bounds) => {
            let bounds = bounds.len();
            let shape = Shape::Table(kind, narrow(bounds)?);
            add_variable(alloc, slots, &param.name, Variable { kind, bounds }, shape)
        }
        None => {
            let variable = Variable { kind, bounds: 0 };
            add_variable(alloc, slots, &param.name, variable, Shape::Scalar(kind))
        }
    }
}

fn add_params(alloc: Global, slots: &mut Slots, params: &[Param]) -> Result<(), Memory>
    ensures names { OnOk result (slots.new.names ≡ slots.old.names ++ parameters (map formal_of params.now)) }
    ensures shapes { OnOk result (slots.new.shapes
        ≡ slots.old.shapes ++ map (λ p. formal_shape p.kind p.bounds) (map formal_of params.now)) }
{
    for param in params {
        add_param(alloc, slots, param)?;
    }
    Ok(())
}

/// The names that are declared in a block, in whichever of its parts.
#[cycle(declared)]
fn add_block(alloc: Global, slots: &mut Slots, block: &[Statement]) -> Result<(), Memory>
    ensures names { OnOk result (slots.new.names ≡ slots.old.names ++ block_names (block_of block.now)) }
    ensures shapes { OnOk result (slots.new.shapes ≡ slots.old.shapes ++ block_shapes (block_of block.now)) }
{
    for statement in block {
        add_act(alloc, slots, &statement.what)?;
    }
    Ok(())
}

#[cycle(declared)]
fn add_cases(alloc: Global, slots: &mut Slots, cases: &[Case]) -> Result<(), Memory>
    ensures names { OnOk result (slots.new.names ≡ slots.old.names ++ arm_names (arms_of cases.now)) }
    ensures shapes { OnOk result (slots.new.shapes ≡ slots.old.shapes ++ arm_shapes (arms_of cases.now)) }
{
    for case in cases {
        add_block(alloc, slots, case.body.as_slice())?;
    }
    Ok(())
}

#[cycle(declared)]
#[tactic(auto, using(kumir_tree::proofs::Views::acts, crate::proofs::SlotsAdded::nothing_more, crate::proofs::SlotsAdded::both_more))]
fn add_act(alloc: Global, slots: &mut Slots, what: &What) -> Result<(), Memory>
    ensures names { OnOk result (slots.new.names ≡ slots.old.names ++ act_names (act_of what.now)) }
    ensures shapes { OnOk result (slots.new.shapes ≡ slots.old.shapes ++ act_shapes (act_of what.now)) }
{
    match what {
        What::Declare(declared) => add_declared(alloc, slots, declared),
        What::Times(_, body) => add_block(alloc, slots, body.as_slice()),
        What::While(_, body) => add_block(alloc, slots, body.as_slice()),
        What::Count(_, _, _, _, body) => add_block(alloc, slots, body.as_slice()),
        What::Forever(body) => add_block(alloc, slots, body.as_slice()),
        What::Until(body, _, _) => add_block(alloc, slots, body.as_slice()),
        What::Choose(_, first, other) => {
            add_block(alloc, slots, first.as_slice())?;
            add_block(alloc, slots, other.as_slice())
        }
        What::Select(cases, other) => {
            add_cases(alloc, slots, cases.as_slice())?;
            add_block(alloc, slots, other.as_slice())
        }
        What::Assign(_, _) => Ok(()),
        What::Call(_, _) => Ok(()),
        What::Assert(_) => Ok(()),
        What::Input(_) => Ok(()),
        What::Output(_) => Ok(()),
        What::Leave => Ok(()),
        What::Quit => Ok(()),
    }
}

/// The shapes of the slot of `знач`, if there is one.
fn answer_shapes(alloc: Global, gives: Option<Kind>) -> Result<Shapes, Memory>
    ensures { IfOk result (λ shapes. shapes ≡ answer_shape gives) }
{
    let mut shapes = Items::new(alloc);
    if let Some(kind) = gives {
        shapes.push(Shape::Scalar(kind))?;
    }
    Ok(shapes)
}

/// The names of an algorithm, and the shapes of the slots that its variables have.
pub fn slots_of(alloc: Global, tree: &UnitTree) -> Result<Slots, Memory>
    ensures names { IfOk result (λ slots. slots.names
        ≡ parameters (algorithm_of tree.now).head.params ++ block_names (algorithm_of tree.now).body) }
    ensures shapes { IfOk result (λ slots. slots.shapes ≡ answer_shape (algorithm_of tree.now).head.gives
        ++ (map (λ p. formal_shape p.kind p.bounds) (algorithm_of tree.now).head.params
        ++ block_shapes (algorithm_of tree.now).body)) }
{
    let mut slots = Slots {
        names: UnitNames::new(alloc),
        shapes: answer_shapes(alloc, tree.header.gives)?,
    };
    add_params(alloc, &mut slots, tree.header.params.as_slice())?;
    add_block(alloc, &mut slots, tree.body.as_slice())?;
    Ok(slots)
}

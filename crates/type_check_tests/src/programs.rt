//! Margins of programs, and programs without faults.

ghost use Rattle.std.specs.Prelude.{◌≡◌, [], None, IfOk};
ghost use Rattle.kumir_tree.specs.Program.{Stands, Invoke, done, ◌next◌};
ghost use Rattle.kumir_tree.specs.Tree.{no_trees};
ghost use Rattle.kumir_tree.specs.Blocks.{block_of};
ghost use Rattle.kumir_tree.specs.Units.{units_of};
ghost use Rattle.kumir_tree.specs.Sound.{IsSound};

use crate::rules::{Checks, name_of};
use km_base::{Memory, Performers, Steps};
use kumir_tree::{
    Block, Header, Name, Outcome, PlacedUnit, Statement, UnitRead, UnitTree, Units, What,
};
use margins::Mark;
use sqlite_items::Items;
use std::alloc::{AllocError, Global};
use std::sync::Arc;
use std::test::Fail;
use type_check::{CleanRefusal, clean_of, margin_of};

// The prelude of a program that knows the Robot.
fn prelude(alloc: Global) -> Result<Units, AllocError>
    ensures { IfOk result (λ units. IsSound (units_of units)) }
{
    let read = UnitRead {
        header: None,
        performers: Performers {
            robot: true,
            pen: false,
        },
        unknown: Items::new(alloc),
        outcome: Outcome::Prelude,
    };
    let mut units = Items::new(alloc);
    units.push(PlacedUnit {
        first: 1,
        read: Arc::new(alloc, read)?,
    })?;
    Ok(units)
}

// The header of an algorithm without a name.
fn nameless(alloc: Global) -> Header
    ensures { result ≡ record { name = None; gives = None; params = []; line = 0 } }
{
    Header {
        name: None,
        gives: None,
        params: Items::new(alloc),
        line: 0,
    }
}

// A call on line 1.
#[tactic(auto, using(kumir_tree::proofs::Views::acts))]
fn calling(alloc: Global, f: Name) -> Result<Block, AllocError>
    ensures { IfOk result (λ block. block_of block ≡ Stands 1 (Invoke f no_trees) next done) }
{
    let mut body = Items::new(alloc);
    body.push(Statement {
        line: 1,
        what: What::Call(f, Items::new(alloc)),
    })?;
    Ok(body)
}

// A program whose one algorithm stands on line 3 and calls `f` on line 4.
#[tactic(auto, using(type_rules::proofs::Counting::sound_more))]
fn program(alloc: Global, f: Name) -> Result<Units, AllocError>
    ensures { IfOk result (λ units. IsSound (units_of units)) }
{
    let body = calling(alloc, f)?;
    let tree = UnitTree {
        header: nameless(alloc),
        given: None,
        wanted: None,
        body,
        close: 2,
    };
    let read = UnitRead {
        header: Some(nameless(alloc)),
        performers: Performers {
            robot: false,
            pen: false,
        },
        unknown: Items::new(alloc),
        outcome: Outcome::Tree(tree),
    };
    let read = Arc::new(alloc, read)?;
    let mut units = prelude(alloc)?;
    units.push(PlacedUnit { first: 3, read })?;
    Ok(units)
}

// How many marks the program's margin has, and the first of them.
fn marks_of(alloc: Global, units: &Units) -> Result<(usize, Option<Mark>), Memory>
    requires { IsSound (units_of units.now) }
{
    let mut steps = Steps::<Checks>::new();
    let margin = margin_of(alloc, units, &mut steps)?;
    Ok((margin.marks().len(), margin.marks().first().copied()))
}

// Whether the program is refused for its faults.
fn has_faults(alloc: Global, units: &Units) -> bool
    requires { IsSound (units_of units.now) }
{
    matches!(clean_of(alloc, units), Err(CleanRefusal::Faults(_)))
}

#[test]
fn a_fault_has_a_mark_in_the_margin(rt: HostRuntime) -> Result<(), Fail> {
    let alloc = rt.alloc();
    let units = program(alloc, name_of(alloc, "z")?)?;
    let (count, first) = marks_of(alloc, &units)?;
    assert_eq!(rt; count, 1);
    assert_eq!(rt; first, Some(Mark { line: 4, code: 402 }));
    assert!(rt; has_faults(alloc, &units));
    Ok(())
}

// How many units the program has, whether it has a main algorithm, and whether it knows the name.
fn clean_parts(
    alloc: Global,
    units: &Units,
    name: &Name,
) -> Result<(usize, bool, bool), CleanRefusal>
    requires { IsSound (units_of units.now) }
{
    let clean = clean_of(alloc, units)?;
    let has_main = clean.main().is_some();
    Ok((
        clean.units().len(),
        has_main,
        clean.headers().find(name).is_some(),
    ))
}

#[test]
fn a_program_without_a_fault_is_clean(rt: HostRuntime) -> Result<(), Fail> {
    let alloc = rt.alloc();
    let name = name_of(alloc, "вниз")?;
    let units = program(alloc, name_of(alloc, "вниз")?)?;
    let (marks, _) = marks_of(alloc, &units)?;
    assert_eq!(rt; marks, 0);
    let (count, has_main, knows) = clean_parts(alloc, &units, &name)?;
    assert_eq!(rt; count, 2);
    assert!(rt; has_main);
    assert!(rt; knows);
    Ok(())
}

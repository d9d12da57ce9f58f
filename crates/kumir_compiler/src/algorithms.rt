//! The algorithms of a program, found by their names.

ghost use Rattle.std.specs.Prelude.{◌≡◌, ◌∷◌, ◌++◌, [], slice_get, OnOk};
ghost use Rattle.performer_kit.specs.Commands.{robot_command_named, pen_shape_named};
ghost use Rattle.kumir_names.specs.Callees.{algorithm_named, if_known};
ghost use Rattle.type_check.specs.Kinds.{called_kind};
ghost use Rattle.kumir_meaning.specs.Program.{callee_in, own_name};
ghost use Rattle.kumir_compiler.specs.Sites.{in_checks};
ghost use Rattle.kumir_compiler.specs.AlgorithmsSeen.{program_seen, seen};
ghost use Rattle.kumir_compiler.specs.CallsSeen.{some_gives, IsAlgorithm, IsTargetIn};

use crate::first::FirstPlaces;
use crate::placed::PlacedTree;
use km_base::{Memory, Performers};
use kumir_names::BuiltIn;
use kumir_tree::{Kind, Name, Params, copy_some_name};
use performer_kit::{PenShape, RobotCommand, pen_shape_of, robot_command_of};
use std::alloc::Global;
use std::marker::Model;

/// What a name stands for that is no local one: an algorithm by the number of its unit and its
/// parameters, a built-in, or a command.
#[derive(Clone, Copy)]
pub enum Target<'a> {
    Unit(u32, &'a Params),
    BuiltIn(BuiltIn),
    Robot(RobotCommand),
    Pen(PenShape),
}

/// An algorithm with the number of its unit.
#[derive(Clone, Copy)]
struct Numbered<'a> {
    number: u32,
    algorithm: PlacedTree<'a>,
}

/// The performers that a program knows, and its algorithms, each found by its first place.
#[derive(Drop)]
pub struct Algorithms<'p> {
    alloc: Global,
    performers: Performers,
    placed: Vec<PlacedTree<'p>>,
    places: FirstPlaces,
}

impl<'p> Model for Algorithms<'p> {
    ghost use Rattle.std.specs.Prelude.{◌≡◌, map};
    ghost use Rattle.std.specs.Coded.{codes};
    ghost use Rattle.kumir_tree.specs.contracts.expr.Expr as e;
    ghost use Rattle.kumir_tree.specs.contracts.statement.What as w;
    ghost use Rattle.kumir_compiler.specs.AlgorithmsSeen.{PlacedTrees, name_seen};

    ghost Value = { PlacedTrees };

    ghost coded = { Prim.hlevel (codes, e.the_row.coded, w.the_row.coded) };

    ghost view = { λ a. record { performers = a.performers; placed = a.placed.items } };

    ghost invariant = { λ a. a.places ≡ map name_seen a.placed.items };
}

impl<'p> Algorithms<'p> {
    /// A program without algorithms.
    pub fn new(alloc: Global, performers: Performers) -> Algorithms<'p>
        ensures { program_seen result ≡ record { performers = performers; algorithms = [] } }
    {
        Algorithms {
            alloc,
            performers,
            placed: Vec::new(alloc),
            places: FirstPlaces::new(alloc),
        }
    }

    /// The allocator that the program was made with.
    pub fn alloc(&self) -> Global {
        self.alloc
    }

    /// One algorithm more. A number that does not fit its 32 bits is answered as want of memory.
    pub fn add(&mut self, alloc: Global, algorithm: PlacedTree<'p>) -> Result<(), Memory>
        ensures { OnOk result (program_seen self.new ≡ record (program_seen self.old) {
          algorithms = (program_seen self.old).algorithms ++ seen algorithm.entry ∷ [];
        }) }
    {
        let name = copy_some_name(alloc, &algorithm.tree.header.name)?;
        self.placed.push(algorithm)?;
        if self.places.add(name).is_err() {
            self.placed.pop();
            return Err(Memory);
        }
        Ok(())
    }

    /// The algorithm with that number.
    pub fn get<'a>(&'a self, number: usize) -> Option<PlacedTree<'a>>
        ensures { result ≡ slice_get self.now.placed number }
    {
        self.placed.get(number).copied()
    }

    /// The Robot's command with this name, where the Robot is known.
    fn robot(&self, name: &Name) -> Option<RobotCommand>
        ensures { result ≡ if_known self.now.performers.robot (robot_command_named name.now) }
    {
        if self.performers.robot {
            robot_command_of(name.as_slice())
        } else {
            None
        }
    }

    /// The Draughtsman's command with this name, where the Draughtsman is known.
    fn pen(&self, name: &Name) -> Option<PenShape>
        ensures { result ≡ if_known self.now.performers.pen (pen_shape_named name.now) }
    {
        if self.performers.pen {
            pen_shape_of(name.as_slice())
        } else {
            None
        }
    }

    /// The algorithm with this name.
    #[tactic(auto, using(crate::proofs::PlacesFound::found))]
    fn algorithm<'a>(&'a self, name: &Name) -> Option<Numbered<'a>>
        ensures { IsAlgorithm (program_seen self.now) name.now result }
    {
        let number = self.places.place_of(name)?;
        let algorithm = self.get(number as usize)?;
        Some(Numbered { number, algorithm })
    }

    /// What the name stands for: a built-in, a command of a known performer, or the first algorithm
    /// that has it. None comes exactly where it stands for nothing. No memory is taken.
    #[tactic(auto, unfolding(kumir_names::specs::Callees::callee))]
    pub fn target<'a>(&'a self, name: &Name) -> Option<Target<'a>>
        ensures { IsTargetIn (program_seen self.now) name.now result }
    {
        if let Some(built_in) = BuiltIn::of_name(name.as_slice()) {
            return Some(Target::BuiltIn(built_in));
        }
        if let Some(command) = self.robot(name) {
            return Some(Target::Robot(command));
        }
        if let Some(shape) = self.pen(name) {
            return Some(Target::Pen(shape));
        }
        match self.algorithm(name) {
            Some(Numbered { number, algorithm }) => {
                let tree = algorithm.tree;
                Some(Target::Unit(number, &tree.header.params))
            }
            None => None,
        }
    }

    /// The kind that the algorithm with this name gives.
    fn gives_of(&self, name: &Name) -> Option<Kind>
        ensures { result
            ≡ some_gives (algorithm_named own_name name.now (program_seen self.now).algorithms) }
    {
        match self.algorithm(name) {
            Some(found) => found.algorithm.tree.header.gives,
            None => None,
        }
    }

    /// The kind of the value that a call by that name gives. No memory is taken.
    #[tactic(auto, unfolding(kumir_names::specs::Callees::callee))]
    pub fn kind_of(&self, name: &Name) -> Option<Kind>
        ensures { result ≡ called_kind (in_checks (callee_in (program_seen self.now) name.now)) }
    {
        if BuiltIn::of_name(name.as_slice()).is_some() {
            return Some(Kind::Whole);
        }
        if self.robot(name).is_some() {
            return Some(Kind::Truth);
        }
        if self.pen(name).is_some() {
            return None;
        }
        self.gives_of(name)
    }
}

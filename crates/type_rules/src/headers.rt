//! The headers that count, found by their names.

ghost use Rattle.std.specs.Prelude.{◌≡◌, ◌≢◌, ◌↔◌, [], false, IsTrue, IsSome, IfOk, IfErr, OnOk, OnErr, Some, None, Err};
ghost use Rattle.performer_kit.specs.Commands.{robot_command_named, pen_shape_named};
ghost use Rattle.kumir_names.specs.Callees.{if_known};
ghost use Rattle.type_rules.specs.Callees.{callee, head_named};
ghost use Rattle.type_rules.specs.Headers.{some_called, some_head_behind, callees_of, no_headers, with_header, IsNameless, IsTaken};

use crate::callee::Callee;
use indexmap::IndexMap;
use km_base::{Memory, Performers};
use kumir_names::BuiltIn;
use kumir_tree::{Header, Name};
use performer_kit::{PenShape, RobotCommand, pen_shape_of, robot_command_of};
use std::alloc::{AllocError, AllocFailed, Global};
use std::marker::Model;

/// Why a header does not count (docs/LANGUAGE.md, "Headers").
#[derive(Clone, Copy, Debug, PartialEq, Eq)]
pub enum AddRefusal {
    /// It has no name, and a header is there already.
    Nameless,
    /// Its name is there already, or is that of a built-in or of a command of a known performer.
    Taken,
    Memory,
}

impl From<AllocFailed<(Name, Header)>> for AddRefusal {
    ghost use Rattle.std.specs.Prelude.{◌≡◌};
    ghost use Rattle.type_rules.specs.declared.headers.AddRefusal.TheVariants.{Memory};

    ghost from_gives = { λ _ e. e ≡ Memory };

    fn from(_refused: AllocFailed<(Name, Header)>) -> AddRefusal {
        AddRefusal::Memory
    }
}

impl From<AllocError> for AddRefusal {
    ghost use Rattle.std.specs.Prelude.{◌≡◌};
    ghost use Rattle.type_rules.specs.declared.headers.AddRefusal.TheVariants.{Memory};

    ghost from_gives = { λ _ e. e ≡ Memory };

    fn from(_refused: AllocError) -> AddRefusal {
        AddRefusal::Memory
    }
}

/// The performers that a program knows, and its headers that count. Contracts see the headers as a list in the order
/// in which they were added.
#[derive(Drop)]
pub struct Headers {
    alloc: Global,
    performers: Performers,
    // Only the first header can be without a name.
    nameless: Option<Header>,
    named: IndexMap<Name, Header>,
}

impl Model for Headers {
    ghost use Rattle.std.specs.Prelude.{◌≡◌, ◌++◌, Some, None};
    ghost use Rattle.std.specs.Coded.{codes};
    ghost use Rattle.std.specs.List.{AllByRecursion};
    ghost use Rattle.kumir_tree.specs.contracts.expr.Expr as e;
    ghost use Rattle.type_rules.specs.Headers.{HeaderList, first_headers, values_in};

    ghost Value = { HeaderList };

    ghost coded = { Prim.hlevel (codes, e.the_row.coded) };

    ghost view = { λ h. record {
      performers = h.performers;
      headers = first_headers h.nameless ++ values_in h.named.entries;
    } };

    ghost invariant = { λ h. AllByRecursion (λ e. e.1.name ≡ Some e.0) h.named.entries
        × AllByRecursion (λ first. first.name ≡ None) (first_headers h.nameless) };
}

impl Headers {
    /// No header yet.
    pub fn new(alloc: Global, performers: Performers) -> Result<Headers, Memory>
        ensures { IfOk result (λ headers. headers ≡ no_headers performers) }
    {
        Ok(Headers {
            alloc,
            performers,
            nameless: None,
            named: IndexMap::new(alloc),
        })
    }

    /// The Robot's command with this name, where the Robot is known.
    fn robot(&self, name: &Name) -> Option<RobotCommand>
        ensures { result ≡ if_known self.now.performers.robot (robot_command_named name.now) }
    {
        if self.performers.robot {
            robot_command_of(name.as_slice())
        } else {
            None
        }
    }

    /// The Draughtsman's command with this name, where the Draughtsman is known.
    fn pen(&self, name: &Name) -> Option<PenShape>
        ensures { result ≡ if_known self.now.performers.pen (pen_shape_named name.now) }
    {
        if self.performers.pen {
            pen_shape_of(name.as_slice())
        } else {
            None
        }
    }

    /// The header with this name.
    #[tactic(auto, using(crate::proofs::Lookup::algorithm_found))]
    fn algorithm(&self, name: &Name) -> Option<&Header>
        ensures { some_head_behind result ≡ head_named name.now (callees_of self.now).heads }
    {
        self.named.get(name)
    }

    /// What the name stands for: an algorithm whose header is here, a built-in, or a command of a known performer. None
    /// comes exactly where it is none of these. No memory is taken.
    #[tactic(auto, unfolding(kumir_names::specs::Callees::callee))]
    pub fn find<'a>(&'a self, name: &Name) -> Option<Callee<'a>>
        ensures { some_called result ≡ callee (callees_of self.now) name.now }
    {
        if let Some(built_in) = BuiltIn::of_name(name.as_slice()) {
            return Some(Callee::BuiltIn(built_in));
        }
        if let Some(command) = self.robot(name) {
            return Some(Callee::Robot(command));
        }
        if let Some(shape) = self.pen(name) {
            return Some(Callee::Pen(shape));
        }
        match self.algorithm(name) {
            Some(header) => Some(Callee::Algorithm(header)),
            None => None,
        }
    }

    #[tactic(auto, using(crate::proofs::Lookup::not_found))]
    fn is_taken(&self, name: &Name) -> bool
        ensures taken { IsTrue result ↔ IsSome (callee (callees_of self.now) name.now) }
        ensures free { result ≡ false → head_named name.now (callees_of self.now).heads ≡ None }
    {
        self.find(name).is_some()
    }

    /// Adds a header behind the others. A refusal leaves the headers as they were.
    pub fn add(&mut self, header: Header) -> Result<(), AddRefusal>
        ensures added { OnOk result (self.new ≡ with_header self.old header) }
        ensures nameless { (result ≡ Err AddRefusal.Nameless) ↔ IsNameless self.old header }
        ensures taken { (result ≡ Err AddRefusal.Taken) ↔ IsTaken self.old header }
        ensures unchanged { OnErr result (self.new ≡ self.old) }
    {
        let Some(name) = &header.name else {
            return self.add_nameless(header);
        };
        if self.is_taken(name) {
            return Err(AddRefusal::Taken);
        }
        let name = name.copy(self.alloc)?;
        self.add_named(name, header)
    }

    fn add_nameless(&mut self, header: Header) -> Result<(), AddRefusal>
        requires { header.name ≡ None }
        ensures added { OnOk result (self.new ≡ with_header self.old header) }
        ensures nameless { (result ≡ Err AddRefusal.Nameless) ↔ (self.old.headers ≢ []) }
        ensures not_taken { result ≢ Err AddRefusal.Taken }
        ensures unchanged { OnErr result (self.new ≡ self.old) }
    {
        if self.nameless.is_some() || !self.named.is_empty() {
            return Err(AddRefusal::Nameless);
        }
        self.nameless = Some(header);
        Ok(())
    }

    #[tactic(auto, using(crate::proofs::Lookup::still_named, crate::proofs::Lookup::one_header_more))]
    fn add_named(&mut self, name: Name, header: Header) -> Result<(), AddRefusal>
        requires its_name { header.name ≡ Some name }
        requires is_new { head_named name (callees_of self.old).heads ≡ None }
        ensures added { OnOk result (self.new ≡ with_header self.old header) }
        ensures refused { IfErr result (λ refusal. refusal ≡ AddRefusal.Memory) }
        ensures unchanged { OnErr result (self.new ≡ self.old) }
    {
        self.named.insert(name, header)?;
        Ok(())
    }
}

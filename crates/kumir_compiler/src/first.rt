//! The first places of names.

ghost use Rattle.std.specs.Prelude.{◌≡◌, ◌<◌, ◌∷◌, ◌++◌, [], OnOk, OnErr};
ghost use Rattle.indexmap.specs.IndexMap.{spare};
ghost use Rattle.kumir_compiler.specs.FirstPlaces.{first_place, IsKeptFirst};

use indexmap::IndexMap;
use km_base::{Memory, Noted};
use kumir_tree::Name;
use std::alloc::Global;
use std::marker::Model;

/// Finds the first place of a name among names some of which may be missing. Contracts see these
/// names; only the first places are kept.
#[derive(Drop)]
pub struct FirstPlaces {
    seen: Noted<Option<Name>>,
    count: u32,
    places: IndexMap<Name, u32>,
}

impl Model for FirstPlaces {
    ghost use Rattle.std.specs.Prelude.{◌≡◌, List, Option, ℕ, nat_eq, length};
    ghost use Rattle.std.specs.Map.{lookup};
    ghost use Rattle.std.specs.Cmp.Lexicographic.{pointwise};
    ghost use Rattle.kumir_compiler.specs.FirstPlaces.{first_place};

    ghost Value = { List (Option (List ℕ)) };

    ghost view = { λ f. f.seen };

    ghost invariant = { λ f. (f.count ≡ length f.seen)
        × ((x : List ℕ) → lookup (pointwise nat_eq x) f.places.entries ≡ first_place x f.seen) };
}

impl FirstPlaces {
    /// No names.
    pub fn new(alloc: Global) -> FirstPlaces
        ensures { result ≡ [] }
    {
        FirstPlaces {
            seen: Noted::new(),
            count: 0,
            places: IndexMap::new(alloc),
        }
    }

    /// The place of the first of the names that is this one. None comes exactly where none is. No
    /// memory is taken.
    pub fn place_of(&self, name: &Name) -> Option<u32>
        ensures { result ≡ first_place name.now self.now }
    {
        self.places.get(name).copied()
    }

    /// One name more. A place that does not fit its 32 bits is answered as want of memory, and then
    /// the names stay as they were.
    pub fn add(&mut self, name: Option<Name>) -> Result<(), Memory>
        ensures added { OnOk result (self.new ≡ self.old ++ name ∷ []) }
        ensures refused { OnErr result (self.new ≡ self.old) }
    {
        let place = self.count;
        let Some(count) = place.checked_add(1) else {
            return Err(Memory);
        };
        self.places.reserve(1)?;
        self.seen.note(&name);
        self.count = count;
        if let Some(name) = name {
            keep_first(&mut self.places, name, place);
        }
        Ok(())
    }
}

/// Keeps the place of a name that has none yet.
fn keep_first(places: &mut IndexMap<Name, u32>, name: Name, place: u32)
    requires { 0 < spare places.old }
    ensures { IsKeptFirst places.old.entries name place places.new.entries }
{
    if places.contains_key(&name) {
        return;
    }
    match places.insert(name, place) {
        Ok(_) => {}
        Err(_) => unreachable!(),
    }
}

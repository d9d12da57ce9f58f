//! Where a piece of code stands.
ghost use Rattle.std.specs.Prelude.{◌≡◌, ◌+◌, length, IfOk};
ghost use Rattle.kumir_meaning.specs.Store.{Local, TheAnswer};
ghost use Rattle.kumir_names.specs.Variables.{variable};
ghost use Rattle.kumir_compiler.specs.Sites as code;
ghost use Rattle.kumir_compiler.specs.Sites.{slot};
ghost use Rattle.kumir_compiler.specs.UnitCode.{answer_of};
ghost use Rattle.kumir_compiler.specs.FirstPlaces.{first_place, names_in, place_or_end};
ghost use Rattle.kumir_compiler.specs.SitesSeen.{site_of, IsTarget};

use crate::algorithms::{Algorithms, Target};
use crate::names::UnitNames;
use crate::put::narrow;
use km_base::Memory;
use kumir_names::Variable;
use kumir_tree::{Kind, Name};

/// Where a piece of code stands: the program, the names that have slots, the kind that the algorithm
/// gives, the first line of its unit, its own line in the text, and how many of the names are local
/// there.
#[derive(Clone, Copy)]
pub struct Site<'p, 'a> {
    pub program: &'a Algorithms<'p>,
    pub names: &'a UnitNames,
    pub gives: Option<Kind>,
    pub first: u32,
    pub line: u32,
    pub locals: usize,
}

/// The slot that has so many before it, beside that of `знач`. A slot that does not fit its 32 bits
/// is answered as want of memory.
fn behind_answer(site: &Site<'_, '_>, at: usize) -> Result<u32, Memory>
    ensures { IfOk result (λ n. n ≡ length (answer_of site.now.gives) + at) }
{
    if site.gives.is_none() {
        return narrow(at);
    }
    match at.checked_add(1) {
        Some(slot) => narrow(slot),
        None => Err(Memory),
    }
}

/// The place of a name among the names of the algorithm; behind all where it is none of them.
fn place_among(names: &UnitNames, name: &Name) -> usize
    ensures { result ≡ place_or_end (first_place name.now (names_in names.now)) names.now }
{
    match names.place_of(name) {
        Some(place) => place as usize,
        None => names.count(),
    }
}

/// The slot of a name; behind those of all variables where it has none. A slot that does not fit its
/// 32 bits is answered as want of memory.
#[tactic(auto, using(crate::proofs::PlacesFound::name_slot))]
pub fn slot_of(site: &Site<'_, '_>, name: &Name) -> Result<u32, Memory>
    ensures { IfOk result (λ n. n ≡ slot (site_of site.now) (Local name.now)) }
{
    behind_answer(site, place_among(site.names, name))
}

/// The slot of `знач`, in the same way.
#[tactic(auto, using(crate::proofs::PlacesFound::slot_of_answer))]
pub fn answer_slot(site: &Site<'_, '_>) -> Result<u32, Memory>
    ensures { IfOk result (λ n. n ≡ slot (site_of site.now) TheAnswer) }
{
    if site.gives.is_some() {
        return Ok(0);
    }
    narrow(site.names.count())
}

/// The hidden slot behind so many, in the same way.
pub fn hidden_slot(site: &Site<'_, '_>, hidden: usize) -> Result<u32, Memory>
    ensures { IfOk result (λ n. n ≡ code.hidden (site_of site.now) hidden) }
{
    match site.names.count().checked_add(hidden) {
        Some(at) => behind_answer(site, at),
        None => Err(Memory),
    }
}

/// The variable of a local name. None comes exactly where the name is no local one there.
#[tactic(auto, using(crate::proofs::PlacesFound::locals))]
pub fn variable_of(site: &Site<'_, '_>, name: &Name) -> Option<Variable>
    ensures { result ≡ variable (site_of site.now).locals name.now }
{
    let Some(place) = site.names.place_of(name) else {
        return None;
    };
    let place = place as usize;
    if place < site.locals {
        site.names.get(place)
    } else {
        None
    }
}

/// What a name stands for that is no local one. None comes exactly where it stands for nothing.
pub fn target_of<'a>(site: &Site<'_, 'a>, name: &Name) -> Option<Target<'a>>
    ensures { IsTarget (site_of site.now) name.now result }
{
    site.program.target(name)
}

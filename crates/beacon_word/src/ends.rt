//! The two ends of a beacon.

ghost use Rattle.std.specs.Prelude.{◌≡◌, ◌≤◌, ◌++◌, [], ◌∷◌, All, IfOk};
ghost use Rattle.beacon_word.specs.Beacon.{last_or_zero, BeaconLaw};
ghost use Rattle.beacon_word.specs.Ends.{raised, saw, OfOneBeacon};

use crate::rule::{Cell, Looks, Moves, Raises, Roles, Settles, Token};
use km_base::Memory;
use std::alloc::Global;
use std::marker::Model;
use std::sync::{Arc, Wait};

/// The end of a beacon that raises it. Contracts see it as a `RaiseEnd`: the beacon, and the numbers raised.
#[derive(Drop)]
pub struct Raiser {
    cell: Arc<Cell, Global>,
    pass: Token,
}

impl Model for Raiser {
    ghost use Rattle.std.specs.Prelude.{◌≡◌, true};
    ghost use Rattle.std.specs.Arc.{arc_value};
    ghost use Rattle.crossbeam_utils.specs.Seq.{cell_view};
    ghost use Rattle.beacon_word.specs.Ends.{RaiseEnd, raise_end, raise_end_code};

    ghost Value = { RaiseEnd };

    ghost coded = { raise_end_code };

    ghost view = { λ s. raise_end s.pass.table_id (cell_view s.pass).raised };

    ghost invariant = { λ s. (s.pass.table_id ≡ (arc_value s.cell).table.shared.table_id) × ((cell_view s.pass).raises ≡ true) };
}

/// The end of a beacon that looks at it. Contracts see it as a `LookEnd`: the beacon, and the numbers shown.
#[derive(Drop)]
pub struct Looker {
    cell: Arc<Cell, Global>,
    pass: Token,
}

impl Model for Looker {
    ghost use Rattle.std.specs.Prelude.{◌≡◌, true};
    ghost use Rattle.std.specs.Arc.{arc_value};
    ghost use Rattle.crossbeam_utils.specs.Seq.{cell_view};
    ghost use Rattle.beacon_word.specs.Ends.{LookEnd, look_end, look_end_code};

    ghost Value = { LookEnd };

    ghost coded = { look_end_code };

    ghost view = { λ s. look_end s.pass.table_id (cell_view s.pass).shown };

    ghost invariant = { λ s. (s.pass.table_id ≡ (arc_value s.cell).table.shared.table_id) × ((cell_view s.pass).looks ≡ true) };
}

/// A beacon that shows 0.
pub fn beacon(alloc: Global) -> Result<(Raiser, Looker), Memory>
    ensures pair { IfOk result (λ ends. OfOneBeacon ends.0 ends.1) }
    ensures raiser { IfOk result (λ ends. ends.0.raised ≡ []) }
    ensures looker { IfOk result (λ ends. ends.1.shown ≡ []) }
{
    let (cell, mut pass) = Cell::ruled(alloc, [0])?;
    let theirs = cell.split_pass::<Roles>(&mut pass);
    let Ok(cell) = Arc::new(alloc, cell) else {
        return Err(Memory);
    };
    let shared = Arc::try_clone(&cell)?;
    let raiser = Raiser { cell, pass };
    let looker = Looker {
        cell: shared,
        pass: theirs,
    };
    Ok((raiser, looker))
}

impl Raiser {
    /// The beacon shows the number from now on. It may not be below the last one raised.
    pub fn raise<R: Wait>(&mut self, rt: &R, version: u32)
        requires { last_or_zero self.old.raised ≤ version }
        ensures { self.new ≡ raised self.old version }
    {
        self.cell
            .swap_as::<Raises, R>(rt, &mut self.pass, [u64::from(version)]);
    }
}

impl Looker {
    /// The number shown. It is never below one that this looker saw.
    pub fn look<R: Wait>(&mut self, rt: &R) -> u32
        ensures shown { self.new ≡ saw self.old result }
        ensures later { All (λ seen. seen ≤ result) self.old.shown }
    {
        let [word] = self.cell.load_as::<Looks, R>(rt, &mut self.pass);
        word as u32
    }
}

/// The last number raised, or 0 where none was.
pub fn settle<R: Wait>(rt: &R, raiser: Raiser, looker: Looker) -> u32
    requires { OfOneBeacon raiser looker }
    ensures last { result ≡ last_or_zero raiser.raised }
    ensures law { BeaconLaw raiser.raised looker.shown }
    ensures later { All (λ seen. seen ≤ result) looker.shown }
{
    let Raiser { cell, mut pass } = raiser;
    let Looker {
        pass: mut theirs,
        ..
    } = looker;
    // A pass that has made calls can't be joined.
    let theirs = cell.split_pass::<Moves>(&mut theirs);
    cell.join_pass::<Roles>(&mut pass, theirs);
    let [last] = cell.load_as::<Settles, R>(rt, &mut pass);
    last as u32
}

// The lists that contracts see take no bytes.
const _: () = prove!(std::mem::size_of::<Raiser>() == 8);

const _: () = prove!(std::mem::size_of::<Looker>() == 8);

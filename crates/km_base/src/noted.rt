//! Lists and counts that contracts see and that take no bytes at run time.

ghost use Rattle.std.specs.Prelude.{◌≡◌, ◌+◌, [], ◌∷◌, ◌++◌};

use std::marker::Model;
use std::mem;
use std::snapshot::Snapshot;

/// What was noted so far, the last first. Only a snapshot of it is kept.
#[derive(Drop)]
pub enum Told<T> {
    Nothing,
    Later(Snapshot<Told<T>>, Snapshot<T>),
}

/// A list of what was noted. It takes no bytes at run time.
#[derive(Drop)]
pub struct Noted<T> {
    told: Snapshot<Told<T>>,
}

impl<T> Model for Noted<T> {
    ghost use Rattle.std.specs.Prelude.{List};
    ghost use Rattle.km_base.specs.Told.{told_items};

    ghost Value = { List T };

    ghost view = { λ n. told_items n.told.value };
}

impl<T> Noted<T> {
    /// The empty list.
    pub fn new() -> Noted<T>
        ensures { result ≡ [] }
    {
        Noted {
            told: Snapshot::of(&Told::Nothing),
        }
    }

    /// Adds the item at the end of the list. The item itself stays where it is.
    pub fn note(&mut self, item: &T)
        ensures { self.new ≡ self.old ++ item.now ∷ [] }
    {
        let nothing = Snapshot::of(&Told::Nothing);
        let earlier = mem::replace(&mut self.told, nothing);
        self.told = Snapshot::of(&Told::Later(earlier, Snapshot::of(item)));
    }
}

/// A count without a last value. It takes no bytes at run time.
#[derive(Drop)]
pub struct Count {
    rises: Noted<()>,
}

impl Model for Count {
    ghost use Rattle.std.specs.Prelude.{ℕ, length};

    ghost Value = { ℕ };

    ghost view = { λ c. length c.rises };
}

impl Count {
    /// The count 0.
    pub fn new() -> Count
        ensures { result ≡ 0 }
    {
        Count {
            rises: Noted::new(),
        }
    }

    /// Adds one.
    pub fn rise(&mut self)
        ensures { self.new ≡ self.old + 1 }
    {
        self.rises.note(&());
    }
}

const _: () = prove!(std::mem::size_of::<Noted<u64>>() == 0);

const _: () = prove!(std::mem::size_of::<Count>() == 0);

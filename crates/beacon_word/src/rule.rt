// The rule of a beacon's word: what it is, by what was raised and what was shown.
ghost use Rattle.std.specs.Prelude.{◌≡◌, ◌≤◌, ◌<◌, ◌^◌, [], ◌∷◌, ◌++◌, All, slice_index};

use atomic_table::{Join, Split};
use crossbeam_utils::atomic::seq_cell::{Pass, RuledSeqCell};
use crossbeam_utils::rule::{Outcome, Protocol};
use std::collections::LinkedList;

// What one end may do, and what it has raised and been shown. No value of it is made.
pub struct Log {
    pub raises: bool,
    pub looks: bool,
    pub raised: LinkedList<u32>,
    pub shown: LinkedList<u32>,
}

pub struct Rising;

impl Protocol<[u64; 1], Log> for Rising {
    ghost use Rattle.std.specs.Prelude.{true, []};
    ghost use Rattle.beacon_word.specs.Rising.{log, IsBeacon};

    ghost holds = { IsBeacon };

    ghost first = { log true true [] [] };
}

// The split into the view of the raiser and that of the looker, and the join of the two.
pub struct Roles;

impl Split<Log> for Roles {
    ghost use Rattle.std.specs.Prelude.{true, false, []};
    ghost use Rattle.beacon_word.specs.Rising.{log};

    ghost left = { λ v. log true false v.raised [] };

    ghost right = { λ v. log false true [] v.shown };
}

impl Join<Log> for Roles {
    ghost use Rattle.std.specs.Prelude.{true};
    ghost use Rattle.beacon_word.specs.Rising.{log, spent};

    ghost both = { λ v w. log true true v.raised w.shown };

    ghost spent = { spent };
}

// The looker's view goes to a new pass.
pub struct Moves;

impl Split<Log> for Moves {
    ghost use Rattle.std.specs.Prelude.{true, false, []};
    ghost use Rattle.beacon_word.specs.Rising.{log, spent};

    ghost left = { λ v. spent };

    ghost right = { λ v. log false true [] v.shown };
}

// The word becomes the number, which goes to the end of what was raised.
pub struct Raises;

impl Outcome<[u64; 1], Log> for Raises {
    ghost use Rattle.beacon_word.specs.Rising.{log};

    ghost then = { λ v x y w. w ≡ log v.raises v.looks (v.raised ++ slice_index y 0 ∷ []) v.shown };
}

// The word's number goes to the end of what was shown, and nothing shown before is above it.
pub struct Looks;

impl Outcome<[u64; 1], Log> for Looks {
    ghost use Rattle.beacon_word.specs.Rising.{log};

    ghost then = { λ v x y w. (w ≡ log v.raises v.looks v.raised (v.shown ++ slice_index x 0 ∷ [])) × All (λ n. n ≤ slice_index x 0) v.shown × (slice_index x 0 < 2 ^ 32) };
}

// The look of the one view that has both roles, which knows both lists.
pub struct Settles;

impl Outcome<[u64; 1], Log> for Settles {
    ghost use Rattle.beacon_word.specs.Rising.{IsHistory};

    ghost then = { λ v x y w. IsHistory (slice_index x 0) v.raised v.shown };
}

pub type Cell = RuledSeqCell<[u64; 1], Log, Rising, 1>;

pub type Token = Pass<[u64; 1], Log>;

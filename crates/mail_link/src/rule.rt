// The rule of a link's queue: what it holds, by what was sent and what was taken.
ghost use Rattle.std.specs.Prelude.{◌≡◌, true, false, [], ◌∷◌, ◌++◌, List};

use crossbeam_queue::protocol::{Join, Lesson, Outcome, Protocol, Split};
use crossbeam_queue::{Pass, RuledArrayQueue};
use std::collections::LinkedList;

// What one end may do, and what it has sent and taken. No value of it is made.
pub struct Log<T> {
    pub sends: bool,
    pub takes: bool,
    pub sent: LinkedList<T>,
    pub taken: LinkedList<T>,
}

pub struct Linked;

impl<T> Protocol<T, Log<T>> for Linked {
    ghost use Rattle.std.specs.Prelude.{true, []};
    ghost use Rattle.mail_link.specs.Linked.{log, IsLinked};

    ghost holds = { IsLinked };

    ghost first = { log true true [] [] };
}

// The split into the view of the sender and that of the receiver, and the join of the two.
pub struct Roles;

impl<T> Split<Log<T>> for Roles {
    ghost use Rattle.std.specs.Prelude.{true, false, []};
    ghost use Rattle.mail_link.specs.Linked.{log};

    ghost left = { λ v. log true false v.sent [] };

    ghost right = { λ v. log false true [] v.taken };
}

impl<T> Join<Log<T>> for Roles {
    ghost use Rattle.std.specs.Prelude.{true, false, []};
    ghost use Rattle.mail_link.specs.Linked.{log, spent};

    ghost both = { λ v w. log true true v.sent w.taken };

    ghost spent = { spent };
}

// The put of an item, and what the sender learns where it is refused.
pub struct Puts;

impl<T> Outcome<T, Log<T>> for Puts {
    ghost use Rattle.mail_link.specs.Linked.{log};

    ghost then = { λ v x w. w ≡ log v.sends v.takes (v.sent ++ x ∷ []) v.taken };
}

impl<T> Lesson<T, Log<T>> for Puts {
    ghost fact = { λ v items. (before : List T) × (v.sent ≡ before ++ items) };
}

// The take of an item, and what the receiver learns where there is none.
pub struct Takes;

impl<T> Outcome<T, Log<T>> for Takes {
    ghost use Rattle.mail_link.specs.Linked.{log};

    ghost then = { λ v x w. w ≡ log v.sends v.takes v.sent (v.taken ++ x ∷ []) };
}

impl<T> Lesson<T, Log<T>> for Takes {
    ghost fact = { λ v items. (sent : List T) × (sent ≡ v.taken ++ items) };
}

// The take of an item by the one view that has both roles, which knows all lists.
pub struct Drains;

impl<T> Outcome<T, Log<T>> for Drains {
    ghost use Rattle.mail_link.specs.Linked.{log};

    ghost then = { λ v x w. (w ≡ log v.sends v.takes v.sent (v.taken ++ x ∷ [])) × (rest : List T) × (v.sent ≡ v.taken ++ x ∷ rest) };
}

impl<T> Lesson<T, Log<T>> for Drains {
    ghost fact = { λ v items. v.sent ≡ v.taken ++ items };
}

pub type Line<T> = RuledArrayQueue<T, Log<T>, Linked>;

pub type Token<T> = Pass<T, Log<T>>;

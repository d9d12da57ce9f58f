//! The calls of a port in memory: how much one may move, and which fail.

ghost use Rattle.std.specs.Prelude.{◌≡◌, ◌≤◌, ◌↔◌, IsTrue};

use km_base::Count;
use std::marker::Model;

/// How many bytes a call may move at most, which calls fail by their numbers from 1, and what was called so far.
#[derive(Drop)]
pub struct CallLog {
    most: usize,
    fails: Vec<u64>,
    made: u64,
    faults: Count,
}

impl Model for CallLog {
    ghost use Rattle.std.specs.Prelude.{◌≤◌};
    ghost use Rattle.km_ports.specs.Calls.{Calls};

    ghost Value = { Calls };

    ghost view = { λ c. record { most = c.most; fails = c.fails.items; made = c.made; failed = c.faults } };

    ghost invariant = { λ c. 1 ≤ c.most };
}

impl CallLog {
    ghost use Rattle.km_ports.specs.Calls.{no_calls, after_call, FailsNext};

    /// No call was made.
    pub fn new(most: usize, fails: Vec<u64>) -> CallLog
        requires { 1 ≤ most }
        ensures { result ≡ no_calls most fails.items }
    {
        CallLog {
            most,
            fails,
            made: 0,
            faults: Count::new(),
        }
    }

    /// The most bytes that a call may move.
    pub fn most(&self) -> usize
        ensures value { result ≡ self.now.most }
        ensures some { 1 ≤ result }
    {
        self.most
    }

    /// Counts a call, and tells whether it fails. After call 2^64 - 1 no further call fails.
    pub fn next_fails(&mut self) -> bool
        ensures fails { IsTrue result ↔ FailsNext self.old }
        ensures after { self.new ≡ after_call self.old result }
    {
        let Some(number) = self.made.checked_add(1) else {
            return false;
        };
        self.made = number;
        let fails = self.fails.contains(&number);
        if fails {
            self.faults.rise();
        }
        fails
    }
}

//! The reader of a script.
ghost use Rattle.std.specs.Prelude.{◌≡◌, ◌+◌, ◌<◌, ◌++◌, ℕ, List, [], Some, None, length, IfOk, IfSome, IsErr, OnOk, OnErr};
ghost use Rattle.script_lines.specs.Requests.{whole, requests};
ghost use Rattle.script_lines.specs.Reader.{answered};

use crate::request::{Request, Requests};
use crate::state::{State, take_piece};
use km_base::Memory;
use std::alloc::Global;
use std::marker::Model;

/// Reads a script that comes in pieces, seen as the bytes fed so far; after want of memory there are none. Of a line it
/// keeps no more bytes than its limit asks for.
#[derive(Drop)]
pub struct ScriptReader {
    state: State,
    has_failed: bool,
    alloc: Global,
}

impl Model for ScriptReader {
    ghost use Rattle.std.specs.Prelude.{◌≡◌, ℕ, List, Option, Some, None, if◌then◌else◌, false};
    ghost use Rattle.script_lines.specs.Reader.{IsState};

    ghost Value = { Option (List ℕ) };

    ghost view = { λ r. if r.has_failed then None else Some r.state.fed };

    ghost invariant = { λ r. r.has_failed ≡ false → IsState r.state };
}

impl ScriptReader {
    /// A reader that was fed nothing.
    pub fn new(alloc: Global) -> ScriptReader
        ensures { result ≡ Some [] }
    {
        ScriptReader {
            state: State::new(alloc),
            has_failed: false,
            alloc,
        }
    }

    /// Takes the next piece of the script, and answers the requests that it completes (docs/PROGRAM.md, "Script").
    /// However a script is cut into pieces, the requests are those of the script. After want of memory the reader only
    /// answers want of memory.
    pub fn feed(&mut self, piece: &[u8]) -> Result<Requests, Memory>
        requires { IfSome self.old (λ fed. length fed + length piece.now < 4294967295) }
        ensures requests { (fed : List ℕ) → self.old ≡ Some fed → IfOk result (λ rs. whole (fed ++ piece.now) ≡ whole fed ++ rs) }
        ensures fed { (fed : List ℕ) → self.old ≡ Some fed → OnOk result (self.new ≡ Some (fed ++ piece.now)) }
        ensures failed { self.old ≡ None → IsErr result }
        ensures fails { OnErr result (self.new ≡ None) }
    {
        if self.has_failed {
            return Err(Memory);
        }
        match take_piece(self.alloc, &mut self.state, piece) {
            Ok(requests) => Ok(requests),
            Err(_) => {
                self.has_failed = true;
                Err(Memory)
            }
        }
    }

    /// The request that the end of the script completes. None comes exactly where it completes none.
    pub fn finish(self) -> Result<Option<Request>, Memory>
        requires { IfSome self (λ fed. length fed < 4294967295) }
        ensures requests { (fed : List ℕ) → self ≡ Some fed → IfOk result (λ r. requests fed ≡ whole fed ++ answered r) }
        ensures failed { self ≡ None → IsErr result }
    {
        if self.has_failed {
            return Err(Memory);
        }
        let ScriptReader { state, alloc, .. } = self;
        state.finish(alloc)
    }
}

//! A source read to its end, and a sink given a whole text.

ghost use Rattle.std.specs.Prelude.{◌≡◌, ◌+◌, ◌≤◌, ◌++◌, ℕ, List, length, vec_len, IfOk, OnOk, OnErr, IsErrOf};
ghost use Rattle.std.specs.Io.KnownBytes.{IsAtEnd};
ghost use Rattle.km_ports.specs.declared.whole.ReadRefusal.TheVariants.{Failed, Memory};
ghost use Rattle.km_ports.specs.Ports.{TakesFrom, PutsInto, CountsPut};
ghost use Rattle.km_ports.specs.Whole.{IsWhole, IsLongerThan, TakesExactly, TakesUpTo, PutsPrefix, CountsRead};

use crate::port::{Failed, PutFault, Sink, Source};
use std::alloc::{AllocError, Global};

/// How many bytes one take asks for at most.
const PIECE_BYTES: usize = 4096;

/// Why a source was not read to its end.
#[derive(Clone, Copy, Debug, PartialEq, Eq)]
pub enum ReadRefusal {
    /// The source failed.
    Failed,
    /// The byte past the limit was read.
    TooLong,
    /// Want of memory.
    Memory,
}

impl From<Failed> for ReadRefusal {
    ghost from_gives = { λ _ refusal. refusal ≡ Failed };

    fn from(_failed: Failed) -> ReadRefusal {
        ReadRefusal::Failed
    }
}

impl From<AllocError> for ReadRefusal {
    ghost from_gives = { λ _ refusal. refusal ≡ Memory };

    fn from(_refused: AllocError) -> ReadRefusal {
        ReadRefusal::Memory
    }
}

/// Reads a source to its end, within a limit of bytes. It takes no more bytes than the limit and one. After a refusal
/// what was read is lost.
pub fn read_within<I: Source>(
    alloc: Global,
    input: &mut I,
    most: usize,
) -> Result<Vec<u8>, ReadRefusal>
    // All that was left is here, and nothing is left.
    ensures whole { IfOk result (λ bytes. IsWhole (I.state input.old) (I.state input.new) bytes.items) }
    ensures within { IfOk result (λ bytes. vec_len bytes ≤ most) }
    ensures bytes { IfOk result (λ bytes. TakesFrom (I.state input.old) (I.state input.new) bytes.items) }
    ensures end { OnOk result (IsAtEnd (I.state input.new).left) }

    // No more than the limit and one byte were taken.
    ensures taken { TakesUpTo (most + 1) (I.state input.old) (I.state input.new) }

    // The limit and one byte were taken, so the source has more than the limit.
    ensures long { IsErrOf result ReadRefusal.TooLong → IsLongerThan most (I.state input.old) }
    ensures excess { IsErrOf result ReadRefusal.TooLong →
        TakesExactly (most + 1) (I.state input.old) (I.state input.new) }

    // The count of faults rose exactly where `Failed` is answered.
    ensures later { (I.state input.old).faults ≤ (I.state input.new).faults }
    ensures cause { CountsRead (I.state input.old) (I.state input.new) result }
{
    let mut found = Vec::new(alloc);
    while found.len() <= most {
        let room = most - found.len();
        let count = read_more(input, &mut found, room)?;
        if count == 0 {
            return Ok(found);
        }
    }
    Err(ReadRefusal::TooLong)
}

/// Takes bytes once and puts them behind those that were found: at most `room` and one.
fn read_more<I: Source>(
    input: &mut I,
    found: &mut Vec<u8>,
    room: usize,
) -> Result<usize, ReadRefusal>
    ensures within { IfOk result (λ count. count ≤ room + 1) }
    ensures found { IfOk result (λ count. vec_len found.new ≡ vec_len found.old + count) }
    ensures bytes { IfOk result (λ count. (taken : List ℕ) × (found.new.items ≡ found.old.items ++ taken)
        × TakesFrom (I.state input.old) (I.state input.new) taken) }
    ensures end { IfOk result (λ count. count ≡ 0 → IsAtEnd (I.state input.old).left) }
    ensures taken { OnErr result (TakesUpTo (room + 1) (I.state input.old) (I.state input.new)) }
    ensures long { IsErrOf result ReadRefusal.TooLong → ⊥ }
    ensures later { (I.state input.old).faults ≤ (I.state input.new).faults }
    ensures cause { CountsRead (I.state input.old) (I.state input.new) result }
{
    let mut piece = [0; PIECE_BYTES];
    let asked = room.min(PIECE_BYTES - 1) + 1;
    let count = input.take(&mut piece[..asked])?;
    found.extend_from_slice(&piece[..count])?;
    Ok(count)
}

/// Writes all of these bytes.
pub fn put_all<O: Sink>(output: &mut O, bytes: &[u8]) -> Result<(), PutFault>
    ensures bytes { OnOk result (PutsInto (O.state output.old) (O.state output.new) bytes.now) }

    // Less than the whole was written.
    ensures prefix { OnErr result (PutsPrefix (O.state output.old) (O.state output.new) bytes.now) }

    // The count of faults rose exactly where `Failed` is answered.
    ensures later { (O.state output.old).faults ≤ (O.state output.new).faults }
    ensures cause { CountsPut (O.state output.old) (O.state output.new) result }
{
    let mut at = 0;
    while at < bytes.len() {
        at += output.put(&bytes[at..])?;
    }
    Ok(())
}

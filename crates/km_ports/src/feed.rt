//! Bytes of which the first are given away.

ghost use Rattle.std.specs.Prelude.{◌≡◌, ◌++◌, length, min, take};

use std::marker::Model;

/// Bytes of which the first are given away.
#[derive(Drop)]
pub struct Feed {
    bytes: Vec<u8>,
    at: usize,
}

impl Model for Feed {
    ghost use Rattle.std.specs.Prelude.{◌≤◌, ℕ, List, drop, vec_len};

    ghost Value = { List ℕ };

    ghost view = { λ f. drop f.at f.bytes.items };

    ghost invariant = { λ f. f.at ≤ vec_len f.bytes };
}

impl Feed {
    /// All of these bytes are left.
    pub fn new(bytes: Vec<u8>) -> Feed
        ensures { result ≡ bytes.items }
    {
        Feed { bytes, at: 0 }
    }

    /// Gives the next bytes: as many as are left, as the piece has room for and as `most` says.
    pub fn give(&mut self, most: usize, piece: &mut [u8]) -> usize
        ensures count { result ≡ min most (min (length piece.new) (length self.old)) }
        ensures bytes { self.old ≡ take result piece.new ++ self.new }
    {
        let left = &self.bytes[self.at..];
        let count = most.min(piece.len().min(left.len()));
        piece[..count].copy_from_slice(&left[..count]);
        self.at += count;
        count
    }
}

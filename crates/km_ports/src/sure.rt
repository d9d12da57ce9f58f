//! A source and a sink in memory that never fail.

ghost use Rattle.std.specs.Prelude.{◌≡◌, [], Some};

use crate::feed::Feed;
use crate::port::{Failed, PutFault, Sink, Source};
use std::alloc::Global;
use std::marker::Model;

/// A source of the bytes that it was made with. Contracts see the bytes that are left.
#[derive(Drop)]
pub struct SureSource {
    feed: Feed,
}

impl Model for SureSource {
    ghost use Rattle.std.specs.Prelude.{ℕ, List};

    ghost Value = { List ℕ };

    ghost view = { λ s. s.feed };
}

impl SureSource {
    /// All of these bytes are left.
    pub fn new(bytes: Vec<u8>) -> SureSource
        ensures { result ≡ bytes.items }
    {
        SureSource {
            feed: Feed::new(bytes),
        }
    }
}

impl Source for SureSource {
    ghost state = { λ source. record { left = Some source; faults = 0 } };

    /// Gives as many bytes as are left and as the piece has room for.
    fn take(&mut self, piece: &mut [u8]) -> Result<usize, Failed> {
        let room = piece.len();
        Ok(self.feed.give(room, piece))
    }
}

/// A sink that keeps what it is given. Contracts see those bytes.
#[derive(Drop)]
pub struct VecSink {
    bytes: Vec<u8>,
}

impl Model for VecSink {
    ghost use Rattle.std.specs.Prelude.{ℕ, List};

    ghost Value = { List ℕ };

    ghost view = { λ s. s.bytes.items };
}

impl VecSink {
    /// Nothing was written.
    pub fn new(alloc: Global) -> VecSink
        ensures { result ≡ [] }
    {
        VecSink {
            bytes: Vec::new(alloc),
        }
    }

    /// What was written.
    pub fn written(&self) -> &[u8]
        ensures { result.now ≡ self.now }
    {
        &self.bytes
    }
}

impl Sink for VecSink {
    ghost state = { λ sink. record { written = Some sink; faults = 0 } };

    /// Appends the whole piece, or nothing for want of memory.
    fn put(&mut self, piece: &[u8]) -> Result<usize, PutFault> {
        self.bytes.extend_from_slice(piece)?;
        Ok(piece.len())
    }
}

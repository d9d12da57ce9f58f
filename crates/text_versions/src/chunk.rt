//! Chunks: the lines of a text in pieces that texts share.
ghost use Rattle.std.specs.Prelude.{◌≡◌, ◌+◌, ◌*◌, ◌<◌, ◌≤◌, length, vec_len, IfOk, OnOk};
ghost use Rattle.std.specs.Arc.{arc_value};
ghost use Rattle.text_versions.specs.Texts.{ended_bytes};
ghost use Rattle.text_versions.specs.Chunks.{pieces_in, lines_in};
ghost use Rattle.text_versions.specs.Cuts.{AreCut};

use crate::limits::ended_bytes;
use km_base::{Ledger, Memory, Steps};
use kumir_tree::{Line, Lines};
use sqlite_items::Items;
use std::alloc::Global;
use std::marker::Model;
use std::sync::Arc;

/// The most lines of a chunk.
pub(crate) const CHUNK_LINES: usize = 64;

/// From 1 to 64 neighbouring lines of a text, with the count of their bytes, seen as the list of the lines.
#[derive(Debug, Drop)]
pub struct Chunk {
    lines: Lines,
    bytes: u128,
}

impl Model for Chunk {
    ghost use Rattle.std.specs.Prelude.{List, ℕ};
    ghost use Rattle.text_versions.specs.Chunks.{IsChunk};

    ghost Value = { List (List ℕ) };

    ghost view = { λ c. c.lines };

    ghost invariant = { λ c. IsChunk c.lines c.bytes };
}

impl Chunk {
    /// The chunk of the lines, of which there are from 1 to 64, to be shared. Each chunk is made here, and counted.
    pub fn new<L: Ledger>(
        alloc: Global,
        lines: Lines,
        made: &mut Steps<L>,
    ) -> Result<Arc<Chunk>, Memory>
        requires some { 1 ≤ length lines }
        requires few { length lines ≤ 64 }
        ensures lines { IfOk result (λ chunk. arc_value chunk ≡ lines) }
        ensures counted { made.new ≡ made.old + 1 }
    {
        made.tick();
        let bytes = ended_bytes(lines.as_slice());
        Ok(Arc::new(alloc, Chunk { lines, bytes })?)
    }

    /// The lines in order.
    pub fn lines(&self) -> &[Line]
        ensures shown { result.now ≡ self.now }
        ensures some { 1 ≤ length self.now }
        ensures few { length self.now ≤ 64 }
    {
        self.lines.as_slice()
    }

    /// The bytes of the lines, and one byte for the end of each.
    pub fn bytes(&self) -> u128
        ensures { result ≡ ended_bytes self.now }
    {
        self.bytes
    }
}

/// The lines in chunks of 64 and one rest.
pub(crate) fn cut<L: Ledger>(
    alloc: Global,
    mut lines: Vec<Line>,
    made: &mut Steps<L>,
) -> Result<Vec<Arc<Chunk>>, Memory>
    ensures lines { IfOk result (λ chunks. lines_in chunks.items ≡ lines.items) }
    ensures pieces { IfOk result (λ chunks. AreCut (pieces_in chunks.items) (vec_len lines)) }
    ensures made { OnOk result (64 * made.new ≤ 64 * made.old + vec_len lines + 63) }
{
    let mut chunks = Vec::new(alloc);
    while lines.len() > CHUNK_LINES {
        let last = lines.split_off((lines.len() - 1) / CHUNK_LINES * CHUNK_LINES)?;
        chunks.insert(0, Chunk::new(alloc, Items::from_vec(last), made)?)?;
    }
    if !lines.is_empty() {
        lines.shrink_to_fit();
        chunks.insert(0, Chunk::new(alloc, Items::from_vec(lines), made)?)?;
    }
    Ok(chunks)
}

//! The chunks of a text.
ghost use Rattle.std.specs.Prelude.{◌≡◌, ◌<◌, ◌≤◌, ◌⊎◌, [], true, length, slice_get, Some, IfOk, MatchOption};
ghost use Rattle.text_versions.specs.Texts.{is_within};
ghost use Rattle.text_versions.specs.Chunks.{pieces_in, lines_in, AreChunks};
ghost use Rattle.text_versions.specs.ChunkLists.{pieces_of, lines_of, IsChunkList};

use crate::chunk::{Chunk, cut};
use crate::copies::copy_lines;
use crate::limits::{Limits, ended_bytes};
use km_base::{Memory, Steps, Uncounted};
use kumir_tree::Line;
use std::alloc::Global;
use std::sync::Arc;

/// The chunks of a text, and what is known of its lines.
#[derive(Debug, Drop)]
pub(crate) struct ChunkList {
    pub chunks: Vec<Arc<Chunk>>,
    /// How many lines there are.
    pub count: u32,
    /// The bytes of the lines, and one byte for the end of each.
    pub bytes: u32,
    /// No line has more characters.
    pub characters: u32,
}

/// The lines in chunks.
fn chunks_of(alloc: Global, lines: &[Line]) -> Result<Vec<Arc<Chunk>>, Memory>
    ensures chunks { IfOk result (λ chunks. AreChunks (pieces_in chunks.items)) }
    ensures lines { IfOk result (λ chunks. lines_in chunks.items ≡ lines.now) }
{
    let mut copied = Vec::with_capacity(alloc, lines.len())?;
    copy_lines(alloc, &mut copied, lines)?;
    cut(alloc, copied, &mut Steps::<Uncounted>::new())
}

/// Shares each of the chunks.
fn share_all(alloc: Global, chunks: &[Arc<Chunk>]) -> Result<Vec<Arc<Chunk>>, Memory>
    ensures { IfOk result (λ shared. pieces_in shared.items ≡ pieces_in chunks.now) }
{
    let mut shared = Vec::with_capacity(alloc, chunks.len())?;
    for chunk in chunks {
        shared.push(Arc::try_clone(chunk)?)?;
    }
    Ok(shared)
}

/// The line of the chunks at the place, counted from 0. None comes exactly behind the last line.
pub(crate) fn line_at(chunks: &[Arc<Chunk>], mut at: usize) -> Option<&Line>
    ensures { MatchOption result (length (lines_in chunks.now) ≤ at)
        (λ l. slice_get (lines_in chunks.now) at ≡ Some l.now) }
{
    for chunk in chunks {
        let lines = chunk.lines();
        if at < lines.len() {
            return Some(&lines[at]);
        }
        at -= lines.len();
    }
    None
}

impl ChunkList {
    /// No chunk.
    pub fn empty(alloc: Global) -> ChunkList
        ensures list { IsChunkList result }
        ensures lines { lines_of result ≡ [] }
    {
        ChunkList {
            chunks: Vec::new(alloc),
            count: 0,
            bytes: 0,
            characters: 0,
        }
    }

    /// The chunks of the lines.
    pub fn of_lines(alloc: Global, lines: &[Line], limits: Limits) -> Result<ChunkList, Memory>
        requires fewer_lines { limits.lines < 4294967295 }
        requires fewer_bytes { limits.bytes < 4294967295 }
        requires within { is_within limits lines.now ≡ true }
        ensures list { IfOk result (λ list. IsChunkList list) }
        ensures lines { IfOk result (λ list. lines_of list ≡ lines.now) }
    {
        Ok(ChunkList {
            chunks: chunks_of(alloc, lines)?,
            count: lines.len() as u32,
            bytes: ended_bytes(lines) as u32,
            characters: limits.characters,
        })
    }

    /// The same chunks, shared.
    pub fn copy(&self, alloc: Global) -> Result<ChunkList, Memory>
        requires { IsChunkList self.now }
        ensures list { IfOk result (λ list. IsChunkList list) }
        ensures lines { IfOk result (λ list. lines_of list ≡ lines_of self.now) }
    {
        Ok(ChunkList {
            chunks: share_all(alloc, self.chunks.as_slice())?,
            count: self.count,
            bytes: self.bytes,
            characters: self.characters,
        })
    }
}

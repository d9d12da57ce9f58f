//! What an edit puts in the place of chunks of a text.
ghost use Rattle.std.specs.Prelude.{◌≡◌, ◌+◌, ◌-◌, ◌<◌, ◌≤◌, ◌^◌, ◌++◌, ◌&&◌, true, length, take, drop, slice_range, IfOk};
ghost use Rattle.text_versions.specs.Texts.{ended_bytes, are_short};
ghost use Rattle.text_versions.specs.Chunks.{pieces_in, lines_in, AreChunks};
ghost use Rattle.text_versions.specs.Edits.{is_in_range, edited};
ghost use Rattle.text_versions.specs.Patches.{IsPatch};

use crate::chunk::Chunk;
use crate::copies::{copy_between, copy_lines};
use crate::edit::Edit;
use crate::limits::{are_short, ended_bytes};
use crate::region::{Region, kept_count, region_of};
use km_base::Memory;
use kumir_tree::Line;
use std::alloc::Global;
use std::sync::Arc;

/// Lines that take the place of a region of a text's chunks.
#[derive(Drop)]
pub(crate) struct Patch {
    pub region: Region,
    pub lines: Vec<Line>,
}

/// The patch that makes the edit.
pub(crate) fn patch_of(alloc: Global, chunks: &[Arc<Chunk>], edit: &Edit) -> Result<Patch, Memory>
    requires few { length (lines_in chunks.now) < 4294967296 }
    requires chunks { AreChunks (pieces_in chunks.now) }
    requires in_range { is_in_range (lines_in chunks.now) edit.now ≡ true }
    requires added { length edit.now.lines < 4294967296 }
    ensures { IfOk result (λ patch. IsPatch (pieces_in chunks.now) edit.now patch) }
{
    let from = edit.from as usize - 1;
    let to = from + edit.count as usize;
    let region = region_of(chunks, from, to, edit.lines.len());
    let touched = &chunks[region.first..region.last];
    let count = kept_count(region, from, to) + edit.lines.len();
    let mut lines = Vec::with_capacity(alloc, count)?;
    copy_between(alloc, &mut lines, touched, 0, from - region.start)?;
    copy_lines(alloc, &mut lines, edit.lines.as_slice())?;
    copy_between(
        alloc,
        &mut lines,
        touched,
        to - region.start,
        region.end - region.start,
    )?;
    Ok(Patch { region, lines })
}

/// The bytes of the chunks' lines, and one byte for the end of each.
fn bytes_of(chunks: &[Arc<Chunk>]) -> u128
    requires { ended_bytes (lines_in chunks.now) < 2 ^ 64 }
    ensures { result ≡ ended_bytes (lines_in chunks.now) }
{
    let mut bytes = 0;
    for chunk in chunks {
        bytes += chunk.bytes();
    }
    bytes
}

/// The bytes of the lines of the patched chunks, and one byte for the end of each.
pub(crate) fn bytes_after(chunks: &[Arc<Chunk>], bytes: u32, edit: &Edit, patch: &Patch) -> u128
    requires bytes { bytes ≡ ended_bytes (lines_in chunks.now) }
    requires in_range { is_in_range (lines_in chunks.now) edit.now ≡ true }
    requires patch { IsPatch (pieces_in chunks.now) edit.now patch.now }
    ensures { result ≡ ended_bytes (edited (lines_in chunks.now) edit.now) }
{
    let region = patch.region;
    u128::from(bytes) - bytes_of(&chunks[region.first..region.last])
        + ended_bytes(patch.lines.as_slice())
}

/// Whether no line of the chunks has more characters.
fn chunks_are_short(characters: u32, chunks: &[Arc<Chunk>]) -> bool
    ensures { result ≡ are_short characters (lines_in chunks.now) }
{
    for chunk in chunks {
        if !are_short(characters, chunk.lines()) {
            return false;
        }
    }
    true
}

/// Whether none of these lines has more characters.
fn all_are_short(
    characters: u32,
    before: &[Arc<Chunk>],
    lines: &[Line],
    behind: &[Arc<Chunk>],
) -> bool
    ensures { result ≡ (are_short characters (lines_in before.now) && are_short characters lines.now
        && are_short characters (lines_in behind.now)) }
{
    chunks_are_short(characters, before)
        && are_short(characters, lines)
        && chunks_are_short(characters, behind)
}

/// Whether no line of the patched chunks has more than `most` characters, where none of the chunks has more than `known`.
pub(crate) fn are_short_after(
    chunks: &[Arc<Chunk>],
    known: u32,
    most: u32,
    edit: &Edit,
    patch: &Patch,
) -> bool
    requires known { are_short known (lines_in chunks.now) ≡ true }
    requires in_range { is_in_range (lines_in chunks.now) edit.now ≡ true }
    requires patch { IsPatch (pieces_in chunks.now) edit.now patch.now }
    ensures { result ≡ are_short most (edited (lines_in chunks.now) edit.now) }
{
    if known <= most {
        return are_short(most, edit.lines.as_slice());
    }
    all_are_short(
        most,
        &chunks[..patch.region.first],
        patch.lines.as_slice(),
        &chunks[patch.region.last..],
    )
}

//! Edits of the chunks of a text.
ghost use Rattle.std.specs.Prelude.{◌≡◌, ◌+◌, ◌/◌, ◌<◌, ◌≤◌, ◌≢◌, Ok, Err, length, IfOk, IfErr, OnOk, OnErr};
ghost use Rattle.std.specs.List.{splice};
ghost use Rattle.text_versions.specs.Edits.{is_in_range, edited, outcome_of};
ghost use Rattle.text_versions.specs.ChunkLists.{lines_of, IsChunkList};
ghost use Rattle.text_versions.specs.Applied.{IsAllowed};

use crate::chunk::{Chunk, cut};
use crate::chunk_list::ChunkList;
use crate::edit::Edit;
use crate::limits::Limits;
use crate::patch::{Patch, are_short_after, bytes_after, patch_of};
use crate::region::Region;
use crate::versions::ApplyRefusal;
use km_base::{Ledger, Memory, Steps};
use std::alloc::{AllocError, Global};
use std::sync::Arc;

/// A patch within the limits, and what is known of the lines that it leaves.
#[derive(Drop)]
pub(crate) struct Allowed {
    pub patch: Patch,
    /// How many lines there are.
    pub count: u32,
    /// The bytes of the lines, and one byte for the end of each.
    pub bytes: u32,
    /// No line has more characters.
    pub characters: u32,
}

/// Whether the lines that the edit replaces are lines of the chunks.
fn is_in_range(list: &ChunkList, edit: &Edit) -> bool
    requires { IsChunkList list.now }
    ensures { result ≡ is_in_range (lines_of list.now) edit.now }
{
    edit.from >= 1 && edit.from as usize - 1 + edit.count as usize <= list.count as usize
}

/// Allows the edit of the text of version `newest`, or says why not.
pub(crate) fn allow(
    alloc: Global,
    list: &ChunkList,
    edit: &Edit,
    limits: Limits,
    newest: u32,
) -> Result<Allowed, ApplyRefusal>
    requires list { IsChunkList list.now }
    requires fewer_lines { limits.lines < 4294967295 }
    requires fewer_bytes { limits.bytes < 4294967295 }
    ensures allowed { IfOk result (λ allowed. IsAllowed list.now edit.now allowed) }
    ensures accepted { OnOk result
        (outcome_of limits (lines_of list.now) newest edit.now ≡ Ok (edited (lines_of list.now) edit.now)) }
    ensures refused { IfErr result
        (λ e. (e ≢ ApplyRefusal.Memory) → outcome_of limits (lines_of list.now) newest edit.now ≡ Err e) }
{
    if !is_in_range(list, edit) {
        return Err(ApplyRefusal::Range);
    }
    let count = ((list.count - edit.count) as usize).saturating_add(edit.lines.len());
    if count > limits.lines as usize {
        return Err(ApplyRefusal::TooLong);
    }
    let chunks = list.chunks.as_slice();
    let patch = patch_of(alloc, chunks, edit)?;
    let bytes = bytes_after(chunks, list.bytes, edit, &patch);
    let characters = limits.characters;
    if bytes.saturating_sub(1) > u128::from(limits.bytes)
        || !are_short_after(chunks, list.characters, characters, edit, &patch)
    {
        return Err(ApplyRefusal::TooLong);
    }
    if newest >= limits.versions {
        return Err(ApplyRefusal::TooMany);
    }
    Ok(Allowed {
        patch,
        count: count as u32,
        bytes: bytes as u32,
        characters,
    })
}

/// Puts other chunks in the place of those of the region.
fn replace(
    chunks: &mut Vec<Arc<Chunk>>,
    region: Region,
    others: Vec<Arc<Chunk>>,
) -> Result<(), AllocError>
    requires order { region.first ≤ region.last }
    requires within { region.last ≤ length chunks.old.items }
    ensures replaced { OnOk result
        (chunks.new.items ≡ splice chunks.old.items region.first region.last others.items) }
    ensures unchanged { OnErr result (chunks.new.items ≡ chunks.old.items) }
{
    chunks.splice(region.first..region.last, others)?;
    Ok(())
}

/// Puts the patch of the edit in its place.
pub(crate) fn put<L: Ledger>(
    alloc: Global,
    list: &mut ChunkList,
    edit: &Edit,
    allowed: Allowed,
    made: &mut Steps<L>,
) -> Result<(), Memory>
    requires list { IsChunkList list.old }
    requires allowed { IsAllowed list.old edit.now allowed }
    ensures list { IsChunkList list.new }
    ensures edited { OnOk result (lines_of list.new ≡ edited (lines_of list.old) edit.now) }
    ensures unchanged { OnErr result (lines_of list.new ≡ lines_of list.old) }
    ensures made { OnOk result (made.new ≤ made.old + 8 + length edit.now.lines / 64) }
{
    let Patch { region, lines } = allowed.patch;
    let chunks = cut(alloc, lines, made)?;
    replace(&mut list.chunks, region, chunks)?;
    list.count = allowed.count;
    list.bytes = allowed.bytes;
    list.characters = allowed.characters;
    Ok(())
}

//! The chunks of a text that an edit touches. Chunks and lines are counted from 0 here.
ghost use Rattle.std.specs.Prelude.{◌≡◌, ◌+◌, ◌-◌, ◌<◌, ◌≤◌, [], length, take, drop, min, slice_index_or};
ghost use Rattle.text_versions.specs.Chunks.{joined, pieces_in, lines_in, AreChunks};
ghost use Rattle.text_versions.specs.Cuts.{rest_of, IsBegin, IsPlace, IsEnd, IsRegion, kept_count, FitsLeft, FitsRight};

use crate::chunk::{CHUNK_LINES, Chunk};
use std::sync::Arc;

/// Where a line stands: in the chunk `chunk`, which begins with line `start`.
#[derive(Clone, Copy)]
pub(crate) struct Place {
    pub chunk: usize,
    pub start: usize,
}

/// The chunks from `first` to before `last`, which have the lines from `start` to before `end`.
#[derive(Clone, Copy)]
pub(crate) struct Region {
    pub first: usize,
    pub last: usize,
    pub start: usize,
    pub end: usize,
}

/// How many lines the chunk has.
fn count_at(chunks: &[Arc<Chunk>], at: usize) -> usize
    requires { at < length chunks.now }
    ensures count { result ≡ length (slice_index_or (pieces_in chunks.now) at []) }
    ensures some { 1 ≤ result }
    ensures few { result ≤ 64 }
{
    chunks[at].lines().len()
}

/// The place of the line, which is looked for from `begin` on and may stand behind all chunks.
fn place_of(chunks: &[Arc<Chunk>], begin: Place, line: usize) -> Place
    requires few { length (lines_in chunks.now) < 4294967296 }
    requires begin { IsBegin (pieces_in chunks.now) begin }
    requires order { begin.start ≤ line }
    ensures place { IsPlace (pieces_in chunks.now) line result }
    ensures order { begin.chunk ≤ result.chunk }
{
    let mut start = begin.start;
    for chunk in begin.chunk..chunks.len() {
        let next = start + count_at(chunks, chunk);
        if line < next {
            return Place { chunk, start };
        }
        start = next;
    }
    Place {
        chunk: chunks.len(),
        start,
    }
}

/// The place where the chunks end that have the lines from those of `begin` on to before `to`.
fn end_of(chunks: &[Arc<Chunk>], begin: Place, to: usize) -> Place
    requires few { length (lines_in chunks.now) < 4294967296 }
    requires begin { IsBegin (pieces_in chunks.now) begin }
    requires order { begin.start ≤ to }
    requires within { to ≤ length (lines_in chunks.now) }
    ensures end { IsEnd (pieces_in chunks.now) to result }
    ensures order { begin.chunk ≤ result.chunk }
{
    let last = place_of(chunks, begin, to);
    if last.start == to {
        return last;
    }
    Place {
        chunk: last.chunk + 1,
        start: last.start + count_at(chunks, last.chunk),
    }
}

/// The chunks that have the lines from `from` to before `to`; none where there are no such lines and a chunk begins there.
fn touched(chunks: &[Arc<Chunk>], from: usize, to: usize) -> Region
    requires few { length (lines_in chunks.now) < 4294967296 }
    requires chunks { AreChunks (pieces_in chunks.now) }
    requires order { from ≤ to }
    requires within { to ≤ length (lines_in chunks.now) }
    ensures region { IsRegion (pieces_in chunks.now) from to result }
    ensures few { kept_count from to result ≤ 126 }
{
    let begin = place_of(chunks, Place { chunk: 0, start: 0 }, from);
    let end = end_of(chunks, begin, to);
    Region {
        first: begin.chunk,
        last: end.chunk,
        start: begin.start,
        end: end.start,
    }
}

/// How many lines of the region stand outside of those from `from` to before `to`.
pub(crate) fn kept_count(region: Region, from: usize, to: usize) -> usize
    requires before { region.start ≤ from }
    requires after { to ≤ region.end }
    requires few { from - region.start + (region.end - to) < 4294967296 }
    ensures { result ≡ kept_count from to region }
{
    from - region.start + (region.end - to)
}

/// The region with the chunk before it, where that and what takes the region's place have at most 64 lines together.
fn with_left(chunks: &[Arc<Chunk>], region: Region, from: usize, to: usize, added: usize) -> Region
    requires chunks { AreChunks (pieces_in chunks.now) }
    requires region { IsRegion (pieces_in chunks.now) from to region }
    requires few { kept_count from to region ≤ 126 }
    requires added { added < 4294967296 }
    ensures region { IsRegion (pieces_in chunks.now) from to result }
    ensures few { kept_count from to result ≤ 190 }
    ensures left { FitsLeft (pieces_in chunks.now) result (kept_count from to result + added) }
{
    if region.first == 0 {
        return region;
    }
    let first = region.first - 1;
    let lines = count_at(chunks, first);
    if lines + kept_count(region, from, to) + added > CHUNK_LINES {
        return region;
    }
    Region {
        first,
        start: region.start - lines,
        ..region
    }
}

/// How many lines the last chunk has of those into which so many lines are cut.
fn rest_of(count: usize) -> usize
    ensures { result ≡ rest_of count }
{
    if count == 0 {
        return 0;
    }
    (count - 1) % CHUNK_LINES + 1
}

/// The region with the chunk behind it, where that and what is left behind full chunks have at most 64 lines together.
fn with_right(chunks: &[Arc<Chunk>], region: Region, from: usize, to: usize, added: usize) -> Region
    requires total { length (lines_in chunks.now) < 4294967296 }
    requires chunks { AreChunks (pieces_in chunks.now) }
    requires region { IsRegion (pieces_in chunks.now) from to region }
    requires few { kept_count from to region ≤ 190 }
    requires left { FitsLeft (pieces_in chunks.now) region (kept_count from to region + added) }
    requires added { added < 4294967296 }
    ensures region { IsRegion (pieces_in chunks.now) from to result }
    ensures few { kept_count from to result ≤ 254 }
    ensures left { FitsLeft (pieces_in chunks.now) result (kept_count from to result + added) }
    ensures right { FitsRight (pieces_in chunks.now) result (kept_count from to result + added) }
{
    if region.last == chunks.len() {
        return region;
    }
    let lines = count_at(chunks, region.last);
    if lines + rest_of(kept_count(region, from, to) + added) > CHUNK_LINES {
        return region;
    }
    Region {
        last: region.last + 1,
        end: region.end + lines,
        ..region
    }
}

/// The chunks in whose place `added` lines take that of the lines from `from` to before `to`: with their neighbours,
/// where these are to be joined with what takes their place.
pub(crate) fn region_of(chunks: &[Arc<Chunk>], from: usize, to: usize, added: usize) -> Region
    requires few { length (lines_in chunks.now) < 4294967296 }
    requires chunks { AreChunks (pieces_in chunks.now) }
    requires order { from ≤ to }
    requires within { to ≤ length (lines_in chunks.now) }
    requires added { added < 4294967296 }
    ensures region { IsRegion (pieces_in chunks.now) from to result }
    ensures few { kept_count from to result ≤ 254 }
    ensures left { FitsLeft (pieces_in chunks.now) result (kept_count from to result + added) }
    ensures right { FitsRight (pieces_in chunks.now) result (kept_count from to result + added) }
{
    let region = touched(chunks, from, to);
    let region = with_left(chunks, region, from, to, added);
    with_right(chunks, region, from, to, added)
}

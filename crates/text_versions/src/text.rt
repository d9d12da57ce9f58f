//! Texts.
ghost use Rattle.std.specs.Prelude.{◌≡◌, ◌-◌, ◌+◌, ◌*◌, ◌/◌, take, drop, ◌<◌, ◌≤◌, ◌≢◌, ◌⊎◌, [], true, length, slice_get, Some, Ok, Err, MatchOption, IfOk, IfErr, OnOk, OnErr, if◌then◌else◌};
ghost use Rattle.std.specs.Arc.{arc_value};
ghost use Rattle.text_versions.specs.Texts.{IsText, IsUnless, is_within, text_limits};
ghost use Rattle.text_versions.specs.Chunks.{pieces_in, lines_in, AreChunks};
ghost use Rattle.text_versions.specs.Edits.{outcome_of};

use crate::applied::{allow, put};
use crate::chunk::Chunk;
use crate::chunk_list::{ChunkList, line_at};
use crate::copies::copy_between;
use crate::edit::Edit;
use crate::limits::{Limits, TEXT_LIMITS, is_within};
use crate::versions::ApplyRefusal;
use km_base::{Ledger, Memory, Steps};
use kumir_tree::{Line, Lines};
use sqlite_items::Items;
use std::alloc::{AllocError, Global};
use std::marker::Model;
use std::sync::Arc;

/// A text, seen as the list of its lines, each as the list of its characters. It has fewer than 4,294,967,295 lines and
/// fewer than 4,294,967,295 bytes, with one byte counted between each two neighbouring lines. Its lines stand in chunks
/// of 1 to 64 lines, any two neighbours together above 64, and texts share chunks.
#[derive(Debug, Drop)]
pub struct Text {
    list: ChunkList,
}

impl Model for Text {
    ghost use Rattle.std.specs.Prelude.{List, ℕ};
    ghost use Rattle.text_versions.specs.ChunkLists.{lines_of, IsChunkList};

    ghost Value = { List (List ℕ) };

    ghost view = { λ t. lines_of t.list };

    ghost invariant = { λ t. IsChunkList t.list };
}

/// Why lines are no text.
#[derive(Clone, Copy, Debug, PartialEq, Eq)]
pub enum TextRefusal {
    /// A limit of the text is passed (docs/PROGRAM.md, "Limits").
    TooLong,
    Memory,
}

impl From<Memory> for TextRefusal {
    ghost use Rattle.std.specs.Prelude.{◌≡◌};
    ghost use Rattle.text_versions.specs.declared.text.TextRefusal.TheVariants.{Memory};

    ghost from_gives = { λ m e. e ≡ Memory };

    fn from(_refused: Memory) -> TextRefusal {
        TextRefusal::Memory
    }
}

impl Text {
    /// The text without lines.
    pub(crate) fn empty(alloc: Global) -> Text
        ensures { result ≡ [] }
    {
        Text {
            list: ChunkList::empty(alloc),
        }
    }

    /// The text of the lines. `TooLong` comes exactly where a limit of the text is passed.
    pub fn from_lines(alloc: Global, lines: Lines) -> Result<Text, TextRefusal>
        ensures answer { IsUnless TextRefusal.Memory
            (if is_within text_limits lines then Ok lines else Err TextRefusal.TooLong) result }
        ensures text { IfOk result (λ t. t ≡ lines) }
        ensures within { OnOk result (is_within text_limits lines ≡ true) }
    {
        if !is_within(lines.as_slice(), TEXT_LIMITS) {
            return Err(TextRefusal::TooLong);
        }
        let list = ChunkList::of_lines(alloc, lines.as_slice(), TEXT_LIMITS)?;
        Ok(Text { list })
    }

    /// The text, to be shared.
    pub fn shared(self, alloc: Global) -> Result<Arc<Text>, AllocError>
        ensures { IfOk result (λ shared. arc_value shared ≡ self) }
    {
        Ok(Arc::new(alloc, self)?)
    }

    /// The same text, which shares the chunks of this one.
    pub(crate) fn copy(&self, alloc: Global) -> Result<Text, Memory>
        ensures { IfOk result (λ text. text ≡ self.now) }
    {
        let list = self.list.copy(alloc)?;
        Ok(Text { list })
    }

    /// How many lines the text has. It takes no memory.
    pub fn count(&self) -> u32
        ensures count { result ≡ length self.now }
        ensures text { IsText self.now }
    {
        self.list.count
    }

    /// The line with that number, counted from 1. None comes exactly outside 1 to the count.
    pub fn line(&self, number: u32) -> Option<&Line>
        ensures { MatchOption result ((number ≡ 0) ⊎ (length self.now < number))
            (λ l. (1 ≤ number) × (number ≤ length self.now)
            × (slice_get self.now (number - 1) ≡ Some l.now)) }
    {
        if number == 0 {
            return None;
        }
        line_at(self.list.chunks.as_slice(), number as usize - 1)
    }

    /// The chunks of the text in order. A text of 8,192 lines has at most 253, and one of 32,768 lines at most 1,009.
    pub fn chunks(&self) -> &[Arc<Chunk>]
        ensures lines { lines_in result.now ≡ self.now }
        ensures chunks { AreChunks (pieces_in result.now) }
        ensures few { 65 * (length result.now / 2) ≤ length self.now }
    {
        self.list.chunks.as_slice()
    }

    /// The `count` lines from line `from` on, counted from 1.
    pub fn piece(&self, alloc: Global, from: u32, count: u32) -> Result<Lines, Memory>
        requires counted { 1 ≤ from }
        requires within { from - 1 + count ≤ length self.now }
        ensures { IfOk result (λ lines. lines ≡ take count (drop (from - 1) self.now)) }
    {
        let mut lines = Vec::with_capacity(alloc, count as usize)?;
        let from = from as usize - 1;
        let to = from + count as usize;
        copy_between(alloc, &mut lines, self.list.chunks.as_slice(), from, to)?;
        Ok(Items::from_vec(lines))
    }

    /// Carries out the edit, where the text is that of version `newest`. Where more than one refusal has its cause, the
    /// first in the order of `ApplyRefusal` comes.
    pub(crate) fn apply<L: Ledger>(
        &mut self,
        alloc: Global,
        edit: &Edit,
        limits: Limits,
        newest: u32,
        made: &mut Steps<L>,
    ) -> Result<(), ApplyRefusal>
        requires fewer_lines { limits.lines < 4294967295 }
        requires fewer_bytes { limits.bytes < 4294967295 }
        ensures accepted { OnOk result (outcome_of limits self.old newest edit.now ≡ Ok self.new) }
        ensures refused { IfErr result
            (λ e. (e ≢ ApplyRefusal.Memory) → outcome_of limits self.old newest edit.now ≡ Err e) }
        ensures unchanged { OnErr result (self.new ≡ self.old) }
        ensures made { OnOk result (made.new ≤ made.old + 8 + length edit.now.lines / 64) }
    {
        let allowed = allow(alloc, &self.list, edit, limits, newest)?;
        put(alloc, &mut self.list, edit, allowed, made)?;
        Ok(())
    }
}

//! The versions of a text.
ghost use Rattle.std.specs.Prelude.{◌≡◌, ◌+◌, ◌/◌, ◌<◌, ◌≤◌, [], ◌∷◌, ◌++◌, length, IfOk, OnOk, OnErr};
ghost use Rattle.std.specs.Arc.{arc_value};
ghost use Rattle.text_versions.specs.Texts.{IsUnless, text_limits};
ghost use Rattle.text_versions.specs.Edits.{text_after, answer_to};
ghost use Rattle.text_versions.specs.Changes.{edit_of_change, answer_to_change};

use crate::change::{changed_line, line_edit};
use crate::edit::Edit;
use crate::limits::{Limits, TEXT_LIMITS, character_count};
use crate::text::Text;
use km_base::{Ledger, Memory, Noted, Steps, Uncounted};
use kumir_tree::Line;
use std::alloc::{AllocError, Global};
use std::marker::Model;
use std::sync::Arc;

/// The versions of a text that began without lines, seen as the list of the accepted edits. Only the newest text is kept.
#[derive(Drop)]
pub struct Versions {
    newest: u32,
    text: Text,
    edits: Noted<Edit>,
    alloc: Global,
}

impl Model for Versions {
    ghost use Rattle.std.specs.Prelude.{List};
    ghost use Rattle.text_versions.specs.declared.edit.Edit.{Edit};
    ghost use Rattle.text_versions.specs.Versions.{AreVersions};

    ghost Value = { List Edit };

    ghost view = { λ v. v.edits };

    ghost invariant = { λ v. AreVersions v.newest v.text v.edits };
}

/// Why an edit is refused, in this order.
#[derive(Clone, Copy, Debug, PartialEq, Eq)]
pub enum ApplyRefusal {
    /// The edit's lines are not lines of the text.
    Range,
    /// The new text would pass a limit.
    TooLong,
    /// The newest version has the greatest number.
    TooMany,
    Memory,
}

impl From<Memory> for ApplyRefusal {
    ghost use Rattle.std.specs.Prelude.{◌≡◌};
    ghost use Rattle.text_versions.specs.declared.versions.ApplyRefusal.TheVariants.{Memory};

    ghost from_gives = { λ m e. e ≡ Memory };

    fn from(_refused: Memory) -> ApplyRefusal {
        ApplyRefusal::Memory
    }
}

impl From<AllocError> for ApplyRefusal {
    ghost use Rattle.std.specs.Prelude.{◌≡◌};
    ghost use Rattle.text_versions.specs.declared.versions.ApplyRefusal.TheVariants.{Memory};

    ghost from_gives = { λ m e. e ≡ Memory };

    fn from(_refused: AllocError) -> ApplyRefusal {
        ApplyRefusal::Memory
    }
}

impl Versions {
    /// Version 0, the text without lines.
    pub fn new(alloc: Global) -> Result<Versions, Memory>
        ensures { IfOk result (λ v. v ≡ []) }
    {
        Ok(Versions {
            newest: 0,
            text: Text::empty(alloc),
            edits: Noted::new(),
            alloc,
        })
    }

    /// The number of the newest version. It takes no memory.
    pub fn newest(&self) -> u32
        ensures { result ≡ length self.now }
    {
        self.newest
    }

    /// The newest text, which shares its chunks and keeps its lines whatever edits and changes follow.
    pub fn snapshot(&self) -> Result<Arc<Text>, Memory>
        ensures { IfOk result (λ text. arc_value text ≡ text_after self.now) }
    {
        Ok(self.text.copy(self.alloc)?.shared(self.alloc)?)
    }

    /// Makes the next version of the text by the edit, and answers its number. Where more than one refusal has its
    /// cause, the first in the order of `ApplyRefusal` comes. Every refusal leaves all as it was.
    pub fn apply(&mut self, edit: Edit) -> Result<u32, ApplyRefusal>
        ensures answer { IsUnless ApplyRefusal.Memory (answer_to text_limits self.old edit) result }
        ensures accepted { OnOk result (self.new ≡ self.old ++ edit ∷ []) }
        ensures refused { OnErr result (self.new ≡ self.old) }
    {
        self.apply_counted(edit, &mut Steps::<Uncounted>::new())
    }

    /// `apply`, where each chunk that is made is counted.
    pub fn apply_counted<L: Ledger>(
        &mut self,
        edit: Edit,
        made: &mut Steps<L>,
    ) -> Result<u32, ApplyRefusal>
        ensures answer { IsUnless ApplyRefusal.Memory (answer_to text_limits self.old edit) result }
        ensures accepted { OnOk result (self.new ≡ self.old ++ edit ∷ []) }
        ensures refused { OnErr result (self.new ≡ self.old) }
        ensures made { OnOk result (made.new ≤ made.old + 8 + length edit.lines / 64) }
    {
        self.apply_within(edit, TEXT_LIMITS, made)
    }

    /// `apply_counted` with these limits.
    pub fn apply_within<L: Ledger>(
        &mut self,
        edit: Edit,
        limits: Limits,
        made: &mut Steps<L>,
    ) -> Result<u32, ApplyRefusal>
        requires fewer_lines { limits.lines < 4294967295 }
        requires fewer_bytes { limits.bytes < 4294967295 }
        ensures answer { IsUnless ApplyRefusal.Memory (answer_to limits self.old edit) result }
        ensures accepted { OnOk result (self.new ≡ self.old ++ edit ∷ []) }
        ensures refused { OnErr result (self.new ≡ self.old) }
        ensures made { OnOk result (made.new ≤ made.old + 8 + length edit.lines / 64) }
    {
        self.text
            .apply(self.alloc, &edit, limits, self.newest, made)?;
        self.edits.note(&edit);
        self.newest += 1;
        Ok(self.newest)
    }

    /// Puts the text in the place of `count` characters from place `from` on, counted from 0, of the line with that
    /// number, counted from 1, within the limits. An accepted change stands for the edit that puts the changed line in the
    /// place of that line. `Range` comes exactly where there is no such line, or where `from + count` is above its number of
    /// characters; then all is as in `apply_within`.
    pub fn change_within<L: Ledger>(
        &mut self,
        line: u32,
        from: u32,
        count: u32,
        text: Line,
        limits: Limits,
        made: &mut Steps<L>,
    ) -> Result<u32, ApplyRefusal>
        requires fewer_lines { limits.lines < 4294967295 }
        requires fewer_bytes { limits.bytes < 4294967295 }
        ensures answer { IsUnless ApplyRefusal.Memory
            (answer_to_change limits self.old line from count text) result }
        ensures accepted { OnOk result
            (self.new ≡ self.old ++ edit_of_change (text_after self.old) line from count text ∷ []) }
        ensures refused { OnErr result (self.new ≡ self.old) }
        ensures made { OnOk result (made.new ≤ made.old + 8) }
    {
        let Some(old) = self.text.line(line) else {
            return Err(ApplyRefusal::Range);
        };
        if from as usize + count as usize > character_count(old) {
            return Err(ApplyRefusal::Range);
        }
        let changed = changed_line(self.alloc, old, from, count, &text)?;
        let edit = line_edit(self.alloc, line, changed)?;
        self.apply_within(edit, limits, made)
    }
}

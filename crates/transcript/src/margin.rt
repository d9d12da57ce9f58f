//! Margins, read from the words of their lines.
ghost use Rattle.std.specs.Prelude.{◌≡◌, ℕ, List, ◌∷◌, map, Some, IfOk};
ghost use Rattle.std.specs.Fmt.{decimal};
ghost use Rattle.margins.specs.declared.margin.Mark.{Mark};
ghost use Rattle.margins.specs.Marks.{IsMargin};
ghost use Rattle.margins.specs.Printed.{mark_word};
ghost use Rattle.transcript.specs.declared.entry.Entry.TheVariants.{Margin};
ghost use Rattle.transcript.specs.Print.{IsNumber};

use crate::entry::Entry;
use decimals::read_number;
use km_base::Memory;
use std::alloc::Global;

/// What follows `margin`.
pub fn read_margin(alloc: Global, words: &[&str]) -> Result<Option<Entry>, Memory>
    ensures { (version : ℕ) (marks : List Mark) → IsNumber version → IsMargin marks → map (λ w. w.now) words.now ≡ decimal version ∷ map mark_word marks → IfOk result (λ e. e ≡ Some (Margin version marks)) }
{
    let Some((version, marks)) = words.split_first() else {
        return Ok(None);
    };
    let Some(version) = read_number(alloc, version)? else {
        return Ok(None);
    };
    let Some(margin) = margins::read_words(alloc, marks)? else {
        return Ok(None);
    };
    Ok(Some(Entry::Margin { version, margin }))
}

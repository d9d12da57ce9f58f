//! The lines of a text as values of their own.

ghost use Rattle.std.specs.Prelude.{◌≡◌, All, map, IfOk};
ghost use Rattle.std.specs.Str.{chars, encode_utf8_all};
ghost use Rattle.plain_run.specs.Feeds.{HasNoFeed, weight};

use km_base::Memory;
use kumir_tree::{Line, Lines};
use std::alloc::Global;

fn line_of(alloc: Global, text: &str) -> Result<Line, Memory>
    requires { HasNoFeed text.now }
    ensures line { IfOk result (λ l. l ≡ chars text.now) }
    ensures spelled { IfOk result (λ l. encode_utf8_all l ≡ text.now) }
{
    Ok(Line::new(alloc, text)?)
}

/// The lines, each with its characters.
pub fn owned_lines(alloc: Global, lines: &[&str]) -> Result<Lines, Memory>
    requires { All (λ line. HasNoFeed line.now) lines.now }
    ensures lines { IfOk result (λ owned. owned ≡ map (λ line. chars line.now) lines.now) }
    ensures spelled { IfOk result (λ owned. map encode_utf8_all owned ≡ map (λ line. line.now) lines.now) }
{
    let mut owned = Lines::new(alloc);
    for line in lines {
        owned.push(line_of(alloc, line)?)?;
    }
    Ok(owned)
}

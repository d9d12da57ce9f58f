//! The units of a text as ranges of its lines (docs/LANGUAGE.md, "Units").

ghost use Rattle.std.specs.Prelude.{◌≡◌, ◌+◌, ◌<◌, ◌≤◌, ◌↔◌, length, IsTrue, IfOk, slice_index_or, []};
ghost use Rattle.std.specs.Str.{encode_utf8_all};
ghost use Rattle.line_pieces.specs.Spans.{BeginsUnit, IsAlgorithmWord, NoneBegins, AreSpans, AreShort};

use km_base::Memory;
use kumir_lexer::{lex_line, one_cutting};
use kumir_tree::{Key, Line, Spanned, Token};
use sqlite_items::Items;
use std::alloc::Global;

/// The `count` lines from line `first` on, counted from 1.
#[derive(Clone, Copy, Debug, PartialEq, Eq)]
pub struct LineSpan {
    pub first: u32,
    pub count: u32,
}

/// The span of the prelude, which may be empty, and then those of the units.
pub type UnitSpans = Items<LineSpan>;

fn is_algorithm_word(tokens: &[Spanned]) -> bool
    ensures { IsTrue result ↔ IsAlgorithmWord tokens.now }
{
    match tokens {
        [first, ..] => matches!(first.token, Token::Key(Key::Algorithm)),
        [] => false,
    }
}

// Whether the line begins a unit.
fn begins_unit(alloc: Global, line: &Line) -> Result<bool, Memory>
    requires { length (encode_utf8_all line.now) < 4294967295 }
    ensures { IfOk result (λ begins. IsTrue begins ↔ BeginsUnit line.now) }
{
    one_cutting();
    let found = lex_line(alloc, line.as_str())?;
    Ok(is_algorithm_word(found.tokens.as_slice()))
}

// The place of the first line from `from` on that begins a unit, or the number of lines.
fn span_end(alloc: Global, lines: &[Line], from: usize) -> Result<usize, Memory>
    requires inside { from ≤ length lines.now }
    requires short { AreShort lines.now }
    ensures behind { IfOk result (λ end. from ≤ end) }
    ensures within { IfOk result (λ end. end ≤ length lines.now) }
    ensures none { IfOk result (λ end. NoneBegins lines.now (from + 1) (end + 1)) }
    ensures begins { IfOk result (λ end. end < length lines.now → BeginsUnit (slice_index_or lines.now end [])) }
{
    for at in from..lines.len() {
        if begins_unit(alloc, &lines[at])? {
            return Ok(at);
        }
    }
    Ok(lines.len())
}

/// The lines of the prelude and of each unit, in order (docs/LANGUAGE.md, "Units"). The only error is want of memory.
pub fn split_units(alloc: Global, lines: &[Line]) -> Result<UnitSpans, Memory>
    requires few { length lines.now < 4294967295 }
    requires short { AreShort lines.now }
    ensures { IfOk result (λ spans. AreSpans lines.now spans) }
{
    let mut spans = Items::new(alloc);
    let mut at = span_end(alloc, lines, 0)?;
    spans.push(LineSpan {
        first: 1,
        count: at as u32,
    })?;
    while at < lines.len() {
        let end = span_end(alloc, lines, at + 1)?;
        spans.push(LineSpan {
            first: at as u32 + 1,
            count: (end - at) as u32,
        })?;
        at = end;
    }
    Ok(spans)
}

ghost use Rattle.std.specs.Prelude.{◌≤◌, length, IsTrue};
ghost use Rattle.line_pieces.specs.Spans.{AreShort};

use km_base::Memory;
use kumir_lexer::lex_line;
use kumir_tree::Line;
use line_pieces::{cut_pieces, split_units};
use std::alloc::Global;
use std::test::Fail;

// The tests' lines have at most this many bytes.
const SHORT: usize = 1_000;

const LIMIT: usize = 4_294_967_295;

// Whether the line has these pieces.
fn has_pieces(alloc: Global, line: &str, expected: &[(u32, u32)]) -> Result<bool, Memory>
    requires { length line.now ≤ SHORT }
{
    let found = lex_line(alloc, line)?;
    if found.tokens.len() >= LIMIT {
        return Ok(false);
    }
    let pieces = cut_pieces(alloc, &found)?;
    let found = pieces.as_slice().iter().map(|p| (p.from, p.to));
    Ok(found.eq(expected.iter().copied()))
}

const LINES: [(&str, &[(u32, u32)]); 13] = [
    ("", &[]),
    (";;", &[]),
    ("; a;; b ;", &[(1, 2), (4, 5)]),
    ("алг нач кон", &[(0, 1), (1, 2), (2, 3)]),
    ("нц 10 раз влево кц", &[(0, 3), (3, 4), (4, 5)]),
    (
        "если а то б иначе в все",
        &[(0, 2), (2, 3), (3, 4), (4, 5), (5, 6), (6, 7)],
    ),
    ("нц для i от 1 до 2 шаг 1 вывод i, нс", &[(0, 9), (9, 13)]),
    ("при a[1:2] = 1: x", &[(0, 10), (10, 11)]),
    ("при (1:2) = 1:", &[(0, 4), (4, 9)]),
    ("при ]: x: y", &[(0, 3), (3, 6)]),
    ("кц при да: x", &[(0, 5)]),
    ("кц; при да: x", &[(0, 1), (2, 5), (5, 6)]),
    (
        "выбор при да: выход кц_при да",
        &[(0, 1), (1, 4), (4, 5), (5, 7)],
    ),
];

#[test]
fn lines_are_cut_into_pieces(rt: HostRuntime) -> Result<(), Fail> {
    for (line, expected) in LINES {
        assert!(rt; line.len() <= SHORT);
        assert!(rt; has_pieces(rt.alloc(), line, expected)?, "at {line}");
    }
    Ok(())
}

fn all_short(lines: &[Line]) -> bool
    ensures { IsTrue result → AreShort lines.now }
{
    for line in lines {
        if line.as_str().len() >= LIMIT {
            return false;
        }
    }
    true
}

// Whether the lines of the text have these spans.
fn has_spans(alloc: Global, text: &str, expected: &[(u32, u32)]) -> Result<bool, Fail> {
    let mut lines = Vec::new(alloc);
    for line in text.lines() {
        lines.push(Line::of_text(alloc, line)?)?;
    }
    if lines.len() >= LIMIT || !all_short(&lines) {
        return Ok(false);
    }
    let spans = split_units(alloc, &lines)?;
    let found = spans.as_slice().iter().map(|s| (s.first, s.count));
    Ok(found.eq(expected.iter().copied()))
}

const TEXTS: [(&str, &[(u32, u32)]); 6] = [
    ("", &[(1, 0)]),
    ("a\n\nb", &[(1, 3)]),
    ("алг\nнач\nкон", &[(1, 0), (1, 3)]),
    (
        "использовать Робот\n; алг\nнач алг\n алг x\nнач",
        &[(1, 3), (4, 2)],
    ),
    (
        "алг 'x\nкон\nалг | 'x\nалг",
        &[(1, 0), (1, 2), (3, 1), (4, 1)],
    ),
    ("'x алг\nалгоритм\nАлг\nалг\n", &[(1, 3), (4, 1)]),
];

#[test]
fn units_begin_at_their_first_word(rt: HostRuntime) -> Result<(), Fail> {
    for (text, expected) in TEXTS {
        assert!(rt; has_spans(rt.alloc(), text, expected)?, "at {text}");
    }
    Ok(())
}

//! The limits of a text and of its versions.
ghost use Rattle.std.specs.Prelude.{◌≡◌, ◌+◌, ◌<◌, ◌*◌, ◌≤◌, ◌^◌, nat_le, sum_by, take, length};
ghost use Rattle.std.specs.List.{list_all};
ghost use Rattle.std.specs.Str.{encode_utf8_all};
ghost use Rattle.text_versions.specs.Texts.{ended_bytes, are_short, is_within, limits_of};

use km_base::limits::{LINE_CHARACTERS, NEWEST_VERSION, TEXT_BYTES, TEXT_LINES};
use kumir_tree::Line;

/// How large a text may be, and how many versions it may have (docs/PROGRAM.md, "Limits").
#[derive(Clone, Copy, Debug, PartialEq, Eq)]
pub struct Limits {
    /// Bytes of a text, with one byte counted between each two neighbouring lines.
    pub bytes: u32,
    /// Lines of a text.
    pub lines: u32,
    /// Characters of one line.
    pub characters: u32,
    /// The number of the newest version.
    pub versions: u32,
}

/// The limits of the texts of a session.
pub const TEXT_LIMITS: Limits = Limits {
    bytes: TEXT_BYTES as u32,
    lines: TEXT_LINES as u32,
    characters: LINE_CHARACTERS as u32,
    versions: NEWEST_VERSION,
};

/// The limits of the texts of a session whose script is of version 2.
pub const SECOND_LIMITS: Limits = Limits {
    bytes: 1_048_576,
    lines: 32_768,
    characters: 1_024,
    versions: 400_000,
};

/// The limits of the texts of a session: of one whose script is of version 2 where `second`, else of version 1.
pub fn limits_of(second: bool) -> Limits
    ensures limits { result ≡ limits_of second }
    ensures fewer_lines { result.lines < 4294967295 }
    ensures fewer_bytes { result.bytes < 4294967295 }
{
    if second { SECOND_LIMITS } else { TEXT_LIMITS }
}

/// The bytes of the lines, and one byte for the end of each.
pub(crate) fn ended_bytes(lines: &[Line]) -> u128
    ensures bytes { result ≡ ended_bytes lines.now }
    ensures bound { result < 2 ^ 127 }
{
    let mut bytes = 0;
    for line in lines {
        bytes += line.as_str().len() as u128 + 1;
    }
    bytes
}

/// How many characters the line has.
pub(crate) fn character_count(line: &Line) -> usize
    ensures { result ≡ length line.now }
{
    line.as_str().chars().count()
}

/// Whether no line has more characters.
pub(crate) fn are_short(characters: u32, lines: &[Line]) -> bool
    ensures { result ≡ are_short characters lines.now }
{
    lines
        .iter()
        .all(|line| character_count(line) <= characters as usize)
}

/// Whether no limit of a text is passed by the lines.
pub fn is_within(lines: &[Line], limits: Limits) -> bool
    ensures { result ≡ is_within limits lines.now }
{
    ended_bytes(lines).saturating_sub(1) <= u128::from(limits.bytes)
        && lines.len() <= limits.lines as usize
        && are_short(limits.characters, lines)
}

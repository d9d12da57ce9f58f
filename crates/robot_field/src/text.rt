//! The lines of a field text (docs/PROGRAM.md, "Field text").

ghost use Rattle.std.specs.Prelude.{◌≡◌, ◌≢◌, ℕ, List, ◌++◌, ◌∷◌, MatchOption};
ghost use Rattle.std.specs.Fmt.{decimal};
ghost use Rattle.robot_field.specs.declared.text.MarkKind.{MarkKind};
ghost use Rattle.robot_field.specs.declared.text.Mark.{Mark};
ghost use Rattle.robot_field.specs.declared.text.Header.{Header};
ghost use Rattle.robot_field.specs.Text.{kind_word, mark_text, header_text, IsCountedMark, IsCountedHeader};
ghost use Rattle.robot_field.specs.Numbers.{IsCount, pair_text, ReadsOne};

/// What a line after the first sets at a cell.
#[derive(Clone, Copy, Debug, PartialEq, Eq)]
pub enum MarkKind {
    Paint,
    RightWall,
    BelowWall,
}

/// A line after the first.
#[derive(Clone, Copy, Debug)]
pub struct Mark {
    pub kind: MarkKind,
    pub x: u32,
    pub y: u32,
}

/// The first line.
#[derive(Clone, Copy, Debug)]
pub struct Header {
    pub width: u32,
    pub height: u32,
    pub x: u32,
    pub y: u32,
}

/// A number from 1 in its one spelling: decimal without a sign or a leading zero.
fn read_number(text: &str) -> Option<u32>
    ensures { ReadsOne text.now result }
{
    let digits = text.as_bytes();
    if digits.is_empty() || digits[0] < b'1' || digits[0] > b'9' {
        return None;
    }
    text.parse::<u32>().ok()
}

/// A number, and what follows one blank.
fn read_number_and_rest(text: &str) -> Option<(u32, &str)>
    ensures { MatchOption result ((n : ℕ) (rest : List ℕ) → IsCount n → text.now ≢ decimal n ++ 32 ∷ rest) (λ r. IsCount r.0 × (text.now ≡ decimal r.0 ++ 32 ∷ r.1.now)) }
{
    let Some((word, rest)) = text.split_once(' ') else {
        return None;
    };
    match read_number(word) {
        Some(number) => Some((number, rest)),
        None => None,
    }
}

/// Two numbers parted by one blank.
fn read_pair(text: &str) -> Option<(u32, u32)>
    ensures { MatchOption result ((x y : ℕ) → IsCount x → IsCount y → text.now ≢ pair_text x y) (λ r. IsCount r.0 × IsCount r.1 × (text.now ≡ pair_text r.0 r.1)) }
{
    let Some((first, rest)) = read_number_and_rest(text) else {
        return None;
    };
    match read_number(rest) {
        Some(second) => Some((first, second)),
        None => None,
    }
}

/// The first line: width, height and the Robot's cell, each after one blank.
pub fn read_header(text: &str) -> Option<Header>
    ensures { MatchOption result ((h : Header) → IsCountedHeader h → text.now ≢ header_text h) (λ h. IsCountedHeader h × (text.now ≡ header_text h)) }
{
    let Some((width, rest)) = read_number_and_rest(text) else {
        return None;
    };
    let Some((height, rest)) = read_number_and_rest(rest) else {
        return None;
    };
    match read_pair(rest) {
        Some((x, y)) => Some(Header {
            width,
            height,
            x,
            y,
        }),
        None => None,
    }
}

/// The word that a line after the first begins with.
fn read_kind(word: &str) -> Option<MarkKind>
    ensures { MatchOption result ((k : MarkKind) → word.now ≢ kind_word k) (λ k. word.now ≡ kind_word k) }
{
    if word == "paint" {
        Some(MarkKind::Paint)
    } else if word == "right" {
        Some(MarkKind::RightWall)
    } else if word == "below" {
        Some(MarkKind::BelowWall)
    } else {
        None
    }
}

/// A line after the first: a word and a cell, each after one blank.
pub fn read_mark(text: &str) -> Option<Mark>
    ensures { MatchOption result ((m : Mark) → IsCountedMark m → text.now ≢ mark_text m) (λ m. IsCountedMark m × (text.now ≡ mark_text m)) }
{
    let Some((word, rest)) = text.split_once(' ') else {
        return None;
    };
    let Some(kind) = read_kind(word) else {
        return None;
    };
    match read_pair(rest) {
        Some((x, y)) => Some(Mark { kind, x, y }),
        None => None,
    }
}

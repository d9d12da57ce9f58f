//! Pieces of a line (docs/LANGUAGE.md, "Pieces").

ghost use Rattle.std.specs.Prelude.{◌≡◌, ◌<◌, ◌+◌, ◌≤◌, ◌-◌, ℕ, length, true, false, map, IfOk, OnOk, Some, slice_range, ◌↔◌, IsTrue};
ghost use Rattle.line_pieces.specs.Ends as ends;
ghost use Rattle.expr_forms.specs.Tokens.{tokens_of};

use km_base::Memory;
use kumir_lexer::LineTokens;
use kumir_tree::{Key, Sign, Spanned, Token};
use sqlite_items::Items;
use std::alloc::{AllocError, Global};

/// The tokens of a line from place `from` to before place `to`, counted from 0.
#[derive(Clone, Copy, Debug, PartialEq, Eq)]
pub struct Piece {
    pub from: u32,
    pub to: u32,
}

pub type Pieces = Items<Piece>;

fn stands_first(key: Key) -> bool
    ensures { result ≡ ends.stands_first key }
{
    matches!(
        key,
        Key::Algorithm
            | Key::Given
            | Key::Wanted
            | Key::Begin
            | Key::Finish
            | Key::Loop
            | Key::LoopEnd
            | Key::LoopEndWhen
            | Key::If
            | Key::Then
            | Key::Otherwise
            | Key::ChoiceEnd
            | Key::Select
            | Key::Assert
            | Key::Input
            | Key::Output
            | Key::Leave
            | Key::Quit
            | Key::Uses
    )
}

fn stands_last(key: Key) -> bool
    ensures { result ≡ ends.stands_last key }
{
    matches!(
        key,
        Key::Begin
            | Key::Finish
            | Key::Times
            | Key::Then
            | Key::Otherwise
            | Key::ChoiceEnd
            | Key::Leave
            | Key::Quit
    )
}

fn is_when(token: &Token) -> bool
    ensures { result ≡ ends.is_when token.now }
{
    matches!(token, Token::Key(Key::When))
}

fn is_loop_end(token: &Token) -> bool
    ensures { result ≡ ends.is_loop_end token.now }
{
    matches!(token, Token::Key(Key::LoopEnd))
}

fn is_semicolon(token: &Token) -> bool
    ensures { result ≡ ends.is_semicolon token.now }
{
    matches!(token, Token::Sign(Sign::Semicolon))
}

fn is_colon(token: &Token) -> bool
    ensures { result ≡ ends.is_colon token.now }
{
    matches!(token, Token::Sign(Sign::Colon))
}

fn ends_before(left: &Token, token: &Token) -> bool
    ensures { result ≡ ends.ends_before left.now token.now }
{
    match token {
        Token::Key(key) => stands_first(*key) || (is_when(token) && !is_loop_end(left)),
        other => is_semicolon(other),
    }
}

fn ends_behind(token: &Token, right: &Token) -> bool
    ensures { result ≡ ends.ends_behind token.now right.now }
{
    match token {
        Token::Key(key) => stands_last(*key) || (is_loop_end(token) && !is_when(right)),
        other => is_semicolon(other),
    }
}

// Whether a piece ends between two neighbours by the tokens themselves.
fn ends_between(left: &Token, right: &Token) -> bool
    ensures { result ≡ ends.ends_between (Some left.now) (Some right.now) }
{
    ends_before(left, right) || ends_behind(left, right)
}

// The open square brackets behind one more token.
fn count_square(open_squares: usize, token: &Token) -> usize
    requires { open_squares < 18446744073709551615 }
    ensures { result ≡ ends.count_square open_squares token.now }
{
    match token {
        Token::Sign(Sign::OpenSquare) => open_squares + 1,
        Token::Sign(Sign::CloseSquare) => open_squares.saturating_sub(1),
        _ => open_squares,
    }
}

// Whether a token behind which no square bracket is open ends a piece that begins with `при`.
fn closes_case(is_case: bool, squares: usize, left: &Token) -> bool
    ensures { IsTrue result ↔ ((is_case ≡ true) × (squares ≡ 0) × (ends.is_colon left.now ≡ true)) }
{
    is_case && squares == 0 && is_colon(left)
}

// The first end behind `begin`, which is an end itself.
fn piece_end(tokens: &[Spanned], begin: usize) -> usize
    requires within { begin < length tokens.now }
    requires begins { ends.IsEnd (tokens_of tokens.now) begin }
    ensures some { begin < result }
    ensures within { result ≤ length tokens.now }
    ensures end { ends.IsEnd (tokens_of tokens.now) result }
    ensures whole { (k : ℕ) → begin < k → k < result → ends.IsEnd (tokens_of tokens.now) k → ⊥ }
{
    let is_case = is_when(&tokens[begin].token);
    let mut squares = 0;
    for at in begin..tokens.len() - 1 {
        let left = &tokens[at].token;
        squares = count_square(squares, left);
        if ends_between(left, &tokens[at + 1].token) {
            return at + 1;
        }
        if closes_case(is_case, squares, left) {
            return at + 1;
        }
    }
    tokens.len()
}

fn cut(alloc: Global, tokens: &[Spanned]) -> Result<Pieces, AllocError>
    requires { length tokens.now < 4294967295 }
    ensures { IfOk result (λ pieces. ends.Pieces (tokens_of tokens.now) pieces) }
{
    let mut pieces = Items::new(alloc);
    let mut begin = 0;
    while begin < tokens.len() {
        let end = piece_end(tokens, begin);
        if !is_semicolon(&tokens[begin].token) {
            pieces.push(Piece {
                from: begin as u32,
                to: end as u32,
            })?;
        }
        begin = end;
    }
    Ok(pieces)
}

/// The pieces of a line, as ranges of its tokens (docs/LANGUAGE.md, "Pieces"). The only error is want of memory.
pub fn cut_pieces(alloc: Global, found: &LineTokens) -> Result<Pieces, Memory>
    requires { length found.now.tokens < 4294967295 }
    ensures { IfOk result (λ pieces. ends.Pieces (tokens_of found.now.tokens) pieces) }
{
    Ok(cut(alloc, found.tokens.as_slice())?)
}

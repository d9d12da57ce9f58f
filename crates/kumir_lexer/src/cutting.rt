//! What stands in a line, step by step of its tokenization.

ghost use Rattle.std.specs.Prelude.{◌≡◌, ◌≤◌, ◌<◌, ℕ, pos, length, drop, true, false, ◌||◌, IfOk, IfSome, IfNone, is_some, slice_index};
ghost use Rattle.kumir_lexer.specs.Classes.{value, HasShape, Longest, NoneStands, begins_comment, is_blank};
ghost use Rattle.kumir_lexer.specs.Cutting as cutting;
ghost use Rattle.kumir_lexer.specs.declared.cutting.Class.TheVariants as class;
ghost use Rattle.kumir_lexer.specs.Steps.{IsReading, IsStep};

use crate::prefixes::{
    begins, begins_comment, digits_len, is_blank, is_digit, is_quote, literal_len, real_len,
    sign_len, word_len,
};
use crate::spelling::{key_of, sign_of};
use kumir_tree::fault_codes::{BAD_CHARACTER, NUMBER_TOO_LARGE, OPEN_LITERAL, REAL};
use kumir_tree::{Chars, Name, Spanned, Token, Tokens};
use std::alloc::{AllocError, Global};

/// The classes of tokens (docs/LANGUAGE.md, "Tokens").
#[derive(Clone, Copy, Debug, PartialEq, Eq)]
pub enum Class {
    Word,
    Number,
    Real,
    Literal,
    Sign,
}

/// The first fault of a line: its code from 101 to 104, and the place of its first character, counted from 0.
#[derive(Clone, Copy, Debug, PartialEq, Eq)]
pub struct LexFault {
    pub code: u16,
    pub place: u32,
}

/// The tokens of a line up to its first fault, and that fault.
#[derive(Debug, Drop)]
pub struct LineTokens {
    pub tokens: Tokens,
    pub fault: Option<LexFault>,
}

/// What a text of a class says: a token, or the code of a fault.
#[derive(Drop)]
pub enum Reading {
    Token(Token),
    Fault(u16),
}

/// What stands at a place of a line.
#[derive(Drop)]
pub enum Step {
    Token(Spanned),
    Fault(LexFault),
}

/// The greatest number that a program can write.
const GREATEST_NUMBER: u64 = 2_147_483_647;

/// The longest token that is a prefix of the text; `is_after_name` says that the token before is a word that is no
/// keyword.
pub fn longest(is_after_name: bool, text: &[char]) -> Option<(Class, usize)>
    requires { 1 ≤ length text.now }
    ensures some { IfSome result (λ found. Longest is_after_name found.0 text.now found.1) }
    ensures none { IfNone result (NoneStands is_after_name text.now) }
{
    let first = text[0];
    if begins(is_after_name, first) {
        Some((Class::Word, word_len(text)))
    } else if is_digit(first) {
        let real = real_len(text);
        if real > 0 {
            Some((Class::Real, real))
        } else {
            Some((Class::Number, digits_len(text)))
        }
    } else if is_quote(first) {
        let literal = literal_len(text);
        if literal > 0 {
            Some((Class::Literal, literal))
        } else {
            None
        }
    } else {
        let sign = sign_len(text);
        if sign > 0 {
            Some((Class::Sign, sign))
        } else {
            None
        }
    }
}

/// The number that the digits write, where a program can write it.
fn number_of(digits: &[char]) -> Option<i32>
    ensures some { IfSome result (λ n. (value digits.now ≤ 2147483647) × (n ≡ pos (value digits.now))) }
    ensures none { IfNone result (2147483647 < value digits.now) }
{
    let mut number: u64 = 0;
    for digit in digits {
        number = 10 * number + u64::from(u32::from(*digit).saturating_sub(48));
        if number > GREATEST_NUMBER {
            return None;
        }
    }
    Some(number as i32)
}

fn names_reals(word: &[char]) -> bool
    ensures { result ≡ cutting.names_reals word.now }
{
    ['в', 'е', 'щ'].as_slice() == word || ['в', 'е', 'щ', 'т', 'а', 'б'].as_slice() == word
}

fn read_word(alloc: Global, word: &[char]) -> Result<Reading, AllocError>
    ensures { IfOk result (IsReading class.Word word.now) }
{
    if let Some(key) = key_of(word) {
        return Ok(Reading::Token(Token::Key(key)));
    }
    if names_reals(word) {
        return Ok(Reading::Fault(REAL));
    }
    let name = Name::from_vec(Vec::from_slice(alloc, word)?);
    Ok(Reading::Token(Token::Named(name)))
}

fn read_literal(alloc: Global, text: &[char]) -> Result<Reading, AllocError>
    requires { HasShape class.Literal text.now }
    ensures { IfOk result (IsReading class.Literal text.now) }
{
    let inner = &text[1..text.len() - 1];
    let literal = Chars::from_vec(Vec::from_slice(alloc, inner)?);
    Ok(Reading::Token(Token::Literal(literal)))
}

fn read_number(text: &[char]) -> Reading
    ensures { IsReading class.Number text.now result }
{
    match number_of(text) {
        Some(number) => Reading::Token(Token::Number(number)),
        None => Reading::Fault(NUMBER_TOO_LARGE),
    }
}

fn read_sign(text: &[char]) -> Reading
    requires { HasShape class.Sign text.now }
    ensures { IsReading class.Sign text.now result }
{
    match sign_of(text) {
        Some(sign) => Reading::Token(Token::Sign(sign)),
        None => unreachable!(),
    }
}

fn read(alloc: Global, class: Class, text: &[char]) -> Result<Reading, AllocError>
    requires { HasShape class text.now }
    ensures { IfOk result (IsReading class text.now) }
{
    match class {
        Class::Word => read_word(alloc, text),
        Class::Number => Ok(read_number(text)),
        Class::Real => Ok(Reading::Fault(REAL)),
        Class::Literal => read_literal(alloc, text),
        Class::Sign => Ok(read_sign(text)),
    }
}

fn bad_code(c: char) -> u16
    ensures { result ≡ cutting.bad_code c }
{
    match c {
        '"' => OPEN_LITERAL,
        '/' => REAL,
        _ => BAD_CHARACTER,
    }
}

fn behind(line: &[char], at: usize) -> &[char]
    requires { at ≤ length line.now }
    ensures { result.now ≡ drop at line.now }
{
    line.split_at(at).1
}

/// What stands at a place of the line that is neither blank nor in a comment.
pub fn next_step(
    alloc: Global,
    is_after_name: bool,
    line: &[char],
    at: usize,
) -> Result<Step, AllocError>
    requires inside { at < length line.now }
    requires size { length line.now < 4294967295 }
    ensures { IfOk result (IsStep is_after_name line.now at) }
{
    let rest = behind(line, at);
    let place = at as u32;
    let Some((class, len)) = longest(is_after_name, rest) else {
        let code = bad_code(rest[0]);
        return Ok(Step::Fault(LexFault { code, place }));
    };
    let text = &rest[..len];
    match read(alloc, class, text)? {
        Reading::Token(token) => Ok(Step::Token(Spanned {
            token,
            from: place,
            to: (at + len) as u32,
        })),
        Reading::Fault(code) => Ok(Step::Fault(LexFault { code, place })),
    }
}

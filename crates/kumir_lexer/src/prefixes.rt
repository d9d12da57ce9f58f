//! How long the longest token of each class that is a prefix of a text is.

ghost use Rattle.std.specs.Prelude.{◌≡◌, ◌≤◌, length, not};
ghost use Rattle.std.specs.List.{prefix_len};
ghost use Rattle.kumir_lexer.specs.Classes as classes;
ghost use Rattle.kumir_lexer.specs.Prefixes as prefixes;

use crate::spelling::sign_of;
use unicode::properties::is_alphabetic;

pub fn is_blank(c: char) -> bool
    ensures { result ≡ classes.is_blank c }
{
    c == ' ' || c == '\t' || c == '\u{a0}'
}

pub fn begins_comment(c: char) -> bool
    ensures { result ≡ classes.begins_comment c }
{
    c == '|' || c == '#'
}

pub fn is_digit(c: char) -> bool
    ensures { result ≡ classes.is_digit c }
{
    '0' <= c && c <= '9'
}

pub fn is_quote(c: char) -> bool
    ensures { result ≡ classes.is_quote c }
{
    c == '"'
}

fn begins_word(c: char) -> bool
    ensures { result ≡ classes.begins_word c }
{
    is_alphabetic(c) || c == '_' || c == '@'
}

fn in_word(c: char) -> bool
    ensures { result ≡ classes.in_word c }
{
    begins_word(c) || is_digit(c)
}

fn marks_exponent(c: char) -> bool
    ensures { result ≡ classes.marks_exponent c }
{
    c == 'e' || c == 'E' || c == 'е' || c == 'Е'
}

fn is_plus_or_minus(c: char) -> bool
    ensures { result ≡ classes.is_plus_or_minus c }
{
    c == '+' || c == '-'
}

/// Whether a word begins with this character; `is_after_name` says that the token before is a word that is no
/// keyword.
pub fn begins(is_after_name: bool, c: char) -> bool
    ensures { result ≡ classes.begins is_after_name c }
{
    begins_word(c) || (is_after_name && is_digit(c))
}

pub fn word_len(text: &[char]) -> usize
    ensures prefix { result ≡ prefix_len classes.in_word text.now }
    ensures within { result ≤ length text.now }
{
    text.iter().take_while(|c| in_word(**c)).count()
}

pub fn digits_len(text: &[char]) -> usize
    ensures prefix { result ≡ prefix_len classes.is_digit text.now }
    ensures within { result ≤ length text.now }
{
    text.iter().take_while(|c| is_digit(**c)).count()
}

fn unquoted_len(text: &[char]) -> usize
    ensures prefix { result ≡ prefix_len (λ c. not (classes.is_quote c)) text.now }
    ensures within { result ≤ length text.now }
{
    text.iter().take_while(|c| !is_quote(**c)).count()
}

fn sign_width(text: &[char]) -> usize
    ensures width { result ≡ prefixes.sign_width text.now }
    ensures within { result ≤ length text.now }
{
    match text {
        [c, ..] if is_plus_or_minus(*c) => 1,
        _ => 0,
    }
}

fn exponent_len(text: &[char]) -> usize
    ensures prefix { result ≡ prefixes.exponent_len text.now }
    ensures within { result ≤ length text.now }
{
    match text {
        [c, rest @ ..] if marks_exponent(*c) => {
            let width = sign_width(rest);
            let digits = digits_len(&rest[width..]);
            if digits == 0 { 0 } else { 1 + width + digits }
        }
        _ => 0,
    }
}

fn fraction_len(text: &[char]) -> usize
    ensures prefix { result ≡ prefixes.fraction_len text.now }
    ensures within { result ≤ length text.now }
{
    match text {
        ['.', rest @ ..] => {
            let digits = digits_len(rest);
            if digits == 0 { 0 } else { 1 + digits }
        }
        _ => 0,
    }
}

fn scale_len(text: &[char]) -> usize
    ensures prefix { result ≡ prefixes.scale_len text.now }
    ensures within { result ≤ length text.now }
{
    let fraction = fraction_len(text);
    fraction + exponent_len(&text[fraction..])
}

pub fn real_len(text: &[char]) -> usize
    ensures prefix { result ≡ prefixes.real_len text.now }
    ensures within { result ≤ length text.now }
{
    let digits = digits_len(text);
    let more = scale_len(&text[digits..]);
    if more == 0 { 0 } else { digits + more }
}

pub fn literal_len(text: &[char]) -> usize
    ensures prefix { result ≡ prefixes.literal_len text.now }
    ensures within { result ≤ length text.now }
{
    match text {
        ['"', rest @ ..] => {
            let inner = unquoted_len(rest);
            if inner < rest.len() { inner + 2 } else { 0 }
        }
        _ => 0,
    }
}

pub fn sign_len(text: &[char]) -> usize
    requires { 1 ≤ length text.now }
    ensures prefix { result ≡ prefixes.sign_len text.now }
    ensures within { result ≤ length text.now }
{
    if 2 <= text.len() && sign_of(&text[..2]).is_some() {
        2
    } else if sign_of(&text[..1]).is_some() {
        1
    } else {
        0
    }
}

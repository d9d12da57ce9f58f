//! The lines that `tokens` prints (docs/PROGRAM.md, "tokens").

ghost use Rattle.std.specs.Prelude.{◌≡◌, ◌++◌, IfOk, OnOk, codes};
ghost use Rattle.std.specs.Fmt.{decimal};
ghost use Rattle.std.specs.Str.{encode_utf8_all};
ghost use Rattle.std.specs.String.{string_bytes};
ghost use Rattle.kumir_lexer.specs.Printed.{printed_class, printed_line, printed_token, printed_fault, printed_tokens};

use crate::cutting::{LexFault, LineTokens};
use crate::spelling::{key_spelling, sign_spelling};
use km_base::Memory;
use kumir_tree::{Spanned, Token};
use std::alloc::{AllocError, Global};
use std::fmt::Write;

fn push_characters(out: &mut String, text: &[char]) -> Result<(), AllocError>
    ensures { OnOk result (string_bytes out.new ≡ string_bytes out.old ++ encode_utf8_all text.now) }
{
    for c in text {
        out.push(*c)?;
    }
    Ok(())
}

fn push_class(out: &mut String, token: &Token) -> Result<(), AllocError>
    ensures { OnOk result (string_bytes out.new ≡ string_bytes out.old ++ printed_class token.now) }
{
    match token {
        Token::Key(key) => {
            out.push_str("key ")?;
            push_characters(out, key_spelling(*key))
        }
        Token::Named(name) => {
            out.push_str("name ")?;
            push_characters(out, name.as_slice())
        }
        Token::Number(number) => {
            let number = *number;
            write!(out, "number {number}")
        }
        Token::Literal(text) => {
            out.push_str("literal ")?;
            push_characters(out, text.as_slice())
        }
        Token::Sign(sign) => {
            out.push_str("sign ")?;
            push_characters(out, sign_spelling(*sign))
        }
    }
}

fn push_places(out: &mut String, line: u32, from: u32, to: u32) -> Result<(), AllocError>
    ensures { OnOk result (string_bytes out.new ≡ string_bytes out.old ++ (decimal line ++ (codes " " ++ (decimal from ++ (codes " " ++ (decimal to ++ codes " ")))))) }
{
    write!(out, "{line} {from} {to} ")
}

fn push_token(out: &mut String, line: u32, token: &Spanned) -> Result<(), AllocError>
    ensures { OnOk result (string_bytes out.new ≡ string_bytes out.old ++ printed_token line token.now) }
{
    push_places(out, line, token.from, token.to)?;
    push_class(out, &token.token)?;
    out.push_str("\n")
}

fn push_fault(out: &mut String, line: u32, fault: &LexFault) -> Result<(), AllocError>
    ensures { OnOk result (string_bytes out.new ≡ string_bytes out.old ++ printed_fault line fault.now) }
{
    let code = fault.code;
    push_places(out, line, fault.place, fault.place)?;
    write!(out, "fault {code}\n")
}

/// The lines of `tokens` for one line of a text, which has the number `line`. The only error is want of memory.
pub fn print_tokens(alloc: Global, line: u32, found: &LineTokens) -> Result<String, Memory>
    ensures { IfOk result (λ text. string_bytes text ≡ printed_tokens line found.now.tokens found.now.fault) }
{
    let mut out = String::new(alloc);
    for token in found.tokens.as_slice() {
        push_token(&mut out, line, token)?;
    }
    if let Some(fault) = &found.fault {
        push_fault(&mut out, line, fault)?;
    }
    Ok(out)
}

//! The tokens of a whole line: its cutting, or tokenization.

ghost use Rattle.std.specs.Prelude.{◌≡◌, ◌<◌, ◌≤◌, ◌++◌, ◌∷◌, [], ℕ, List, Option, length, false, IfOk, OnOk};
ghost use Rattle.std.specs.Str.{chars};
ghost use Rattle.kumir_lexer.specs.Cutting as cutting;
ghost use Rattle.kumir_lexer.specs.Cutting.{Cuts, Cut};
ghost use Rattle.kumir_lexer.specs.Joined.{joined, joined_behind};
ghost use Rattle.kumir_tree.specs.declared.token.Spanned.{Spanned};
ghost use Rattle.kumir_tree.specs.declared.token.Token.TheVariants as token;
ghost use Rattle.kumir_lexer.specs.declared.cutting.LexFault.{LexFault};

use crate::cutting::{LexFault, LineTokens, Step, next_step};
use crate::prefixes::{begins_comment, is_blank};
use km_base::Memory;
use kumir_tree::{Name, Spanned, Token, Tokens};
use sqlite_items::Items;
use std::alloc::{AllocError, Global};

fn is_name(token: &Token) -> bool
    ensures { result ≡ cutting.is_name token.now }
{
    match token {
        Token::Named(_) => true,
        Token::Key(_) => false,
        Token::Number(_) => false,
        Token::Literal(_) => false,
        Token::Sign(_) => false,
    }
}

// The tokens of a line up to its first fault, each word for itself.
#[derive(Drop)]
struct Words {
    tokens: Vec<Spanned>,
    fault: Option<LexFault>,
}

fn scan(alloc: Global, line: &[char]) -> Result<Words, AllocError>
    requires { length line.now < 4294967295 }
    ensures { IfOk result (λ found. Cuts false 0 line.now found.tokens.items found.fault) }
{
    let mut tokens = Vec::new(alloc);
    let mut is_after_name = false;
    let mut at = 0;
    while at < line.len() {
        let c = line[at];
        if begins_comment(c) {
            let fault = None;
            return Ok(Words { tokens, fault });
        }
        if is_blank(c) {
            at += 1;
        } else {
            match next_step(alloc, is_after_name, line, at)? {
                Step::Token(token) => {
                    is_after_name = is_name(&token.token);
                    at = token.to as usize;
                    tokens.push(token)?;
                }
                Step::Fault(fault) => {
                    let fault = Some(fault);
                    return Ok(Words { tokens, fault });
                }
            }
        }
    }
    Ok(Words {
        tokens,
        fault: None,
    })
}

fn push_word(name: &mut Name, word: &[char]) -> Result<(), AllocError>
    ensures { OnOk result (name.new ≡ name.old ++ 32 ∷ word.now) }
{
    name.push(' ')?;
    for c in word {
        name.push(*c)?;
    }
    Ok(())
}

// A name and a word behind it, as one name.
fn joined_name(mut name: Name, word: &Name, from: u32, to: u32) -> Result<Spanned, AllocError>
    ensures { IfOk result (λ t. t ≡ record { token = token.Named (name ++ 32 ∷ word.now); from = from; to = to }) }
{
    push_word(&mut name, word.as_slice())?;
    Ok(Spanned {
        token: Token::Named(name),
        from,
        to,
    })
}

// Puts a word behind the others: behind a name it lengthens the name.
#[tactic(auto, using(crate::proofs::Names::behind_name, crate::proofs::Names::behind_other))]
fn push_name(tokens: &mut Tokens, word: Name, from: u32, to: u32) -> Result<(), AllocError>
    ensures { OnOk result (tokens.new ≡ joined_behind tokens.old (record { token = token.Named word; from = from; to = to })) }
{
    if let Some(last) = tokens.pop() {
        let Spanned {
            token,
            from: begin,
            to: end,
        } = last;
        match token {
            Token::Named(name) => return tokens.push(joined_name(name, &word, begin, to)?),
            other => tokens.push(Spanned {
                token: other,
                from: begin,
                to: end,
            })?,
        }
    }
    tokens.push(Spanned {
        token: Token::Named(word),
        from,
        to,
    })
}

// Puts a token behind the others.
#[tactic(auto, using(crate::proofs::Names::behind_no_name))]
fn push_token(tokens: &mut Tokens, next: Spanned) -> Result<(), AllocError>
    ensures { OnOk result (tokens.new ≡ joined_behind tokens.old next) }
{
    let Spanned { token, from, to } = next;
    match token {
        Token::Named(word) => push_name(tokens, word, from, to),
        other => tokens.push(Spanned {
            token: other,
            from,
            to,
        }),
    }
}

#[tactic(auto, using(crate::proofs::Names::joined_more))]
fn join(alloc: Global, words: Vec<Spanned>) -> Result<Tokens, AllocError>
    ensures { IfOk result (λ tokens. tokens ≡ joined words.items) }
{
    let mut tokens = Items::new(alloc);
    for word in words {
        push_token(&mut tokens, word)?;
    }
    Ok(tokens)
}

#[tactic(auto, using(std::proofs::lemmas::Str::chars_from_encodes))]
fn characters_of(alloc: Global, text: &str) -> Result<Vec<char>, AllocError>
    ensures characters { IfOk result (λ cs. cs.items ≡ chars text.now) }
    ensures fewer { IfOk result (λ cs. length cs.items ≤ length text.now) }
{
    text.chars().collect(alloc)
}

#[tactic(auto, using(crate::proofs::Names::cut_from))]
fn cut(alloc: Global, line: &[char]) -> Result<LineTokens, AllocError>
    requires { length line.now < 4294967295 }
    ensures { IfOk result (λ found. Cut line.now found.tokens found.fault) }
{
    let Words { tokens, fault } = scan(alloc, line)?;
    let tokens = join(alloc, tokens)?;
    Ok(LineTokens { tokens, fault })
}

/// Cuts a line: its tokens up to the first fault, and that fault (docs/LANGUAGE.md, "Tokens").
/// The only error is want of memory.
pub fn lex_line(alloc: Global, line: &str) -> Result<LineTokens, Memory>
    requires { length line.now < 4294967295 }
    ensures { IfOk result (λ found. Cut (chars line.now) found.tokens found.fault) }
{
    let characters = characters_of(alloc, line)?;
    Ok(cut(alloc, characters.as_slice())?)
}

/// Each line has exactly one cutting. This is a law over the definitions; the call does nothing.
pub fn one_cutting()
    ensures some { (line : List ℕ) → (tokens : List Spanned) × (fault : Option LexFault) × Cut line tokens fault }
    ensures only { (line : List ℕ) (ts us : List Spanned) (f g : Option LexFault) → Cut line ts f → Cut line us g → (ts ≡ us) × (f ≡ g) }
{}

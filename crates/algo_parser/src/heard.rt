//! What the lines of a unit say, each by itself.

ghost use Rattle.std.specs.Prelude.{◌≡◌, ◌≢◌, ◌<◌, ◌≤◌, ◌++◌, ◌∷◌, [], length, map, slice_range, IfOk, OnOk};
ghost use Rattle.std.specs.Str.{encode_utf8_all};
ghost use Rattle.expr_forms.specs.Tokens.{tokens_of};
ghost use Rattle.line_pieces.specs.Ends as ends;
ghost use Rattle.algo_parser.specs.Units.{Hears, HearsAll, Says};
ghost use Rattle.algo_parser.specs.Hearing.{heard_of, said_of};

use expr_forms::{PieceFault, read_piece};
use km_base::Memory;
use kumir_lexer::{LexFault, lex_line};
use kumir_tree::{Form, Line, Spanned};
use line_pieces::{Piece, cut_pieces};
use std::alloc::{AllocError, Global};

/// What a piece turns out to be.
#[derive(Drop)]
pub enum Heard {
    Understood(Form),
    NotUnderstood,
    TooDeep,
}

/// The first lexical fault of a line, and its pieces up to there.
#[derive(Drop)]
pub struct Said {
    pub fault: Option<LexFault>,
    pub pieces: Vec<Heard>,
}

fn hear(alloc: Global, tokens: &[Spanned]) -> Result<Heard, Memory>
    requires { tokens.now ≢ [] }
    ensures { IfOk result (λ heard. Hears (tokens_of tokens.now) (heard_of heard)) }
{
    match read_piece(alloc, tokens) {
        Ok(form) => Ok(Heard::Understood(form)),
        Err(PieceFault::TooDeep) => Ok(Heard::TooDeep),
        Err(PieceFault::NotUnderstood) => Ok(Heard::NotUnderstood),
        Err(PieceFault::Memory) => Err(Memory),
    }
}

fn hear_piece(alloc: Global, tokens: &[Spanned], piece: &Piece) -> Result<Heard, Memory>
    requires some { piece.now.from < piece.now.to }
    requires inside { piece.now.to ≤ length tokens.now }
    ensures { IfOk result (λ heard. Hears (slice_range (tokens_of tokens.now) piece.now.from piece.now.to) (heard_of heard)) }
{
    hear(alloc, &tokens[piece.from as usize..piece.to as usize])
}

fn add_heard(all: &mut Vec<Heard>, heard: Heard) -> Result<(), AllocError>
    ensures { OnOk result (all.new.items ≡ all.old.items ++ heard ∷ []) }
{
    all.push(heard)?;
    Ok(())
}

fn hear_all(alloc: Global, tokens: &[Spanned], pieces: &[Piece]) -> Result<Vec<Heard>, Memory>
    requires { ends.Pieces (tokens_of tokens.now) pieces.now }
    ensures { IfOk result (λ heard. HearsAll (tokens_of tokens.now) pieces.now (map heard_of heard.items)) }
{
    let mut all = Vec::new(alloc);
    for piece in pieces {
        let heard = hear_piece(alloc, tokens, piece)?;
        add_heard(&mut all, heard)?;
    }
    Ok(all)
}

/// What a line says.
pub fn read_line(alloc: Global, line: &Line) -> Result<Said, Memory>
    requires { length (encode_utf8_all line.now) < 4294967295 }
    ensures { IfOk result (λ said. Says line.now (said_of said)) }
{
    let found = lex_line(alloc, line.as_str())?;
    let pieces = cut_pieces(alloc, &found)?;
    let heard = hear_all(alloc, found.tokens.as_slice(), pieces.as_slice())?;
    Ok(Said {
        fault: found.fault,
        pieces: heard,
    })
}

//! What a reader keeps between two pieces of a script.
ghost use Rattle.std.specs.Prelude.{◌≡◌, ◌≢◌, ◌+◌, ◌<◌, ◌≤◌, [], ◌∷◌, ◌++◌, Option, length, take, map, IfOk, OnOk};
ghost use Rattle.std.specs.Str.Lines.{strip_carriage_return};
ghost use Rattle.script_lines.specs.Lines.{numbered};
ghost use Rattle.script_lines.specs.Requests.{whole, requests, bad_at};
ghost use Rattle.script_lines.specs.Begun.{Begun, first_of};
ghost use Rattle.script_lines.specs.Reader.{IsState, Gathers, answered};

use crate::gathered::{Gathered, take_line};
use crate::request::{Ask, Request, Requests};
use km_base::limits::SCRIPT_LINE_BYTES;
use km_base::{Memory, Noted};
use std::alloc::{AllocError, Global};

/// How many bytes of a line are kept: more than a line at its limit, a leading mark and a carriage return take.
const KEPT_BYTES: usize = SCRIPT_LINE_BYTES + 5;

/// The line begun, how many lines were ended, and the request whose lines are gathered, after the bytes fed so far.
#[derive(Drop)]
pub struct State {
    /// The bytes of the line begun. Of an overlong line only the first are kept.
    pub line: Vec<u8>,
    pub number: u32,
    pub gathered: Option<Gathered>,
    /// The bytes fed so far, which take no bytes.
    pub fed: Noted<u8>,
}

/// The line without the carriage return before its end.
fn without_return(line: &[u8]) -> &[u8]
    ensures { result.now ≡ strip_carriage_return line.now }
{
    match line.split_last() {
        Some((last, rest)) if *last == b'\r' => rest,
        _ => line,
    }
}

/// The line of that number, without a leading U+FEFF if it is the first.
fn numbered(number: u32, line: &[u8]) -> &[u8]
    ensures { result.now ≡ numbered number line.now }
{
    if number == 1 && line.len() >= 3 && line[0] == 0xEF && line[1] == 0xBB && line[2] == 0xBF {
        &line[3..]
    } else {
        line
    }
}

/// Puts the byte at the end of the line, if the line is not overlong.
fn keep_byte(line: &mut Vec<u8>, byte: u8) -> Result<(), AllocError>
    requires { length line.old.items ≤ 4101 }
    ensures { OnOk result (line.new.items ≡ take 4101 (line.old.items ++ byte ∷ [])) }
{
    if line.as_slice().len() < KEPT_BYTES {
        line.push(byte)?;
    }
    Ok(())
}

/// The bad request whose lines are cut off.
fn cut_off(gathered: Option<Gathered>) -> Option<Request>
    ensures { (b : Option Begun) → Gathers b gathered → answered result ≡ map bad_at (first_of b) }
{
    match gathered {
        Some(gathered) => Some(Request {
            line: gathered.first,
            ask: Ask::Bad,
        }),
        None => None,
    }
}

impl State {
    /// The state before the first byte.
    pub fn new(alloc: Global) -> State
        ensures state { IsState result }
        ensures fed { result.fed ≡ [] }
    {
        State {
            line: Vec::new(alloc),
            number: 0,
            gathered: None,
            fed: Noted::new(),
        }
    }

    /// One more byte of the line begun.
    pub fn push_byte(&mut self, byte: u8) -> Result<(), Memory>
        requires state { IsState self.old }
        requires other { byte ≢ 10 }
        ensures state { OnOk result (IsState self.new) }
        ensures fed { OnOk result (self.new.fed ≡ self.old.fed ++ byte ∷ []) }
        ensures requests { OnOk result (whole self.new.fed ≡ whole self.old.fed) }
    {
        keep_byte(&mut self.line, byte)?;
        self.fed.note(&byte);
        Ok(())
    }

    /// The end of the line begun.
    pub fn end_line(&mut self, alloc: Global) -> Result<Option<Request>, Memory>
        requires state { IsState self.old }
        requires room { length self.old.fed + 1 < 4294967295 }
        ensures state { OnOk result (IsState self.new) }
        ensures fed { OnOk result (self.new.fed ≡ self.old.fed ++ 10 ∷ []) }
        ensures requests { IfOk result (λ r. whole self.new.fed ≡ whole self.old.fed ++ answered r) }
    {
        let number = self.number + 1;
        let gathered = self.gathered.take();
        let line = numbered(number, without_return(&self.line));
        let (request, gathered) = take_line(alloc, gathered, number, line)?;
        self.gathered = gathered;
        self.number = number;
        self.line.clear();
        self.fed.note(&b'\n');
        Ok(request)
    }

    /// The request that the end completes: that of a last line without an end, or one whose lines are cut off.
    pub fn finish(self, alloc: Global) -> Result<Option<Request>, Memory>
        requires state { IsState self }
        requires room { length self.fed < 4294967295 }
        ensures { IfOk result (λ r. requests self.fed ≡ whole self.fed ++ answered r) }
    {
        let State {
            line,
            number,
            gathered,
            ..
        } = self;
        let line = line.as_slice();
        if line.is_empty() {
            return Ok(cut_off(gathered));
        }
        let (request, gathered) = take_line(
            alloc,
            gathered,
            number + 1,
            numbered(number + 1, line),
        )?;
        match request {
            Some(request) => Ok(Some(request)),
            None => Ok(cut_off(gathered)),
        }
    }
}

/// Takes the next piece of the script, and answers the requests that it completes.
pub fn take_piece(alloc: Global, state: &mut State, piece: &[u8]) -> Result<Requests, Memory>
    requires state { IsState state.old }
    requires room { length state.old.fed + length piece.now < 4294967295 }
    ensures state { OnOk result (IsState state.new) }
    ensures fed { OnOk result (state.new.fed ≡ state.old.fed ++ piece.now) }
    ensures requests { IfOk result (λ rs. whole state.new.fed ≡ whole state.old.fed ++ rs) }
{
    let mut requests = Requests::new(alloc);
    for byte in piece {
        if *byte != b'\n' {
            state.push_byte(*byte)?;
            continue;
        }
        if let Some(request) = state.end_line(alloc)? {
            requests.push(request)?;
        }
    }
    Ok(requests)
}

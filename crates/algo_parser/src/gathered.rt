//! What the lines of a unit say together.

ghost use Rattle.std.specs.Prelude.{◌≡◌, ◌<◌, ◌++◌, ◌∷◌, ◌||◌, [], length, map, OnOk, IfOk};
ghost use Rattle.std.specs.List.{flat_map};
ghost use Rattle.kumir_tree.specs.Parts.{some_head};
ghost use Rattle.line_pieces.specs.Spans.{AreShort};
ghost use Rattle.algo_parser.specs.Units as units;
ghost use Rattle.unit_grammar.specs.Reading.{placed_of};
ghost use Rattle.algo_parser.specs.Hearing.{joined, heard_of, said_of, IsGathered};
ghost use Rattle.performer_kit.specs.Commands.{performer_named};

use crate::heard::{Heard, Said, read_line};
use km_base::{Memory, Noted, Performer, Performers};
use kumir_lexer::LexFault;
use kumir_tree::fault_codes::{NESTED_TOO_DEEP, NOT_UNDERSTOOD, UNKNOWN_PERFORMER};
use kumir_tree::{Fault, Faults, Form, Header, Line};
use performer_kit::performer_of_name;
use sqlite_items::Items;
use std::alloc::{AllocError, Global};
use unit_grammar::PlacedForm;

/// Faults, forms, the header and the performers of some lines. Lines count from 0.
#[derive(Drop)]
pub struct Gathered {
    /// What each of the lines says. It takes no bytes.
    pub said: Noted<Said>,
    pub lexical: Faults,
    pub pieces: Faults,
    pub forms: Vec<PlacedForm>,
    pub header: Option<Header>,
    pub performers: Performers,
    pub unknown: Faults,
}

fn add_lexical(faults: &mut Faults, line: u32, fault: &Option<LexFault>) -> Result<(), AllocError>
    ensures { OnOk result (faults.new ≡ faults.old ++ units.lexical_at line fault.now) }
{
    if let Some(fault) = fault {
        let code = fault.code;
        faults.push(Fault { line, code })?;
    }
    Ok(())
}

fn add_piece_fault(faults: &mut Faults, line: u32, piece: &Heard) -> Result<(), AllocError>
    ensures { OnOk result (faults.new ≡ faults.old ++ units.piece_fault line (heard_of piece.now)) }
{
    match piece {
        Heard::Understood(_) => Ok(()),
        Heard::NotUnderstood => faults.push(Fault {
            line,
            code: NOT_UNDERSTOOD,
        }),
        Heard::TooDeep => faults.push(Fault {
            line,
            code: NESTED_TOO_DEEP,
        }),
    }
}

fn add_piece_faults(faults: &mut Faults, line: u32, pieces: &[Heard]) -> Result<(), AllocError>
    ensures { OnOk result (faults.new ≡ faults.old ++ flat_map (units.piece_fault line) (map heard_of pieces.now)) }
{
    for piece in pieces {
        add_piece_fault(faults, line, piece)?;
    }
    Ok(())
}

fn add_form(forms: &mut Vec<PlacedForm>, line: u32, piece: Heard) -> Result<(), AllocError>
    ensures { OnOk result (map placed_of forms.new.items ≡ map placed_of forms.old.items ++ units.form_at line (heard_of piece)) }
{
    match piece {
        Heard::Understood(form) => {
            forms.push(PlacedForm { line, form })?;
            Ok(())
        }
        Heard::NotUnderstood => Ok(()),
        Heard::TooDeep => Ok(()),
    }
}

fn add_forms(forms: &mut Vec<PlacedForm>, line: u32, pieces: Vec<Heard>) -> Result<(), AllocError>
    ensures { OnOk result (map placed_of forms.new.items ≡ map placed_of forms.old.items ++ flat_map (units.form_at line) (map heard_of pieces.items)) }
{
    for piece in pieces {
        add_form(forms, line, piece)?;
    }
    Ok(())
}

// The header of a line that is the first one.
fn header_in(alloc: Global, said: &Said) -> Result<Option<Header>, AllocError>
    ensures { IfOk result (λ h. some_head h ≡ units.header_in said.now.fault (map heard_of said.now.pieces.items)) }
{
    if said.fault.is_some() {
        return Ok(None);
    }
    match said.pieces.as_slice() {
        [Heard::Understood(Form::Header(header)), ..] => Ok(Some(header.copy(alloc)?)),
        _ => Ok(None),
    }
}

fn add_header(
    alloc: Global,
    header: &mut Option<Header>,
    line: u32,
    said: &Said,
) -> Result<(), AllocError>
    ensures first { OnOk result (line ≡ 0 → some_head header.new ≡ units.header_in said.now.fault (map heard_of said.now.pieces.items)) }
    ensures later { OnOk result (0 < line → header.new ≡ header.old) }
{
    if line == 0 {
        *header = header_in(alloc, said)?;
    }
    Ok(())
}

// The performer that a form of a prelude makes known, or a fault where it has another name.
fn add_performer(
    performers: &mut Performers,
    unknown: &mut Faults,
    line: u32,
    name: &[char],
) -> Result<(), AllocError>
    ensures performers { OnOk result (performers.new ≡ joined performers.old (units.performers_of ((line, name.now) ∷ []))) }
    ensures unknown { OnOk result (unknown.new ≡ unknown.old ++ units.unknown_at line (performer_named name.now)) }
{
    match performer_of_name(name) {
        Some(Performer::Robot) => {
            performers.robot = true;
            Ok(())
        }
        Some(Performer::Pen) => {
            performers.pen = true;
            Ok(())
        }
        None => unknown.push(Fault {
            line,
            code: UNKNOWN_PERFORMER,
        }),
    }
}

fn add_use(
    performers: &mut Performers,
    unknown: &mut Faults,
    line: u32,
    piece: &Heard,
) -> Result<(), AllocError>
    ensures performers { OnOk result (performers.new ≡ joined performers.old (units.performers_of (units.use_in line (heard_of piece.now)))) }
    ensures unknown { OnOk result (unknown.new ≡ unknown.old ++ units.unknown_of (units.use_in line (heard_of piece.now))) }
{
    if let Heard::Understood(Form::Uses(name)) = piece {
        add_performer(performers, unknown, line, name.as_slice())?;
    }
    Ok(())
}

fn add_uses_on(
    performers: &mut Performers,
    unknown: &mut Faults,
    line: u32,
    pieces: &[Heard],
) -> Result<(), AllocError>
    ensures performers { OnOk result (performers.new ≡ joined performers.old (units.performers_of (flat_map (units.use_in line) (map heard_of pieces.now)))) }
    ensures unknown { OnOk result (unknown.new ≡ unknown.old ++ units.unknown_of (flat_map (units.use_in line) (map heard_of pieces.now))) }
{
    for piece in pieces {
        add_use(performers, unknown, line, piece)?;
    }
    Ok(())
}

fn add_uses(
    performers: &mut Performers,
    unknown: &mut Faults,
    line: u32,
    said: &Said,
) -> Result<(), AllocError>
    ensures performers { OnOk result (performers.new ≡ joined performers.old (units.performers_of (units.uses_on line said.now.fault (map heard_of said.now.pieces.items)))) }
    ensures unknown { OnOk result (unknown.new ≡ unknown.old ++ units.unknown_of (units.uses_on line said.now.fault (map heard_of said.now.pieces.items))) }
{
    if said.fault.is_some() {
        return Ok(());
    }
    add_uses_on(performers, unknown, line, said.pieces.as_slice())?;
    Ok(())
}

impl Gathered {
    /// What no lines say.
    pub fn new(alloc: Global) -> Gathered
        ensures none { result.said ≡ [] }
        ensures gathered { IsGathered result [] }
    {
        Gathered {
            said: Noted::new(),
            lexical: Items::new(alloc),
            pieces: Items::new(alloc),
            forms: Vec::new(alloc),
            header: None,
            performers: Performers {
                robot: false,
                pen: false,
            },
            unknown: Items::new(alloc),
        }
    }

    /// Adds what the next line says.
    fn add(&mut self, alloc: Global, line: u32, said: Said) -> Result<(), AllocError>
        requires number { line ≡ length self.old.said }
        requires gathered { IsGathered self.old (map said_of self.old.said) }
        ensures said { OnOk result (self.new.said ≡ self.old.said ++ said ∷ []) }
        ensures gathered { OnOk result (IsGathered self.new (map said_of self.new.said)) }
    {
        self.said.note(&said);
        add_lexical(&mut self.lexical, line, &said.fault)?;
        add_piece_faults(&mut self.pieces, line, said.pieces.as_slice())?;
        add_uses(&mut self.performers, &mut self.unknown, line, &said)?;
        add_header(alloc, &mut self.header, line, &said)?;
        add_forms(&mut self.forms, line, said.pieces)?;
        Ok(())
    }
}

/// What all lines say together.
pub fn gather(alloc: Global, lines: &[Line]) -> Result<Gathered, Memory>
    requires few { length lines.now < 4294967295 }
    requires short { AreShort lines.now }
    ensures said { IfOk result (λ g. units.SayAll lines.now (map said_of g.said)) }
    ensures gathered { IfOk result (λ g. IsGathered g (map said_of g.said)) }
{
    let mut gathered = Gathered::new(alloc);
    for at in 0..lines.len() {
        let said = read_line(alloc, &lines[at])?;
        gathered.add(alloc, at as u32, said)?;
    }
    Ok(gathered)
}

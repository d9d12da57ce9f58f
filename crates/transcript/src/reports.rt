//! Reports of the performers, read from the words of their lines.
ghost use Rattle.std.specs.Prelude.{◌≡◌, map, IfOk};
ghost use Rattle.std.specs.Str.{chars};
ghost use Rattle.transcript.specs.Reading.{parted_words, robot_word, pen_word, robot_reply, robot_entry, drawn, pen_reply, pen_of, pen_move, pen_far, pen_told, pen_entry};
ghost use Rattle.decimals.specs.Numbers.{whole_of, wide_of};

use crate::entry::Entry;
use decimals::{read_number, read_whole, read_wide};
use km_base::Memory;
use performer_kit::{
    PenCommand, PenShape, Reply, RobotCommand, Segment, pen_shape_of, robot_command_of,
};
use std::alloc::{AllocError, Global};

/// The characters of the text with a blank for each `_`.
fn part_words(alloc: Global, text: &str) -> Result<Vec<char>, AllocError>
    ensures { IfOk result (λ parted. parted.items ≡ parted_words (chars text.now)) }
{
    text.chars()
        .map(|c| if c == '_' { ' ' } else { c })
        .collect(alloc)
}

fn robot_word(alloc: Global, word: &str) -> Result<Option<RobotCommand>, Memory>
    ensures { IfOk result (λ c. c ≡ robot_word word.now) }
{
    let name = part_words(alloc, word)?;
    Ok(robot_command_of(name.as_slice()))
}

fn pen_word(alloc: Global, word: &str) -> Result<Option<PenShape>, Memory>
    ensures { IfOk result (λ c. c ≡ pen_word word.now) }
{
    let name = part_words(alloc, word)?;
    Ok(pen_shape_of(name.as_slice()))
}

fn robot_reply(word: &str) -> Option<Reply>
    ensures { result ≡ robot_reply word.now }
{
    match word {
        "done" => Some(Reply::Done),
        "да" => Some(Reply::Yes),
        "нет" => Some(Reply::No),
        "wall" => Some(Reply::Wall),
        _ => None,
    }
}

/// What follows `robot`.
pub fn read_robot(alloc: Global, words: &[&str]) -> Result<Option<Entry>, Memory>
    ensures { IfOk result (λ e. e ≡ robot_entry (map (λ w. w.now) words.now)) }
{
    let [run, number, command, reply] = words else {
        return Ok(None);
    };
    let run = read_number(alloc, run)?;
    let number = read_number(alloc, number)?;
    let command = robot_word(alloc, command)?;
    match (run, number, command, robot_reply(reply)) {
        (Some(run), Some(number), Some(command), Some(reply)) => Ok(Some(Entry::Robot {
            run,
            number,
            command,
            reply,
        })),
        _ => Ok(None),
    }
}

fn read_segment(
    alloc: Global,
    x1: &str,
    y1: &str,
    x2: &str,
    y2: &str,
) -> Result<Option<Reply>, Memory>
    ensures { IfOk result (λ r. r ≡ drawn (wide_of x1.now) (wide_of y1.now) (wide_of x2.now) (wide_of y2.now)) }
{
    let x1 = read_wide(alloc, x1)?;
    let y1 = read_wide(alloc, y1)?;
    let x2 = read_wide(alloc, x2)?;
    let y2 = read_wide(alloc, y2)?;
    match (x1, y1, x2, y2) {
        (Some(x1), Some(y1), Some(x2), Some(y2)) => {
            Ok(Some(Reply::Drawn(Segment { x1, y1, x2, y2 })))
        }
        _ => Ok(None),
    }
}

/// The reply of the Draughtsman that the words are.
fn pen_reply(alloc: Global, words: &[&str]) -> Result<Option<Reply>, Memory>
    ensures { IfOk result (λ r. r ≡ pen_reply (map (λ w. w.now) words.now)) }
{
    match words {
        [word] if *word == "done" => Ok(Some(Reply::Done)),
        [word, x1, y1, x2, y2] if *word == "line" => read_segment(alloc, x1, y1, x2, y2),
        _ => Ok(None),
    }
}

/// The command of a shape with two numbers.
fn pen_move(alloc: Global, shape: PenShape, x: &str, y: &str) -> Result<Option<PenCommand>, Memory>
    ensures { IfOk result (λ c. c ≡ pen_move shape (whole_of x.now) (whole_of y.now)) }
{
    let x = read_whole(alloc, x)?;
    let y = read_whole(alloc, y)?;
    match (shape, x, y) {
        (PenShape::To, Some(x), Some(y)) => Ok(Some(PenCommand::To { x, y })),
        (PenShape::By, Some(dx), Some(dy)) => Ok(Some(PenCommand::By { dx, dy })),
        _ => Ok(None),
    }
}

fn pen_of(run: u32, number: u32, command: Option<PenCommand>, reply: Option<Reply>) -> Option<Entry>
    ensures { result ≡ pen_of run number command reply }
{
    match (command, reply) {
        (Some(command), Some(reply)) => Some(Entry::Pen {
            run,
            number,
            command,
            reply,
        }),
        _ => None,
    }
}

/// The words of a command with two numbers, and of its reply.
fn pen_far(
    alloc: Global,
    run: u32,
    number: u32,
    shape: PenShape,
    words: &[&str],
) -> Result<Option<Entry>, Memory>
    ensures { IfOk result (λ e. e ≡ pen_far run number shape (map (λ w. w.now) words.now)) }
{
    let [x, y, reply @ ..] = words else {
        return Ok(None);
    };
    let command = pen_move(alloc, shape, x, y)?;
    let reply = pen_reply(alloc, reply)?;
    Ok(pen_of(run, number, command, reply))
}

/// The words after the shape of a command.
fn pen_told(
    alloc: Global,
    run: u32,
    number: u32,
    shape: PenShape,
    words: &[&str],
) -> Result<Option<Entry>, Memory>
    ensures { IfOk result (λ e. e ≡ pen_told run number shape (map (λ w. w.now) words.now)) }
{
    match shape {
        PenShape::Raise => {
            let reply = pen_reply(alloc, words)?;
            Ok(pen_of(run, number, Some(PenCommand::Raise), reply))
        }
        PenShape::Lower => {
            let reply = pen_reply(alloc, words)?;
            Ok(pen_of(run, number, Some(PenCommand::Lower), reply))
        }
        PenShape::To => pen_far(alloc, run, number, PenShape::To, words),
        PenShape::By => pen_far(alloc, run, number, PenShape::By, words),
    }
}

/// What follows `pen`.
pub fn read_pen(alloc: Global, words: &[&str]) -> Result<Option<Entry>, Memory>
    ensures { IfOk result (λ e. e ≡ pen_entry (map (λ w. w.now) words.now)) }
{
    let [run, number, command, rest @ ..] = words else {
        return Ok(None);
    };
    let run = read_number(alloc, run)?;
    let number = read_number(alloc, number)?;
    let shape = pen_word(alloc, command)?;
    match (run, number, shape) {
        (Some(run), Some(number), Some(shape)) => pen_told(alloc, run, number, shape, rest),
        _ => Ok(None),
    }
}

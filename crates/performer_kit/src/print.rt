//! Commands as they are printed.

ghost use Rattle.std.specs.Prelude.{◌≡◌, [], ◌∷◌, ◌++◌, IfOk, MatchOption, encode_utf8_all, string_bytes};
ghost use Rattle.std.specs.Str.{chars};
ghost use Rattle.performer_kit.specs.Commands.{printed_command, printed_numbers, joined_words, command_name, command_numbers};

use crate::commands::{Command, PenCommand, PenShape};
use crate::look_up::Named;
use km_base::Memory;
use std::alloc::{AllocError, Global};

#[tactic(auto, unfolding(crate::specs::Commands::command_name, crate::specs::Commands::shape_of))]
/// The name of the command, with blanks between its words.
fn text_of(command: Command) -> &'static str
    ensures { chars result.now ≡ command_name command }
{
    match command {
        Command::Robot(command) => command.text(),
        Command::Pen(PenCommand::Raise) => PenShape::Raise.text(),
        Command::Pen(PenCommand::Lower) => PenShape::Lower.text(),
        Command::Pen(PenCommand::To { .. }) => PenShape::To.text(),
        Command::Pen(PenCommand::By { .. }) => PenShape::By.text(),
    }
}

/// The text with `_` for each blank.
fn join_words(alloc: Global, text: &str) -> Result<String, AllocError>
    ensures { IfOk result (λ joined. string_bytes joined ≡ encode_utf8_all (joined_words (chars text.now))) }
{
    text.chars()
        .map(|c| if c == ' ' { '_' } else { c })
        .collect(alloc)
}

/// The name and two numbers, each after one blank.
fn add_numbers(alloc: Global, name: &str, first: i32, second: i32) -> Result<String, AllocError>
    ensures { IfOk result (λ text. string_bytes text ≡ name.now ++ encode_utf8_all (printed_numbers (first ∷ second ∷ []))) }
{
    format!(in alloc; "{name} {first} {second}")
}

/// The two numbers of the command, where it has numbers.
#[tactic(auto, unfolding(crate::specs::Commands::command_numbers, crate::specs::Commands::numbers_of))]
fn numbers_of(command: Command) -> Option<(i32, i32)>
    ensures { MatchOption result (command_numbers command ≡ []) (λ two. command_numbers command ≡ two.0 ∷ two.1 ∷ []) }
{
    match command {
        Command::Robot(_) => None,
        Command::Pen(PenCommand::Raise) => None,
        Command::Pen(PenCommand::Lower) => None,
        Command::Pen(PenCommand::To { x, y }) => Some((x, y)),
        Command::Pen(PenCommand::By { dx, dy }) => Some((dx, dy)),
    }
}

/// The command as the transcript shows it: its name with `_` for each blank, then its numbers, each after one blank
/// (docs/LANGUAGE.md, "Performers").
pub fn print_command(alloc: Global, command: Command) -> Result<String, Memory>
    ensures { IfOk result (λ text. string_bytes text ≡ encode_utf8_all (printed_command command)) }
{
    let name = join_words(alloc, text_of(command))?;
    match numbers_of(command) {
        Some((first, second)) => Ok(add_numbers(alloc, &name, first, second)?),
        None => Ok(name),
    }
}

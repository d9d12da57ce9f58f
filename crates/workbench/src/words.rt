//! The words of the command line.

ghost use Rattle.std.specs.Prelude.{◌≡◌, false, map, IfOk, OnErr};
ghost use Rattle.std.specs.String.{string_bytes};
ghost use Rattle.clap.specs.Words.{app_of, subcommand_rows_of};
ghost use Rattle.clap.specs.declared.builder.command.Command.TheViews.{out-Command as fields_of};
ghost use Rattle.decimals.specs.Numbers.{number_of};
ghost use Rattle.workbench.specs.Words.{plain_within, sample_of, command_of, is_other_option, has_other_option};
ghost use Rattle.workbench.specs.Program.{command_by, plain, program, sample, IsRead};

use clap::error::ErrorKind;
use clap::{Arg, ArgMatches};
use decimals::read_number;
use km_base::Memory;
use km_base::limits::{MOST_STEPS, USUAL_STEPS};
use std::alloc::{AllocError, Global};

/// A command of the program (docs/PROGRAM.md, "Commands").
#[derive(Clone, Copy, Debug, PartialEq, Eq)]
pub enum Command {
    /// Prints the tokens of a text.
    Tokens,
    /// Prints the margin of a text.
    Check,
    /// Carries out a script one request after the other; a run may take so many steps.
    Plain { budget: u32 },
    /// Makes the sample of the number, and prints its summary.
    Sample { number: u32 },
}

// Whether the word begins with a hyphen and is not `--steps`.
fn is_other_option(word: &str) -> bool
    ensures { result ≡ is_other_option word.now }
{
    word.starts_with('-') && word != "--steps"
}

// Whether one of the words does.
fn has_other_option(words: &[String]) -> bool
    ensures { result ≡ has_other_option (map (λ word. string_bytes word) words.now) }
{
    words.iter().any(|word| is_other_option(word.as_str()))
}

// The subcommand `plain`, which may have `--steps` and one word.
fn plain<'a>(alloc: Global) -> Result<clap::Command<'a>, AllocError>
    ensures shape { IfOk result (λ command. app_of command ≡ plain) }
    ensures local { IfOk result (λ command. (fields_of command).has_globals ≡ false) }
{
    clap::Command::new(alloc, "plain").arg(Arg::new(alloc, "steps").long("steps"))
}

// The subcommand `sample`, which has one word.
fn sample<'a>(alloc: Global) -> Result<clap::Command<'a>, AllocError>
    ensures shape { IfOk result (λ command. app_of command ≡ sample) }
    ensures local { IfOk result (λ command. (fields_of command).has_globals ≡ false) }
{
    clap::Command::new(alloc, "sample").arg(Arg::new(alloc, "number").required(true))
}

// The program's words: one subcommand of four, and no help.
fn program<'a>(alloc: Global) -> Result<clap::Command<'a>, AllocError>
    ensures { IfOk result (λ command. app_of command ≡ program) }
{
    clap::Command::new(alloc, "workbench")
        .no_binary_name(true)
        .disable_help_flag(true)
        .disable_help_subcommand(true)
        .subcommand_required(true)
        .subcommand(clap::Command::new(alloc, "tokens"))?
        .subcommand(clap::Command::new(alloc, "check"))?
        .subcommand(plain(alloc)?)?
        .subcommand(sample(alloc)?)
}

// What `clap` reads the words as, where it takes them.
fn read_words<'a>(alloc: Global, words: &'a [String]) -> Result<Option<ArgMatches<'a>>, Memory>
    ensures { IfOk result (IsRead (map (λ word. string_bytes word) words.now)) }
{
    match program(alloc)?.try_get_matches_from(words) {
        Ok(matches) => Ok(Some(matches)),
        Err(error) if error.kind() == ErrorKind::OutOfMemory => Err(Memory),
        Err(_) => Ok(None),
    }
}

// `plain` with the number of steps that the word is.
fn plain_within(alloc: Global, word: &str) -> Result<Option<Command>, Memory>
    ensures { IfOk result (λ command. command ≡ plain_within (number_of word.now)) }
{
    match read_number(alloc, word)? {
        Some(budget) if 1 <= budget && budget <= MOST_STEPS => Ok(Some(Command::Plain { budget })),
        _ => Ok(None),
    }
}

// `sample` of the number that the word is.
fn sample_of(alloc: Global, word: &str) -> Result<Option<Command>, Memory>
    ensures { IfOk result (λ command. command ≡ sample_of (number_of word.now)) }
{
    match read_number(alloc, word)? {
        Some(number) => Ok(Some(Command::Sample { number })),
        None => Ok(None),
    }
}

// The command that the subcommand and its words are.
fn command_by(alloc: Global, matches: &ArgMatches<'_>) -> Result<Option<Command>, Memory>
    ensures { IfOk result (λ command. command ≡ command_by (subcommand_rows_of matches.now)) }
{
    let Some((name, arguments)) = matches.subcommand() else {
        return Ok(None);
    };
    match name {
        "tokens" => Ok(Some(Command::Tokens)),
        "check" => Ok(Some(Command::Check)),
        "plain" => match arguments.get_str("steps") {
            Some(number) => plain_within(alloc, number),
            None => Ok(Some(Command::Plain {
                budget: USUAL_STEPS,
            })),
        },
        "sample" => match arguments.get_str("number") {
            Some(number) => sample_of(alloc, number),
            None => Ok(None),
        },
        _ => Ok(None),
    }
}

/// The command that these words are, if they are one (docs/PROGRAM.md, "Commands"). Memory is wanted only where no word
/// begins with a hyphen, but for `--steps`.
pub fn command_of(alloc: Global, words: &[String]) -> Result<Option<Command>, Memory>
    ensures command { IfOk result (λ command. command ≡ command_of (map (λ word. string_bytes word) words.now)) }
    ensures memory { OnErr result (has_other_option (map (λ word. string_bytes word) words.now) ≡ false) }
{
    if has_other_option(words) {
        return Ok(None);
    }
    match read_words(alloc, words)? {
        Some(matches) => command_by(alloc, &matches),
        None => Ok(None),
    }
}

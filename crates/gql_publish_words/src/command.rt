//! The command line of the program, and what it makes of words.
#![tactic(auto, unfolding(crate::specs::Words::the_command))]

ghost use Rattle.std.specs.Prelude.{◌≡◌, ◌≢◌, IfOk, IsErrOf, map, option_map, false};
ghost use Rattle.clap.specs.Simple.{app_of, with_rule};
ghost use Rattle.clap.specs.Matches.{found_of};
ghost use Rattle.clap.specs.Values.{kind_of};
ghost use Rattle.clap.specs.Walk.{rows_of, first_of, rule_of};
ghost use Rattle.gql_publish_words.specs.Words.{the_command, bare_command, with_orders, flag_rule, value_rule, is_there};
ghost use Rattle.gql_publish_words.specs.Words.{IsTakenLine, rows_of_line};

use crate::error::WordsError;
use clap::error::ErrorKind;
use clap::{Arg, ArgAction, ArgMatches, Command, Error};
use std::alloc::{AllocError, Global};

fn flag_arg<'a>(alloc: Global, name: &'a str) -> Arg<'a>
    ensures rule { rule_of result ≡ flag_rule name.entry.now }
    ensures local { result.global ≡ false }
{
    Arg::new(alloc, name).long(name).action(ArgAction::SetTrue)
}

fn value_arg<'a>(alloc: Global, name: &'a str) -> Arg<'a>
    ensures rule { rule_of result ≡ value_rule name.entry.now }
    ensures local { result.global ≡ false }
{
    Arg::new(alloc, name).long(name).action(ArgAction::Set)
}

fn bare_command<'a>(alloc: Global) -> Command<'a>
    ensures { app_of result ≡ bare_command }
{
    Command::new(alloc, "gqlsdl")
        .disable_help_flag(true)
        .disable_version_flag(true)
}

/// The command with one argument more.
fn with_arg<'a>(command: Command<'a>, arg: Arg<'a>) -> Result<Command<'a>, AllocError>
    requires { arg.global ≡ false }
    ensures { IfOk result (λ more.
        app_of more ≡ with_rule (app_of command.entry) (rule_of arg.entry)) }
{
    Ok(command.arg(arg)?)
}

/// The command with the options that sort by name.
fn with_orders<'a>(alloc: Global, command: Command<'a>) -> Result<Command<'a>, AllocError>
    ensures { IfOk result (λ more. app_of more ≡ with_orders (app_of command.entry)) }
{
    let command = with_arg(command, flag_arg(alloc, "sorted-fields"))?;
    let command = with_arg(command, flag_arg(alloc, "sorted-arguments"))?;
    let command = with_arg(command, flag_arg(alloc, "sorted-enum-items"))?;
    Ok(command)
}

fn command<'a>(alloc: Global) -> Result<Command<'a>, AllocError>
    ensures { IfOk result (λ command. app_of command ≡ the_command) }
{
    let command = with_orders(alloc, bare_command(alloc))?;
    let command = with_arg(command, flag_arg(alloc, "single-line"))?;
    let command = with_arg(command, value_arg(alloc, "indent"))?;
    let command = with_arg(command, value_arg(alloc, "sample"))?;
    Ok(command)
}

/// What an error of the command line is for the program.
fn words_error(error: &Error) -> WordsError
    ensures { result ≡ WordsError.Bad → kind_of error.now ≢ ErrorKind.OutOfMemory }
{
    match error.kind() {
        ErrorKind::OutOfMemory => WordsError::OutOfMemory,
        _ => WordsError::Bad,
    }
}

/// What the command finds in a line of words, of which the first is the program's name.
pub(crate) fn matches_of<'a>(
    alloc: Global,
    line: &'a [&'a str],
) -> Result<ArgMatches<'a>, WordsError>
    ensures rows { IfOk result (λ found. rows_of (found_of found)
        ≡ rows_of_line (map (λ w. w.now) line.entry.now)) }
    ensures taken { IfOk result (λ found. IsTakenLine (map (λ w. w.now) line.entry.now)) }
    ensures bad { IsErrOf result WordsError.Bad
        → IsTakenLine (map (λ w. w.now) line.entry.now) → ⊥ }
{
    let command = command(alloc)?;
    match command.try_get_matches_from(line) {
        Ok(matches) => Ok(matches),
        Err(error) => Err(words_error(&error)),
    }
}

/// The value of an option.
pub(crate) fn value<'a>(found: &ArgMatches<'a>, name: &str) -> Option<&'a str>
    ensures { option_map (λ s. s.now) result ≡ first_of name.now (rows_of (found_of found.now)) }
{
    found.get_str(name)
}

/// Whether an option without a value is there.
pub(crate) fn is_there(found: &ArgMatches<'_>, name: &str) -> bool
    ensures { result ≡ is_there name.now (rows_of (found_of found.now)) }
{
    match value(found, name) {
        Some(value) => value == "true",
        None => false,
    }
}

//! How a subcommand and the arguments that several share are made, and what was found for these.

ghost use Rattle.std.specs.Prelude.{◌≡◌, IfOk, option_map};
ghost use Rattle.clap.specs.Simple.{App, new_app, with_rule};
ghost use Rattle.clap.specs.Matches.{found_of};
ghost use Rattle.clap.specs.Walk.{Rule, rows_of, texts};
ghost use Rattle.pfx_program_args.specs.Commands.{required, as_json, IsArgument, IsCommand};
ghost use Rattle.pfx_program_args.specs.Requests.{flag_at, text_at, texts_at, number_at, wide_number_at};

use clap::{Arg, ArgAction, ArgMatches, Command};
use std::alloc::{AllocError, Global};

// A subcommand without its arguments: its line in the list of all, its help and its example.
pub(crate) fn subcommand<'a>(
    alloc: Global,
    name: &'a str,
    about: &'a str,
    long: &'a str,
    example: &'a str,
) -> Result<Command<'a>, AllocError>
    ensures { IfOk result (λ c. IsCommand c (new_app name.entry.now)) }
{
    let command = Command::new(alloc, name).about(about).long_about(long);
    Ok(command.after_help(example))
}

// A command with one more argument, if it could be made. What could be is handed on as it is, so that no maker of a command has a way out
// for each of its arguments.
pub(crate) fn with_argument<'a>(
    command: Result<Command<'a>, AllocError>,
    argument: Arg<'a>,
) -> Result<Command<'a>, AllocError>
    ensures { (app : App) (rule : Rule) → IfOk command.entry (λ c. IsCommand c app) → IsArgument argument.entry rule
        → IfOk result (λ c. IsCommand c (with_rule app rule)) }
{
    command?.arg(argument)
}

// A word that has to be there, by its name in the usage.
pub(crate) fn required_word<'a>(alloc: Global, name: &'a str, help: &'a str) -> Arg<'a>
    ensures { IsArgument result (required name.entry.now) }
{
    Arg::new(alloc, name).required(true).help(help)
}

// Whether what is printed is JSON.
pub(crate) fn json_flag<'a>(alloc: Global) -> Arg<'a>
    ensures { IsArgument result as_json }
{
    Arg::new(alloc, "json")
        .long("json")
        .help("Print an object of JSON a line")
        .action(ArgAction::SetTrue)
}

pub(crate) fn text_under<'a>(matches: &ArgMatches<'a>, name: &str) -> Option<&'a str>
    ensures { option_map (λ s. s.now) result ≡ text_at name.now (rows_of (found_of matches.now)) }
{
    matches.get_str(name)
}

pub(crate) fn number_under(matches: &ArgMatches<'_>, name: &str) -> Option<u32>
    ensures { result ≡ number_at name.now (rows_of (found_of matches.now)) }
{
    matches.get_one::<u32>(name)
}

// A number of 64 bits.
pub(crate) fn wide_number_under(matches: &ArgMatches<'_>, name: &str) -> Option<u64>
    ensures { result ≡ wide_number_at name.now (rows_of (found_of matches.now)) }
{
    matches.get_one::<u64>(name)
}

// All texts that stand for a word, in their order.
pub(crate) fn texts_under<'a>(
    alloc: Global,
    matches: &ArgMatches<'a>,
    name: &str,
) -> Result<Option<Vec<&'a str>>, AllocError>
    ensures { IfOk result (λ found. option_map (λ v. texts v.items) found
        ≡ texts_at name.now (rows_of (found_of matches.now))) }
{
    match matches.get_strs(name) {
        Some(found) => Ok(Some(Vec::from_slice(alloc, found)?)),
        None => Ok(None),
    }
}

// Whether a flag is there.
pub(crate) fn flag_under(matches: &ArgMatches<'_>, name: &str) -> bool
    ensures { result ≡ flag_at name.now (rows_of (found_of matches.now)) }
{
    match text_under(matches, name) {
        Some(text) => text == "true",
        None => false,
    }
}

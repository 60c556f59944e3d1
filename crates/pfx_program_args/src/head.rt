//! `pfx head LOG --json`.

ghost use Rattle.std.specs.Prelude.{◌≡◌, IfOk, option_map};
ghost use Rattle.clap.specs.Matches.{found_of};
ghost use Rattle.clap.specs.Walk.{rows_of};
ghost use Rattle.pfx_program_args.specs.Commands.{head_words, head_app, IsCommand};
ghost use Rattle.pfx_program_args.specs.Requests.{asked_by, head_in};

use crate::Request;
use crate::arguments::{
    flag_under, json_flag, required_word, subcommand, text_under, with_argument,
};
use clap::{ArgMatches, Command};
use std::alloc::{AllocError, Global};

const ABOUT: &str = "Tell the head that stands for all that a log has";

const LONG: &str =
    "Tell the last head of a log: 32 bytes that stand for all that the log has up to there

The head is a hash of the last block and of the head before it, and the first one of the log's beginning.
So no other log of as many blocks has the same head, unless two texts of one SHA-256 are known. Whoever
was given a head can't be shown another past by a log that has it. Nothing is checked but the log's form
and its heads; pfx audit checks what it tells.

One line is printed, with the number of the last command that the log has:

  head 3772 9f86d081884c7d659a2feaa0c55ad015a3bf4f1b2b0b822cd15d6c15b0f00a08

With --json it is an object: {\"head\":\"9f86..\",\"number\":3772}.";

const EXAMPLE: &str = "Example:
  pfx head thirds.log    the last head of the log thirds.log";

// The command without its flag.
fn bare_head<'a>(alloc: Global) -> Result<Command<'a>, AllocError>
    ensures { IfOk result (λ c. IsCommand c head_words) }
{
    let log = required_word(alloc, "LOG", "The log's file");
    with_argument(subcommand(alloc, "head", ABOUT, LONG, EXAMPLE), log)
}

pub(crate) fn head_command<'a>(alloc: Global) -> Result<Command<'a>, AllocError>
    ensures { IfOk result (λ c. IsCommand c head_app) }
{
    with_argument(bare_head(alloc), json_flag(alloc))
}

pub(crate) fn head_request<'a>(matches: &ArgMatches<'a>) -> Option<Request<'a>>
    ensures { option_map asked_by result ≡ head_in (rows_of (found_of matches.now)) }
{
    let log = text_under(matches, "LOG")?;
    let json = flag_under(matches, "json");
    Some(Request::Head { log, json })
}

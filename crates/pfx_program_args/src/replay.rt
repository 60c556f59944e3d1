//! `pfx replay FILE --json`.

ghost use Rattle.std.specs.Prelude.{◌≡◌, IfOk, option_map};
ghost use Rattle.clap.specs.Matches.{found_of};
ghost use Rattle.clap.specs.Walk.{rows_of};
ghost use Rattle.pfx_program_args.specs.Commands.{replay_words, replay_app, IsCommand};
ghost use Rattle.pfx_program_args.specs.Requests.{asked_by, replay_in};

use crate::Request;
use crate::arguments::{
    flag_under, json_flag, required_word, subcommand, text_under, with_argument,
};
use clap::{ArgMatches, Command};
use std::alloc::{AllocError, Global};

const ABOUT: &str = "Run a store's commands again, and compare them with its records";

const LONG: &str =
    "Run the commands of a store's file again, and compare what they do with what the file records

It begins at the lesser of the file's two checkpoints, where the records lead from it to the greater one,
else at the checkpoint in use, and computes each row and each state of a job anew, by code of its own.
Nothing is written. One line is printed:

  agrees 6                 all records and checkpoints are what the commands do, up to number 6
  differs 3 Row            up to 2 they are; the row that is recorded for command 3 isn't PF's
  differs 3 State          its row is; a job's state behind its quantum isn't the recorded one
  differs 3 Answer         the answer that it records isn't of the next unit that its task was given
  differs 10 Checkpoint    the checkpoint of number 10 isn't what the commands up to it lead to

With --json it is an object: {\"agrees\":6}, or {\"differs\":{\"number\":3,\"what\":\"Row\"}}.

The exit status is 0 where all agrees and 6 where something differs. A file that isn't a store, or is
damaged, is refused as every command refuses it.";

const EXAMPLE: &str = "Example:
  pfx replay thirds.pfx    whether the store thirds.pfx is what its commands do";

// The command without its flag.
fn bare_replay<'a>(alloc: Global) -> Result<Command<'a>, AllocError>
    ensures { IfOk result (λ c. IsCommand c replay_words) }
{
    let file = required_word(alloc, "FILE", "The store's file");
    with_argument(subcommand(alloc, "replay", ABOUT, LONG, EXAMPLE), file)
}

pub(crate) fn replay_command<'a>(alloc: Global) -> Result<Command<'a>, AllocError>
    ensures { IfOk result (λ c. IsCommand c replay_app) }
{
    with_argument(bare_replay(alloc), json_flag(alloc))
}

pub(crate) fn replay_request<'a>(matches: &ArgMatches<'a>) -> Option<Request<'a>>
    ensures { option_map asked_by result ≡ replay_in (rows_of (found_of matches.now)) }
{
    let file = text_under(matches, "FILE")?;
    let json = flag_under(matches, "json");
    Some(Request::Replay { file, json })
}

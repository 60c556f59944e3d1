//! `pfx status FILE --json`.

ghost use Rattle.std.specs.Prelude.{◌≡◌, IfOk, option_map};
ghost use Rattle.clap.specs.Matches.{found_of};
ghost use Rattle.clap.specs.Walk.{rows_of};
ghost use Rattle.pfx_program_args.specs.Commands.{status_words, status_app, IsCommand};
ghost use Rattle.pfx_program_args.specs.Requests.{asked_by, status_in};

use crate::Request;
use crate::arguments::{
    flag_under, json_flag, required_word, subcommand, text_under, with_argument,
};
use clap::{ArgMatches, Command};
use std::alloc::{AllocError, Global};

const ABOUT: &str = "Show where the tasks and jobs of a store stand";

const LONG: &str = "Show the board of a store: where its tasks and jobs stand

The first line has the number of the last command and the slot that comes next. Then each task has a
line, idle ones too: its number; alloc, the slots that it got; lag, the slots that it is due less
those that it got; job, which is none, open or done. The lag is below 0 where the task is ahead.
After the first slot of a new store of examples/thirds.toml the board is

  board 1 slot 1
  0 alloc=1 lag=-1/3 job=none
  1 alloc=1 lag=-1/3 job=none
  2 alloc=0 lag=2/3 job=none

With --json the board is one object instead, {\"number\":1,\"slot\":1,\"tasks\":[..]}, in which a task is
{\"alloc\":1,\"job\":\"none\",\"lag\":-1,\"period\":3,\"task\":0} for a lag of -1/3.";

const EXAMPLE: &str = "Example:
  pfx status thirds.pfx    the board of the store thirds.pfx";

// The command without its flag.
fn bare_status<'a>(alloc: Global) -> Result<Command<'a>, AllocError>
    ensures { IfOk result (λ c. IsCommand c status_words) }
{
    let file = required_word(alloc, "FILE", "The store's file");
    with_argument(subcommand(alloc, "status", ABOUT, LONG, EXAMPLE), file)
}

pub(crate) fn status_command<'a>(alloc: Global) -> Result<Command<'a>, AllocError>
    ensures { IfOk result (λ c. IsCommand c status_app) }
{
    with_argument(bare_status(alloc), json_flag(alloc))
}

pub(crate) fn status_request<'a>(matches: &ArgMatches<'a>) -> Option<Request<'a>>
    ensures { option_map asked_by result ≡ status_in (rows_of (found_of matches.now)) }
{
    let file = text_under(matches, "FILE")?;
    let json = flag_under(matches, "json");
    Some(Request::Status { file, json })
}

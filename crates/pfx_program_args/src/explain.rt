//! `pfx explain FAULT --json`.

ghost use Rattle.std.specs.Prelude.{◌≡◌, IfOk, option_map};
ghost use Rattle.clap.specs.Matches.{found_of};
ghost use Rattle.clap.specs.Walk.{rows_of};
ghost use Rattle.pfx_program_args.specs.Commands.{explain_words, explain_app, IsCommand};
ghost use Rattle.pfx_program_args.specs.Requests.{asked_by, explain_in};

use crate::Request;
use crate::arguments::{
    flag_under, json_flag, required_word, subcommand, text_under, with_argument,
};
use clap::{ArgMatches, Command};
use std::alloc::{AllocError, Global};

const ABOUT: &str = "Say what a fault means";

const LONG: &str = "Say what a fault means, with an example and what to do

FAULT is the number or the name of a fault, as it stands in the line that begins with pfx: error, or in
a line of a run that begins with refused. With --json it is said by one object, with the keys name,
number, status and text.";

const EXAMPLE: &str = "Example:
  pfx explain 14           what 14 BadWeight means
  pfx explain BadWeight    the same";

// The command without its flag.
fn bare_explain<'a>(alloc: Global) -> Result<Command<'a>, AllocError>
    ensures { IfOk result (λ c. IsCommand c explain_words) }
{
    let fault = required_word(alloc, "FAULT", "The fault's number or its name");
    with_argument(subcommand(alloc, "explain", ABOUT, LONG, EXAMPLE), fault)
}

pub(crate) fn explain_command<'a>(alloc: Global) -> Result<Command<'a>, AllocError>
    ensures { IfOk result (λ c. IsCommand c explain_app) }
{
    with_argument(bare_explain(alloc), json_flag(alloc))
}

pub(crate) fn explain_request<'a>(matches: &ArgMatches<'a>) -> Option<Request<'a>>
    ensures { option_map asked_by result ≡ explain_in (rows_of (found_of matches.now)) }
{
    let fault = text_under(matches, "FAULT")?;
    let json = flag_under(matches, "json");
    Some(Request::Explain { fault, json })
}

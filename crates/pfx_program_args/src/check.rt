//! `pfx check SET --json`.

ghost use Rattle.std.specs.Prelude.{◌≡◌, IfOk, option_map};
ghost use Rattle.clap.specs.Matches.{found_of};
ghost use Rattle.clap.specs.Walk.{rows_of};
ghost use Rattle.pfx_program_args.specs.Commands.{check_words, check_app, IsCommand};
ghost use Rattle.pfx_program_args.specs.Requests.{asked_by, check_in};

use crate::Request;
use crate::arguments::{
    flag_under, json_flag, required_word, subcommand, text_under, with_argument,
};
use clap::{ArgMatches, Command};
use std::alloc::{AllocError, Global};

const ABOUT: &str = "Say what a task set asks for, or all that is wrong with it";

const LONG: &str = "Say what a task set asks for, or all that is wrong with it

Of a set that is taken each line has a word and its value: workers; tasks; idle, the idle tasks that take
up what those leave over; hyper, the slots after which the plan repeats; load, the sum of the weights;
segment, the bytes of a segment of its store, and least, how many they have to be; size, the bytes of the
store's file. For examples/thirds.toml they are

  workers 2
  tasks 3
  idle 0
  hyper 3
  load 2/1
  segment 1048576
  least 4233
  size 2100163

A set that isn't taken is refused as every command refuses it, and then each further fault has a line
that begins with `pfx: also`: what would be said next, were the task that is named taken out of the set.

With --json it is one object, whose load is above and below the line, and each fault is one:

  {\"hyper\":3,\"idle\":0,\"least\":4233,\"load\":[2,1],\"segment\":1048576,\"size\":2100163,\"tasks\":3,\"workers\":2}
  {\"error\":{\"fields\":{\"task\":2},\"name\":\"BadWeight\",\"number\":14},\"note\":{\"change\":..,\"more\":..,\"what\":..}}";

const EXAMPLE: &str = "Example:
  pfx check examples/thirds.toml    what three tasks of weight 2/3 on two workers ask for";

// The command without its flag.
fn bare_check<'a>(alloc: Global) -> Result<Command<'a>, AllocError>
    ensures { IfOk result (λ c. IsCommand c check_words) }
{
    let set = required_word(alloc, "SET", "The set file, in TOML; - is standard input");
    with_argument(subcommand(alloc, "check", ABOUT, LONG, EXAMPLE), set)
}

pub(crate) fn check_command<'a>(alloc: Global) -> Result<Command<'a>, AllocError>
    ensures { IfOk result (λ c. IsCommand c check_app) }
{
    with_argument(bare_check(alloc), json_flag(alloc))
}

pub(crate) fn check_request<'a>(matches: &ArgMatches<'a>) -> Option<Request<'a>>
    ensures { option_map asked_by result ≡ check_in (rows_of (found_of matches.now)) }
{
    let set = text_under(matches, "SET")?;
    let json = flag_under(matches, "json");
    Some(Request::Check { set, json })
}

//! `pfx init SET FILE --at LEDGER --json`.

ghost use Rattle.std.specs.Prelude.{◌≡◌, IfOk, option_map};
ghost use Rattle.clap.specs.Matches.{found_of};
ghost use Rattle.clap.specs.Walk.{rows_of};
ghost use Rattle.pfx_program_args.specs.Commands.{init_words, init_app, IsCommand};
ghost use Rattle.pfx_program_args.specs.Requests.{asked_by, init_in};

use crate::Request;
use crate::arguments::{
    flag_under, json_flag, required_word, subcommand, text_under, with_argument,
};
use crate::plan::at_option;
use clap::{ArgMatches, Command};
use std::alloc::{AllocError, Global};

const ABOUT: &str = "Make a new store from a task set";

const LONG: &str = "Make a new store in FILE from the task set in SET

FILE is made where it is missing; one that isn't empty is refused and stays as it is. In the new
store no task has a job and no slot has run. A key segment of the set gives the size of each of the
file's two segments in bytes; without it they have 1048576.

One line is printed: m, the workers; real, the tasks of the set; idle, the idle tasks that take up
what those leave over; hyper, the slots after which the plan repeats; size, the bytes of the file.
For examples/thirds.toml it is

  created m=2 real=3 idle=0 hyper=3 size=2100163

With --at T:A,A,.. the store begins from a ledger, as a plan does: its first slot is T, and the tasks got
A, A and so on of the slots before it, idle tasks too.

With --json it is an object instead, and a refusal is one too:

  {\"created\":{\"hyper\":3,\"idle\":0,\"m\":2,\"real\":3,\"size\":2100163}}";

const EXAMPLE: &str = "Example:
  pfx init examples/thirds.toml thirds.pfx                 a store for three tasks of weight 2/3
  pfx init examples/thirds.toml later.pfx --at 2:2,1,1     and one whose first slot is 2";

// The command without its options.
fn bare_init<'a>(alloc: Global) -> Result<Command<'a>, AllocError>
    ensures { IfOk result (λ c. IsCommand c init_words) }
{
    let set = required_word(alloc, "SET", "The set file, in TOML; - is standard input");
    let command = with_argument(subcommand(alloc, "init", ABOUT, LONG, EXAMPLE), set);
    let file = required_word(alloc, "FILE", "The file to make the store in");
    with_argument(command, file)
}

pub(crate) fn init_command<'a>(alloc: Global) -> Result<Command<'a>, AllocError>
    ensures { IfOk result (λ c. IsCommand c init_app) }
{
    let command = with_argument(bare_init(alloc), at_option(alloc));
    with_argument(command, json_flag(alloc))
}

pub(crate) fn init_request<'a>(matches: &ArgMatches<'a>) -> Option<Request<'a>>
    ensures { option_map asked_by result ≡ init_in (rows_of (found_of matches.now)) }
{
    let set = text_under(matches, "SET")?;
    let file = text_under(matches, "FILE")?;
    let at = text_under(matches, "at");
    let json = flag_under(matches, "json");
    Some(Request::Init {
        set,
        file,
        at,
        json,
    })
}

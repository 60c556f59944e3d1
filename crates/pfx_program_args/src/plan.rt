//! `pfx plan SET SLOTS --at LEDGER --ledger --json`.

ghost use Rattle.std.specs.Prelude.{◌≡◌, IfOk, option_map};
ghost use Rattle.clap.specs.Matches.{found_of};
ghost use Rattle.clap.specs.Walk.{rows_of};
ghost use Rattle.pfx_program_args.specs.Commands.{slots, at_ledger, with_ledger, plan_words, plan_app, IsArgument, IsCommand};
ghost use Rattle.pfx_program_args.specs.Requests.{asked_by, plan_in};

use crate::Request;
use crate::arguments::{
    flag_under, json_flag, number_under, required_word, subcommand, text_under, with_argument,
};
use clap::{Arg, ArgAction, ArgMatches, Command, value_parser};
use std::alloc::{AllocError, Global};

const ABOUT: &str = "Print which tasks run in each of the first slots";

const LONG: &str = "Print which tasks run in each of the first slots of a task set

Each slot is one line of CSV: the number of the slot, from 0, and the names of the tasks that run
in it, one for each worker. Where the weights sum to less than the workers, idle tasks *0, *1 and so
on take up the rest.

With --at T:A,A,.. the plan goes on from a ledger: it begins at slot T, where the tasks got A, A and
so on of the slots before it, idle tasks too. It ends early where no fair schedule goes on.

With --ledger one more line stands behind the last slot: the ledger that it leaves, in the form that
--at takes. So a plan of more slots than one call takes goes on where the call before it ended. A plan
that ends early has no such line.

With --json each line is an object instead: {\"run\":[\"a\",\"b\"],\"slot\":0}, and behind the last slot
{\"ledger\":\"2:2,1,1\"}.";

const EXAMPLE: &str = "Example:
  pfx plan examples/thirds.toml 4                  the first four slots of three tasks of weight 2/3
  pfx plan examples/thirds.toml 4 --at 2:2,1,1     and four from slot 2 on
  pfx plan examples/thirds.toml 2 --ledger         two slots, and 2:2,1,1";

fn slots_word<'a>(alloc: Global) -> Arg<'a>
    ensures { IsArgument result slots }
{
    let slots = required_word(alloc, "SLOTS", "How many slots to print, 0 to 1048576");
    slots.value_parser(value_parser!(u32).range(0..=1_048_576))
}

pub(crate) fn at_option<'a>(alloc: Global) -> Arg<'a>
    ensures { IsArgument result at_ledger }
{
    Arg::new(alloc, "at").long("at").value_name("T:A,A,..").help(
        "Begin at slot T, where the tasks got these numbers of the slots before it",
    )
}

fn ledger_flag<'a>(alloc: Global) -> Arg<'a>
    ensures { IsArgument result with_ledger }
{
    Arg::new(alloc, "ledger")
        .long("ledger")
        .help("Print one more line: the ledger behind the last slot, as --at takes it")
        .action(ArgAction::SetTrue)
}

// The command without its options.
fn bare_plan<'a>(alloc: Global) -> Result<Command<'a>, AllocError>
    ensures { IfOk result (λ c. IsCommand c plan_words) }
{
    let set = required_word(alloc, "SET", "The set file, in TOML; - is standard input");
    let command = with_argument(subcommand(alloc, "plan", ABOUT, LONG, EXAMPLE), set);
    with_argument(command, slots_word(alloc))
}

pub(crate) fn plan_command<'a>(alloc: Global) -> Result<Command<'a>, AllocError>
    ensures { IfOk result (λ c. IsCommand c plan_app) }
{
    let command = with_argument(bare_plan(alloc), at_option(alloc));
    let command = with_argument(command, ledger_flag(alloc));
    with_argument(command, json_flag(alloc))
}

pub(crate) fn plan_request<'a>(matches: &ArgMatches<'a>) -> Option<Request<'a>>
    ensures { option_map asked_by result ≡ plan_in (rows_of (found_of matches.now)) }
{
    let set = text_under(matches, "SET")?;
    let slots = number_under(matches, "SLOTS")?;
    let at = text_under(matches, "at");
    let ledger = flag_under(matches, "ledger");
    let json = flag_under(matches, "json");
    Some(Request::Plan {
        set,
        slots,
        at,
        ledger,
        json,
    })
}

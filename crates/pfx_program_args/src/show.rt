//! `pfx show FILE TASK --json`.

ghost use Rattle.std.specs.Prelude.{◌≡◌, IfOk, option_map};
ghost use Rattle.clap.specs.Matches.{found_of};
ghost use Rattle.clap.specs.Walk.{rows_of};
ghost use Rattle.pfx_program_args.specs.Commands.{task, show_words, show_app, IsArgument, IsCommand};
ghost use Rattle.pfx_program_args.specs.Requests.{asked_by, show_in};

use crate::Request;
use crate::arguments::{
    flag_under, json_flag, number_under, required_word, subcommand, text_under, with_argument,
};
use clap::{Arg, ArgMatches, Command, value_parser};
use std::alloc::{AllocError, Global};

const ABOUT: &str = "Show what the jobs of a store have computed";

const LONG: &str = "Show what the jobs of a store have computed

Each task that has a job, done or not, has a line: the task's number, the job's kind, left, the steps
that it has still to do, and what it has come to. That is value of a count; rule and cells of a rule;
and of a scan found, how often it has found the needle, which follows behind of=. Of an own job it is
answered, the unit that was answered last, and text, its answer.

  0 count left=98 value=12
  1 rule left=0 rule=110 cells=00001101
  2 scan left=0 found=2 of=ab
  3 own answered=1 text=s=500;ck=9f2c

With TASK that task's line alone is printed. A task without a job is refused as 33 NoJob, a number that
is no task's as 31 NoSuchTask. With --json each line is an object instead:

  {\"job\":\"count\",\"left\":98,\"task\":0,\"value\":12}
  {\"cells\":\"00001101\",\"job\":\"rule\",\"left\":0,\"rule\":110,\"task\":1}
  {\"found\":2,\"job\":\"scan\",\"left\":0,\"of\":\"ab\",\"task\":2}
  {\"answered\":1,\"job\":\"own\",\"task\":3,\"text\":\"s=500;ck=9f2c\"}";

const EXAMPLE: &str = "Example:
  pfx show thirds.pfx      what all jobs of the store thirds.pfx have computed
  pfx show thirds.pfx 0    what the job of task 0 has";

fn task_word<'a>(alloc: Global) -> Arg<'a>
    ensures { IsArgument result task }
{
    Arg::new(alloc, "TASK")
        .help("The number of a task; all tasks if it isn't given")
        .value_parser(value_parser!(u32).range(0..=65_535))
}

// The command without the task and the flag.
fn bare_show<'a>(alloc: Global) -> Result<Command<'a>, AllocError>
    ensures { IfOk result (λ c. IsCommand c show_words) }
{
    let file = required_word(alloc, "FILE", "The store's file");
    with_argument(subcommand(alloc, "show", ABOUT, LONG, EXAMPLE), file)
}

pub(crate) fn show_command<'a>(alloc: Global) -> Result<Command<'a>, AllocError>
    ensures { IfOk result (λ c. IsCommand c show_app) }
{
    let command = with_argument(bare_show(alloc), task_word(alloc));
    with_argument(command, json_flag(alloc))
}

pub(crate) fn show_request<'a>(matches: &ArgMatches<'a>) -> Option<Request<'a>>
    ensures { option_map asked_by result ≡ show_in (rows_of (found_of matches.now)) }
{
    let file = text_under(matches, "FILE")?;
    let task = number_under(matches, "TASK");
    let json = flag_under(matches, "json");
    Some(Request::Show { file, task, json })
}

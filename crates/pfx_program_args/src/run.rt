//! `pfx run FILE SCRIPT --workers N --batch N --log LOG --after OLD --strict --json`.

ghost use Rattle.std.specs.Prelude.{◌≡◌, IfOk, option_map};
ghost use Rattle.clap.specs.Matches.{found_of};
ghost use Rattle.clap.specs.Walk.{rows_of};
ghost use Rattle.pfx_program_args.specs.Commands.{workers, batch, beside_log, older_log, strict, run_by_batch, run_after_log, run_words, run_app};
ghost use Rattle.pfx_program_args.specs.Commands.{IsArgument, IsCommand};
ghost use Rattle.pfx_program_args.specs.Requests.{asked_by, run_in};

use crate::Request;
use crate::arguments::{
    flag_under, json_flag, number_under, required_word, subcommand, text_under, with_argument,
};
use clap::{Arg, ArgAction, ArgMatches, Command, value_parser};
use std::alloc::{AllocError, Global};

const ABOUT: &str = "Run a script of commands on a store";

const LONG: &str = "Run the commands of a script on a store, and keep in its file what they do

The script is CSV without a header line. Each record has five fields: a verb, a task by its number, a
kind of job, a goal and data. Fields that aren't used are empty.

  submit,TASK,KIND,GOAL,DATA    give the task a job of kind count, rule, scan or own; an empty goal is 0
  slot,,,N,                     run N slots, 1 to 1048576, up to the first refusal; 1 if N is empty
  withdraw,TASK,,,              take the task's job away
  reweigh,,,M,E/P E/P ..        give the tasks new weights, in their order, and the store M workers
  settle,,,,                    wait until all that was accepted is kept
  status,,,,                    settle, and show the board (see pfx status --help)
  show,TASK,,,                  settle, and show what the task's job holds, or all if TASK is empty

Jobs of kind count and rule take GOAL steps. A count's data are the digits that it begins with, or
nothing for 0; a rule's are its number, 0 to 255, a colon and 3 to 512 cells, each 0 or 1. A scan has
no goal, and its data are a needle, 1 to 16 characters, a colon and a text of at most 64.

A job of kind own records the answer of the task's unit GOAL, which another program did: up to 106
characters without space, quote, comma and backslash. A slot of the task grants the unit of its
allocation; an answer of another unit than the next one, or of one not granted yet, is refused as
45 NotNext.

New weights come into force where no task is ahead or behind, idle ones too: before the first slot, and
behind it at each multiple of the set's hyperperiod (pfx check tells it), often earlier. Elsewhere they
are refused as 35 NotLevel. Jobs stay, and the board counts from there on.

Commands are numbered as they are accepted, and each prints a line: 1 submitted 0 (command 1, task 0),
2 ran 0: 0 1 (command 2: in slot 0 ran tasks 0 and 1), 3 withdrawn 0, 4 reweighed 3 (from slot 3 on). One
that is refused gets no number, as in refused 32 TaskBusy task=0, and the script goes on. settle prints
settled 3 and the end of the script closed 3, with the last number. A record of another form ends the
run; what was done before it stands.

A script is read a record at a time: each record's lines are printed, once what they tell is kept,
before the next record is waited for. So another program can keep pfx run FILE - as a child, write a
record to it, and read the answer.

With --workers N the jobs of a slot run on N threads, while another thread keeps the slots before it; with
0 one thread does all. Without it there are as many as the store's set has workers. With --batch N up to
N slots of one record are kept at once, by one write of the file, and their lines are printed then. The
output is the same for all of them.

With --log LOG each batch of commands comes to stand in the file LOG too, before the store's file takes its
place for others: the store keeps what it needs to go on, the log keeps all. A log begins at the store's
state, or goes on where it ended; pfx audit checks it. With --after OLD too, LOG has to be missing or
empty: the store's commands are brought up to OLD's end first, and LOG begins there and names OLD's head,
so that an audit takes both.

With --strict the script ends behind its first refused record, as if no more stood in it: nothing
further is carried out, and the exit status is 7.

With --json each line is an object instead, and a board is one:

  {\"did\":\"submitted\",\"number\":1,\"task\":0}
  {\"did\":\"ran\",\"number\":2,\"slot\":0,\"tasks\":[0,1]}
  {\"did\":\"withdrawn\",\"number\":3,\"task\":0}
  {\"did\":\"reweighed\",\"number\":4,\"slot\":3}
  {\"refused\":{\"fields\":{\"task\":0},\"name\":\"TaskBusy\",\"number\":32}}
  {\"settled\":3}
  {\"closed\":3}";

const EXAMPLE: &str = "Example:
  pfx run thirds.pfx examples/thirds.csv    a job of three steps and three slots, then the board
  echo slot,,,2, | pfx run thirds.pfx -     two slots";

fn workers_option<'a>(alloc: Global) -> Arg<'a>
    ensures { IsArgument result workers }
{
    Arg::new(alloc, "workers")
        .long("workers")
        .value_name("N")
        .help("How many workers run the jobs, 0 to 64; as many as the set has if it isn't given")
        .value_parser(value_parser!(u32).range(0..=64))
}

fn batch_option<'a>(alloc: Global) -> Arg<'a>
    ensures { IsArgument result batch }
{
    Arg::new(alloc, "batch")
        .long("batch")
        .value_name("N")
        .help("How many slots of a record are kept at once, 1 to 16; else 1, or 64 with workers")
        .value_parser(value_parser!(u32).range(1..=16))
}

fn log_option<'a>(alloc: Global) -> Arg<'a>
    ensures { IsArgument result beside_log }
{
    Arg::new(alloc, "log").long("log").value_name("LOG").help(
        "The file that keeps the whole history; it is made if it is missing",
    )
}

fn after_option<'a>(alloc: Global) -> Arg<'a>
    ensures { IsArgument result older_log }
{
    Arg::new(alloc, "after")
        .long("after")
        .value_name("OLD")
        .help("The log that a new one goes on from")
}

fn strict_flag<'a>(alloc: Global) -> Arg<'a>
    ensures { IsArgument result strict }
{
    Arg::new(alloc, "strict")
        .long("strict")
        .help("End at the first refused record, with status 7")
        .action(ArgAction::SetTrue)
}

// The command without its options.
fn bare_run<'a>(alloc: Global) -> Result<Command<'a>, AllocError>
    ensures { IfOk result (λ c. IsCommand c run_words) }
{
    let file = required_word(alloc, "FILE", "The store's file");
    let command = with_argument(subcommand(alloc, "run", ABOUT, LONG, EXAMPLE), file);
    let script = required_word(alloc, "SCRIPT", "The script, in CSV; - is standard input");
    with_argument(command, script)
}

// And with the numbers that it takes.
fn numbered_run<'a>(alloc: Global) -> Result<Command<'a>, AllocError>
    ensures { IfOk result (λ c. IsCommand c run_by_batch) }
{
    let command = with_argument(bare_run(alloc), workers_option(alloc));
    with_argument(command, batch_option(alloc))
}

// And with its logs.
fn logged_run<'a>(alloc: Global) -> Result<Command<'a>, AllocError>
    ensures { IfOk result (λ c. IsCommand c run_after_log) }
{
    let command = with_argument(numbered_run(alloc), log_option(alloc));
    with_argument(command, after_option(alloc))
}

pub(crate) fn run_command<'a>(alloc: Global) -> Result<Command<'a>, AllocError>
    ensures { IfOk result (λ c. IsCommand c run_app) }
{
    let command = with_argument(logged_run(alloc), strict_flag(alloc));
    with_argument(command, json_flag(alloc))
}

pub(crate) fn run_request<'a>(matches: &ArgMatches<'a>) -> Option<Request<'a>>
    ensures { option_map asked_by result ≡ run_in (rows_of (found_of matches.now)) }
{
    let file = text_under(matches, "FILE")?;
    let script = text_under(matches, "SCRIPT")?;
    let workers = number_under(matches, "workers");
    let batch = number_under(matches, "batch");
    let log = text_under(matches, "log");
    let after = text_under(matches, "after");
    let strict = flag_under(matches, "strict");
    let json = flag_under(matches, "json");
    Some(Request::Run {
        file,
        script,
        workers,
        batch,
        log,
        after,
        strict,
        json,
    })
}

//! `pfx audit LOG.. --every N --from N --to N --number N --csv --json`.

ghost use Rattle.std.specs.Prelude.{◌≡◌, IfOk, option_map};
ghost use Rattle.clap.specs.Matches.{found_of};
ghost use Rattle.clap.specs.Walk.{rows_of};
ghost use Rattle.pfx_program_args.specs.Commands.{history, every, numbered, as_csv, IsArgument, IsCommand};
ghost use Rattle.pfx_program_args.specs.Commands.{audit_words, audit_in_windows, audit_app};
ghost use Rattle.pfx_program_args.specs.Requests.{asked_by, form_of, audit_in};

use crate::arguments::{
    flag_under, json_flag, number_under, required_word, subcommand, texts_under, wide_number_under,
    with_argument,
};
use crate::{AuditForm, Request};
use clap::{Arg, ArgAction, ArgMatches, Command, value_parser};
use std::alloc::{AllocError, Global};

const ABOUT: &str = "Check a history that logs keep, and sum up what each task got";

const LONG: &str =
    "Run the commands of a history again, compare what they do with what the history records, and sum up what
each task got

The history is what one log has or several in their order, as pfx run --log keeps them; the last path may
be the store's file, whose records stand behind the last log's. Each further log has to name the head of
the one before it, and no record may be missing in between. Each row and each state of a job is computed
anew, by code of its own, and compared with the record, and so are the checkpoints of the store's file.
Nothing is written.

Each window of slots has a line for each task of the set: what it was due, the weight times the slots of
the window; got, the slots of the window in which it ran; used, those of them in which it had an open job,
and wasted, the others; the least and the greatest of its lags within the window, and that at its end.

  0..1440 task 0 due 1440/2 got 720 used 700 wasted 20 lag -1/2 to 1/2, at the end 0/2

Windows have --every slots and begin at slot --from; one ends early where the history ends, at slot --to,
and where the tasks get new weights. Without --every there is one window, without --from it begins with
the history. The last line is that of pfx replay:

  agrees 3772           all records and checkpoints are what the commands do, up to number 3772
  differs 12 Row        up to 11 they are; see pfx replay --help

With --number N the record of that number alone is printed, with the block of the log that it stands in and
that block's head, and no totals.

With --csv the windows are CSV below a line with the names of the columns: from, to, place (the task), owner,
due, got, used, extra, lent, wasted, lag_least, lag_greatest and lag_end; behind them due and the lags once
more, with six decimals. Owner, extra and lent are empty. With --json each line is an object, also where both
are asked for.

The exit status is 0 where all agrees and 6 where something differs. A file that is no log, is damaged, or
doesn't go on where the one before it ended is refused.";

const EXAMPLE: &str = "Example:
  pfx audit thirds.log thirds.pfx                       a log and the store behind it
  pfx audit thirds.log thirds.pfx --every 1440 --csv    what each task got of 1440 slots, as CSV
  pfx audit thirds.log --number 12                      the record of number 12";

fn history_words<'a>(alloc: Global) -> Arg<'a>
    ensures { IsArgument result history }
{
    let help = "The logs in their order; the last may be the store's file";
    required_word(alloc, "LOG", help).num_args(1..)
}

fn every_option<'a>(alloc: Global) -> Arg<'a>
    ensures { IsArgument result every }
{
    Arg::new(alloc, "every")
        .long("every")
        .value_name("N")
        .help("How many slots a window has, 1 to 1048576; all if it isn't given")
        .value_parser(value_parser!(u32).range(1..=1_048_576))
}

// An option with a number of 0 to 2^48.
fn numbered_option<'a>(alloc: Global, name: &'a str, help: &'a str) -> Arg<'a>
    ensures { IsArgument result (numbered name.entry.now) }
{
    Arg::new(alloc, name)
        .long(name)
        .value_name("N")
        .help(help)
        .value_parser(value_parser!(u64).range(0..=281_474_976_710_656))
}

fn csv_flag<'a>(alloc: Global) -> Arg<'a>
    ensures { IsArgument result as_csv }
{
    Arg::new(alloc, "csv")
        .long("csv")
        .help("Print the windows as CSV, unless --json is there")
        .action(ArgAction::SetTrue)
}

// The command without its options.
fn bare_audit<'a>(alloc: Global) -> Result<Command<'a>, AllocError>
    ensures { IfOk result (λ c. IsCommand c audit_words) }
{
    let command = subcommand(alloc, "audit", ABOUT, LONG, EXAMPLE);
    with_argument(command, history_words(alloc))
}

// And with the windows.
fn windowed_audit<'a>(alloc: Global) -> Result<Command<'a>, AllocError>
    ensures { IfOk result (λ c. IsCommand c audit_in_windows) }
{
    let command = with_argument(bare_audit(alloc), every_option(alloc));
    let from = numbered_option(alloc, "from", "The slot that the first window begins at");
    let command = with_argument(command, from);
    let to = numbered_option(alloc, "to", "The slot that the last window ends before");
    with_argument(command, to)
}

pub(crate) fn audit_command<'a>(alloc: Global) -> Result<Command<'a>, AllocError>
    ensures { IfOk result (λ c. IsCommand c audit_app) }
{
    let number = numbered_option(alloc, "number", "The number of a record to print alone");
    let command = with_argument(windowed_audit(alloc), number);
    let command = with_argument(command, csv_flag(alloc));
    with_argument(command, json_flag(alloc))
}

fn form_of(csv: bool, json: bool) -> AuditForm
    ensures { result ≡ form_of csv json }
{
    if json {
        AuditForm::Json
    } else if csv {
        AuditForm::Csv
    } else {
        AuditForm::Text
    }
}

pub(crate) fn audit_request<'a>(
    alloc: Global,
    matches: &ArgMatches<'a>,
) -> Result<Option<Request<'a>>, AllocError>
    ensures { IfOk result (λ r. option_map asked_by r ≡ audit_in (rows_of (found_of matches.now))) }
{
    let Some(logs) = texts_under(alloc, matches, "LOG")? else {
        return Ok(None);
    };
    let every = number_under(matches, "every");
    let from = wide_number_under(matches, "from");
    let to = wide_number_under(matches, "to");
    let number = wide_number_under(matches, "number");
    let form = form_of(flag_under(matches, "csv"), flag_under(matches, "json"));
    Ok(Some(Request::Audit {
        logs,
        every,
        from,
        to,
        number,
        form,
    }))
}

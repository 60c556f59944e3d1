//! `pfx` and its subcommands.

ghost use Rattle.std.specs.Prelude.{◌≡◌, IfOk, IfErr, true, option_map};
ghost use Rattle.clap.specs.Faults.{fault_of};
ghost use Rattle.clap.specs.Kinds.{FailsBy};
ghost use Rattle.clap.specs.Takes.{takes};
ghost use Rattle.clap.specs.Values.{kind_of};
ghost use Rattle.clap.specs.Walk.{texts};
ghost use Rattle.clap.specs.Simple.{App, subcommand_rows_of, with_subcommand};
ghost use Rattle.pfx_program_args.specs.Commands.{bare_app, pfx_app, IsCommand};
ghost use Rattle.pfx_program_args.specs.Requests.{asked_by, asked_in, asked};

use crate::Request;
use crate::audit::{audit_command, audit_request};
use crate::check::{check_command, check_request};
use crate::draw::{draw_command, draw_request};
use crate::explain::{explain_command, explain_request};
use crate::head::{head_command, head_request};
use crate::init::{init_command, init_request};
use crate::migrate::{migrate_command, migrate_request};
use crate::plan::{plan_command, plan_request};
use crate::replay::{replay_command, replay_request};
use crate::run::{run_command, run_request};
use crate::show::{show_command, show_request};
use crate::status::{status_command, status_request};
use clap::error::ErrorKind;
use clap::{ArgMatches, Command, Error};
use std::alloc::{AllocError, Global};

const ABOUT: &str = "Share workers among long jobs by proportionate progress";

const LONG: &str = "Share workers among long jobs by proportionate progress

A set file names the workers and the tasks. A task of weight e/p gets e of every p slots, and is
never a whole slot ahead of its share or behind it. A store is a file that keeps the jobs of the tasks
and the slots that each task got.";

const EXAMPLE: &str = "Example:
  pfx plan examples/thirds.toml 4               the first four slots of three tasks of weight 2/3
  pfx init examples/thirds.toml thirds.pfx      a new store of these tasks
  pfx run thirds.pfx examples/thirds.csv        a script of commands, run on the store
  pfx status thirds.pfx                         where its tasks and jobs stand
  pfx replay thirds.pfx                         whether its records are what its commands do
  pfx show thirds.pfx                           what its jobs have computed
  pfx draw examples/thirds.toml 12              twelve slots of them as a picture
  pfx check examples/thirds.toml                what these tasks ask for, or all that is wrong with them
  pfx explain BadWeight                         what this fault means
  pfx migrate old.pfx new.pfx                   a store of this version from one of version 1
  pfx audit thirds.log thirds.pfx               whether a log and the store behind it hold, and who got what
  pfx head thirds.log                           the head that stands for all that a log has";

fn bare_command<'a>(alloc: Global) -> Command<'a>
    ensures { IsCommand result bare_app }
{
    Command::new(alloc, "pfx")
        .version("0.1.0")
        .propagate_version(true)
        .subcommand_required(true)
        .about(ABOUT)
        .long_about(LONG)
        .after_help(EXAMPLE)
}

// A command with one more subcommand, if both could be made.
fn with_subcommand<'a>(
    command: Result<Command<'a>, AllocError>,
    subcommand: Result<Command<'a>, AllocError>,
) -> Result<Command<'a>, AllocError>
    ensures { (app sub : App) → IfOk command.entry (λ c. IsCommand c app) → IfOk subcommand.entry (λ c. IsCommand c sub)
        → IfOk result (λ c. IsCommand c (with_subcommand app sub.top)) }
{
    command?.subcommand(subcommand?)
}

fn pfx_command<'a>(alloc: Global) -> Result<Command<'a>, AllocError>
    ensures { IfOk result (λ c. IsCommand c pfx_app) }
{
    let command = with_subcommand(Ok(bare_command(alloc)), plan_command(alloc));
    let command = with_subcommand(command, init_command(alloc));
    let command = with_subcommand(command, run_command(alloc));
    let command = with_subcommand(command, status_command(alloc));
    let command = with_subcommand(command, replay_command(alloc));
    let command = with_subcommand(command, show_command(alloc));
    let command = with_subcommand(command, draw_command(alloc));
    let command = with_subcommand(command, check_command(alloc));
    let command = with_subcommand(command, explain_command(alloc));
    let command = with_subcommand(command, migrate_command(alloc));
    let command = with_subcommand(command, audit_command(alloc));
    with_subcommand(command, head_command(alloc))
}

fn request_in<'a>(
    alloc: Global,
    matches: &ArgMatches<'a>,
) -> Result<Option<Request<'a>>, AllocError>
    ensures { IfOk result (λ r. option_map asked_by r ≡ asked_in (subcommand_rows_of matches.now)) }
{
    let Some((name, inner)) = matches.subcommand() else {
        return Ok(None);
    };
    match name {
        "plan" => Ok(plan_request(inner)),
        "init" => Ok(init_request(inner)),
        "run" => Ok(run_request(inner)),
        "status" => Ok(status_request(inner)),
        "replay" => Ok(replay_request(inner)),
        "show" => Ok(show_request(inner)),
        "draw" => Ok(draw_request(inner)),
        "check" => Ok(check_request(inner)),
        "explain" => Ok(explain_request(inner)),
        "migrate" => Ok(migrate_request(inner)),
        "audit" => audit_request(alloc, inner),
        "head" => Ok(head_request(inner)),
        _ => Ok(None),
    }
}

/// What the words of a command line ask for. The first word is the program's own name.
///
/// An `Err` has the text to print and the exit status: 2 and what was expected if the command
/// doesn't take the words, 0 if they ask for help or for the version. `OutOfMemory` is its kind
/// if memory ran out. `None` comes if the words ask for nothing, which the command refuses.
pub fn read_words<'a>(alloc: Global, words: &'a [&'a str]) -> Result<Option<Request<'a>>, Error>
    ensures ok { IfOk result (λ r. option_map asked_by r ≡ asked (texts words.entry.now)) }
    ensures taken { IfErr result (λ e. takes pfx_app (texts words.entry.now) ≡ true → kind_of e ≡ ErrorKind.OutOfMemory) }
    ensures faults { FailsBy (fault_of pfx_app (texts words.entry.now)) result }
{
    let command = pfx_command(alloc)?;
    let matches = command.try_get_matches_from(words)?;
    let request = request_in(alloc, &matches)?;
    Ok(request)
}

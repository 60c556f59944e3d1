//! `pfx migrate OLD NEW --json`.

ghost use Rattle.std.specs.Prelude.{◌≡◌, IfOk, option_map};
ghost use Rattle.clap.specs.Matches.{found_of};
ghost use Rattle.clap.specs.Walk.{rows_of};
ghost use Rattle.pfx_program_args.specs.Commands.{migrate_words, migrate_app, IsCommand};
ghost use Rattle.pfx_program_args.specs.Requests.{asked_by, migrate_in};

use crate::Request;
use crate::arguments::{
    flag_under, json_flag, required_word, subcommand, text_under, with_argument,
};
use clap::{ArgMatches, Command};
use std::alloc::{AllocError, Global};

const ABOUT: &str = "Make a store of this version from one of version 1";

const LONG: &str = "Make a store of this version in NEW from the store of version 1 in OLD

OLD is only read, and stays as it is. NEW is made where it is missing; one that isn't empty is refused
and stays as it is. The new store has the set of the old one, its jobs, the slots that its tasks got,
and the number of its last command. That number is in the one line that is printed:

  migrated 4

With --json it is an object: {\"migrated\":4}.

A NEW left behind by a stop is no store, which every command says, or it is whole. Delete it and do it
again.";

const EXAMPLE: &str = "Example:
  pfx migrate old.pfx new.pfx    new.pfx goes on where old.pfx, of version 1, ended";

// The command without its flag.
fn bare_migrate<'a>(alloc: Global) -> Result<Command<'a>, AllocError>
    ensures { IfOk result (λ c. IsCommand c migrate_words) }
{
    let old = required_word(alloc, "OLD", "The file of the store of version 1");
    let command = with_argument(subcommand(alloc, "migrate", ABOUT, LONG, EXAMPLE), old);
    let new = required_word(alloc, "NEW", "The file to make the store in");
    with_argument(command, new)
}

pub(crate) fn migrate_command<'a>(alloc: Global) -> Result<Command<'a>, AllocError>
    ensures { IfOk result (λ c. IsCommand c migrate_app) }
{
    with_argument(bare_migrate(alloc), json_flag(alloc))
}

pub(crate) fn migrate_request<'a>(matches: &ArgMatches<'a>) -> Option<Request<'a>>
    ensures { option_map asked_by result ≡ migrate_in (rows_of (found_of matches.now)) }
{
    let old = text_under(matches, "OLD")?;
    let new = text_under(matches, "NEW")?;
    let json = flag_under(matches, "json");
    Some(Request::Migrate { old, new, json })
}

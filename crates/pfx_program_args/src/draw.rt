//! `pfx draw SET SLOTS --at LEDGER`.

ghost use Rattle.std.specs.Prelude.{◌≡◌, IfOk, option_map};
ghost use Rattle.clap.specs.Matches.{found_of};
ghost use Rattle.clap.specs.Walk.{rows_of};
ghost use Rattle.pfx_program_args.specs.Commands.{drawn_slots, draw_words, draw_app, IsArgument, IsCommand};
ghost use Rattle.pfx_program_args.specs.Requests.{asked_by, draw_in};

use crate::Request;
use crate::arguments::{number_under, required_word, subcommand, text_under, with_argument};
use crate::plan::at_option;
use clap::{Arg, ArgMatches, Command, value_parser};
use std::alloc::{AllocError, Global};

const ABOUT: &str = "Draw the first slots of a plan as a picture";

const LONG: &str = "Draw the first slots of a plan as a picture, an SVG on standard output

Each task, idle ones too, has a lane: a bar in each slot in which it runs, and below it a line of its
lag, what it is due less what it got, between one slot behind (up) and one ahead (down). Of more than
48 tasks the lag is the colour of the cell. Dashed lines stand where every lag is 0.

As many as 1,440 slots can be drawn, and 262,144 over all lanes. With --at T:A,A,.. the picture goes on
from a ledger, as the plan does.";

const EXAMPLE: &str = "Example:
  pfx draw examples/thirds.toml 12 > thirds.svg    twelve slots of three tasks of weight 2/3";

fn slots_word<'a>(alloc: Global) -> Arg<'a>
    ensures { IsArgument result drawn_slots }
{
    let slots = required_word(alloc, "SLOTS", "How many slots to draw, 1 to 1440");
    slots.value_parser(value_parser!(u32).range(1..=1440))
}

// The command without its option.
fn bare_draw<'a>(alloc: Global) -> Result<Command<'a>, AllocError>
    ensures { IfOk result (λ c. IsCommand c draw_words) }
{
    let set = required_word(alloc, "SET", "The set file, in TOML; - is standard input");
    let command = with_argument(subcommand(alloc, "draw", ABOUT, LONG, EXAMPLE), set);
    with_argument(command, slots_word(alloc))
}

pub(crate) fn draw_command<'a>(alloc: Global) -> Result<Command<'a>, AllocError>
    ensures { IfOk result (λ c. IsCommand c draw_app) }
{
    with_argument(bare_draw(alloc), at_option(alloc))
}

pub(crate) fn draw_request<'a>(matches: &ArgMatches<'a>) -> Option<Request<'a>>
    ensures { option_map asked_by result ≡ draw_in (rows_of (found_of matches.now)) }
{
    let set = text_under(matches, "SET")?;
    let slots = number_under(matches, "SLOTS")?;
    let at = text_under(matches, "at");
    Some(Request::Draw { set, slots, at })
}

//! The picture that is made of a set file's bytes.
//!
//! Why it is so:
//! - **A picture is made whole before it is printed**, a few megabytes at most: a refusal prints nothing.

ghost use Rattle.std.specs.Prelude.{IfSome, IfOk, IfErr, option_map};
ghost use Rattle.pfx_program_draw.specs.Picture.{Pictures, PictureFails};

use crate::drawing::{DrawFault, draw};
use crate::start::read_start;
use pfx_choice_refusals::choice_fault;
use pfx_fault::Fault;
use std::alloc::Global;
use std::io::Read;

/// The picture of the plan of `slots` slots of the set that the reader gives, from slot 0 or from the ledger on that `at`
/// gives, as the text of an SVG; `None` if it would be too large, as `draw` says.
///
/// Faults come as from `read_start`, and then that of a slot without a row: `TooManyUrgent`, `TooFewEligible` or
/// `SlotLimit`.
pub fn run_draw<R: Read>(
    alloc: Global,
    input: &mut R,
    at: Option<&str>,
    name: &str,
    slots: u64,
) -> Result<Option<Vec<u8>>, Fault>
    ensures ok { IfOk result
        (λ r. IfSome (R.remaining input.old) (λ bytes. Pictures bytes (option_map (λ s. s.now) at.entry) name.now slots (option_map (λ v. v.items) r))) }
    ensures err { IfErr result (λ f. IfSome (R.remaining input.old) (λ bytes. PictureFails bytes (option_map (λ s. s.now) at.entry) slots f)) }
{
    let (file, ledger) = read_start(alloc, input, at)?;
    match draw(alloc, name, file.tasks.as_slice(), ledger, slots) {
        Ok(text) => Ok(Some(text)),
        Err(DrawFault::TooLarge) => Ok(None),
        Err(DrawFault::NoRow { cause, .. }) => Err(choice_fault(cause)),
        Err(DrawFault::NoMemory) => Err(Fault::NoMemory),
    }
}

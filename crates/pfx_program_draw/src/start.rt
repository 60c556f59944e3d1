//! Where a drawn plan begins.

ghost use Rattle.std.specs.Prelude.{IfSome, IfOk, IfErr, option_map};
ghost use Rattle.pfx_program_set.specs.Views.{set_view};
ghost use Rattle.pfx_program_draw.specs.Start.{Starts, StartIsRefused};

use pfx_columns::Columns;
use pfx_fault::Fault;
use pfx_program::{read_all, started};
use pfx_program_set::{SetText, read_set};
use std::alloc::Global;
use std::io::Read;

/// The set that the reader's bytes are as a set file, and the ledger with which a plan of it begins: at slot 0, or the one
/// that `at` gives as `T:A,A,..`.
///
/// The refusals are those of `run_plan`: `BadSet` and the set's own, `BadLedger`, `OutOfRange` and `WrongSum` of the
/// ledger; `InputFailed` if the reader fails, `NoMemory` if an allocation failed.
pub fn read_start<R: Read>(
    alloc: Global,
    input: &mut R,
    at: Option<&str>,
) -> Result<(SetText, Columns), Fault>
    ensures ok { IfOk result (λ r. IfSome (R.remaining input.old) (λ bytes. Starts bytes (option_map (λ s. s.now) at.entry) (set_view r.0) r.1)) }
    ensures err { IfErr result (λ f. IfSome (R.remaining input.old) (λ bytes. StartIsRefused bytes (option_map (λ s. s.now) at.entry) f)) }
{
    let bytes = read_all(alloc, input)?;
    let file = read_set(alloc, bytes.as_slice())?;
    let columns = started(alloc, &file, at)?;
    Ok((file, columns))
}

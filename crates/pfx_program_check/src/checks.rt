//! What is said of a set file's bytes.

ghost use Rattle.std.specs.Prelude.{◌≡◌, ◌∷◌, [], IfSome, IfOk, IfErr, MatchOption};
ghost use Rattle.pfx_program_set.specs.Views.{set_view};
ghost use Rattle.pfx_program_check.specs.Faults.{AreAllFaults};
ghost use Rattle.pfx_program_check.specs.Checks.{IsTextOf, IsCheck, Checks, FileFails, CheckFails};

use crate::faults::all_faults;
use crate::text::check_text;
use pfx_fault::Fault;
use pfx_program::{OutputForm, read_all};
use pfx_program_set::{SetText, read_set};
use pfx_weights::TaskSet;
use std::alloc::{AllocError, Global};
use std::io::Read;

/// All that is wrong with a set.
#[derive(Debug, Drop)]
pub struct SetRefusals {
    /// What every command says of it.
    pub first: Fault,
    /// What would be said next, one after the other.
    pub further: Vec<Fault>,
}

impl SetRefusals {
    /// A fault with no further ones.
    pub fn alone(alloc: Global, first: Fault) -> SetRefusals
        ensures first { result.first ≡ first }
        ensures alone { result.further.items ≡ [] }
    {
        SetRefusals {
            first,
            further: Vec::new(alloc),
        }
    }
}

// The faults as the first one and the further ones, if there are any.
fn refusal_of(mut faults: Vec<Fault>) -> Option<SetRefusals>
    ensures { MatchOption result (faults.items ≡ []) (λ r. faults.items ≡ r.first ∷ r.further.items) }
{
    if faults.is_empty() {
        return None;
    }
    let first = faults.remove(0);
    Some(SetRefusals {
        first,
        further: faults,
    })
}

// The text of a set without a fault, which is refused only for want of memory.
fn faultless(
    alloc: Global,
    form: OutputForm,
    workers: u32,
    tasks: &[(u32, u32)],
    segment: u32,
) -> Result<Vec<u8>, AllocError>
    requires { AreAllFaults workers tasks.now segment [] }
    ensures { IfOk result (λ text. IsTextOf form workers tasks.now segment text.items) }
{
    match TaskSet::new(alloc, workers, tasks) {
        Ok(set) => check_text(alloc, form, tasks, &set, segment),
        Err(_) => Err(AllocError),
    }
}

// The text of a set of which a store can be made, or its faults.
fn checked(alloc: Global, form: OutputForm, file: &SetText) -> Result<Vec<u8>, SetRefusals>
    ensures ok { IfOk result (λ text. IsCheck form (set_view file.now) text.items) }
    ensures err { IfErr result (λ r. FileFails (set_view file.now) r.first r.further.items) }
{
    let Ok(weights) = file.weights(alloc) else {
        return Err(SetRefusals::alone(alloc, Fault::NoMemory));
    };
    let tasks = weights.as_slice();
    let Ok(faults) = all_faults(alloc, file.workers, tasks, file.segment) else {
        return Err(SetRefusals::alone(alloc, Fault::NoMemory));
    };
    if let Some(refusal) = refusal_of(faults) {
        return Err(refusal);
    }
    match faultless(alloc, form, file.workers, tasks, file.segment) {
        Ok(text) => Ok(text),
        Err(_) => Err(SetRefusals::alone(alloc, Fault::NoMemory)),
    }
}

/// What the set that the reader gives asks for: a line for each of `workers`, `tasks`, `idle` tasks, `hyper`period in slots,
/// `load` in lowest terms, `segment` in bytes, the `least` that one has, and the `size` of a store's file in bytes; or an object of
/// the same.
///
/// An `Err` has all that is wrong with the set. The first fault is the one of `run_plan`, or `SegmentTooSmall` or
/// `SegmentTooLarge` if that one has none; after it come those that would be said next, were each task that is named taken
/// out of the set. `InputFailed` if the reader fails, and `NoMemory` if an allocation failed, stand alone.
pub fn run_check<R: Read>(
    alloc: Global,
    form: OutputForm,
    input: &mut R,
) -> Result<Vec<u8>, SetRefusals>
    ensures ok { IfOk result (λ text. IfSome (R.remaining input.old) (λ bytes. Checks form bytes text.items)) }
    ensures err { IfErr result (λ r. IfSome (R.remaining input.old) (λ bytes. CheckFails bytes r.first r.further.items)) }
{
    let bytes = match read_all(alloc, input) {
        Ok(bytes) => bytes,
        Err(fault) => return Err(SetRefusals::alone(alloc, fault)),
    };
    match read_set(alloc, bytes.as_slice()) {
        Ok(file) => checked(alloc, form, &file),
        Err(fault) => Err(SetRefusals::alone(alloc, fault)),
    }
}

//! `pfx check SET --json`.

use crate::files::{fault_of, input};
use crate::process::Process;
use crate::tell::{form_of, is_closed, tell, tell_all};
use crate::traces::KeptSource;
use pfx_fault::Fault;
use pfx_program::OutputForm;
use pfx_program_args::Request;
use pfx_program_check::{SetRefusals, run_check};
use std::alloc::Global;
use std::io::Write;

/// Prints what a set asks for.
pub(crate) fn check(process: Process<'_>, set: &str, form: OutputForm) -> Result<(), SetRefusals> {
    let mut input = match input(process.rt, set) {
        Ok(input) => KeptSource::new(process.alloc, input),
        Err(fault) => return Err(SetRefusals::alone(process.alloc, fault)),
    };
    let found = run_check(process.alloc, form, &mut input);
    process.traces.keep_set(input.into_read());
    let text = found?;
    match process.output().write_all(text.as_slice()) {
        Ok(()) => Ok(()),
        Err(error) => Err(SetRefusals::alone(process.alloc, fault_of(&error, Fault::OutputFailed))),
    }
}

/// Prints the line of the first fault, and after it those of the further ones, each with what is said below it. The exit status is that
/// of the first.
pub(crate) fn refused_by_all(
    process: Process<'_>,
    request: &Request<'_>,
    refusal: &SetRefusals,
) -> u8 {
    if is_closed(process.traces, refusal.first) {
        return refusal.first.status();
    }
    match request {
        Request::Check { set, .. } if !refusal.further.is_empty() => {
            let further = refusal.further.as_slice();
            let form = form_of(request);
            tell_all(process, form, set, refusal.first, further);
        }
        _ => tell(process, request, refusal.first),
    }
    refusal.first.status()
}

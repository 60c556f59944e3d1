//! `pfx plan SET SLOTS --at LEDGER --ledger --json`.

use crate::files::{fault_of, input};
use crate::process::Process;
use crate::progress::Told;
use crate::traces::KeptSource;
use pfx_fault::Fault;
use pfx_program::{OutputForm, run_plan};
use std::alloc::Global;
use std::io::{BufWriter, Write};

/// Prints the plan, and the ledger that it leaves if that is asked for. The traces have the set's text, as far as it was read.
pub(crate) fn plan(
    process: Process<'_>,
    set: &str,
    at: Option<&str>,
    slots: u32,
    leaving: bool,
    form: OutputForm,
) -> Result<(), Fault> {
    let mut input = KeptSource::new(process.alloc, input(process.rt, set)?);
    let Ok(output) = BufWriter::new(process.alloc, process.output()) else {
        return Err(Fault::NoMemory);
    };
    let mut output = Told::new(process.rt, process.alloc, output, "slots", Some(slots));
    let planned = run_plan(
        process.alloc,
        &mut input,
        at,
        form,
        &mut output,
        u64::from(slots),
        leaving,
    );
    process.traces.keep_set(input.into_read());
    let flushed = output.flush();
    output.clear();
    planned?;
    match flushed {
        Ok(()) => Ok(()),
        Err(error) => Err(fault_of(&error, Fault::OutputFailed)),
    }
}

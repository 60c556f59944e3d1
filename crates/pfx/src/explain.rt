//! `pfx explain FAULT --json`.

use crate::files::fault_of;
use crate::process::Process;
use pfx_fault::Fault;
use pfx_program::OutputForm;
use pfx_program_explain::{entry_named, put_entry};
use pfx_program_objects::entry_line;
use std::alloc::Global;
use std::io::Write;

/// Prints what is to be known of the fault that a word names; `false` if it names none, with nothing printed.
pub(crate) fn explain(process: Process<'_>, word: &str, form: OutputForm) -> Result<bool, Fault> {
    let Some(entry) = entry_named(word) else {
        return Ok(false);
    };
    let mut output = process.output();
    let put = match form {
        OutputForm::Text => put_entry(&mut output, entry),
        OutputForm::Json => match entry_line(process.alloc, entry) {
            Ok(line) => output.write_all(line.as_bytes()),
            Err(_) => return Err(Fault::NoMemory),
        },
    };
    match put {
        Ok(()) => Ok(true),
        Err(error) => Err(fault_of(&error, Fault::OutputFailed)),
    }
}

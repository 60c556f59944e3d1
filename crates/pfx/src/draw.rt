//! `pfx draw SET SLOTS --at LEDGER`.

use crate::files::{fault_of, input};
use crate::process::Process;
use crate::traces::KeptSource;
use pfx_fault::Fault;
use pfx_program_draw::run_draw;
use std::alloc::Global;
use std::io::Write;

// The name of a set file: that of the file without folders and ending.
fn name_of(path: &str) -> &str {
    let file = match path.rsplit_once('/') {
        Some((_, file)) => file,
        None => path,
    };
    match file.split_once('.') {
        Some((name, _)) => name,
        None => "",
    }
}

/// Prints the picture; `false` if it would be too large, with nothing printed.
pub(crate) fn draw(
    process: Process<'_>,
    set: &str,
    at: Option<&str>,
    slots: u32,
) -> Result<bool, Fault> {
    let mut input = KeptSource::new(process.alloc, input(process.rt, set)?);
    let drawn = run_draw(
        process.alloc,
        &mut input,
        at,
        name_of(set),
        u64::from(slots),
    );
    process.traces.keep_set(input.into_read());
    let Some(text) = drawn? else {
        return Ok(false);
    };
    match process.output().write_all(text.as_slice()) {
        Ok(()) => Ok(true),
        Err(error) => Err(fault_of(&error, Fault::OutputFailed)),
    }
}

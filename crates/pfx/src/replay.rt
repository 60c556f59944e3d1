//! `pfx replay FILE --json`.

use crate::files::{fault_of, shared_disk};
use crate::process::Process;
use pfx_disk::FileDisk;
use pfx_fault::Fault;
use pfx_kinds::any::AnyJob;
use pfx_program::{OutputForm, object_line};
use pfx_replay::{Verdict, put_verdict, verdict_object};
use pfx_store_engine::faults::open_fault;
use std::alloc::{AllocError, Global};
use std::io::Write;

// What a replay of the store of a file finds.
fn verdict_of(process: Process<'_>, file: &str) -> Result<Verdict, Fault> {
    let disk = shared_disk(process.rt, file)?;
    match pfx_replay::replay::<AnyJob, FileDisk>(process.alloc, disk) {
        Ok((verdict, _disk)) => Ok(verdict),
        Err((fault, disk)) => {
            process.traces.keep_said(&disk);
            Err(open_fault(fault))
        }
    }
}

// The verdict's line.
fn line_of(alloc: Global, form: OutputForm, verdict: Verdict) -> Result<Vec<u8>, AllocError> {
    let mut line = Vec::new(alloc);
    match form {
        OutputForm::Text => match put_verdict(&mut line, verdict) {
            Ok(()) => Ok(line),
            Err(_) => Err(AllocError),
        },
        OutputForm::Json => {
            let object = verdict_object(alloc, verdict)?;
            let text = object_line(alloc, &object)?;
            line.extend_from_slice(text.as_bytes())?;
            Ok(line)
        }
    }
}

/// Prints what a replay of the store of a file finds, and answers whether all agrees. Nothing is written to the file.
pub(crate) fn replay(process: Process<'_>, file: &str, form: OutputForm) -> Result<bool, Fault> {
    let verdict = verdict_of(process, file)?;
    let Ok(line) = line_of(process.alloc, form, verdict) else {
        return Err(Fault::NoMemory);
    };
    match process.output().write_all(line.as_slice()) {
        Ok(()) => Ok(matches!(verdict, Verdict::Agrees { .. })),
        Err(error) => Err(fault_of(&error, Fault::OutputFailed)),
    }
}

//! `pfx head LOG`.

use crate::files::{fault_of, growing_disk};
use crate::log::log_fault;
use crate::process::Process;
use pfx_disk::FileDisk;
use pfx_fault::Fault;
use pfx_log::{LogFault, LogFile, LogPlace};
use pfx_program::{OutputForm, object_line};
use pfx_replay_audit::{head_object, head_text};
use std::alloc::{AllocError, Global};
use std::io::Write;
use std::thread;
use std::time::Duration;

/// How often a log whose end is cut is read once more: a run may have grown it meanwhile.
const READS: u32 = 4;

const PAUSE_MILLIS: u64 = 20;

// Where the log on a disk ends.
fn end_on(process: Process<'_>, disk: FileDisk) -> Result<LogPlace, LogFault> {
    match LogFile::open(process.alloc, disk) {
        Ok(log) => Ok(log.place),
        Err((fault, disk)) => {
            process.traces.keep_said(&disk);
            Err(fault)
        }
    }
}

fn told(read: Result<LogPlace, LogFault>) -> Result<LogPlace, Fault> {
    match read {
        Ok(place) => Ok(place),
        Err(fault) => Err(log_fault(fault)),
    }
}

// Where the log of a file ends. A run that has it doesn't keep it from being read: what is read is a log as it was at some moment, or
// it is cut, and then it is read again.
fn end_of(process: Process<'_>, path: &str) -> Result<LogPlace, Fault> {
    process.traces.at_log.set(true);
    for _ in 1..READS {
        let disk = growing_disk(process.rt, path, &process.traces.unopened_log)?;
        match end_on(process, disk) {
            Err(LogFault::Damaged { .. }) => thread::sleep(
                process.rt,
                Duration::from_millis(PAUSE_MILLIS),
            ),
            read => return told(read),
        }
    }
    told(end_on(
        process,
        growing_disk(process.rt, path, &process.traces.unopened_log)?,
    ))
}

// The line of a log's last head.
fn line_of(alloc: Global, form: OutputForm, place: LogPlace) -> Result<String, AllocError> {
    match form {
        OutputForm::Text => head_text(alloc, place.last, &place.head),
        OutputForm::Json => {
            let object = head_object(alloc, place.last, &place.head)?;
            object_line(alloc, &object)
        }
    }
}

/// Prints the last number of the log of a file and its last head. Nothing is written to the file, and a run that has it goes on.
pub(crate) fn head(process: Process<'_>, log: &str, form: OutputForm) -> Result<(), Fault> {
    let place = end_of(process, log)?;
    let Ok(line) = line_of(process.alloc, form, place) else {
        return Err(Fault::NoMemory);
    };
    match process.output().write_all(line.as_bytes()) {
        Ok(()) => Ok(()),
        Err(error) => Err(fault_of(&error, Fault::OutputFailed)),
    }
}

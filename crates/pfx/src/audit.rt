//! `pfx audit LOG.. FILE --every N --from N --to N --number N --csv --json`.

use crate::files::{begins_as_store, fault_of, shared_disk};
use crate::log::log_fault;
use crate::process::Process;
use crate::watcher::{Sought, Watcher};
use pfx_disk::{Disk, FileDisk};
use pfx_fault::Fault;
use pfx_kinds::any::AnyJob;
use pfx_log::{LogFile, LogPlace, read_header};
use pfx_program::object_line;
use pfx_program_args::AuditForm;
use pfx_replay::{Verdict, put_verdict, verdict_object};
use pfx_replay_audit::{
    AuditFault, FileFault, FileHistory, HistoryEnd, HistoryFault, find_block, head_object,
    head_text, read_file,
};
use pfx_store_engine::faults::open_fault;
use std::alloc::{AllocError, Global};
use std::io::Write;

/// What came of an audit.
#[derive(Clone, Copy)]
pub(crate) enum Found {
    /// All agrees.
    Agrees,
    /// Something doesn't.
    Differs,
    /// The history has no record of the number that is sought.
    Nothing,
}

/// Where a log says of which version its store's file is.
const VERSION_AT: u64 = 10;

// Whether the last of these paths is a store's file behind logs.
fn ends_with_store(process: Process<'_>, paths: &[&str]) -> Result<bool, Fault> {
    match paths {
        [] | [_] => Ok(false),
        [before @ .., last] => {
            process.traces.at_part.set(before.len());
            begins_as_store(process.rt, last)
        }
    }
}

// The logs of a history, each for a reader.
fn logs_of(process: Process<'_>, paths: &[&str]) -> Result<Vec<FileDisk>, Fault> {
    let mut logs = Vec::new(process.alloc);
    for (part, path) in paths.iter().enumerate() {
        process.traces.at_part.set(part);
        if logs.push(shared_disk(process.rt, path)?).is_err() {
            return Err(Fault::NoMemory);
        }
    }
    Ok(logs)
}

// What a store's file has of a history.
fn file_of(process: Process<'_>, path: &str) -> Result<FileHistory<AnyJob>, Fault> {
    match read_file(process.alloc, shared_disk(process.rt, path)?) {
        Ok((history, _disk)) => Ok(history),
        Err((fault, disk)) => {
            process.traces.keep_said(&disk);
            Err(open_fault(fault))
        }
    }
}

// The number of a log's last command, as far as it can be read once more.
fn last_of(rt: &HostRuntime, alloc: Global, path: &str) -> u64 {
    let Ok(disk) = shared_disk(rt, path) else {
        return 0;
    };
    match LogFile::<FileDisk>::open(alloc, disk) {
        Ok(log) => log.place.last,
        Err(_) => 0,
    }
}

// The number behind which a log begins.
fn first_of(rt: &HostRuntime, alloc: Global, path: &str) -> u64 {
    let Ok(mut disk) = shared_disk(rt, path) else {
        return 0;
    };
    let Ok(len) = disk.len() else {
        return 0;
    };
    match read_header(alloc, &mut disk, len) {
        Ok((_, place)) => place.last,
        Err(_) => 0,
    }
}

// A log that doesn't go on from the one before it: the numbers between which there is a gap, or one number twice, if it is another history.
fn not_next(rt: &HostRuntime, alloc: Global, paths: &[&str], part: usize) -> Fault {
    let before = match part.checked_sub(1) {
        Some(before) => paths.get(before),
        None => None,
    };
    let log = match before {
        Some(path) => last_of(rt, alloc, path),
        None => 0,
    };
    let file = match paths.get(part) {
        Some(path) => first_of(rt, alloc, path),
        None => 0,
    };
    Fault::LogGap { log, file }
}

// The fault of a log that isn't the next part of a history.
fn part_fault(
    rt: &HostRuntime,
    alloc: Global,
    paths: &[&str],
    part: usize,
    fault: HistoryFault,
) -> Fault {
    match fault {
        HistoryFault::Log(fault) => log_fault(fault),
        HistoryFault::Start => Fault::LogDamaged { at: VERSION_AT },
        HistoryFault::NotNext => not_next(rt, alloc, paths, part),
        HistoryFault::Frames { at } => Fault::LogDamaged { at: at as u64 },
    }
}

// The fault of a store's file that isn't the end of a history.
fn end_fault(rt: &HostRuntime, alloc: Global, logs: &[&str], fault: FileFault) -> Fault {
    match fault {
        FileFault::NoMemory => Fault::NoMemory,
        FileFault::Gap { log, file } => Fault::LogGap { log, file },
        FileFault::Apart => {
            let last = match logs {
                [] => 0,
                [.., last] => last_of(rt, alloc, last),
            };
            Fault::LogGap {
                log: last,
                file: last,
            }
        }
    }
}

// The block that a record is in, as `block 1 to 340, head 9f86..`.
fn block_line(
    alloc: Global,
    json: bool,
    first: u64,
    place: LogPlace,
) -> Result<String, AllocError> {
    let digits = hex::encode(alloc, place.head)?;
    if json {
        return format!(in alloc;
            "{{\"block\":{{\"first\":{first},\"head\":\"{digits}\",\"last\":{}}}}}\n",
            place.last
        );
    }
    format!(in alloc; "block {first} to {}, head {digits}\n", place.last)
}

// The lines of a history's end: the last log's head, if all agrees, and the verdict.
fn end_lines(alloc: Global, json: bool, end: HistoryEnd) -> Result<Vec<u8>, AllocError> {
    let mut text = Vec::new(alloc);
    let verdict = match end {
        HistoryEnd::Agrees { number, log } => {
            let head = if json {
                object_line(alloc, &head_object(alloc, log.last, &log.head)?)?
            } else {
                head_text(alloc, log.last, &log.head)?
            };
            text.extend_from_slice(head.as_bytes())?;
            Verdict::Agrees { number }
        }
        HistoryEnd::Differs { number, what } => Verdict::Differs { number, what },
    };
    if json {
        let line = object_line(alloc, &verdict_object(alloc, verdict)?)?;
        text.extend_from_slice(line.as_bytes())?;
    } else if put_verdict(&mut text, verdict).is_err() {
        return Err(AllocError);
    }
    Ok(text)
}

// Prints how a history ends: with CSV on standard error, so that the output is CSV alone.
fn tell_end(process: Process<'_>, form: AuditForm, end: HistoryEnd) -> Result<(), Fault> {
    let Ok(lines) = end_lines(process.alloc, form == AuditForm::Json, end) else {
        return Err(Fault::NoMemory);
    };
    let written = match form {
        AuditForm::Csv => {
            let _ = process.rt.stderr().write_all(&lines);
            return Ok(());
        }
        AuditForm::Text | AuditForm::Json => process.output().write_all(&lines),
    };
    match written {
        Ok(()) => Ok(()),
        Err(error) => Err(fault_of(&error, Fault::OutputFailed)),
    }
}

// Prints in which block of a log a record is, and the head behind it: nothing, if it is in none.
fn tell_block(
    process: Process<'_>,
    logs: &mut Vec<FileDisk>,
    number: u64,
    json: bool,
) -> Result<(), Fault> {
    for part in 0..logs.len() {
        process.traces.at_part.set(part);
        match find_block(process.alloc, &mut logs[part], number) {
            Err(fault) => return Err(log_fault(fault)),
            Ok(None) => {}
            Ok(Some((block, place))) => {
                let Ok(line) = block_line(process.alloc, json, block.first, place) else {
                    return Err(Fault::NoMemory);
                };
                return match process.output().write_all(line.as_bytes()) {
                    Ok(()) => Ok(()),
                    Err(error) => Err(fault_of(&error, Fault::OutputFailed)),
                };
            }
        }
    }
    Ok(())
}

// Why an audit came to no answer, and which part is to blame.
fn audit_fault(
    process: Process<'_>,
    paths: &[&str],
    logs: &[FileDisk],
    fault: AuditFault,
) -> Fault {
    match fault {
        AuditFault::Log { index, fault } => {
            process.traces.at_part.set(index);
            if let Some(disk) = logs.get(index) {
                process.traces.keep_said(disk);
            }
            part_fault(process.rt, process.alloc, paths, index, fault)
        }
        AuditFault::File(fault) => {
            process.traces.at_part.set(logs.len());
            end_fault(
                process.rt,
                process.alloc,
                &paths[..logs.len().min(paths.len())],
                fault,
            )
        }
    }
}

// Audits a history whose parts are these, and prints what was sought in it.
fn audited(
    process: Process<'_>,
    paths: &[&str],
    logs: &mut Vec<FileDisk>,
    file: Option<&FileHistory<AnyJob>>,
    asked: Sought,
) -> Result<(HistoryEnd, bool), Fault> {
    if logs.is_empty() {
        return Err(Fault::NotALog);
    }
    let mut watcher = Watcher::new(process.rt, process.alloc, asked, process.output());
    watcher.begin()?;
    let found = pfx_replay_audit::audit(process.alloc, logs, file, &mut watcher);
    watcher.clear();
    match found {
        Ok(HistoryEnd::Agrees { number, log }) => {
            watcher.end()?;
            if let Some(sought) = asked.number
                && watcher.is_found()
            {
                let json = asked.form == AuditForm::Json;
                tell_block(process, logs, sought, json)?;
            }
            let end = HistoryEnd::Agrees { number, log };
            Ok((end, watcher.is_found()))
        }
        Ok(differs) => Ok((differs, true)),
        Err(fault) => Err(match watcher.failed() {
            Some(failed) => failed,
            None => audit_fault(process, paths, logs, fault),
        }),
    }
}

/// Audits a history: logs in their order, and the store's file behind them, if it is the last of the paths. It prints the totals of windows, or the
/// one record that is sought, and how the history ends. Nothing is written to the files.
pub(crate) fn audit(process: Process<'_>, paths: &[&str], asked: Sought) -> Result<Found, Fault> {
    let mut file = None;
    let mut logged = paths;
    if ends_with_store(process, paths)?
        && let [before @ .., last] = paths
    {
        process.traces.at_part.set(before.len());
        file = Some(file_of(process, last)?);
        logged = before;
    }
    let mut logs = logs_of(process, logged)?;
    let (end, is_found) = audited(process, paths, &mut logs, file.as_ref(), asked)?;
    if !is_found {
        return Ok(Found::Nothing);
    }
    tell_end(process, asked.form, end)?;
    Ok(match end {
        HistoryEnd::Agrees { .. } => Found::Agrees,
        HistoryEnd::Differs { .. } => Found::Differs,
    })
}

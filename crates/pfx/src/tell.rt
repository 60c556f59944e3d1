//! What is said on standard error: refusals, further faults of a set, and warnings, each by one write.

use crate::notes::{note_of, text_of};
use crate::process::Process;
use crate::traces::Traces;
use pfx_fault::{Fault, put_fault};
use pfx_program::{OutputForm, RefusedRecord, Report};
use pfx_program_args::{AuditForm, Request};
use pfx_program_check::put_also;
use pfx_program_explain::NoteLines;
use pfx_program_notes::{FirstRefusal, further_note, passed_over_note, refused_note, set_note};
use pfx_program_objects::{also_line, error_line, warning_line};
use std::alloc::{AllocError, Global};
use std::io::{ErrorKind, Write};

/// What is said where there is no memory to say it in.
const NO_MEMORY: &[u8] =
    b"pfx: error 90 NoMemory\n  the system gives no more memory to this process\n  What was printed stands. Give it more, as by ulimit -v, or run less beside it.\n";

/// The same as an object.
const NO_MEMORY_OBJECT: &[u8] =
    b"{\"error\":{\"fields\":{},\"name\":\"NoMemory\",\"number\":90},\"note\":{\"change\":\"What was printed stands. Give it more, as by ulimit -v, or run less beside it.\",\"more\":null,\"what\":\"the system gives no more memory to this process\"}}\n";

/// How what a request prints and what is said of it are written.
pub(crate) fn form_of(request: &Request<'_>) -> OutputForm {
    let json = match request {
        Request::Plan { json, .. }
        | Request::Init { json, .. }
        | Request::Run { json, .. }
        | Request::Status { json, .. }
        | Request::Replay { json, .. }
        | Request::Show { json, .. }
        | Request::Check { json, .. }
        | Request::Explain { json, .. }
        | Request::Migrate { json, .. }
        | Request::Head { json, .. } => *json,
        Request::Audit { form, .. } => *form == AuditForm::Json,
        Request::Draw { .. } => false,
    };
    if json {
        OutputForm::Json
    } else {
        OutputForm::Text
    }
}

/// What a line says.
#[derive(Clone, Copy)]
enum Line {
    /// A refusal.
    Error(Fault),
    /// A further fault of a set.
    Also(Fault),
    /// A warning.
    Warning(&'static str),
}

// The line, without its note.
fn put_line(alloc: Global, text: &mut Vec<u8>, line: Line) -> bool {
    match line {
        Line::Error(fault) => put_fault(text, fault).is_ok(),
        Line::Also(fault) => put_also(text, fault).is_ok(),
        Line::Warning(words) => match format!(in alloc; "pfx: warning: {words}\n") {
            Ok(line) => text.extend_from_slice(line.as_bytes()).is_ok(),
            Err(_) => false,
        },
    }
}

// The line and the lines of its note.
fn put_lines(alloc: Global, text: &mut Vec<u8>, line: Line, note: Option<&NoteLines>) -> bool {
    if !put_line(alloc, text, line) {
        return false;
    }
    if let Some(note) = note
        && let Ok(lines) = note.text(alloc)
    {
        let _ = text.extend_from_slice(lines.as_slice());
    }
    true
}

// The same as an object.
fn put_object(alloc: Global, text: &mut Vec<u8>, line: Line, note: Option<&NoteLines>) -> bool {
    let object = match line {
        Line::Error(fault) => error_line(alloc, fault, note),
        Line::Also(fault) => also_line(alloc, fault, note),
        Line::Warning(words) => warning_line(alloc, words, note),
    };
    match object {
        Ok(object) => text.extend_from_slice(object.as_bytes()).is_ok(),
        Err(_) => false,
    }
}

// Puts a line and its note behind a text, in this form; `false` if there was no memory for the line.
fn put(
    alloc: Global,
    form: OutputForm,
    text: &mut Vec<u8>,
    line: Line,
    note: Result<Option<NoteLines>, AllocError>,
) -> bool {
    let note = note.ok().flatten();
    match form {
        OutputForm::Text => put_lines(alloc, text, line, note.as_ref()),
        OutputForm::Json => put_object(alloc, text, line, note.as_ref()),
    }
}

// Prints a text on standard error, by one write where the system takes it whole.
fn print(rt: &HostRuntime, text: &Vec<u8>) {
    let _ = rt.stderr().write_all(text.as_slice());
}

/// Prints the line of a fault, and below it where the mistake stands, what is wrong and what to change, as far as that is known; or an
/// object of the same.
pub(crate) fn tell(process: Process<'_>, request: &Request<'_>, fault: Fault) {
    let form = form_of(request);
    if fault == Fault::NoMemory {
        let _ = process.rt.stderr().write_all(match form {
            OutputForm::Text => NO_MEMORY,
            OutputForm::Json => NO_MEMORY_OBJECT,
        });
        return;
    }
    let note = note_of(process, request, fault);
    let mut text = Vec::new(process.alloc);
    if put(process.alloc, form, &mut text, Line::Error(fault), note) {
        print(process.rt, &text);
    } else {
        let _ = put_fault(&mut process.rt.stderr(), fault);
    }
}

// The task that a fault names, so that the further ones are those without it.
fn task_in(fault: Fault) -> Option<u16> {
    match fault {
        Fault::BadWeight { task } | Fault::HyperperiodTooLarge { task } => Some(task),
        _ => None,
    }
}

/// Prints the line of the first fault of a set and those of the further ones, each with what is said below it.
pub(crate) fn tell_all(
    process: Process<'_>,
    form: OutputForm,
    set: &str,
    first: Fault,
    further: &[Fault],
) {
    let set_text = process.traces.set_text();
    let mut text = Vec::new(process.alloc);
    let mut out = Vec::new(process.alloc);
    let note = set_note(process.alloc, set, set_text, None, first);
    let _ = put(process.alloc, form, &mut text, Line::Error(first), note);
    if let Some(task) = task_in(first) {
        let _ = out.push(task);
    }
    for fault in further {
        let note = further_note(process.alloc, set, set_text, out.as_slice(), *fault);
        let _ = put(process.alloc, form, &mut text, Line::Also(*fault), note);
        if let Some(task) = task_in(*fault) {
            let _ = out.push(task);
        }
    }
    print(process.rt, &text);
}

/// Whether an output failed because its reader has gone.
pub(crate) fn is_closed(traces: &Traces, fault: Fault) -> bool {
    fault == Fault::OutputFailed && traces.failed.get() == Some(ErrorKind::BrokenPipe)
}

// Prints a warning and its note.
fn warn_of(
    rt: &HostRuntime,
    alloc: Global,
    form: OutputForm,
    words: &'static str,
    note: NoteLines,
) {
    let mut text = Vec::new(alloc);
    if put(alloc, form, &mut text, Line::Warning(words), Ok(Some(note))) {
        print(rt, &text);
    }
}

// The note of a refusal for a lag, with the next slot at which no task is ahead or behind.
fn with_level(alloc: Global, note: NoteLines, slot: u64) -> NoteLines {
    let mut note = note;
    let more = match &note.more {
        Some(more) => format!(in alloc; "The next of these is slot {slot}. {more}"),
        None => format!(in alloc; "The next of these is slot {slot}."),
    };
    if let Ok(more) = more {
        note.more = Some(more);
    }
    note
}

// Says that records were refused: the first of them, and how many. `level` is the next slot, behind the script, at which no task is ahead
// or behind.
fn warn_refused(
    rt: &HostRuntime,
    alloc: Global,
    form: OutputForm,
    script: &str,
    first: FirstRefusal,
    level: Option<u64>,
) {
    let text = text_of(rt, script);
    let bytes = match &text {
        Some(text) => text.as_slice(),
        None => b"",
    };
    let Ok(note) = refused_note(alloc, script, bytes, first) else {
        return;
    };
    let note = match (level, first.fault) {
        (Some(slot), Fault::NotLevel { .. }) => with_level(alloc, note, slot),
        _ => note,
    };
    warn_of(rt, alloc, form, "a record was refused", note);
}

/// Warns of what a command that went well has passed over: keys of a set, refused records of a script.
pub(crate) fn warn(process: Process<'_>, request: &Request<'_>) {
    let form = form_of(request);
    match request {
        Request::Plan { set, .. }
        | Request::Draw { set, .. }
        | Request::Init { set, .. }
        | Request::Check { set, .. } => {
            if let Ok(Some(note)) = passed_over_note(
                process.alloc,
                set,
                process.traces.set_text(),
            ) {
                let words = "the set has a key that is passed over";
                warn_of(process.rt, process.alloc, form, words, note);
            }
        }
        Request::Run { script, .. } => {
            if let Some(
                Report {
                    refused,
                    first: Some(RefusedRecord { at, fault }),
                    ..
                },
            ) = process.traces.report.get()
            {
                let first = FirstRefusal { at, fault, refused };
                warn_refused(
                    process.rt,
                    process.alloc,
                    form,
                    script,
                    first,
                    process.traces.level.get(),
                );
            }
        }
        _ => {}
    }
}

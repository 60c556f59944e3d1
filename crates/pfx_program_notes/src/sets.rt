//! Notes of set files.

use crate::forms::{form_note, syntax_note};
use crate::ledgers::ledger_fault_note;
use crate::members::SetSource;
use crate::weights::{
    load_note, multiple_note, no_tasks, segment_note, too_many, weight_note, workers_note,
};
use crate::words::{Said, written};
use pfx_fault::Fault;
use pfx_program_explain::NoteLines;
use pfx_program_set::{SetText, read_set};
use std::alloc::{AllocError, Global};
use std::str::from_utf8;

// What is said of a set that is none, by its tables alone.
fn said_of_table<'a>(source: &SetSource<'a>, fault: Fault) -> Option<Said<'a>> {
    match fault {
        Fault::BadSet => form_note(source),
        Fault::NoTasks => no_tasks(source),
        Fault::TooManyTasks => too_many(source),
        Fault::BadWorkers => workers_note(source),
        Fault::BadWeight { task } => weight_note(source, usize::from(task)),
        _ => None,
    }
}

// What is said of a set whose numbers don't fit together.
fn said_of_numbers<'a>(
    source: &SetSource<'a>,
    set: &SetText,
    out: &[u16],
    fault: Fault,
) -> Option<Said<'a>> {
    match fault {
        Fault::HyperperiodTooLarge { task } => multiple_note(source, set, usize::from(task), out),
        Fault::Overload => load_note(source, set, out),
        Fault::SegmentTooSmall { least } => segment_note(source, set, Some(least)),
        Fault::SegmentTooLarge => segment_note(source, set, None),
        _ => None,
    }
}

// The note of a set whose numbers don't fit together, or of a ledger of it.
fn numbers_note(
    alloc: Global,
    source: &SetSource<'_>,
    set: &SetText,
    at: Option<&str>,
    out: &[u16],
    fault: Fault,
) -> Result<Option<NoteLines>, AllocError> {
    let said = said_of_numbers(source, set, out, fault);
    match at {
        Some(at) if said.is_none() => ledger_fault_note(alloc, set, at, fault),
        _ => written(alloc, said),
    }
}

/// The note of a fault that a set file has caused, or the ledger `at` that a plan of it begins with: where the mistake stands in the
/// file, what is wrong, what to change. `file` is the word that names the file, `text` what was read of it. `None` if the fault is
/// of another kind, or isn't that of this text. Fails only if memory runs out.
pub fn set_note(
    alloc: Global,
    file: &str,
    text: &[u8],
    at: Option<&str>,
    fault: Fault,
) -> Result<Option<NoteLines>, AllocError> {
    note_without(alloc, file, text, at, &[], fault)
}

/// The same of a set's fault that comes once these tasks are taken out of it.
pub fn further_note(
    alloc: Global,
    file: &str,
    text: &[u8],
    out: &[u16],
    fault: Fault,
) -> Result<Option<NoteLines>, AllocError> {
    note_without(alloc, file, text, None, out, fault)
}

fn note_without(
    alloc: Global,
    file: &str,
    text: &[u8],
    at: Option<&str>,
    out: &[u16],
    fault: Fault,
) -> Result<Option<NoteLines>, AllocError> {
    let table = match toml::table_from_slice(alloc, text) {
        Ok(table) => table,
        Err(e) if e.is_memory() => return Err(AllocError),
        Err(e) if matches!(fault, Fault::BadSet) => return written(
            alloc,
            syntax_note(file, text, &e),
        ),
        Err(_) => return Ok(None),
    };
    let Ok(text) = from_utf8(text) else {
        return Ok(None);
    };
    let source = SetSource {
        file,
        text: text.strip_prefix('\u{feff}').unwrap_or(text),
        table: &table,
    };
    let said = said_of_table(&source, fault);
    if said.is_some() {
        return written(alloc, said);
    }
    match read_set(alloc, text.as_bytes()) {
        Ok(set) => numbers_note(alloc, &source, &set, at, out, fault),
        Err(_) => Ok(None),
    }
}

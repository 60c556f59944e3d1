//! What is said below the line of a fault.

use crate::files::begins_as_store;
use crate::process::Process;
use crate::traces::Unmade;
use pfx_fault::{Cause, Fault};
use pfx_program_args::Request;
use pfx_program_explain::NoteLines;
use pfx_program_notes::{
    NamedFile, Stands, Trouble, history_note, input_note, log_note, output_note, record_note,
    script_note, set_note, store_note, trouble_note,
};
use std::alloc::{AllocError, Global};
use std::fs;
use std::fs::{File, OpenOptions};
use std::io::{Error, ErrorKind, Read};
use std::path::Path;

/// How often a store whose disk has failed is read again, 4,096 bytes each time.
const LOOKS: u32 = 1024;

/// What has failed of a store.
const ANY_CALL: &str = "a read, a write or a sync of it has failed";

/// The same if it was open before.
const LATE_CALL: &str = "a write or a sync of it has failed";

/// The longest script that is read again, in bytes.
const LONGEST: u64 = 1 << 28;

// What a kind of error says of a file, where that is known.
fn known(kind: ErrorKind) -> Option<&'static str> {
    let why = match kind {
        ErrorKind::NotFound => "no such file",
        ErrorKind::PermissionDenied => "no permission",
        ErrorKind::IsADirectory => "it is a directory",
        ErrorKind::NotADirectory => "a part of its path is no directory",
        ErrorKind::StorageFull => "no space is left",
        ErrorKind::QuotaExceeded => "the quota is used up",
        ErrorKind::ReadOnlyFilesystem => "the file system is read only",
        ErrorKind::FilesystemLoop => "its links lead round in a circle",
        ErrorKind::InvalidFilename => "the name is too long",
        ErrorKind::FileTooLarge => "no file may be so long here",
        ErrorKind::Unsupported => "its file system has no locks",
        _ => return None,
    };
    Some(why)
}

fn why(kind: ErrorKind) -> &'static str {
    known(kind).unwrap_or("it can't be opened, read or written")
}

// What the system said, in its own words where the kind of error tells nothing.
fn words_of(alloc: Global, error: Error) -> Result<String, AllocError> {
    match known(error.kind()) {
        Some(why) => format!(in alloc; "{why}"),
        None => format!(in alloc; "{error}"),
    }
}

// Why a file can't be opened, as far as that is seen without waiting for one that is no plain file.
fn trouble(rt: &HostRuntime, path: &str, writes: bool) -> Option<ErrorKind> {
    if path == "-" {
        return None;
    }
    let found = match fs::metadata(rt, path) {
        Ok(found) => found,
        Err(error) => return Some(error.kind()),
    };
    if found.is_dir() {
        return Some(ErrorKind::IsADirectory);
    }
    if !found.is_file() {
        return None;
    }
    let mut options = OpenOptions::new();
    options.read(true).write(writes);
    match options.open(rt, path) {
        Ok(_file) => None,
        Err(error) => Some(error.kind()),
    }
}

// The note of a word whose file can't be opened.
fn word_note(
    rt: &HostRuntime,
    alloc: Global,
    named: NamedFile,
    path: &str,
) -> Result<Option<NoteLines>, AllocError> {
    if path.is_empty() {
        return trouble_note(alloc, path, Trouble::NoName(named));
    }
    match trouble(rt, path, named == NamedFile::Store) {
        Some(kind) => input_note(alloc, named, path, why(kind), kind == ErrorKind::NotFound),
        None => Ok(None),
    }
}

// The same of a store that is only read.
fn store_word_note(
    rt: &HostRuntime,
    alloc: Global,
    path: &str,
) -> Result<Option<NoteLines>, AllocError> {
    if path == "-" {
        return trouble_note(alloc, path, Trouble::Dash);
    }
    word_note(rt, alloc, NamedFile::ReadStore, path)
}

// The note of a word of which nothing else is known: it is standard input, or the file can be opened now.
fn unread_note(
    alloc: Global,
    named: NamedFile,
    path: &str,
) -> Result<Option<NoteLines>, AllocError> {
    if path == "-" {
        input_note(alloc, named, path, "it can't be read", false)
    } else {
        Ok(None)
    }
}

// The first of two notes, if there is one.
fn first_of(
    note: Option<NoteLines>,
    other: Result<Option<NoteLines>, AllocError>,
) -> Result<Option<NoteLines>, AllocError> {
    match note {
        Some(note) => Ok(Some(note)),
        None => other,
    }
}

// The directory of a path, if it isn't there.
fn lost_directory<'a>(rt: &HostRuntime, path: &'a str) -> Option<&'a str> {
    let parent = Path::new(path).parent()?.as_str();
    if parent.is_empty() {
        return None;
    }
    match fs::metadata(rt, parent) {
        Err(error) if error.kind() == ErrorKind::NotFound => Some(parent),
        _ => None,
    }
}

// The note of a file that isn't there and can't be made, by what the system said of it.
fn new_note(
    rt: &HostRuntime,
    alloc: Global,
    path: &str,
    kind: ErrorKind,
) -> Result<Option<NoteLines>, AllocError> {
    if let Some(directory) = lost_directory(rt, path) {
        return trouble_note(alloc, path, Trouble::NoDirectory(directory));
    }
    match kind {
        ErrorKind::PermissionDenied => trouble_note(alloc, path, Trouble::NoPermission),
        ErrorKind::ReadOnlyFilesystem => trouble_note(alloc, path, Trouble::ReadOnly),
        _ => input_note(alloc, NamedFile::NewStore, path, why(kind), false),
    }
}

// Whether there is no file of this name.
fn is_missing(rt: &HostRuntime, path: &str) -> bool {
    match fs::metadata(rt, path) {
        Ok(_) => false,
        Err(error) => error.kind() == ErrorKind::NotFound,
    }
}

// The note of a file in which no store can be made, by what the system said when it was opened or made.
fn made_note(
    rt: &HostRuntime,
    alloc: Global,
    path: &str,
    unopened: Option<ErrorKind>,
) -> Result<Option<NoteLines>, AllocError> {
    if path.is_empty() {
        return trouble_note(alloc, path, Trouble::NoName(NamedFile::NewStore));
    }
    match unopened {
        Some(kind) if is_missing(rt, path) => new_note(rt, alloc, path, kind),
        Some(kind) => input_note(alloc, NamedFile::NewStore, path, why(kind), false),
        None => Ok(None),
    }
}

// The note of a store's file that couldn't be written to its end.
fn unmade_note(
    alloc: Global,
    path: &str,
    unmade: Unmade,
    said: Option<Error>,
) -> Result<Option<NoteLines>, AllocError> {
    let Some(error) = said else {
        let why = "a write or a sync has failed";
        return trouble_note(alloc, path, Trouble::Unmade(why, unmade.is_left));
    };
    match error.kind() {
        ErrorKind::StorageFull | ErrorKind::QuotaExceeded if !unmade.is_left && unmade.needed > 0 =>
            { trouble_note(alloc, path, Trouble::NoSpace(unmade.needed)) }
        _ => {
            let why = words_of(alloc, error)?;
            trouble_note(alloc, path, Trouble::Unmade(why.as_str(), unmade.is_left))
        }
    }
}

// What has failed of a file on a disk that failed in such a call, where the file itself tells it.
fn plain_why(rt: &HostRuntime, path: &str) -> Option<&'static str> {
    match fs::metadata(rt, path) {
        Ok(found) if found.is_file() => None,
        Ok(_) => Some("it is no plain file"),
        Err(error) => Some(why(error.kind())),
    }
}

// The note of a store whose disk has failed in such a call: what the system said of that, or else what it says of a read of the store
// now.
fn device_note(
    rt: &HostRuntime,
    alloc: Global,
    path: &str,
    call: &str,
    said: Option<Error>,
) -> Result<Option<NoteLines>, AllocError> {
    if let Some(why) = plain_why(rt, path) {
        return trouble_note(alloc, path, Trouble::Device(why));
    }
    if let Some(error) = said {
        let words = words_of(alloc, error)?;
        let why = format!(in alloc; "{call}: {words}")?;
        return trouble_note(alloc, path, Trouble::Device(why.as_str()));
    }
    let why = match unread(rt, path) {
        Some(kind) => why(kind),
        None => call,
    };
    trouble_note(alloc, path, Trouble::Device(why))
}

// The note of a log whose disk has failed.
fn log_device_note(
    rt: &HostRuntime,
    alloc: Global,
    path: &str,
    said: Option<Error>,
) -> Result<Option<NoteLines>, AllocError> {
    if let Some(why) = plain_why(rt, path) {
        return trouble_note(alloc, path, Trouble::LogDevice(why));
    }
    let Some(error) = said else {
        return trouble_note(alloc, path, Trouble::LogDevice(ANY_CALL));
    };
    let words = words_of(alloc, error)?;
    let why = format!(in alloc; "{ANY_CALL}: {words}")?;
    trouble_note(alloc, path, Trouble::LogDevice(why.as_str()))
}

// The note of a fault that comes of the log beside a store, if it does.
fn beside_note(
    process: Process<'_>,
    log: &str,
    fault: Fault,
) -> Result<Option<NoteLines>, AllocError> {
    match fault {
        Fault::StoreFailed {
            cause: Cause::Log,
            ..
        } => log_device_note(process.rt, process.alloc, log, process.traces.device.get()),
        Fault::Device if process.traces.at_log.get() => log_device_note(
            process.rt,
            process.alloc,
            log,
            process.traces.device.get(),
        ),
        Fault::Busy if process.traces.at_log.get() => log_note(process.alloc, log, fault),
        Fault::InputFailed if process.traces.at_log.get() => match process
            .traces
            .unopened_log
            .get()
        {
            Some(kind) => input_note(process.alloc, NamedFile::Log, log, why(kind), false),
            None => Ok(None),
        },
        Fault::Busy | Fault::NotEmpty if !process.traces.at_log.get() => Ok(None),
        _ => log_note(process.alloc, log, fault),
    }
}

// The note of a fault of a part of a history.
fn history_part_note(
    process: Process<'_>,
    parts: &[&str],
    fault: Fault,
) -> Result<Option<NoteLines>, AllocError> {
    let Some(path) = parts.get(process.traces.at_part.get()) else {
        return Ok(None);
    };
    match fault {
        Fault::Device => device_note(
            process.rt,
            process.alloc,
            path,
            ANY_CALL,
            process.traces.device.get(),
        ),
        Fault::InputFailed => match unread(process.rt, path) {
            Some(kind) => input_note(process.alloc, NamedFile::Log, path, why(kind), false),
            None => Ok(None),
        },
        Fault::LogGap { .. }
        | Fault::NotALog
        | Fault::LogDamaged { .. }
        | Fault::WrongLogVersion { .. }
        | Fault::Busy => history_note(process.alloc, path, fault),
        _ => store_note(process.alloc, path, None, fault),
    }
}

// Why a file can't be read, as far as its first bytes tell: a failing disk takes long for each.
fn unread(rt: &HostRuntime, path: &str) -> Option<ErrorKind> {
    let mut room = [0u8; 4096];
    let mut file = match File::open(rt, path) {
        Ok(file) => file,
        Err(error) => return Some(error.kind()),
    };
    for _ in 0..LOOKS {
        match file.read(&mut room) {
            Ok(0) => return None,
            Ok(_) => {}
            Err(error) => return Some(error.kind()),
        }
    }
    None
}

fn input_failed(
    process: Process<'_>,
    request: &Request<'_>,
) -> Result<Option<NoteLines>, AllocError> {
    match request {
        Request::Plan { set, .. }
        | Request::Draw { set, .. }
        | Request::Check { set, .. }
        | Request::Init { set, .. }
            if process.traces.is_set_long() => { trouble_note(process.alloc, set, Trouble::Long) }
        Request::Plan { set, .. } | Request::Draw { set, .. } | Request::Check { set, .. } => {
            let note = word_note(process.rt, process.alloc, NamedFile::Set, set)?;
            first_of(note, unread_note(process.alloc, NamedFile::Set, set))
        }
        Request::Init { set, file, .. } => {
            let note = word_note(process.rt, process.alloc, NamedFile::Set, set)?;
            let note = first_of(
                note,
                made_note(
                    process.rt,
                    process.alloc,
                    file,
                    process.traces.unopened.get(),
                ),
            )?;
            first_of(note, unread_note(process.alloc, NamedFile::Set, set))
        }
        Request::Run { file, script, .. } => {
            let note = word_note(process.rt, process.alloc, NamedFile::Script, script)?;
            let note = first_of(
                note,
                word_note(process.rt, process.alloc, NamedFile::Store, file),
            )?;
            first_of(note, unread_note(process.alloc, NamedFile::Script, script))
        }
        Request::Status { file, .. } | Request::Replay { file, .. } | Request::Show { file, .. } =>
            { store_word_note(process.rt, process.alloc, file) }
        Request::Migrate { old, new, .. } => {
            let note = store_word_note(process.rt, process.alloc, old)?;
            first_of(
                note,
                made_note(
                    process.rt,
                    process.alloc,
                    new,
                    process.traces.unopened.get(),
                ),
            )
        }
        Request::Audit { .. } | Request::Head { .. } | Request::Explain { .. } => Ok(None),
    }
}

/// What stands in a plain file that isn't too long, if it can be read.
pub(crate) fn text_of(rt: &HostRuntime, path: &str) -> Option<Vec<u8>> {
    if path == "-" {
        return None;
    }
    match fs::metadata(rt, path) {
        Ok(found) if found.is_file() && found.len() <= LONGEST => {}
        _ => return None,
    }
    fs::read(rt, path).ok()
}

// Whether a file begins as a store does.
fn is_store(rt: &HostRuntime, path: &str) -> bool {
    matches!(begins_as_store(rt, path), Ok(true))
}

fn run_note(
    rt: &HostRuntime,
    alloc: Global,
    file: &str,
    script: &str,
    fault: Fault,
    said: Option<Error>,
) -> Result<Option<NoteLines>, AllocError> {
    match fault {
        Fault::BadScript { at } => match text_of(rt, script) {
            Some(text) => script_note(alloc, script, text.as_slice(), at),
            None => record_note(alloc, script, at),
        },
        Fault::NotAStore if script != "-" && is_store(rt, script) => {
            store_note(alloc, file, Some(script), fault)
        }
        Fault::Device => device_note(rt, alloc, file, ANY_CALL, said),
        Fault::StoreFailed { .. } => device_note(rt, alloc, file, LATE_CALL, said),
        _ => store_note(alloc, file, None, fault),
    }
}

// What of a command stands if its output fails.
fn stands_of(request: &Request<'_>) -> Stands {
    match request {
        Request::Run { .. } => Stands::Run,
        Request::Init { .. } | Request::Migrate { .. } => Stands::NewStore,
        _ => Stands::Nothing,
    }
}

// What is said of the fault of a request, that of its output or of its threads left out.
fn request_note(
    process: Process<'_>,
    request: &Request<'_>,
    fault: Fault,
) -> Result<Option<NoteLines>, AllocError> {
    let text = process.traces.set_text();
    let said = process.traces.device.get();
    match request {
        Request::Plan { set, at, .. } | Request::Draw { set, at, .. } => {
            set_note(process.alloc, set, text, *at, fault)
        }
        Request::Check { set, .. } => set_note(process.alloc, set, text, None, fault),
        Request::Init { set, file, at, .. } => match set_note(
            process.alloc,
            set,
            text,
            *at,
            fault,
        )? {
            Some(note) => Ok(Some(note)),
            None => match process.traces.unmade.get() {
                Some(unmade) if fault == Fault::Device => unmade_note(
                    process.alloc,
                    file,
                    unmade,
                    said,
                ),
                _ if fault == Fault::Device => device_note(
                    process.rt,
                    process.alloc,
                    file,
                    ANY_CALL,
                    said,
                ),
                _ => store_note(process.alloc, file, None, fault),
            },
        },
        Request::Run { file, script, .. } => run_note(
            process.rt,
            process.alloc,
            file,
            script,
            fault,
            said,
        ),
        Request::Status { file, .. } | Request::Replay { file, .. } | Request::Show { file, .. } =>
            {
                match fault {
                    Fault::Busy => trouble_note(process.alloc, file, Trouble::Held),
                    Fault::Device => device_note(process.rt, process.alloc, file, ANY_CALL, said),
                    _ => store_note(process.alloc, file, None, fault),
                }
            }
        Request::Migrate { old, new, .. } => match (fault, process.traces.unmade.get()) {
            (Fault::NotEmpty, _) => store_note(process.alloc, new, None, fault),
            (Fault::Busy, _) => trouble_note(process.alloc, old, Trouble::Held),
            (Fault::WrongVersion { version: 2 }, _) => trouble_note(
                process.alloc,
                old,
                Trouble::Current,
            ),
            (Fault::Device, Some(unmade)) => unmade_note(process.alloc, new, unmade, said),
            (Fault::Device, None) => device_note(process.rt, process.alloc, old, ANY_CALL, said),
            _ => store_note(process.alloc, old, None, fault),
        },
        Request::Audit { .. } | Request::Head { .. } | Request::Explain { .. } => Ok(None),
    }
}

/// What is said below the line of a fault, if anything is known beside it. Fails only if memory runs out.
pub(crate) fn note_of(
    process: Process<'_>,
    request: &Request<'_>,
    fault: Fault,
) -> Result<Option<NoteLines>, AllocError> {
    match request {
        Request::Run { log: Some(log), .. } | Request::Head { log, .. } => {
            let note = beside_note(process, log, fault)?;
            if note.is_some() {
                return Ok(note);
            }
        }
        Request::Audit { logs, .. } if fault != Fault::OutputFailed => {
            return history_part_note(process, logs.as_slice(), fault);
        }
        _ => {}
    }
    match fault {
        Fault::InputFailed => input_failed(process, request),
        Fault::OutputFailed => match process.traces.failed.get() {
            Some(kind) => output_note(process.alloc, why(kind), stands_of(request)),
            None => Ok(None),
        },
        Fault::NoThread => trouble_note(process.alloc, "", Trouble::Threads),
        _ => request_note(process, request, fault),
    }
}

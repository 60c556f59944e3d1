//! Notes of files that can't be opened, and of stores.

use crate::texts;
use crate::words::{Texts, Word, say, written};
use pfx_fault::{Fault, Part};
use pfx_program_explain::NoteLines;
use std::alloc::{AllocError, Global};

/// What a word of the command line names.
#[derive(Clone, Copy, PartialEq, Eq)]
pub enum NamedFile {
    /// A set file.
    Set,
    /// A script.
    Script,
    /// A store.
    Store,
    /// A store that is only read.
    ReadStore,
    /// A store that is to be made.
    NewStore,
    /// A log.
    Log,
}

fn noun(named: NamedFile) -> &'static str {
    match named {
        NamedFile::Set => "set",
        NamedFile::Script => "script",
        NamedFile::Store | NamedFile::ReadStore | NamedFile::NewStore => "store",
        NamedFile::Log => "log",
    }
}

/// The note of a file that can't be opened or read: which one, why, what to do. `missing` says that it isn't there. Fails only if
/// memory runs out.
pub fn input_note<'a>(
    alloc: Global,
    named: NamedFile,
    path: &'a str,
    why: &'a str,
    missing: bool,
) -> Result<Option<NoteLines>, AllocError> {
    let texts = match named {
        NamedFile::Store | NamedFile::ReadStore if missing => texts::STORE_MISSING,
        NamedFile::Store => texts::STORE,
        NamedFile::ReadStore => texts::READ_STORE,
        NamedFile::NewStore => texts::NEW_STORE,
        _ => texts::INPUT,
    };
    let words = [
        Word::At(path, None),
        Word::Text(noun(named)),
        Word::Text(why),
        Word::Text(path),
    ];
    written(alloc, say(texts, &words))
}

/// What of a command stands, though its output failed.
#[derive(Clone, Copy, PartialEq, Eq)]
pub enum Stands {
    /// Nothing that is kept.
    Nothing,
    /// The store that was made.
    NewStore,
    /// What a run has carried out.
    Run,
}

/// The note of an output that can't be written: why. Fails only if memory runs out.
pub fn output_note(
    alloc: Global,
    why: &str,
    stands: Stands,
) -> Result<Option<NoteLines>, AllocError> {
    let texts = match stands {
        Stands::Nothing => texts::PLAIN_OUTPUT,
        Stands::NewStore => texts::NEW_OUTPUT,
        Stands::Run => texts::OUTPUT,
    };
    written(alloc, say(texts, &[Word::Text(why)]))
}

/// What is wrong with a file.
#[derive(Clone, Copy, PartialEq, Eq)]
pub enum Trouble<'a> {
    /// Its name is empty, where a word names a set or a script.
    NoName(NamedFile),
    /// It is longer than sets are.
    Long,
    /// The directory in which it is to be made isn't there.
    NoDirectory(&'a str),
    /// It may not be made in its directory.
    NoPermission,
    /// Its file system can't be written.
    ReadOnly,
    /// There is no room for so many bytes.
    NoSpace(u64),
    /// It couldn't be written for this reason, and is left where that is so.
    Unmade(&'a str, bool),
    /// It would be standard input.
    Dash,
    /// A run has it open.
    Held,
    /// It is to be migrated, and is of this version.
    Current,
    /// The disk has failed, as the system says.
    Device(&'a str),
    /// The disk of a log has failed, as the system says.
    LogDevice(&'a str),
    /// There is no thread to work on it.
    Threads,
}

fn texts_of(trouble: Trouble<'_>) -> Texts {
    match trouble {
        Trouble::NoName(NamedFile::Set | NamedFile::Script) => texts::NO_NAME,
        Trouble::NoName(_) => texts::NO_STORE_NAME,
        Trouble::Long => texts::SET_LONG,
        Trouble::NoDirectory(_) => texts::NO_DIRECTORY,
        Trouble::NoPermission => texts::NO_PERMISSION,
        Trouble::ReadOnly => texts::READ_ONLY,
        Trouble::NoSpace(_) => texts::NO_SPACE,
        Trouble::Unmade(_, false) => texts::UNMADE,
        Trouble::Unmade(_, true) => texts::UNMADE_LEFT,
        Trouble::Dash => texts::DASH,
        Trouble::Held => texts::HELD,
        Trouble::Current => texts::NO_MIGRATION,
        Trouble::Device(_) => texts::DEVICE,
        Trouble::LogDevice(_) => texts::LOG_DEVICE,
        Trouble::Threads => texts::THREADS,
    }
}

fn word_of<'a>(trouble: Trouble<'a>) -> Word<'a> {
    match trouble {
        Trouble::NoName(named) => Word::Text(noun(named)),
        Trouble::NoDirectory(directory) => Word::Text(directory),
        Trouble::Unmade(why, _) => Word::Text(why),
        Trouble::Device(why) => Word::Text(why),
        Trouble::LogDevice(why) => Word::Text(why),
        Trouble::NoSpace(len) => Word::Number(len),
        _ => Word::Text(""),
    }
}

/// The note of what is wrong with the file of this path. Fails only if memory runs out.
pub fn trouble_note<'a>(
    alloc: Global,
    path: &'a str,
    trouble: Trouble<'a>,
) -> Result<Option<NoteLines>, AllocError> {
    let words = [Word::At(path, None), word_of(trouble), Word::Text(path)];
    written(alloc, say(texts_of(trouble), &words))
}

fn part_text(part: Part) -> &'static str {
    match part {
        Part::Header => "the header at",
        Part::Length => "the file's length at",
        Part::Checkpoint => "the checkpoint at",
        Part::Segment => "the start of the segment at",
        Part::Frame => "the head of the batch of commands at",
        Part::Record => "a command of the batch that begins at",
    }
}

// What a fault of a file tells beside the file. `script` is the word behind the store's.
fn words_of<'a>(script: Option<&'a str>, fault: Fault) -> (Word<'a>, Word<'a>) {
    let nothing = Word::Text("");
    match fault {
        Fault::NotAStore => (Word::Text(script.unwrap_or("")), nothing),
        Fault::Damaged { at, what } => (Word::Number(at), Word::Text(part_text(what))),
        Fault::WrongVersion { version } => (Word::Number(u64::from(version)), nothing),
        Fault::NoSuchTask { task } | Fault::NoJob { task } => {
            (Word::Number(u64::from(task)), nothing)
        }
        Fault::LogGap { log, file } => (Word::Number(log), Word::Number(file)),
        Fault::LogDamaged { at } => (Word::Number(at), nothing),
        Fault::WrongLogVersion { version } => (Word::Number(u64::from(version)), nothing),
        _ => (nothing, nothing),
    }
}

// The texts of a fault of a store's file.
fn store_texts(script: Option<&str>, fault: Fault) -> Option<Texts> {
    match fault {
        Fault::NotAStore if script.is_some() => Some(texts::NO_STORE_FIRST),
        Fault::NotAStore => Some(texts::NO_STORE),
        Fault::Damaged { what, .. } if what == Part::Length => Some(texts::DAMAGED_LENGTH),
        Fault::Damaged { .. } => Some(texts::DAMAGED),
        Fault::WrongVersion { version: 1 } => Some(texts::VERSION_ONE),
        Fault::WrongVersion { .. } => Some(texts::VERSION),
        Fault::NotEmpty => Some(texts::NOT_EMPTY),
        Fault::Busy => Some(texts::BUSY),
        Fault::NoSuchTask { .. } => Some(texts::NO_SUCH_TASK),
        Fault::NoJob { .. } => Some(texts::NO_JOB),
        _ => None,
    }
}

// The texts of a fault of a log.
fn log_texts(fault: Fault) -> Option<Texts> {
    match fault {
        Fault::LogGap { log, file } if log < file => Some(texts::LOG_GAP),
        Fault::LogGap { .. } => Some(texts::LOG_AHEAD),
        Fault::NotALog => Some(texts::NO_LOG),
        Fault::NotEmpty => Some(texts::LOG_NOT_EMPTY),
        Fault::Busy => Some(texts::LOG_BUSY),
        Fault::LogDamaged { .. } => Some(texts::DAMAGED_LOG),
        Fault::WrongLogVersion { .. } => Some(texts::LOG_VERSION),
        _ => None,
    }
}

// The texts of a part of a history that isn't the next one.
fn history_texts(fault: Fault) -> Option<Texts> {
    match fault {
        Fault::LogGap { log, file } if log == file => Some(texts::OTHER_HISTORY),
        Fault::LogGap { .. } => Some(texts::HISTORY_GAP),
        Fault::NotALog => Some(texts::NO_HISTORY),
        Fault::Busy => Some(texts::HISTORY_BUSY),
        _ => log_texts(fault),
    }
}

// The note of a fault of the file at this path, with these texts.
fn fault_note(
    alloc: Global,
    texts: Option<Texts>,
    path: &str,
    script: Option<&str>,
    fault: Fault,
) -> Result<Option<NoteLines>, AllocError> {
    let Some(texts) = texts else {
        return Ok(None);
    };
    let (first, second) = words_of(script, fault);
    written(alloc, say(texts, &[Word::Text(path), first, second]))
}

/// The note of a fault of the part of a history at this path: a log, or a store's file behind logs. `None` if the fault is of another kind.
/// Fails only if memory runs out.
pub fn history_note(
    alloc: Global,
    path: &str,
    fault: Fault,
) -> Result<Option<NoteLines>, AllocError> {
    fault_note(alloc, history_texts(fault), path, None, fault)
}

/// The note of a fault of the log at this path. `None` if the fault is of another kind. Fails only if memory runs out.
pub fn log_note(alloc: Global, path: &str, fault: Fault) -> Result<Option<NoteLines>, AllocError> {
    fault_note(alloc, log_texts(fault), path, None, fault)
}

/// The note of a fault of a store's file. `script` is the word behind the store's, if that file is a store. `None` if the fault
/// is of another kind. Fails only if memory runs out.
pub fn store_note(
    alloc: Global,
    path: &str,
    script: Option<&str>,
    fault: Fault,
) -> Result<Option<NoteLines>, AllocError> {
    fault_note(alloc, store_texts(script, fault), path, script, fault)
}

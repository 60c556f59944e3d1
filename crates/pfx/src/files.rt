//! The files that the program works on, and what goes wrong with them.

ghost use Rattle.std.specs.Prelude.{◌≡◌, ◌⊎◌, IfErr};

use pfx_disk::FileDisk;
use pfx_fault::Fault;
use std::cell::Cell;
use std::fs::{File, OpenOptions, TryLockError};
use std::io::{Read, Stdin};
use std::path::Path;
use std::time::Duration;
use std::{fs, io, thread};

/// The letters with which a store's file begins, behind an open gate.
pub(crate) const STORE: &[u8; 9] = b"\xC3PFXSTORE";

/// How often a reader tries to lock a store's file, with a pause after each try: a second in all.
const TRIES: u32 = 100;

const PAUSE_MILLIS: u64 = 10;

/// Want of memory is a fault of its own; any other error is this one.
pub(crate) fn fault_of(error: &io::Error, other: Fault) -> Fault
    ensures { (result ≡ other) ⊎ (result ≡ Fault.NoMemory) }
{
    if error.kind() == io::ErrorKind::OutOfMemory {
        Fault::NoMemory
    } else {
        other
    }
}

/// What a set or a script is read from.
#[derive(Drop)]
pub(crate) enum Source {
    /// Standard input, of which no more is asked for than is there.
    Standard(Stdin),
    /// A file.
    File(File),
}

impl Read for Source {
    fn read(&mut self, bytes: &mut [u8]) -> io::Result<usize> {
        match self {
            Source::Standard(input) => input.read(bytes),
            Source::File(file) => file.read(bytes),
        }
    }
}

/// What is read: standard input if the path is `-`, else the file.
pub(crate) fn input(rt: &HostRuntime, path: &str) -> Result<Source, Fault> {
    if path == "-" {
        return Ok(Source::Standard(rt.stdin()));
    }
    match File::open(rt, path) {
        Ok(file) => Ok(Source::File(file)),
        Err(error) => Err(fault_of(&error, Fault::InputFailed)),
    }
}

/// Keeps the places of the three standard streams: if one of them is closed, a file that is opened would else become it, and
/// a store's file would take what is printed. What is returned has to live as long as any file is open.
pub(crate) fn taken_streams(rt: &HostRuntime) -> [io::Result<File>; 3] {
    [
        File::open(rt, "/dev/null"),
        File::open(rt, "/dev/null"),
        File::open(rt, "/dev/null"),
    ]
}

fn opened(rt: &HostRuntime, path: &str, options: &OpenOptions) -> Result<File, Fault> {
    match options.open(rt, path) {
        Ok(file) => Ok(file),
        Err(error) => Err(fault_of(&error, Fault::InputFailed)),
    }
}

// The fault of a lock that isn't had.
fn lock_fault(error: TryLockError) -> Fault
    ensures { (result ≡ Fault.Busy) ⊎ ((result ≡ Fault.InputFailed) ⊎ (result ≡ Fault.NoMemory)) }
{
    match error {
        TryLockError::WouldBlock => Fault::Busy,
        TryLockError::Error(error) => fault_of(&error, Fault::InputFailed),
    }
}

// A file that no other process has.
fn locked(file: File) -> Result<FileDisk, Fault> {
    match file.try_lock() {
        Ok(()) => Ok(FileDisk::new(file)),
        Err(error) => Err(lock_fault(error)),
    }
}

/// A store's file for its one writer. `Busy` comes if another process has it open: the file is locked before anything of it is
/// read, as long as it is open.
pub(crate) fn disk(rt: &HostRuntime, path: &str) -> Result<FileDisk, Fault> {
    let mut options = OpenOptions::new();
    options.read(true).write(true);
    locked(opened(rt, path, &options)?)
}

/// The same of a file in which a store is made, and whether it is new, so that it is taken away where that fails. Of one that can't be
/// opened or made it keeps what the system says.
pub(crate) fn new_disk(
    rt: &HostRuntime,
    path: &str,
    unopened: &Cell<Option<io::ErrorKind>>,
) -> Result<(FileDisk, bool), Fault> {
    let mut options = OpenOptions::new();
    options.read(true).write(true).create_new(true);
    if let Ok(file) = options.open(rt, path) {
        return Ok((locked(file)?, true));
    }
    let mut options = OpenOptions::new();
    options.read(true).write(true).create(true);
    match options.open(rt, path) {
        Ok(file) => Ok((locked(file)?, false)),
        Err(error) => {
            unopened.set(Some(error.kind()));
            Err(fault_of(&error, Fault::InputFailed))
        }
    }
}

/// Makes the name of a file durable, by a sync of the directory that it is in. If that fails, what the system said comes to stand in
/// `said`.
pub(crate) fn sync_directory(
    rt: &HostRuntime,
    path: &str,
    said: &Cell<Option<io::Error>>,
) -> Result<(), Fault>
    ensures { IfErr result (λ fault. (fault ≡ Fault.Device) ⊎ (fault ≡ Fault.NoMemory)) }
{
    let parent = match Path::new(path).parent() {
        Some(parent) => parent.as_str(),
        None => "",
    };
    let synced = match File::open(rt, if parent.is_empty() { "." } else { parent }) {
        Ok(directory) => directory.sync_all(),
        Err(error) => Err(error),
    };
    match synced {
        Ok(()) => Ok(()),
        Err(error) => {
            said.set(Some(error));
            Err(fault_of(&error, Fault::Device))
        }
    }
}

/// Whether a path leads to a plain file. Only such a one is opened for reading alone: a pipe would wait for its writer.
fn is_plain(rt: &HostRuntime, path: &str) -> bool {
    match fs::metadata(rt, path) {
        Ok(found) => found.is_file(),
        Err(_) => false,
    }
}

/// A store's file for a reader, one of any number, who needn't be allowed to write it. `Busy` comes if a writer has had it open for
/// a second.
pub(crate) fn shared_disk(rt: &HostRuntime, path: &str) -> Result<FileDisk, Fault> {
    let mut options = OpenOptions::new();
    options.read(true).write(!is_plain(rt, path));
    let file = opened(rt, path, &options)?;
    for _ in 0..TRIES {
        match file.try_lock_shared() {
            Ok(()) => return Ok(FileDisk::new(file)),
            Err(TryLockError::WouldBlock) => thread::sleep(rt, Duration::from_millis(PAUSE_MILLIS)),
            Err(error) => return Err(lock_fault(error)),
        }
    }
    Err(Fault::Busy)
}

/// A log for a reader, who keeps no run from it and is kept by none: a log only grows, and its last gate says where it ends. Of one that
/// can't be opened it keeps what the system says.
pub(crate) fn growing_disk(
    rt: &HostRuntime,
    path: &str,
    unopened: &Cell<Option<io::ErrorKind>>,
) -> Result<FileDisk, Fault> {
    let mut options = OpenOptions::new();
    options.read(true).write(!is_plain(rt, path));
    match options.open(rt, path) {
        Ok(file) => Ok(FileDisk::new(file)),
        Err(error) => {
            unopened.set(Some(error.kind()));
            Err(fault_of(&error, Fault::InputFailed))
        }
    }
}

/// Whether a file begins as a store does: a plain file, whose first bytes can be read.
pub(crate) fn begins_as_store(rt: &HostRuntime, path: &str) -> Result<bool, Fault> {
    if !is_plain(rt, path) {
        return Ok(false);
    }
    let mut letters = [0u8; 9];
    let mut file = match File::open(rt, path) {
        Ok(file) => file,
        Err(error) => return Err(fault_of(&error, Fault::InputFailed)),
    };
    match file.read_exact(&mut letters) {
        Ok(()) => Ok(letters == *STORE),
        Err(error) if error.kind() == io::ErrorKind::UnexpectedEof => Ok(false),
        Err(error) => Err(fault_of(&error, Fault::InputFailed)),
    }
}

//! The file of the store.
use crate::failures::RunFailure;
use pfx_disk::FileDisk;
use std::fs::OpenOptions;

/// A file as a disk, made if it is missing, and locked as long as it is open.
pub fn locked(rt: &HostRuntime, path: &str) -> Result<FileDisk, RunFailure> {
    let mut options = OpenOptions::new();
    options.read(true).write(true).create(true);
    let Ok(file) = options.open(rt, path) else {
        return Err(RunFailure::File);
    };
    match file.try_lock() {
        Ok(()) => Ok(FileDisk::new(file)),
        Err(_) => Err(RunFailure::File),
    }
}

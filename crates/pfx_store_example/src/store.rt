//! The file, and the store in it.

use crate::failure::Failure;
use crate::sum::Sum;
use pfx_disk::{Disk, FileDisk};
use pfx_store::Store;
use pfx_weights::TaskSet;
use std::alloc::Global;
use std::fs::OpenOptions;

/// How long a segment of the journal is, in bytes.
const SEGMENT: u32 = 65_536;

/// A file as a disk, made if it is missing, and locked as long as it is open: one process a file.
pub fn locked(rt: &HostRuntime, path: &str) -> Result<FileDisk, Failure> {
    let mut options = OpenOptions::new();
    options.read(true).write(true).create(true);
    let Ok(file) = options.open(rt, path) else {
        return Err(Failure::NoFile);
    };
    match file.try_lock() {
        Ok(()) => Ok(FileDisk::new(file)),
        Err(_) => Err(Failure::NoFile),
    }
}

/// The store on a disk: a new one of three tasks of 2/3 on two workers if the disk is empty.
pub fn store_in(alloc: Global, mut disk: FileDisk) -> Result<Store<FileDisk, Sum>, Failure> {
    let Ok(length) = disk.len() else {
        return Err(Failure::NoFile);
    };
    if length > 0 {
        return Store::open(alloc, disk).map_err(|_| Failure::NoStore);
    }
    let Ok(set) = TaskSet::new(alloc, 2, &[(2, 3), (2, 3), (2, 3)]) else {
        return Err(Failure::NoMemory);
    };
    match Store::init(alloc, disk, &set, SEGMENT) {
        Ok(store) => Ok(store),
        Err(_) => Err(Failure::NoStore),
    }
}

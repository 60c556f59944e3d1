//! What disks hold, and which call has failed.

use pfx_disk::{Disk, FaultDisk, MemoryDisk};
use std::alloc::Global;

/// A disk in memory behind a pointer: a proof spells what a function holds itself at each of its steps.
pub type Kept = Box<MemoryDisk>;

/// A disk that fails over one in memory, behind a pointer too.
pub type Failing = Box<FaultDisk<MemoryDisk>>;

/// Such a disk over one in memory, whose call of number k, counted from 0, fails, with its work done or not.
pub fn failing(alloc: Global, memory: Kept, k: u64, works: bool) -> Option<Failing> {
    let memory = Box::into_inner(memory);
    let disk = match works {
        false => FaultDisk::new(memory, k),
        true => FaultDisk::with_work_done(memory, k),
    };
    Box::new(alloc, disk).ok()
}

/// The disk in memory under one that fails.
pub fn memory_under(alloc: Global, disk: Failing) -> Option<Kept> {
    Box::new(alloc, Box::into_inner(disk).into_inner()).ok()
}

/// All bytes of the disk, by two calls.
pub fn held<D: Disk>(alloc: Global, disk: &mut D) -> Option<Vec<u8>> {
    let n = disk.len().ok()?;
    let mut out = Vec::new(alloc);
    out.resize(n, 0).ok()?;
    disk.read(0, &mut out).ok()?;
    Some(out)
}

/// Whether the disk holds these bytes, asked by two calls.
pub fn is_held<D: Disk>(alloc: Global, disk: &mut D, bytes: &[u8]) -> bool {
    match held(alloc, disk) {
        Some(found) => found.as_slice() == bytes,
        None => false,
    }
}

/// Whether the call of number k, counted from 0, was the last one, and alone has failed.
pub fn has_failed_at<D: Disk>(disk: &D, k: u64) -> bool {
    disk.clock() == k.saturating_add(1) && disk.failures() == 1
}

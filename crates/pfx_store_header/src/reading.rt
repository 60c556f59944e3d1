//! Bytes as a header.

ghost use Rattle.std.specs.Prelude.{◌≡◌, ◌+◌, ◌*◌, ◌≤◌, length, drop, IfOk};
ghost use Rattle.pfx_weights.specs.Bytes.{weight_of, weights_of};
ghost use Rattle.pfx_store_header.specs.Headers.{is_store, are_counts, read_header, read_tasks, sized, this_version, workers_at, real_at};
ghost use Rattle.pfx_store_header.specs.Answers.{Reads};

use crate::HeaderFault;
use crate::sets::set_of;
use crate::sizes::{FRONT, check_segment};
use crate::writing::{MARK, VERSION};
use byteorder::{ByteOrder, LittleEndian};
use pfx_weights::TaskSet;
use std::alloc::{AllocError, Global};

/// Whether the bytes begin with the mark of a store, and have what comes before the tasks.
fn is_store(bytes: &[u8]) -> bool
    ensures { result ≡ is_store bytes.now }
{
    bytes.len() >= FRONT && bytes.starts_with(&MARK)
}

/// Whether there are 1 to 64 workers and 1 to 1,024 tasks.
fn are_counts(workers: u8, real: u16) -> bool
    ensures { result ≡ are_counts workers real }
{
    1 <= workers && workers <= 64 && 1 <= real && real <= 1024
}

/// The weight at a place.
fn task_at(bytes: &[u8], at: usize) -> (u32, u32)
    requires { at + 8 ≤ length bytes.now }
    ensures { result ≡ weight_of (drop at bytes.now) }
{
    (
        LittleEndian::read_u32(&bytes[at..]),
        LittleEndian::read_u32(&bytes[at + 4..]),
    )
}

/// The weights of so many tasks.
fn tasks_at(alloc: Global, real: usize, bytes: &[u8]) -> Result<Vec<(u32, u32)>, AllocError>
    requires few { real ≤ 1024 }
    requires long { 17 + 8 * real ≤ length bytes.now }
    ensures { IfOk result (λ tasks. tasks.items ≡ weights_of real (drop 17 bytes.now)) }
{
    let mut tasks = Vec::with_capacity(alloc, real)?;
    for task in 0..real {
        tasks.push(task_at(bytes, FRONT + 8 * task))?;
    }
    Ok(tasks)
}

/// The set with segments of this length, if it is one and the length is within its limits.
fn sized(set: Option<TaskSet>, segment: u32) -> Result<(TaskSet, u32), HeaderFault>
    ensures { Reads (sized segment set) result }
{
    let Some(set) = set else {
        return Err(HeaderFault::Damaged);
    };
    match check_segment(&set, segment) {
        Ok(()) => Ok((set, segment)),
        Err(_) => Err(HeaderFault::Damaged),
    }
}

/// The set and the segment's length behind the counts, if there are bytes for all tasks.
fn read_tasks(
    alloc: Global,
    workers: u8,
    real: u16,
    bytes: &[u8],
) -> Result<(TaskSet, u32), HeaderFault>
    requires front { 17 ≤ length bytes.now }
    requires workers { workers ≡ workers_at bytes.now }
    requires real { real ≡ real_at bytes.now }
    requires few { real ≤ 1024 }
    ensures { Reads (read_tasks bytes.now) result }
{
    let real = usize::from(real);
    if bytes.len() < FRONT + 8 * real {
        return Err(HeaderFault::NotAStore);
    }
    let segment = LittleEndian::read_u32(&bytes[13..]);
    let Ok(tasks) = tasks_at(alloc, real, bytes) else {
        return Err(HeaderFault::NoMemory);
    };
    match set_of(alloc, u32::from(workers), &tasks) {
        Ok(set) => sized(set, segment),
        Err(_) => Err(HeaderFault::NoMemory),
    }
}

/// The task set and the segment's length, in bytes, of the header at the front of the bytes, of a store of this version.
///
/// It is refused by the first test that fails: `NotAStore` for fewer than 17 bytes, a closed gate or other letters;
/// `WrongVersion`; `Damaged` for counts out of range; `NotAStore` for fewer bytes than the header has; `Damaged` for
/// tasks that are no set or a segment out of its limits. `NoMemory` comes only if an allocation failed.
pub fn read_header(alloc: Global, bytes: &[u8]) -> Result<(TaskSet, u32), HeaderFault>
    ensures { Reads (read_header this_version bytes.now) result }
{
    read_header_of(alloc, VERSION, bytes)
}

/// The same of a store of another version, whose header has this form.
pub fn read_header_of(
    alloc: Global,
    version: u8,
    bytes: &[u8],
) -> Result<(TaskSet, u32), HeaderFault>
    ensures { Reads (read_header version bytes.now) result }
{
    if !is_store(bytes) {
        return Err(HeaderFault::NotAStore);
    }
    let found = bytes[9];
    if found != version {
        return Err(HeaderFault::WrongVersion { version: found });
    }
    let workers = bytes[10];
    let real = LittleEndian::read_u16(&bytes[11..]);
    if are_counts(workers, real) {
        read_tasks(alloc, workers, real, bytes)
    } else {
        Err(HeaderFault::Damaged)
    }
}

//! What the header of a store's file tells, of new files and of damaged ones.

use crate::check::{check, check_at};
use crate::held::held;
use crate::journal::new_file;
use pfx_disk::{Disk, FaultDisk, MemoryDisk};
use pfx_fault::Part;
use pfx_kinds::any::AnyJob;
use pfx_kit::places::{FIRST_SEGMENT, HEADER};
use pfx_store::Store;
use pfx_store_recover::{OpenFault, Refusal};
use std::alloc::Global;

/// How many workers and tasks the header on a disk has, and how long a segment is; or why that isn't told.
fn told<D: Disk>(alloc: Global, disk: &mut D) -> Result<(u32, usize, u32), OpenFault> {
    let header = Store::<D, AnyJob>::layout(alloc, disk)?;
    let set = header.set();
    Ok((set.workers(), set.real(), header.segment()))
}

/// What is told of a disk in memory with these bytes.
fn told_of(alloc: Global, bytes: &[u8]) -> Result<(u32, usize, u32), OpenFault> {
    match MemoryDisk::new(alloc, bytes, bytes.len(), 20, 1000) {
        Ok(mut disk) => told(alloc, &mut disk),
        Err(_) => Err(OpenFault::NoMemory),
    }
}

/// What is told of the bytes with this one at this place.
fn told_with(
    alloc: Global,
    bytes: &[u8],
    at: usize,
    byte: u8,
) -> Result<(u32, usize, u32), OpenFault> {
    let mut other = Vec::new(alloc);
    for (i, old) in bytes.iter().enumerate() {
        other.push(if i == at { byte } else { *old })?;
    }
    told_of(alloc, &other)
}

const NEW: (u32, usize, u32) = (2, 3, 8192);

#[test]
fn a_header_tells_the_layout(rt: HostRuntime) {
    let alloc = rt.alloc();
    let bytes = new_file(alloc).unwrap_or(Vec::new(alloc));
    check(&rt, told_of(alloc, &bytes) == Ok(NEW), "a new file");
    let none = Err(OpenFault::Refused(Refusal::NotAStore));
    check(&rt, told_of(alloc, &[]) == none, "an empty disk");
    let damaged = Refusal::Damaged {
        at: 0,
        what: Part::Header,
    };
    let rows = [
        (0, 0, none),
        (
            9,
            9,
            Err(OpenFault::Refused(Refusal::WrongVersion { version: 9 })),
        ),
        (10, 0, Err(OpenFault::Refused(damaged))),
        (HEADER, 0, Ok(NEW)),
        (FIRST_SEGMENT, 0, Ok(NEW)),
    ];
    for (at, byte, wanted) in rows {
        check_at(
            &rt,
            told_with(alloc, &bytes, at, byte) == wanted,
            "byte",
            at,
        );
    }
}

/// Whether a disk with these bytes is told of by two calls, and holds them then.
fn is_left_alone(alloc: Global, bytes: &[u8]) -> Option<bool> {
    let mut disk = MemoryDisk::new(alloc, bytes, bytes.len(), 20, 1000).ok()?;
    let before = disk.clock();
    let answer = told(alloc, &mut disk);
    let is_two = disk.clock() == before + 2;
    let after = held(alloc, &mut disk)?;
    Some(answer == Ok(NEW) && is_two && after.as_slice() == bytes)
}

/// What is told where the k-th call of the disk fails.
fn told_at(alloc: Global, bytes: &[u8], k: u64) -> Option<OpenFault> {
    let disk = MemoryDisk::new(alloc, bytes, bytes.len(), 20, 1000).ok()?;
    told(alloc, &mut FaultDisk::new(disk, k)).err()
}

#[test]
fn telling_a_layout_only_reads(rt: HostRuntime) {
    let alloc = rt.alloc();
    let bytes = new_file(alloc).unwrap_or(Vec::new(alloc));
    check(
        &rt,
        is_left_alone(alloc, &bytes) == Some(true),
        "left alone",
    );
    for k in 0..2 {
        let holds = told_at(alloc, &bytes, k) == Some(OpenFault::Device);
        check_at(&rt, holds, "call", k as usize);
    }
}

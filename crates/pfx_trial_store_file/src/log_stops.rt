//! Stops at each call, and calls that fail.

use crate::check::{check, check_pair};
use crate::log_vector::{
    BEFORE, FATES, STATE, VERSION, append, blocks_of, disk_of, ends_behind, written,
};
use pfx_disk::{Disk, Fate, FaultDisk, MemoryDisk};
use pfx_log::{AppendFault, CreateLogFault, LogFault, LogFile};
use std::alloc::Global;

/// What a stop after so many calls leaves, each write with this fate.
fn left(alloc: Global, disk: &MemoryDisk, after: usize, fate: Fate) -> Option<MemoryDisk> {
    if disk.clock() < after as u64 {
        return None;
    }
    disk.stopped(alloc, after, &[fate, fate]).ok()
}

/// Whether a stop within the making of a log leaves none or the whole.
fn is_none_or_whole(alloc: Global, after: usize, fate: Fate) -> Option<bool> {
    let file = written(alloc, 0)?;
    let disk = file.into_disk();
    let is_there = match LogFile::open(alloc, left(alloc, &disk, after, fate)?) {
        Ok(file) => ends_behind(file.place.at, file.place.last, 0),
        Err((LogFault::NotALog, _)) => return Some(after < 7),
        Err(_) => return Some(false),
    };
    // The gate is written by the sixth call, and synced by the last.
    Some(is_there && after >= 6)
}

#[test]
fn a_stop_leaves_no_log_or_the_whole(rt: HostRuntime) {
    let alloc = rt.alloc();
    for after in 0..8 {
        for (number, fate) in FATES.iter().enumerate() {
            let holds = is_none_or_whole(alloc, after, *fate) == Some(true);
            check_pair(&rt, holds, "calls, and fate", after, number);
        }
    }
}

/// Whether a stop within the second block's append leaves one block or two, and a stop within the append that then goes on, too.
fn is_one_or_two(alloc: Global, after: usize, fate: Fate, again: usize) -> Option<bool> {
    let disk = written(alloc, 2)?.into_disk();
    // The log and its first block were written by 11 calls.
    let first = left(alloc, &disk, after.saturating_add(11), fate)?;
    let mut file = LogFile::open(alloc, first).ok()?;
    let blocks = if file.place.at == 117 { 1 } else { 2 };
    if !ends_behind(file.place.at, file.place.last, blocks) || after == 4 && blocks == 1 {
        return Some(false);
    }
    if blocks == 1 {
        append(alloc, &mut file, 1).ok()?;
    }
    append(alloc, &mut file, 2).ok()?;
    let disk = file.into_disk();
    let opened = disk.clock().saturating_sub(4) as usize;
    let second = left(alloc, &disk, opened.saturating_add(again), fate)?;
    match blocks_of(alloc, second)? {
        2 => Some(again < 4),
        3 => Some(again >= 3),
        _ => Some(false),
    }
}

#[test]
fn a_stop_leaves_the_log_with_the_block_or_without(rt: HostRuntime) {
    let alloc = rt.alloc();
    for after in 0..5 {
        for again in 0..5 {
            for fate in FATES {
                let holds = is_one_or_two(alloc, after, fate, again) == Some(true);
                check_pair(&rt, holds, "calls of both", after, again);
            }
        }
    }
}

/// The disk whose k-th call fails, with its work done or not.
fn faulty(memory: MemoryDisk, k: u64, works: bool) -> FaultDisk<MemoryDisk> {
    match works {
        false => FaultDisk::new(memory, k),
        true => FaultDisk::with_work_done(memory, k),
    }
}

/// Whether a log isn't made where the k-th call fails.
fn is_not_made(alloc: Global, k: u64, works: bool) -> Option<bool> {
    let disk = faulty(disk_of(alloc, &[])?, k, works);
    match LogFile::create(alloc, disk, VERSION, &STATE, BEFORE) {
        Ok(_) => Some(k == 7),
        Err((CreateLogFault::Device, _)) => Some(k < 7),
        Err(_) => Some(false),
    }
}

/// Whether an append whose k-th call fails breaks the log, which has the block or not when it is opened again.
fn is_broken(alloc: Global, k: u64, works: bool) -> Option<bool> {
    let disk = faulty(disk_of(alloc, &[])?, k.saturating_add(7), works);
    let mut file = LogFile::create(alloc, disk, VERSION, &STATE, BEFORE).ok()?;
    if append(alloc, &mut file, 0).is_ok() {
        return Some(k == 4 && !file.broken);
    }
    let is_left = file.broken && append(alloc, &mut file, 0) == Err(AppendFault::Broken);
    let blocks = blocks_of(alloc, file.into_disk().into_inner())?;
    // The write of the gate, and the sync after it.
    let is_opened = k == 3 || k == 2 && works;
    Some(is_left && k < 4 && blocks == if is_opened { 1 } else { 0 })
}

/// Whether a log isn't opened where the k-th call fails: a sync, the length, three reads and four a block, and the last gate.
fn is_not_opened(alloc: Global, k: u64) -> Option<bool> {
    let memory = written(alloc, 3)?.into_disk();
    match LogFile::open(alloc, faulty(memory, k, false)) {
        Ok(file) => Some(k == 18 && file.place.at == 237),
        Err((LogFault::Device, _)) => Some(k < 18),
        Err(_) => Some(false),
    }
}

#[test]
fn a_failing_call_is_an_answer(rt: HostRuntime) {
    let alloc = rt.alloc();
    for works in [false, true] {
        for k in 0..8 {
            let holds = is_not_made(alloc, k, works) == Some(true);
            check_pair(&rt, holds, "made", k as usize, works as usize);
        }
        for k in 0..5 {
            let holds = is_broken(alloc, k, works) == Some(true);
            check_pair(&rt, holds, "appended", k as usize, works as usize);
        }
    }
    for k in 0..19 {
        check(&rt, is_not_opened(alloc, k) == Some(true), "opened");
    }
}

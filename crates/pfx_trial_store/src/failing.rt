//! Each call of either disk fails in turn. Memory is refused: run with each allocation failing in turn, each refusal is an answer, and what
//! is asked once more is answered as if it had never been refused.

use crate::check::{check, check_pair};
use crate::migrating::{Outcome, is_made, tried};
use crate::old::{Held, new_disk, old_disk};
use pfx_disk::{Disk, FaultDisk, MemoryDisk};
use pfx_kinds::any::AnyJob;
use pfx_store::InitFault;
use pfx_store_migrate::{MigrateFault, migrate};
use pfx_store_recover::OpenFault;
use std::alloc::Global;

/// How many calls read the old file, and how many make the new one.
const READS: u64 = 9;

const WRITES: u64 = 11;

/// A disk whose call of this number fails, doing its work all the same or not.
fn failing(disk: Held, call: u64, works: bool) -> FaultDisk<MemoryDisk> {
    let disk = Box::into_inner(disk);
    if works {
        FaultDisk::with_work_done(disk, call)
    } else {
        FaultDisk::new(disk, call)
    }
}

/// The disk in memory under the new one.
fn memory_under(tried: Box<Outcome<MemoryDisk, FaultDisk<MemoryDisk>>>) -> MemoryDisk {
    let Outcome { new, .. } = Box::into_inner(tried);
    new.into_inner()
}

/// Whether a call of the new disk that fails is answered, and leaves no store, or all of it.
fn is_answered(alloc: Global, call: u64, works: bool) -> Option<bool> {
    let (old, new) = (old_disk(alloc)?, new_disk(alloc)?);
    let (old, new) = (Box::into_inner(old), failing(new, call, works));
    let tried = tried(alloc, old, new)?;
    let fault = tried.fault;
    let left = is_made(alloc, memory_under(tried));
    match fault {
        None => Some(call == WRITES && left == Some(true)),
        Some(MigrateFault::New(InitFault::Device)) => Some(call < WRITES && left.is_some()),
        Some(_) => None,
    }
}

/// Whether a call of the old disk that fails is answered, and the new disk isn't asked anything.
fn is_unread(alloc: Global, call: u64, works: bool) -> Option<bool> {
    let (old, new) = (old_disk(alloc)?, new_disk(alloc)?);
    let (old, new) = (failing(old, call, works), Box::into_inner(new));
    let tried = tried(alloc, old, new)?;
    let is_unasked = tried.new.clock() == 0;
    match tried.fault {
        None => Some(call == READS),
        Some(MigrateFault::Old(OpenFault::Device)) => Some(call < READS && is_unasked),
        Some(_) => None,
    }
}

#[test]
fn each_call_fails_in_turn(rt: HostRuntime) {
    let alloc = rt.alloc();
    for call in 0..WRITES + 1 {
        for works in [false, true] {
            let holds = is_answered(alloc, call, works) == Some(true);
            check_pair(&rt, holds, "new calls", call as usize, works as usize);
        }
    }
    for call in 0..READS + 1 {
        for works in [false, true] {
            let holds = is_unread(alloc, call, works) == Some(true);
            check_pair(&rt, holds, "old calls", call as usize, works as usize);
        }
    }
}

/// Whether a store is made of these disks, if no memory is refused again.
fn is_made_now(alloc: Global, before: Box<Outcome<MemoryDisk, MemoryDisk>>) -> bool {
    let Outcome { old, new, .. } = Box::into_inner(before);
    new.clock() == 0 && migrate::<MemoryDisk, MemoryDisk, AnyJob>(alloc, old, new).is_ok()
}

/// Whether refused memory is an answer.
fn refused_memory(alloc: Global) -> bool {
    let (Some(old), Some(new)) = (old_disk(alloc), new_disk(alloc)) else {
        return true;
    };
    let Some(tried) = tried(alloc, Box::into_inner(old), Box::into_inner(new)) else {
        return true;
    };
    match tried.fault {
        None => true,
        Some(MigrateFault::Old(OpenFault::NoMemory)) => is_made_now(alloc, tried),
        Some(MigrateFault::New(InitFault::NoMemory)) => is_made_now(alloc, tried),
        Some(_) => false,
    }
}

#[test]
fn refused_memory_is_an_answer(rt: HostRuntime) {
    check(&rt, refused_memory(rt.alloc()), "refused memory");
}

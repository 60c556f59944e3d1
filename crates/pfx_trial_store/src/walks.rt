//! A store whose jobs are walks, a kind that only its user knows: stored, stopped and recovered.

use crate::check::{check, check_at, check_pair};
use crate::engines::disk_of_store;
use crate::turns::append_command;
use pfx_disk::{Disk, Fate, MemoryDisk};
use pfx_kinds_walk::walk::Walk;
use pfx_kit::places::END;
use pfx_machine::{Command, State};
use pfx_store::Store;
use pfx_store_file::Tended;
use pfx_weights::TaskSet;
use std::alloc::Global;

/// A store of walks, behind a pointer.
type Held = Box<Store<MemoryDisk, Walk>>;

/// The new store of three tasks of weight 2/3 on two workers.
fn begun(alloc: Global) -> Option<Held> {
    let disk = MemoryDisk::new(alloc, &[], END, 200, 60_000).ok()?;
    let set = TaskSet::new(alloc, 2, &[(2, 3), (2, 3), (2, 3)]).ok()?;
    Box::new(alloc, Store::init(alloc, disk, &set, 8192).ok()?).ok()
}

/// The store that a disk holds.
fn opened(alloc: Global, disk: MemoryDisk) -> Option<Held> {
    Box::new(alloc, Store::open(alloc, disk).ok()?).ok()
}

/// Submits a walk of three steps as the first task's job and runs three slots, two of which have it; answers how many calls of the
/// disk were made before the first command, and by each.
fn walked(alloc: Global, store: &mut Store<MemoryDisk, Walk>) -> Option<[u64; 5]> {
    let mut clocks = [store.disk().clock(); 5];
    for i in 1..5 {
        let command = if i == 1 {
            Command::Submit {
                task: 0,
                job: Walk::new(3, 0),
            }
        } else {
            Command::Slot
        };
        if !append_command(alloc, command, store) {
            return None;
        }
        clocks[i] = store.disk().clock();
    }
    Some(clocks)
}

/// The walk after so many commands: its steps to come, its number and its place, by the published generator from 0 on.
fn walk_after(number: u64) -> Option<(u32, u64, u64)> {
    match number {
        1 => Some((3, 0, 0)),
        2 => Some((2, 1442695040888963407, u64::MAX)),
        3 | 4 => Some((1, 1876011003808476466, u64::MAX - 1)),
        _ => None,
    }
}

/// Whether the state has the walk as its number says.
fn has_walk(state: &State<Walk>) -> bool {
    let found = match state.jobs().first() {
        Some(Some(walk)) => Some((walk.left, walk.seed, walk.place)),
        _ => None,
    };
    found == walk_after(state.number())
}

/// The number of the last command that is recovered where a stop after so many calls leaves the disk, if all that isn't synced meets this
/// fate, and the walk is the one of that number.
fn recovered(alloc: Global, disk: &MemoryDisk, calls: u64, fate: Fate) -> Option<u64> {
    if disk.clock() < calls {
        return None;
    }
    let left = disk.stopped(alloc, calls as usize, &[fate, fate]).ok()?;
    let store = opened(alloc, left)?;
    if has_walk(store.state()) {
        Some(store.state().number())
    } else {
        None
    }
}

/// How many commands had returned by so many calls.
fn returned(clocks: [u64; 5], calls: u64) -> u64 {
    let [_, submit, first, second, third] = clocks;
    u64::from(submit <= calls)
        + u64::from(first <= calls)
        + u64::from(second <= calls)
        + u64::from(third <= calls)
}

#[test]
fn a_walk_is_recovered_after_each_call(rt: HostRuntime) {
    let alloc = rt.alloc();
    let Some(mut store) = begun(alloc) else {
        return check(&rt, false, "made");
    };
    let Some(clocks) = walked(alloc, &mut store) else {
        return check(&rt, false, "walked");
    };
    let disk = disk_of_store(store);
    let fates = [Fate::Kept, Fate::Dropped, Fate::Filled(0x5a)];
    for (row, fate) in fates.iter().enumerate() {
        for calls in clocks[0]..=disk.clock() {
            let number = recovered(alloc, &disk, calls, *fate);
            let least = Some(returned(clocks, calls));
            check_pair(&rt, number >= least, "fate and call", row, calls as usize);
        }
    }
}

#[test]
fn a_walk_is_recovered_from_a_checkpoint(rt: HostRuntime) {
    let alloc = rt.alloc();
    let Some(mut store) = begun(alloc) else {
        return check(&rt, false, "made");
    };
    check(&rt, walked(alloc, &mut store).is_some(), "walked");
    check(&rt, store.turn() == Ok(true), "turned");
    let steps = [Tended::Closed, Tended::Piece, Tended::Finished];
    for (at, step) in steps.iter().enumerate() {
        check_at(&rt, store.tend() == Ok(*step), "step", at);
    }
    let disk = disk_of_store(store);
    let number = recovered(alloc, &disk, disk.clock(), Fate::Dropped);
    check(&rt, number == Some(4), "recovered");
}

//! A store on one thread, stopped twice.

use crate::check::check;
use crate::courses::{Course, run_on_disk};
use crate::engines::MemoryEngine;
use crate::folds::{CALLS, empty, folds};
use crate::stopped::{Run, are_two, stops};
use pfx_disk::{Fate, MemoryDisk};
use std::alloc::Global;

/// The disk after the run, and the clocks of the run's marks.
fn ran(alloc: Global) -> Option<(MemoryDisk, Vec<u64>)> {
    run_on_disk::<MemoryDisk, MemoryEngine>(alloc, empty(alloc)?, Course::Reweighed)
}

/// How many stops the run goes through, and the Slots after them.
fn stops_of(alloc: Global, fate: Fate) -> Option<(u64, u64)> {
    let (disk, marks) = ran(alloc)?;
    let folds = folds(alloc, Course::Reweighed)?;
    let run = Run {
        folds: &folds,
        marks: &marks,
    };
    stops::<MemoryDisk, MemoryEngine>(alloc, &disk, &run, fate)
}

/// How many stops the run goes through: after each of its calls and before the first, in two ways.
pub const STOPS: u64 = 2 * (CALLS + 1);

/// How many stops a Slot after one of these goes through at least: before the opening, after its sync and its last call, and
/// after the four calls of an append, in ten ways each.
pub const MORE: u64 = 70;

/// Whether the run is stopped so often with this fate, and each stop leaves what it has to, now and one Slot later.
fn is_kept(alloc: Global, fate: Fate) -> bool {
    match stops_of(alloc, fate) {
        Some((first, second)) => first == STOPS && second >= MORE * STOPS,
        None => false,
    }
}

#[test]
fn no_sync_waits_for_three_writes(rt: HostRuntime) {
    let alloc = rt.alloc();
    let holds = match ran(alloc) {
        Some((disk, _marks)) => are_two(alloc, &disk),
        None => false,
    };
    check(&rt, holds, "two writes");
}

#[test]
fn stopped_twice_where_writes_are_kept(rt: HostRuntime) {
    check(&rt, is_kept(rt.alloc(), Fate::Kept), "kept");
}

#[test]
fn stopped_twice_where_writes_are_dropped(rt: HostRuntime) {
    check(&rt, is_kept(rt.alloc(), Fate::Dropped), "dropped");
}

#[test]
fn stopped_twice_where_torn_writes_are_closed_gates(rt: HostRuntime) {
    check(&rt, is_kept(rt.alloc(), Fate::Filled(0x00)), "0x00");
}

#[test]
fn stopped_twice_where_torn_writes_are_open_gates(rt: HostRuntime) {
    check(&rt, is_kept(rt.alloc(), Fate::Filled(0xc3)), "0xc3");
}

#[test]
fn stopped_twice_where_torn_writes_are_other_bytes(rt: HostRuntime) {
    check(&rt, is_kept(rt.alloc(), Fate::Filled(0x5a)), "0x5a");
}

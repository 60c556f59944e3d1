//! The trials through a front: what its disk's record leaves when it is stopped twice, and each call of its disk that fails.

use crate::check::{check, check_at};
use crate::courses::Course;
use crate::engines::{Engine, MemoryEngine, Stopped};
use crate::failing::holds;
use crate::folds::{CALLS, COMMANDS, Fold, MADE, empty, empty_for, folds};
use crate::fronts::{Outcome, run_failing, run_held, run_in_memory};
use crate::stopped::{FATES, Run, are_two, stops};
use crate::twice::{MORE, STOPS};
use pfx_disk::{Fate, FaultDisk, MemoryDisk};
use pfx_fault::Cause;
use pfx_front::faults::CallFault;
use std::alloc::Global;
use std::sync::Wait;
use std::thread::Threads;
use std::time::Clock;

/// Whether each command was kept and has its receipt, and the reader saw the last publication.
fn is_whole(outcome: &Outcome) -> bool {
    outcome.left.numbers == (COMMANDS, COMMANDS)
        && outcome.left.failure.is_none()
        && outcome.asked.faults == [None, None]
        && outcome.asked.receipts.len() as u64 == COMMANDS
        && outcome.left.looked
        && outcome.asked.stay
}

/// The clocks of receipts, if these are one of each number, from 1 on.
fn clocks(alloc: Global, receipts: &[(u64, u64)]) -> Option<Vec<u64>> {
    let mut clocks = Vec::new(alloc);
    for (before, receipt) in receipts.iter().enumerate() {
        if receipt.0 != (before as u64).saturating_add(1) {
            return None;
        }
        clocks.push(receipt.1).ok()?;
    }
    Some(clocks)
}

/// How many stops a whole run's disk goes through, and the Slots after them.
fn stops_of(alloc: Global, ran: &(Outcome, MemoryDisk), fate: Fate) -> Option<(u64, u64)> {
    if !is_whole(&ran.0) {
        return None;
    }
    let marks = clocks(alloc, &ran.0.asked.receipts)?;
    let folds = folds(alloc, Course::Reweighed)?;
    let run = Run {
        folds: &folds,
        marks: &marks,
    };
    stops::<MemoryDisk, MemoryEngine>(alloc, &ran.1, &run, fate)
}

/// Whether the run is stopped so often with this fate, and each stop leaves what it has to, now and one Slot later.
fn is_kept<R: Threads + Wait + Clock + Copy + Drop + Send + Sync + 'static>(
    rt: R,
    alloc: Global,
    fate: Fate,
) -> Option<bool> {
    let ran = run_in_memory(rt, alloc, empty(alloc)?)?;
    let (first, second) = stops_of(alloc, &ran, fate)?;
    Some(first == STOPS && second >= MORE * STOPS)
}

#[test]
fn a_front_stopped_twice_where_writes_are_kept(rt: HostRuntime) {
    let holds = is_kept(rt, rt.alloc(), Fate::Kept);
    check(&rt, holds == Some(true), "kept");
}

#[test]
fn a_front_stopped_twice_where_writes_are_dropped(rt: HostRuntime) {
    let holds = is_kept(rt, rt.alloc(), Fate::Dropped);
    check(&rt, holds == Some(true), "dropped");
}

#[test]
fn a_front_stopped_twice_where_torn_writes_are_closed_gates(rt: HostRuntime) {
    let holds = is_kept(rt, rt.alloc(), Fate::Filled(0x00));
    check(&rt, holds == Some(true), "0x00");
}

#[test]
fn a_front_stopped_twice_where_torn_writes_are_open_gates(rt: HostRuntime) {
    let holds = is_kept(rt, rt.alloc(), Fate::Filled(0xc3));
    check(&rt, holds == Some(true), "0xc3");
}

#[test]
fn a_front_stopped_twice_where_torn_writes_are_other_bytes(rt: HostRuntime) {
    let holds = is_kept(rt, rt.alloc(), Fate::Filled(0x5a));
    check(&rt, holds == Some(true), "0x5a");
}

/// Whether no sync of a front's disk waits for more than two writes, if each frame has one command and if it has many.
fn are_two_at_most<R: Threads + Wait + Clock + Copy + Drop + Send + Sync + 'static>(
    rt: R,
    alloc: Global,
) -> Option<bool> {
    let one = run_in_memory(rt, alloc, empty(alloc)?)?;
    let many = run_held(rt, alloc, empty(alloc)?)?;
    Some(are_two(alloc, &one.1) && are_two(alloc, &many.1))
}

#[test]
fn no_sync_of_a_front_waits_for_three_writes(rt: HostRuntime) {
    check(
        &rt,
        are_two_at_most(rt, rt.alloc()) == Some(true),
        "two writes",
    );
}

/// How many calls the run takes at least if a frame has up to 16 commands: four frames and a turn in front of each but one.
const FEW: u64 = 25;

/// Whether the run whose frames have many commands is stopped after each of its calls with each fate, and each stop leaves what
/// it has to, now and one Slot later. How many commands the first frame has, and so how many calls there are, isn't known.
fn are_many_kept<R: Threads + Wait + Clock + Copy + Drop + Send + Sync + 'static>(
    rt: R,
    alloc: Global,
) -> Option<bool> {
    let ran = run_held(rt, alloc, empty(alloc)?)?;
    let calls = ran.1.calls().saturating_sub(MADE);
    let wanted = calls.saturating_add(1).saturating_mul(2);
    for fate in FATES {
        let (first, second) = stops_of(alloc, &ran, fate)?;
        if first != wanted || second < MORE.saturating_mul(wanted) {
            return None;
        }
    }
    Some(FEW <= calls && calls < CALLS)
}

#[test]
fn a_front_whose_frames_have_many_commands_stopped_twice(rt: HostRuntime) {
    check(&rt, are_many_kept(rt, rt.alloc()) == Some(true), "many");
}

/// How a call of the disk fails.
#[derive(Clone, Copy)]
enum Way {
    // Once, with none of its work done.
    Undone,
    // Once, with all of its work done.
    Done,
    // It and each one after it.
    EverAfter,
    // The same, if frames have many commands.
    OfMany,
}

/// The run if the call of this number fails so, and the disk after it.
fn run_where_fails<R: Threads + Wait + Clock + Copy + Drop + Send + Sync + 'static>(
    rt: R,
    alloc: Global,
    call: u64,
    way: Way,
) -> Option<(Outcome, MemoryDisk)> {
    match way {
        Way::Undone => run_failing(rt, alloc, FaultDisk::new(empty(alloc)?, call)),
        Way::Done => run_failing(rt, alloc, FaultDisk::with_work_done(empty(alloc)?, call)),
        // Each call that has no room fails.
        Way::EverAfter => run_in_memory(rt, alloc, empty_for(alloc, call as usize)?),
        Way::OfMany => run_held(rt, alloc, empty_for(alloc, call as usize)?),
    }
}

/// What a client is told whose last command is this one, if the disk fails after the command of the number `marked`.
fn told(last: u64, marked: u64) -> Option<CallFault> {
    if marked < last {
        Some(CallFault::StoreFailed {
            marked,
            cause: Cause::Device,
        })
    } else {
        None
    }
}

/// Whether each client is told that the device failed, and the reader sees what was kept.
fn is_lost(outcome: &Outcome) -> bool {
    let (number, marked) = outcome.left.numbers;
    outcome.asked.faults == [told(COMMANDS - 1, marked), told(COMMANDS, marked)]
        && outcome.left.failure == Some(Cause::Device)
        && number == marked
        && outcome.asked.receipts.len() as u64 == marked
        && outcome.left.looked
        && outcome.asked.stay
}

/// Whether the disk opens to each command that has a receipt, and to one more frame's at the most, whatever becomes of what isn't
/// synced.
fn is_held<D: Stopped, E: Engine<D>>(
    alloc: Global,
    disk: &D,
    marked: u64,
    most: u64,
    folds: &[Fold],
) -> Option<bool> {
    for fate in FATES {
        let left = disk.left(alloc, disk.calls(), &[fate, fate])?;
        if !holds::<D, E>(alloc, left, marked, most, folds) {
            return Some(false);
        }
    }
    Some(true)
}

/// How many calls fail in turn in this way, until a run meets none that does. `None` if one isn't answered as it should be, or
/// another call is made after it.
fn calls_that_fail<R: Threads + Wait + Clock + Copy + Drop + Send + Sync + 'static>(
    rt: R,
    alloc: Global,
    way: Way,
) -> Option<u64> {
    let folds = folds(alloc, Course::Reweighed)?;
    let most = if matches!(way, Way::OfMany) { 16 } else { 1 };
    for calls in 0..1000 {
        let call = MADE + calls;
        let (outcome, disk) = run_where_fails(rt, alloc, call, way)?;
        if is_whole(&outcome) {
            return Some(calls);
        }
        let is_last = disk.calls() == call + 1;
        let marked = outcome.left.numbers.1;
        let is_kept = is_held::<MemoryDisk, MemoryEngine>(alloc, &disk, marked, most, &folds)?;
        if !is_last || !is_kept || !is_lost(&outcome) {
            return None;
        }
    }
    None
}

#[test]
fn each_call_through_a_front_fails_in_turn(rt: HostRuntime) {
    let calls = calls_that_fail(rt, rt.alloc(), Way::Undone).unwrap_or(0);
    check_at(&rt, calls == CALLS, "calls", calls);
}

#[test]
fn each_call_through_a_front_fails_behind_its_work(rt: HostRuntime) {
    let calls = calls_that_fail(rt, rt.alloc(), Way::Done).unwrap_or(0);
    check_at(&rt, calls == CALLS, "calls", calls);
}

#[test]
fn each_call_through_a_front_fails_and_those_behind_it(rt: HostRuntime) {
    let calls = calls_that_fail(rt, rt.alloc(), Way::EverAfter).unwrap_or(0);
    check_at(&rt, calls == CALLS, "calls", calls);
}

#[test]
fn each_call_through_a_front_fails_where_frames_have_many_commands(rt: HostRuntime) {
    let calls = calls_that_fail(rt, rt.alloc(), Way::OfMany).unwrap_or(0);
    check_at(&rt, FEW <= calls && calls < CALLS, "calls", calls);
}

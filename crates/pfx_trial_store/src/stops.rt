//! Stops after each call of a store on a disk in memory, and where its frames go.

use crate::check::{check, check_at, check_pair};
use crate::engines::{Driven, Engine, disk_of_engine, in_memory, last_of, new_store, opened, over};
use pfx_disk::{Disk, Fate, MemoryDisk};
use pfx_jobs::job::Job;
use pfx_kinds::any::AnyJob;
use pfx_kit::places::FIRST_SEGMENT;
use pfx_machine::Command;
use std::alloc::Global;

/// Whether so many slots are carried out.
fn run_slots(alloc: Global, count: u32, engine: &mut Engine) -> bool {
    for _ in 0..count {
        if engine.execute(alloc, Command::Slot).is_err() {
            return false;
        }
    }
    true
}

/// Whether a job is given to a task.
fn submit(alloc: Global, task: u16, job: Option<AnyJob>, engine: &mut Engine) -> bool {
    match job {
        Some(job) => engine.execute(alloc, Command::Submit { task, job }).is_ok(),
        None => false,
    }
}

/// Whether the first task's job has these first cells, and so many steps left.
fn has_first_job(engine: &Engine, cells: u8, left: u32) -> bool {
    let state = engine.keeper.state();
    if state.jobs().is_empty() {
        return false;
    }
    let Some(job) = state.job(0) else {
        return false;
    };
    let mut bytes = [0; 128];
    job.encode(&mut bytes);
    bytes[8] == cells && job.left() == left
}

/// How many commands survive a stop so many calls after the making.
pub fn survivors(
    alloc: Global,
    disk: &MemoryDisk,
    made: u64,
    calls: u64,
    fate: Fate,
) -> Option<u64> {
    let after = made.saturating_add(calls);
    if after > disk.clock() {
        return None;
    }
    let left = disk.stopped(alloc, after as usize, &[fate, fate]).ok()?;
    last_of(alloc, left)
}

/// How many commands of four calls each are kept by so many. The gate is the fourth call but one: until its sync it may
/// stand open or closed.
pub fn kept_by(calls: u64, fate: Fate) -> u64 {
    let is_open = matches!(fate, Fate::Kept | Fate::Filled(0xc3));
    calls / 4 + u64::from(calls % 4 == 3 && is_open)
}

#[test]
fn three_slots_are_twelve_calls(rt: HostRuntime) {
    let alloc = rt.alloc();
    let Some(mut engine) = in_memory(alloc, 200) else {
        return check(&rt, false, "an engine");
    };
    let made = engine.keeper.disk().clock();
    check(&rt, run_slots(alloc, 3, &mut engine), "three slots");
    let disk = disk_of_engine(engine);
    check(&rt, disk.clock() == made.saturating_add(12), "twelve calls");
    let fates = [
        Fate::Kept,
        Fate::Dropped,
        Fate::Filled(0xc3),
        Fate::Filled(0),
    ];
    for calls in 0..13 {
        for (number, fate) in fates.iter().enumerate() {
            let kept = survivors(alloc, &disk, made, calls, *fate);
            let holds = kept == Some(kept_by(calls, *fate));
            check_pair(&rt, holds, "calls, and fate", calls as usize, number);
        }
    }
}

/// How many slots are carried out, what the cells of the first job are then, and how many steps it has left.
static ROWS: [(u32, u8, u32); 4] = [(1, 0b11, 2), (1, 0b111, 1), (2, 0b1101, 0), (1, 0b1101, 0)];

/// How many rows hold, with the store opened again after each, up to the first that doesn't.
fn rows_that_hold(alloc: Global, engine: Driven<MemoryDisk>) -> usize {
    let mut engine = engine;
    for (number, row) in ROWS.iter().enumerate() {
        if !run_slots(alloc, row.0, &mut engine) {
            return number;
        }
        let Some(again) = opened(alloc, disk_of_engine(engine)) else {
            return number;
        };
        if !has_first_job(&again, row.1, row.2) {
            return number;
        }
        engine = again;
    }
    4
}

#[test]
fn the_file_holds_the_states_of_jobs(rt: HostRuntime) {
    let alloc = rt.alloc();
    let Some(mut engine) = in_memory(alloc, 200) else {
        return check(&rt, false, "an engine");
    };
    let rule = AnyJob::start("rule", 3, b"110:00000001").ok();
    check(&rt, submit(alloc, 0, rule, &mut engine), "a submit");
    let held = rows_that_hold(alloc, engine);
    check_at(&rt, held == 4, "rows that hold", held);
}

/// The engine over a store with the least segments of two workers.
fn over_least_segments(alloc: Global) -> Option<Driven<MemoryDisk>> {
    let disk = MemoryDisk::new(alloc, &[], SECOND + 4233, 1000, 60_000).ok()?;
    over(alloc, new_store(alloc, disk, 4233)?)
}

/// Whether the second segment is in use or the first, and its frames end at this gate.
fn is_at(engine: &Engine, segment: bool, gate: usize) -> bool {
    let places = engine.keeper.places();
    places.segment == segment && places.gate == gate
}

/// A job of a thousand steps.
fn count() -> Option<AnyJob> {
    AnyJob::start("count", 1000, b"").ok()
}

/// Where the second segment stands if segments have the least length.
const SECOND: usize = FIRST_SEGMENT + 4233;

// Two frames of 146 bytes, and each slot's of 278 or 150, as two of its tasks have a job or one.
#[test]
fn a_full_segment_is_left(rt: HostRuntime) {
    let alloc = rt.alloc();
    let Some(mut engine) = over_least_segments(alloc) else {
        return check(&rt, false, "an engine");
    };
    check(&rt, submit(alloc, 0, count(), &mut engine), "task 0");
    check(&rt, submit(alloc, 1, count(), &mut engine), "task 1");
    check(&rt, run_slots(alloc, 20, &mut engine), "20 slots");
    let is_full = is_at(&engine, false, FIRST_SEGMENT + 4197);
    check(&rt, is_full, "the first is full");
    check(&rt, run_slots(alloc, 1, &mut engine), "21 slots");
    check(&rt, engine.keeper.places().segment, "the second");
    check(&rt, run_slots(alloc, 21, &mut engine), "42 slots");
    let is_full = is_at(&engine, true, SECOND + 4205);
    check(&rt, is_full, "the second is full");
    check(&rt, run_slots(alloc, 1, &mut engine), "43 slots");
    check(&rt, !engine.keeper.places().segment, "the first again");
    check(&rt, run_slots(alloc, 17, &mut engine), "60 slots");
    let last = last_of(alloc, disk_of_engine(engine));
    check(&rt, last == Some(62), "opened again");
}

//! Stops after each call of the worked client.
use crate::batches::{append_both, append_slots};
use crate::check::{check, check_at};
use crate::engines::{disk_of_store, last_of, new_store};
use pfx_disk::{Disk, Fate, MemoryDisk};
use pfx_kinds::any::AnyJob;
use pfx_kit::places::END;
use pfx_store::{Mark, Store};
use std::alloc::Global;

/// The marks of batches of 2 and of 16 slots, if both are appended.
fn run_ten(alloc: Global, store: &mut Store<MemoryDisk, AnyJob>) -> Option<(Mark, Mark)> {
    append_both(alloc, store, 2, 16)
}

/// The number of the last mark by so many calls.
fn marked_by(calls: u64, marks: (Mark, Mark)) -> u64 {
    if calls >= marks.1.clock {
        marks.1.number
    } else if calls >= marks.0.clock {
        marks.0.number
    } else {
        0
    }
}

/// Whether a stop after so many calls leaves this number at least, if all that isn't synced meets this fate.
fn is_left(alloc: Global, disk: &MemoryDisk, calls: u64, fate: Fate, number: u64) -> bool {
    if disk.clock() < calls {
        return false;
    }
    match disk.stopped(alloc, calls as usize, &[fate, fate]) {
        Ok(left) => last_of(alloc, left) >= Some(number),
        Err(_) => false,
    }
}

/// The first call of the ten, by their clocks, after which a stop loses a mark.
fn first_loss(alloc: Global, fate: Fate) -> Option<u64> {
    let disk = MemoryDisk::new(alloc, &[], END, 200, 60_000).ok()?;
    let mut store = new_store(alloc, disk, 8192)?;
    let made = store.disk().clock();
    let marks = run_ten(alloc, &mut store)?;
    let disk = disk_of_store(store);
    for calls in made..=disk.clock() {
        if !is_left(alloc, &disk, calls, fate, marked_by(calls, marks)) {
            return Some(calls);
        }
    }
    Some(0)
}

static FATES: [Fate; 5] = [
    Fate::Kept,
    Fate::Dropped,
    Fate::Filled(0xc3),
    Fate::Filled(0),
    Fate::Filled(0x5a),
];

#[test]
fn ten_calls_keep_their_marks(rt: HostRuntime) {
    let alloc = rt.alloc();
    for (number, fate) in FATES.iter().enumerate() {
        check_at(&rt, first_loss(alloc, *fate) == Some(0), "fate", number);
    }
}

/// Where the store stands behind the ten calls, and the numbers of its marks.
fn stands_at_last(alloc: Global) -> Option<(u64, u64, bool)> {
    let disk = MemoryDisk::new(alloc, &[], END, 200, 60_000).ok()?;
    let mut store = new_store(alloc, disk, 8192)?;
    let marks = run_ten(alloc, &mut store)?;
    let places = store.places();
    let is_twice = places.area && !places.checkpoint.in_progress() && !places.segment;
    Some((marks.0.number, marks.1.number, is_twice))
}

#[test]
fn ten_calls_turn_twice(rt: HostRuntime) {
    let holds = stands_at_last(rt.alloc()) == Some((2, 18, false));
    check(&rt, holds, "marks and places");
}

/// Appends batches of 2, 16, 16 and 2 slots, with two turns and a whole checkpoint in their midst, and answers the clocks
/// of their marks.
fn run_batches(alloc: Global, store: &mut Store<MemoryDisk, AnyJob>) -> Option<[u64; 4]> {
    let two = append_slots(alloc, 2, store)?;
    let is_turned = store.turn() == Ok(true) && store.tend().is_ok();
    let sixteen = append_slots(alloc, 16, store)?;
    let is_tended = store.tend().is_ok() && store.tend().is_ok();
    let more = append_slots(alloc, 16, store)?;
    let is_again = store.turn() == Ok(true);
    let last = append_slots(alloc, 2, store)?;
    if is_turned && is_tended && is_again {
        Some([two.clock, sixteen.clock, more.clock, last.clock])
    } else {
        None
    }
}

/// How many slots the batches had that were marked by so many calls, and by so many and the next mark.
fn least_and_most(calls: u64, clocks: [u64; 4]) -> (u64, u64) {
    if calls < clocks[0] {
        (0, 2)
    } else if calls < clocks[1] {
        (2, 18)
    } else if calls < clocks[2] {
        (18, 34)
    } else if calls < clocks[3] {
        (34, 36)
    } else {
        (36, 36)
    }
}

/// The first call after which a stop leaves another number than that of the last mark or of the next one.
fn first_part(alloc: Global, fate: Fate) -> Option<u64> {
    let disk = MemoryDisk::new(alloc, &[], END, 200, 60_000).ok()?;
    let mut store = new_store(alloc, disk, 8192)?;
    let made = store.disk().clock();
    let clocks = run_batches(alloc, &mut store)?;
    let disk = disk_of_store(store);
    for calls in made..=disk.clock() {
        if calls > disk.clock() {
            return None;
        }
        let left = disk.stopped(alloc, calls as usize, &[fate, fate]).ok()?;
        let number = last_of(alloc, left)?;
        let (least, most) = least_and_most(calls, clocks);
        if number != least && number != most {
            return Some(calls);
        }
    }
    Some(0)
}

#[test]
fn stops_leave_whole_batches(rt: HostRuntime) {
    let alloc = rt.alloc();
    for (number, fate) in FATES.iter().enumerate() {
        check_at(&rt, first_part(alloc, *fate) == Some(0), "fate", number);
    }
}

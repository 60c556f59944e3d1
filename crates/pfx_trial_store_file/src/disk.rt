//! A run over each disk, stops after each of its calls with every fate of the writes, and faults at each call.

use crate::check::{check, check_pair};
use crate::held::{Failing, Kept, failing, has_failed_at, held, is_held, memory_under};
use pfx_disk::laws::{torn_writes_compose, write_beside, write_synced};
use pfx_disk::{DeviceFailed, Disk, Fate, FaultDisk, FileDisk, Latch, LatchDisk, MemoryDisk};
use std::alloc::{AllocError, Global};
use std::fs::{File, OpenOptions};
use std::path::PathBuf;
use std::sync::Wait;
use std::sync::atomic::{AtomicU64, Ordering};
use std::thread::Threads;
use std::{env, fs, process, thread};

/// What a run does: a write is after a call of `len`.
#[derive(Clone, Copy)]
enum Step {
    Sync,
    Write(usize, &'static [u8]),
}

/// What the disk holds at first.
const START: &[u8] = &[1, 2, 3, 4];

/// The run: writes inside, over the end, behind an unsynced end, and across others.
static RUN: [Step; 8] = [
    Step::Write(2, &[9, 9, 9]),
    Step::Write(0, &[7]),
    Step::Sync,
    Step::Write(5, &[5, 6]),
    Step::Write(7, &[8, 8]),
    Step::Write(4, &[0, 0, 0]),
    Step::Sync,
    Step::Write(1, &[3]),
];

/// What was made, call by call.
#[derive(Clone, Copy)]
enum Made {
    Looked,
    Synced,
    Wrote(usize, &'static [u8]),
}

static MADE: [Made; 14] = [
    Made::Looked,
    Made::Wrote(2, &[9, 9, 9]),
    Made::Looked,
    Made::Wrote(0, &[7]),
    Made::Synced,
    Made::Looked,
    Made::Wrote(5, &[5, 6]),
    Made::Looked,
    Made::Wrote(7, &[8, 8]),
    Made::Looked,
    Made::Wrote(4, &[0, 0, 0]),
    Made::Synced,
    Made::Looked,
    Made::Wrote(1, &[3]),
];

/// The first of these, so many.
fn made_before(after: usize) -> Option<&'static [Made]> {
    MADE.get(..after)
}

/// Writes after a call of `len`; past the end it writes nothing.
fn write<D: Disk>(disk: &mut D, at: usize, bytes: &[u8]) -> Result<(), DeviceFailed> {
    if disk.len()? < at {
        return Err(DeviceFailed);
    }
    disk.write_at(at, bytes)
}

fn run<D: Disk>(disk: &mut D) -> Result<(), DeviceFailed> {
    for step in &RUN {
        match *step {
            Step::Sync => disk.sync()?,
            Step::Write(at, bytes) => write(disk, at, bytes)?,
        }
    }
    Ok(())
}

/// The plain program: bytes are laid one by one, with zeros before them if the image is too short.
fn lay(image: &mut Vec<u8>, at: usize, bytes: &[u8]) -> Result<(), AllocError> {
    let mut place = at;
    for byte in bytes {
        let long = place.saturating_add(1);
        if image.len() < long {
            image.resize(long, 0)?;
        }
        if let Some(there) = image.get_mut(place) {
            *there = *byte;
        }
        place = long;
    }
    Ok(())
}

/// Lays a write as its fate has it.
fn lay_by(image: &mut Vec<u8>, at: usize, bytes: &[u8], fate: Fate) -> Result<(), AllocError> {
    match fate {
        Fate::Kept => lay(image, at, bytes),
        Fate::Dropped => Ok(()),
        Fate::Filled(byte) => {
            for i in 0..bytes.len() {
                lay(image, at.saturating_add(i), &[byte])?;
            }
            Ok(())
        }
    }
}

/// What a stop leaves by the fates.
fn expected(alloc: Global, made: &[Made], fates: &[Fate]) -> Result<Vec<u8>, AllocError> {
    let mut contents = START.to_vec(alloc)?;
    let mut image = START.to_vec(alloc)?;
    let mut left = fates;
    for call in made {
        match *call {
            Made::Looked => {}
            Made::Synced => {
                image = contents.as_slice().to_vec(alloc)?;
                left = fates;
            }
            Made::Wrote(at, bytes) => {
                lay(&mut contents, at, bytes)?;
                let fate = left.first().copied().unwrap_or(Fate::Kept);
                left = left.get(1..).unwrap_or(&[]);
                lay_by(&mut image, at, bytes, fate)?;
            }
        }
    }
    Ok(image)
}

/// Marks the places of a write.
fn open_places(open: &mut [bool], at: usize, len: usize) {
    let end = at.saturating_add(len);
    for (i, range) in open.iter_mut().enumerate() {
        if at <= i && i < end {
            *range = true;
        }
    }
}

/// Whether two images are the same if nothing is open.
fn are_same_outside(synced: &[u8], image: &[u8], open: &[bool]) -> bool {
    let mut same = true;
    for (i, byte) in synced.iter().enumerate() {
        if !open.get(i).copied().unwrap_or(false) && image.get(i) != Some(byte) {
            same = false;
        }
    }
    same
}

/// The disk's rule, without fates: outside of what was written since the last sync, and below the old end, nothing has
/// changed, and the length lies between the old and the new one.
fn may_be_left(alloc: Global, made: &[Made], image: &[u8]) -> Result<bool, AllocError> {
    let mut contents = START.to_vec(alloc)?;
    let mut synced = START.to_vec(alloc)?;
    let mut open: Vec<bool> = Vec::new(alloc);
    for call in made {
        match *call {
            Made::Looked => {}
            Made::Synced => {
                synced = contents.as_slice().to_vec(alloc)?;
                open.clear();
            }
            Made::Wrote(at, bytes) => {
                lay(&mut contents, at, bytes)?;
                open.resize(contents.len(), false)?;
                open_places(&mut open, at, bytes.len());
            }
        }
    }
    let is_long = synced.len() <= image.len() && image.len() <= contents.len();
    Ok(is_long && are_same_outside(&synced, image, &open))
}

/// The n-th way to choose three fates.
fn fates_of(n: usize) -> [Fate; 3] {
    let kinds = [Fate::Kept, Fate::Dropped, Fate::Filled(0xEE)];
    [kinds[n % 3], kinds[n / 3 % 3], kinds[n / 9 % 3]]
}

/// Whether the bytes are what a stop leaves by the fates.
fn are_expected(alloc: Global, made: &[Made], fates: &[Fate], bytes: &[u8]) -> Option<bool> {
    let expected = expected(alloc, made, fates).ok()?;
    Some(expected.as_slice() == bytes)
}

/// What a stop after so many calls leaves.
fn left_by(alloc: Global, disk: &MemoryDisk, after: usize, fates: &[Fate]) -> Option<Kept> {
    if disk.clock() < after as u64 {
        return None;
    }
    Box::new(alloc, disk.stopped(alloc, after, fates).ok()?).ok()
}

/// Whether a stop of the run leaves what is expected and what the rule allows, and a later stop leaves the same until
/// something is written.
fn is_left(alloc: Global, disk: &MemoryDisk, after: usize, fates: &[Fate; 3]) -> Option<bool> {
    let made = made_before(after)?;
    let mut left = left_by(alloc, disk, after, fates)?;
    let image = held(alloc, &mut *left)?;
    let is_expected = are_expected(alloc, made, fates, &image)?;
    let is_lawful = may_be_left(alloc, made, &image).ok()?;
    let mut again = left_by(alloc, &left, 0, fates)?;
    Some(is_expected && is_lawful && is_held(alloc, &mut *again, &image))
}

/// A disk with room for the run and little more.
fn short_memory(alloc: Global) -> Option<Kept> {
    let disk = MemoryDisk::new(alloc, START, 16, 20, 20).ok()?;
    Box::new(alloc, disk).ok()
}

#[test]
fn stops_behind_every_call_with_every_fate(rt: HostRuntime) {
    let alloc = rt.alloc();
    let Some(mut disk) = short_memory(alloc) else {
        return check(&rt, false, "a disk");
    };
    check(&rt, run(&mut *disk).is_ok(), "the run");
    check(&rt, disk.clock() == 14, "the run's calls");
    for after in 0..15 {
        for n in 0..27 {
            let holds = is_left(alloc, &disk, after, &fates_of(n)) == Some(true);
            check_pair(&rt, holds, "calls before the stop, and fates", after, n);
        }
    }
}

/// What the disk holds after the run.
const HELD: &[u8] = &[7, 3, 9, 9, 0, 0, 0, 8, 8];

/// Whether the disk holds what the run writes, and has counted its calls and no failure.
fn is_run<D: Disk>(alloc: Global, disk: &mut D) -> bool {
    run(disk).is_ok() && is_held(alloc, disk, HELD) && disk.clock() == 16 && disk.failures() == 0
}

fn memory(alloc: Global) -> Option<Kept> {
    let disk = MemoryDisk::new(alloc, START, 16, 64, 64).ok()?;
    Box::new(alloc, disk).ok()
}

fn memory_is_run(alloc: Global) -> Option<bool> {
    let mut disk = memory(alloc)?;
    Some(is_run(alloc, &mut *disk))
}

fn fault_disk_is_run(alloc: Global) -> Option<bool> {
    let mut disk = failing(alloc, memory(alloc)?, 100, false)?;
    Some(is_run(alloc, &mut *disk))
}

/// Whether a released disk is run, and the memory within it holds the same.
fn gate_disk_is_run<R: Wait + Drop>(rt: R, alloc: Global) -> Option<bool> {
    let memory = Box::into_inner(memory(alloc)?);
    let (mut disk, gate) = LatchDisk::new(rt, alloc, memory, 3).ok()?;
    gate.release();
    let is_run = is_run(alloc, &mut disk);
    let mut memory = disk.into_inner();
    Some(is_run && is_held(alloc, &mut memory, HELD))
}

#[test]
fn each_disk_holds_what_was_written(rt: HostRuntime) {
    let alloc = rt.alloc();
    check(&rt, memory_is_run(alloc) == Some(true), "memory");
    check(&rt, fault_disk_is_run(alloc) == Some(true), "faults");
    check(&rt, gate_disk_is_run(&rt, alloc) == Some(true), "gate");
}

/// Whether the file's disk is run and fails past its end, if there is nothing to read, which is counted.
fn file_is_run(alloc: Global, file: File) -> bool {
    let mut disk = FileDisk::new(file);
    let is_run = is_run(alloc, &mut disk);
    let mut past = [0; 4];
    let is_refused = disk.read(8, &mut past) == Err(DeviceFailed);
    is_run && is_refused && disk.clock() == 17 && disk.failures() == 1
}

/// Whether the file at this path, made and removed here, is run and holds what was written.
fn path_is_run(rt: &HostRuntime, alloc: Global, path: &PathBuf) -> Option<bool> {
    fs::write(rt, path, START).ok()?;
    let file = OpenOptions::new()
        .read(true)
        .write(true)
        .open(rt, path)
        .ok()?;
    let is_run = file_is_run(alloc, file);
    let bytes = fs::read(rt, path).ok()?;
    fs::remove_file(rt, path).ok()?;
    Some(is_run && bytes.as_slice() == HELD)
}

fn temporary_file_is_run(rt: &HostRuntime, alloc: Global) -> Option<bool> {
    let name = format!(in alloc; "pfx_disk_{}", process::id(rt.process())).ok()?;
    let path = env::temp_dir(rt).ok()?.join(alloc, name.as_str()).ok()?;
    path_is_run(rt, alloc, &path)
}

#[test]
fn a_file_holds_what_was_written(rt: HostRuntime) {
    let holds = temporary_file_is_run(&rt, rt.alloc()) == Some(true);
    check(&rt, holds, "a file in the folder of temporary ones");
}

/// The device at this path as a disk.
fn device(rt: &HostRuntime, path: &str) -> Option<FileDisk> {
    let file = OpenOptions::new()
        .read(true)
        .write(true)
        .open(rt, path)
        .ok()?;
    Some(FileDisk::new(file))
}

/// Whether a device that takes all bytes and keeps none refuses the sync and the reading, and each is counted.
fn is_null_refused(disk: &mut FileDisk) -> bool {
    let mut back = [0; 1];
    disk.write_at(0, &[7]) == Ok(())
        && disk.sync() == Err(DeviceFailed)
        && disk.read(0, &mut back) == Err(DeviceFailed)
        && disk.len() == Ok(0)
        && disk.clock() == 4
        && disk.failures() == 2
}

/// Whether a device that is always full refuses the write and the sync, and gives zeros.
fn is_full_refused(disk: &mut FileDisk) -> bool {
    let mut back = [9; 3];
    disk.write_at(0, &[7]) == Err(DeviceFailed)
        && disk.failures() == 1
        && disk.read(1, &mut back) == Ok(())
        && back == [0; 3]
        && disk.sync() == Err(DeviceFailed)
        && disk.clock() == 3
        && disk.failures() == 2
}

/// What the system refuses isn't taken for done: a sync that did nothing, or a write that wasn't looked at, would be.
#[test]
fn what_the_system_refuses_is_told(rt: HostRuntime) {
    let null = device(&rt, "/dev/null");
    check(&rt, null.is_some(), "the null device");
    if let Some(mut disk) = null {
        check(&rt, is_null_refused(&mut disk), "what keeps nothing");
    }
    let full = device(&rt, "/dev/full");
    check(&rt, full.is_some(), "the full device");
    if let Some(mut disk) = full {
        check(&rt, is_full_refused(&mut disk), "what is always full");
    }
}

/// Whether the run ends at the call that fails, which is counted once.
fn is_counted_once(disk: &mut FaultDisk<MemoryDisk>, k: usize) -> bool {
    run(disk) == Err(DeviceFailed)
        && has_failed_at(disk, k as u64)
        && disk.sync() == Ok(())
        && disk.failures() == 1
}

/// Whether a fault at this call is counted once, and what was done by then is on the disk.
fn is_faulty_once(alloc: Global, k: usize, works: bool) -> Option<bool> {
    let mut disk = failing(alloc, memory(alloc)?, k as u64, works)?;
    let is_counted = is_counted_once(&mut disk, k);
    let mut memory = memory_under(alloc, disk)?;
    let done = made_before(if works { k.saturating_add(1) } else { k })?;
    let bytes = held(alloc, &mut *memory)?;
    Some(is_counted && are_expected(alloc, done, &[], &bytes)?)
}

#[test]
fn a_fault_is_counted_once(rt: HostRuntime) {
    let alloc = rt.alloc();
    for k in 0..14 {
        for works in [false, true] {
            let holds = is_faulty_once(alloc, k, works) == Some(true);
            check_pair(&rt, holds, "call, and its work", k, usize::from(works));
        }
    }
}

/// Whether a write is synced and read back, and another one stands beside it.
fn are_synced_and_beside(alloc: Global) -> Option<bool> {
    let mut disk = short_memory(alloc)?;
    let mut back = [0; 2];
    let is_synced = write_synced(&mut *disk, 0, &[8, 9], &mut back) == Ok(());
    let is_beside = write_beside(&mut *disk, 3, 0, &[5]) == Ok(());
    let is_held = is_held(alloc, &mut *disk, &[5, 9, 3, 4]);
    Some(is_synced && is_beside && back == [8, 9] && is_held)
}

#[test]
fn writes_synced_and_beside(rt: HostRuntime) {
    torn_writes_compose();
    let holds = are_synced_and_beside(rt.alloc()) == Some(true);
    check(&rt, holds, "two writes");
}

/// What two threads tell each other: that a call is asked for, and that it is released.
#[derive(Drop)]
struct Told {
    asked: AtomicU64,
    released: AtomicU64,
}

/// Whether the second call of the disk came back after its release.
fn came_behind<D: Disk>(disk: &mut D, told: &Told) -> bool {
    let first = disk.sync();
    told.asked.store(1, Ordering::SeqCst);
    let second = disk.sync();
    first.is_ok() && second.is_ok() && told.released.load(Ordering::SeqCst) == 1
}

fn release_later(gate: &Latch, told: &Told) {
    for _ in 0..1_000_000 {
        if told.asked.load(Ordering::SeqCst) == 1 {
            break;
        }
        thread::yield_now();
    }
    // A call that isn't held would come back in these turns.
    for _ in 0..1_000 {
        thread::yield_now();
    }
    told.released.store(1, Ordering::SeqCst);
    gate.release();
}

fn is_call_held<R: Wait + Threads + Sync + Drop>(rt: &R, alloc: Global) -> Option<bool> {
    let memory = Box::into_inner(memory(alloc)?);
    let (mut disk, gate) = LatchDisk::new(rt, alloc, memory, 1).ok()?;
    let told = Told {
        asked: AtomicU64::new(0),
        released: AtomicU64::new(0),
    };
    let (held, _) = thread::join(
        rt,
        || came_behind(&mut disk, &told),
        || release_later(&gate, &told),
    );
    Some(held)
}

#[test]
fn a_gate_holds_its_call(rt: HostRuntime) {
    let holds = is_call_held(&rt, rt.alloc()) == Some(true);
    check(&rt, holds, "the second call comes back behind its release");
}

/// Whether the disk can be put behind a gate and synced, if memory suffices.
fn is_gated<R: Wait + Drop>(rt: R, alloc: Global, disk: MemoryDisk) -> bool {
    match LatchDisk::new(rt, alloc, disk, 9) {
        Ok((mut gated, _gate)) => gated.sync() == Ok(()),
        Err(_) => true,
    }
}

// Run with each allocation failing in turn: each refusal is an answer, and leaves the disk as it was.
#[test]
fn refused_memory_is_an_answer(rt: HostRuntime) {
    let alloc = rt.alloc();
    let Some(mut disk) = short_memory(alloc) else {
        return;
    };
    check(&rt, run(&mut *disk).is_ok(), "the run");
    assert!(rt; 4 <= disk.clock());
    let Some(mut left) = left_by(alloc, &disk, 4, &[Fate::Filled(5)]) else {
        let is_same = disk.clock() == 14 && disk.failures() == 0;
        return check(&rt, is_same, "a stop refused");
    };
    check(&rt, left.len() == Ok(5), "a stop");
    let left = Box::into_inner(left);
    check(&rt, is_gated(&rt, alloc, left), "a gate");
}

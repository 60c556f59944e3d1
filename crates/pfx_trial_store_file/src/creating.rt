//! A new store of two workers and three tasks of weight 2/3, with segments of 8,192 bytes, as its file is written down byte
//! by byte: a header of 41 bytes, checkpoint areas of 428, and 17,281 bytes in all.

use crate::check::{check, check_pair};
use crate::held::{Kept, failing, held, is_held, memory_under};
use pfx_disk::{Disk, Fate, GATE_OPEN, MemoryDisk};
use pfx_store_create::laws::a_new_file_can_be_made;
use pfx_store_create::{CreateFault, create, create_file, new_places};
use pfx_store_file::{Checkpoint, PIECE, Places, Sizes, StoreFile};
use std::alloc::Global;

/// The gate, the letters PFXSTORE, version 1, two workers, three tasks, the segment's length, and the tasks.
static HEAD: [u8; 41] = [
    0xC3, 0x50, 0x46, 0x58, 0x53, 0x54, 0x4F, 0x52, 0x45, 1, 2, 3, 0, 0, 0x20, 0, 0, 2, 0, 0, 0, 3,
    0, 0, 0, 2, 0, 0, 0, 3, 0, 0, 0, 2, 0, 0, 0, 3, 0, 0, 0,
];

/// Number 0 at slot 0, and no allocations and no job of any task.
static BODY: [u8; 427] = [0; 427];

/// The number 1, the lowest byte first.
static FIRST: [u8; 8] = [1, 0, 0, 0, 0, 0, 0, 0];

const SEGMENT: usize = 8192;

const LEN: usize = 17_281;

/// The length is asked for; a byte and a sync; five pieces and a sync; a byte and a sync.
const CALLS: u64 = 11;

fn empty_disk(alloc: Global) -> Option<Kept> {
    let disk = MemoryDisk::new(alloc, &[], LEN, 40, 20_000).ok()?;
    Box::new(alloc, disk).ok()
}

fn create_here<D: Disk>(disk: &mut D) -> Result<(), CreateFault> {
    create::<D, u8, Vec<u8>>(disk, &HEAD, &BODY, &FIRST, SEGMENT)
}

fn file_here<D: Disk>(disk: D) -> Result<StoreFile<D>, (CreateFault, D)> {
    create_file::<D, u8, Vec<u8>>(disk, &HEAD, &BODY, &FIRST, SEGMENT)
}

/// The byte at a place of the new file whose first segment begins with this number.
fn byte_of_new_file(first: &[u8; 8], i: usize) -> u8 {
    match i {
        0..41 => HEAD[i],
        41 | 897 => 0xC3,
        898..906 => first[i - 898],
        _ => 0,
    }
}

/// Whether these are the bytes of the new file whose first segment begins with this number.
fn begins_with(bytes: &[u8], first: &[u8; 8]) -> bool {
    let mut same = bytes.len() == LEN;
    for (i, byte) in bytes.iter().enumerate() {
        if *byte != byte_of_new_file(first, i) {
            same = false;
        }
    }
    same
}

/// Whether these are the bytes of the new file.
fn is_whole(bytes: &[u8]) -> bool {
    begins_with(bytes, &FIRST)
}

/// Whether these bytes are no store's file yet.
fn is_unmade(bytes: &[u8]) -> bool {
    bytes.len() <= 1 || bytes.first() != Some(&GATE_OPEN)
}

/// Whether the disk holds the whole file or none, as wanted.
fn holds_file<D: Disk>(alloc: Global, disk: &mut D, wanted: bool) -> bool {
    match held(alloc, disk) {
        Some(bytes) => is_whole(&bytes) == wanted && (wanted || is_unmade(&bytes)),
        None => false,
    }
}

/// The disk on which the file was made.
fn made(alloc: Global) -> Option<Kept> {
    let mut disk = empty_disk(alloc)?;
    create_here(&mut *disk).ok()?;
    Some(disk)
}

#[test]
fn a_new_file_takes_ten_writes_and_syncs(rt: HostRuntime) {
    let alloc = rt.alloc();
    let Some(mut disk) = made(alloc) else {
        return check(&rt, false, "made");
    };
    check(&rt, disk.clock() == CALLS, "calls");
    check(&rt, disk.failures() == 0, "failures");
    check(&rt, (LEN - 1).div_ceil(PIECE) == 5, "pieces");
    check(&rt, holds_file(alloc, &mut *disk, true), "the bytes");
    a_new_file_can_be_made();
}

/// Whether a new file can be made whose first segment begins with this number.
fn begins(alloc: Global, first: &[u8; 8]) -> bool {
    let Some(mut disk) = empty_disk(alloc) else {
        return false;
    };
    if create::<MemoryDisk, u8, Vec<u8>>(&mut disk, &HEAD, &BODY, first, SEGMENT).is_err() {
        return false;
    }
    match held(alloc, &mut *disk) {
        Some(bytes) => begins_with(&bytes, first),
        None => false,
    }
}

#[test]
fn the_first_segment_begins_with_the_given_number(rt: HostRuntime) {
    check(&rt, begins(rt.alloc(), &[2, 3, 4, 5, 6, 7, 8, 9]), "begins");
}

fn byte_is_left_alone(alloc: Global, disk: &mut MemoryDisk) -> bool {
    create_here(disk) == Err(CreateFault::NotEmpty)
        && disk.clock() == 1
        && disk.failures() == 0
        && is_held(alloc, disk, &[7])
}

/// Whether the disk is handed back with its byte, which takes one call.
fn disk_is_given_back(alloc: Global, disk: MemoryDisk) -> bool {
    match file_here(disk) {
        Err((CreateFault::NotEmpty, mut disk)) => {
            disk.clock() == 4 && is_held(alloc, &mut disk, &[7])
        }
        _ => false,
    }
}

fn disk_of_a_byte(alloc: Global) -> Option<Kept> {
    let disk = MemoryDisk::new(alloc, &[7], LEN, 40, 20_000).ok()?;
    Box::new(alloc, disk).ok()
}

#[test]
fn a_disk_that_holds_a_byte_is_left_alone(rt: HostRuntime) {
    let alloc = rt.alloc();
    let Some(mut disk) = disk_of_a_byte(alloc) else {
        return check(&rt, false, "a disk");
    };
    check(&rt, byte_is_left_alone(alloc, &mut disk), "left alone");
    let disk = Box::into_inner(disk);
    check(&rt, disk_is_given_back(alloc, disk), "given back");
}

/// Whether a failing call ends the making, with no store left unless its gate was written; call 11 isn't made.
fn is_ended(alloc: Global, k: u64, works: bool) -> Option<bool> {
    let mut disk = failing(alloc, empty_disk(alloc)?, k, works)?;
    let answer = create_here(&mut *disk);
    let mut memory = memory_under(alloc, disk)?;
    if k == CALLS {
        return Some(answer == Ok(()) && holds_file(alloc, &mut *memory, true));
    }
    // The write of the gate, and the sync after it.
    let is_opened = k == 10 || k == 9 && works;
    let is_left = holds_file(alloc, &mut *memory, is_opened);
    let is_counted = memory.clock() == k.saturating_add(3);
    Some(answer == Err(CreateFault::Device) && is_left && is_counted)
}

// Each call fails in turn, with its work done or not, until a run meets no failure.
#[test]
fn a_failing_call_ends_it(rt: HostRuntime) {
    let alloc = rt.alloc();
    for works in [false, true] {
        for k in 0..=CALLS {
            let holds = is_ended(alloc, k, works) == Some(true);
            check_pair(
                &rt,
                holds,
                "call, and its work",
                k as usize,
                usize::from(works),
            );
        }
    }
}

/// What becomes of the writes after the last sync: all alike, or the first otherwise than those after it.
static FATES: [[Fate; 5]; 5] = [
    [Fate::Kept; 5],
    [Fate::Dropped; 5],
    [Fate::Filled(GATE_OPEN); 5],
    [
        Fate::Filled(GATE_OPEN),
        Fate::Kept,
        Fate::Dropped,
        Fate::Kept,
        Fate::Filled(7),
    ],
    [
        Fate::Dropped,
        Fate::Kept,
        Fate::Filled(GATE_OPEN),
        Fate::Dropped,
        Fate::Kept,
    ],
];

/// Whether a stop leaves the whole file or no store.
fn is_left(alloc: Global, disk: &MemoryDisk, after: usize, fates: &[Fate; 5]) -> Option<bool> {
    if disk.clock() < after as u64 {
        return None;
    }
    let mut left = disk.stopped(alloc, after, fates).ok()?;
    // The gate is written by the tenth call, and synced by the last.
    let is_opened = after == 11 || after == 10 && fates[0] != Fate::Dropped;
    Some(holds_file(alloc, &mut left, is_opened))
}

#[test]
fn a_stop_leaves_no_store_or_the_whole_file(rt: HostRuntime) {
    let alloc = rt.alloc();
    let Some(disk) = made(alloc) else {
        return check(&rt, false, "made");
    };
    check(&rt, disk.clock() == CALLS, "calls");
    for after in 0..12 {
        for (number, fates) in FATES.iter().enumerate() {
            let holds = is_left(alloc, &disk, after, fates) == Some(true);
            check_pair(
                &rt,
                holds,
                "calls before the stop, and fates",
                after,
                number,
            );
        }
    }
}

/// What stands behind the gate of the first frame, of one row of two tasks without jobs, and the next closed gate.
static FRAME: [u8; 22] = [
    7, 0, 0, 0, 1, 0, 0, 0, 0, 0, 0, 0, 1, 0, 2, 0, 0, 0, 1, 0, 0, 0,
];

fn have_lengths(places: &Places) -> bool {
    places.sizes.head == 41
        && places.sizes.body == 427
        && places.sizes.segment == 8192
        && places.gate == 906
        && places.end == 9089
        && places.sizes.file_len() == LEN
}

fn are_at_the_start(places: &Places) -> bool {
    !places.area
        && !places.segment
        && places.checkpoint == Checkpoint::Ended
        && !places.area_open
        && !places.segment_open
}

/// A file behind a pointer.
type Filed = Box<StoreFile<MemoryDisk>>;

/// A new file.
fn new_file(alloc: Global) -> Option<Filed> {
    let disk = Box::into_inner(empty_disk(alloc)?);
    Box::new(alloc, file_here(disk).ok()?).ok()
}

/// Whether the file takes the frame by four calls, and holds it.
fn takes_frame(alloc: Global, mut file: Filed) -> Option<bool> {
    file.append::<u8, Vec<u8>>(&FRAME).ok()?;
    let is_counted = file.disk.clock() == CALLS + 4;
    let mut disk = Box::into_inner(file).into_disk();
    let bytes = held(alloc, &mut disk)?;
    let is_open = bytes.get(906) == Some(&GATE_OPEN);
    Some(is_counted && is_open && bytes.get(907..929) == Some(FRAME.as_slice()))
}

#[test]
fn a_new_file_takes_a_frame(rt: HostRuntime) {
    let alloc = rt.alloc();
    let Some(file) = new_file(alloc) else {
        return check(&rt, false, "a file");
    };
    check(&rt, have_lengths(&file.places), "lengths");
    check(&rt, are_at_the_start(&file.places), "the start");
    check(&rt, !file.broken, "broken");
    let sizes = Sizes {
        head: 41,
        body: 427,
        segment: 8192,
    };
    check(&rt, new_places(sizes).gate == 906, "the gate");
    check(&rt, takes_frame(alloc, file) == Some(true), "the frame");
}

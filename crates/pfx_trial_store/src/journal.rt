//! A store of three tasks of weight 2/3 on two workers, with segments of 8,192 bytes, as its file is written down.

use crate::check::{check, check_at};
use crate::engines::{Held, disk_of_store, opened_store};
use crate::held::held;
use crate::turns::append_slot;
use pfx_disk::{Disk, Fate, FaultDisk, MemoryDisk};
use pfx_fault::Part;
use pfx_kinds::any::AnyJob;
use pfx_kit::places::{
    AREA, END, FIRST_FRAME, FIRST_SEGMENT, HEADER, SECOND_AREA, SET, TASK, TASKS,
};
use pfx_store::{InitFault, Store};
use pfx_store_file::Tended;
use pfx_store_recover::{OpenFault, Refusal};
use pfx_weights::TaskSet;
use std::alloc::Global;

/// The header, and where it ends the first checkpoint area's gate.
static HEAD: [u8; 42] = [
    0xc3, 0x50, 0x46, 0x58, 0x53, 0x54, 0x4f, 0x52, 0x45, 2, 2, 3, 0, 0, 0x20, 0, 0, 2, 0, 0, 0, 3,
    0, 0, 0, 2, 0, 0, 0, 3, 0, 0, 0, 2, 0, 0, 0, 3, 0, 0, 0, 0xc3,
];

/// The set as it stands in a checkpoint area: two workers, and three weights 2/3.
static THIRDS: [u8; 25] = [
    2, 2, 0, 0, 0, 3, 0, 0, 0, 2, 0, 0, 0, 3, 0, 0, 0, 2, 0, 0, 0, 3, 0, 0, 0,
];

/// The frame of one slot without jobs.
static FRAME: [u8; 22] = [
    0xc3, 7, 0, 0, 0, 1, 0, 0, 0, 0, 0, 0, 0, 1, 0, 2, 0, 0, 0, 1, 0, 0,
];

/// The store that is made on a disk, or why none is.
fn made<D: Disk + Drop>(alloc: Global, disk: D, segment: u32) -> Result<Held<D>, InitFault> {
    let Ok(set) = TaskSet::new(alloc, 2, &[(2, 3), (2, 3), (2, 3)]) else {
        return Err(InitFault::NoMemory);
    };
    match Store::init(alloc, disk, &set, segment) {
        Ok(store) => Box::new(alloc, store).ok().ok_or(InitFault::NoMemory),
        Err((fault, _disk)) => Err(fault),
    }
}

/// The bytes of a new store's file.
pub fn new_file(alloc: Global) -> Option<Vec<u8>> {
    let disk = MemoryDisk::new(alloc, &[], END, 40, 20_000).ok()?;
    let store = made(alloc, disk, 8192).ok()?;
    held(alloc, &mut disk_of_store(store))
}

/// The bytes of a new store's file, with its first frame.
pub fn file_of_one_slot(alloc: Global) -> Option<Vec<u8>> {
    let mut bytes = new_file(alloc)?;
    if bytes.len() != END {
        return None;
    }
    bytes[FIRST_FRAME..FIRST_FRAME + 22].copy_from_slice(&FRAME);
    Some(bytes)
}

/// The store that is opened on these bytes.
pub fn opened(alloc: Global, bytes: &[u8]) -> Option<Held<MemoryDisk>> {
    let disk = MemoryDisk::new(alloc, bytes, bytes.len(), 200, 1000).ok()?;
    opened_store(alloc, disk)
}

/// Where the first segment's number stands.
const FIRST_NUMBER: usize = FIRST_SEGMENT + 1;

/// Where the first checkpoint area's set stands.
const FIRST_SET: usize = HEADER + SET;

/// The byte of the new file at a place.
fn byte_of_new_file(i: usize) -> u8 {
    match i {
        0..42 => HEAD[i],
        FIRST_SET..91 => THIRDS[i - FIRST_SET],
        FIRST_SEGMENT => 0xc3,
        FIRST_NUMBER => 1,
        _ => 0,
    }
}

/// Whether these are the bytes of the new file.
fn is_whole(bytes: &[u8]) -> bool {
    let mut same = bytes.len() == END;
    for (i, byte) in bytes.iter().enumerate() {
        if *byte != byte_of_new_file(i) {
            same = false;
        }
    }
    same
}

fn is_new(store: &Store<MemoryDisk, AnyJob>) -> bool {
    store.state().number() == 0 && store.state().columns().slot() == 0 && !store.is_broken()
}

#[test]
fn a_new_store_is_its_bytes(rt: HostRuntime) {
    let alloc = rt.alloc();
    let bytes = new_file(alloc).unwrap_or(Vec::new(alloc));
    check(&rt, is_whole(&bytes), "bytes");
    let Some(store) = opened(alloc, &bytes) else {
        return check(&rt, false, "opened");
    };
    check(&rt, is_new(&store), "state");
}

/// Whether the state is that after a slot of tasks 0 and 1.
fn is_behind_one_slot(store: &Store<MemoryDisk, AnyJob>) -> bool {
    let ledger = store.state().columns();
    store.state().number() == 1
        && ledger.slot() == 1
        && ledger.total() == 3
        && (ledger.alloc(0), ledger.alloc(1), ledger.alloc(2)) == (1, 1, 0)
        && (ledger.lag(0), ledger.lag(2)) == (-1, 2)
}

#[test]
fn a_frame_is_taken_over(rt: HostRuntime) {
    let alloc = rt.alloc();
    let bytes = file_of_one_slot(alloc).unwrap_or(Vec::new(alloc));
    let Some(store) = opened(alloc, &bytes) else {
        return check(&rt, false, "opened");
    };
    check(&rt, is_behind_one_slot(&store), "state");
}

/// Whether the file is refused so.
pub fn is_refused(alloc: Global, bytes: &[u8], wanted: Refusal) -> bool {
    let Ok(disk) = MemoryDisk::new(alloc, bytes, bytes.len(), 200, 1000) else {
        return false;
    };
    match Store::<MemoryDisk, AnyJob>::open(alloc, disk) {
        Err((OpenFault::Refused(refusal), _)) => refusal == wanted,
        _ => false,
    }
}

/// Whether the file, with these bytes at these places, is refused so.
pub fn is_refused_with(
    alloc: Global,
    bytes: &[u8],
    changes: &[(usize, u8)],
    wanted: Refusal,
) -> Option<bool> {
    let mut other = bytes.to_vec(alloc).ok()?;
    for (at, byte) in changes {
        *other.get_mut(*at)? = *byte;
    }
    Some(is_refused(alloc, &other, wanted))
}

pub fn damaged(at: usize, what: Part) -> Refusal {
    Refusal::Damaged { at, what }
}

/// Whether the front of a new file of this length is refused so.
fn is_front_refused(alloc: Global, len: usize, wanted: Refusal) -> bool {
    let bytes = new_file(alloc).unwrap_or(Vec::new(alloc));
    match bytes.get(..len) {
        Some(front) => is_refused(alloc, front, wanted),
        None => false,
    }
}

/// Whether a new file with this byte at this place is refused so.
fn is_new_refused(alloc: Global, at: usize, byte: u8, wanted: Refusal) -> bool {
    let bytes = new_file(alloc).unwrap_or(Vec::new(alloc));
    is_refused_with(alloc, &bytes, &[(at, byte)], wanted) == Some(true)
}

/// Whether a file with a frame, with these bytes at these places, is damaged so in the frame.
fn is_frame_refused(alloc: Global, changes: &[(usize, u8)], what: Part) -> bool {
    let bytes = file_of_one_slot(alloc).unwrap_or(Vec::new(alloc));
    is_refused_with(alloc, &bytes, changes, damaged(FIRST_FRAME, what)) == Some(true)
}

#[test]
fn a_file_that_ends_in_its_header_is_not_a_store(rt: HostRuntime) {
    let alloc = rt.alloc();
    let holds = is_front_refused(alloc, 0, Refusal::NotAStore);
    check(&rt, holds, "an empty file");
    let holds = is_front_refused(alloc, 30, Refusal::NotAStore);
    check(&rt, holds, "30 bytes");
}

#[test]
fn a_byte_too_few_is_a_damaged_length(rt: HostRuntime) {
    let short = damaged(END - 1, Part::Length);
    check(&rt, is_front_refused(rt.alloc(), END - 1, short), "short");
}

#[test]
fn another_version_is_a_wrong_version(rt: HostRuntime) {
    let other = Refusal::WrongVersion { version: 9 };
    check(&rt, is_new_refused(rt.alloc(), 9, 9, other), "version 9");
    let old = Refusal::WrongVersion { version: 1 };
    check(&rt, is_new_refused(rt.alloc(), 9, 1, old), "version 1");
}

#[test]
fn no_workers_are_a_damaged_header(rt: HostRuntime) {
    let header = damaged(0, Part::Header);
    check(&rt, is_new_refused(rt.alloc(), 10, 0, header), "no workers");
}

#[test]
fn a_closed_area_alone_is_a_damaged_checkpoint(rt: HostRuntime) {
    let area = damaged(HEADER, Part::Checkpoint);
    check(&rt, is_new_refused(rt.alloc(), HEADER, 0, area), "its gate");
}

/// No workers, 65 of them, and 4, whose longest batch has no room in a segment; weights 0/3 and 3/3; a slot before the one at which the
/// set came into force; and the first and the last of the zeros for idle tasks.
static NO_SETS: [(usize, u8); 8] = [
    (FIRST_SET, 0),
    (FIRST_SET, 65),
    (FIRST_SET, 4),
    (FIRST_SET + 1, 0),
    (FIRST_SET + 1, 3),
    (FIRST_SET - 8, 1),
    (HEADER + TASKS + 3 * TASK, 1),
    (SECOND_AREA - 1, 1),
];

#[test]
fn a_set_that_is_none_is_a_damaged_checkpoint(rt: HostRuntime) {
    let alloc = rt.alloc();
    let area = damaged(HEADER, Part::Checkpoint);
    for (at, byte) in NO_SETS.iter() {
        check_at(&rt, is_new_refused(alloc, *at, *byte, area), "byte", *at);
    }
}

#[test]
fn a_closed_segment_is_a_damaged_segment(rt: HostRuntime) {
    let segment = damaged(FIRST_SEGMENT, Part::Segment);
    let holds = is_new_refused(rt.alloc(), FIRST_SEGMENT, 0, segment);
    check(&rt, holds, "its gate");
}

#[test]
fn a_frame_that_ends_nowhere_is_a_damaged_frame(rt: HostRuntime) {
    let endless = [
        (FIRST_FRAME + 1, 0xff),
        (FIRST_FRAME + 2, 0xff),
        (FIRST_FRAME + 3, 0xff),
        (FIRST_FRAME + 4, 0xff),
    ];
    let holds = is_frame_refused(rt.alloc(), &endless, Part::Frame);
    check(&rt, holds, "its length");
}

#[test]
fn a_row_that_falls_is_a_damaged_record(rt: HostRuntime) {
    let row = [(FIRST_FRAME + 16, 1), (FIRST_FRAME + 19, 0)];
    let holds = is_frame_refused(rt.alloc(), &row, Part::Record);
    check(&rt, holds, "its row");
}

/// Where the text of a search stands if the first frame submits it.
const TEXT: usize = FIRST_FRAME + 26;

/// Where its needle stands.
const NEEDLE: usize = TEXT + 64;

/// The bytes of a new store's file, with the frame that submits the search for `ab` in `abcab` as task 0.
fn file_of_a_scan(alloc: Global) -> Option<Vec<u8>> {
    let mut bytes = new_file(alloc)?;
    if bytes.len() != END {
        return None;
    }
    let numbers = [
        (FIRST_FRAME, 0xc3),
        (FIRST_FRAME + 1, 0x83),
        (FIRST_FRAME + 5, 1),
        (FIRST_FRAME + 13, 1),
        (FIRST_FRAME + 15, 1),
        (FIRST_FRAME + 18, 3),
        (FIRST_FRAME + 19, 4),
        (FIRST_FRAME + 23, 5),
        (FIRST_FRAME + 24, 2),
    ];
    bytes[TEXT..TEXT + 5].copy_from_slice(b"abcab");
    bytes[NEEDLE..NEEDLE + 2].copy_from_slice(b"ab");
    for (at, byte) in numbers {
        *bytes.get_mut(at)? = byte;
    }
    Some(bytes)
}

/// A stored text or needle with a byte that no search has: 0xA0 or 0x1F, or a colon in the needle.
#[test]
fn a_letter_that_no_search_has_is_a_damaged_record(rt: HostRuntime) {
    let alloc = rt.alloc();
    let bytes = file_of_a_scan(alloc).unwrap_or(Vec::new(alloc));
    let whole = opened(alloc, &bytes);
    check(&rt, whole.is_some(), "opened");
    let record = damaged(FIRST_FRAME, Part::Record);
    for (at, byte) in [(TEXT, 0xa0), (TEXT, 0x1f), (NEEDLE, 0xa0), (NEEDLE, b':')] {
        let holds = is_refused_with(alloc, &bytes, &[(at, byte)], record);
        check_at(&rt, holds == Some(true), "byte", at);
    }
    let colon = is_refused_with(alloc, &bytes, &[(TEXT, b':')], record);
    check(&rt, colon == Some(false), "a text with a colon");
}

/// The fault of making a store on a disk in memory that holds so many zeros.
fn fault_of(alloc: Global, zeros: &[u8], segment: u32) -> Option<InitFault> {
    if zeros.len() > END {
        return None;
    }
    let disk = MemoryDisk::new(alloc, zeros, END, 40, 20_000).ok()?;
    made(alloc, disk, segment).err()
}

fn least_is_made(alloc: Global) -> Option<bool> {
    let disk = MemoryDisk::new(alloc, &[], END, 40, 20_000).ok()?;
    Some(made(alloc, disk, 4233).is_ok())
}

/// Why no store is made on a disk whose k-th call fails.
fn fault_at(alloc: Global, k: u64) -> Option<InitFault> {
    let disk = MemoryDisk::new(alloc, &[], END, 40, 20_000).ok()?;
    made(alloc, FaultDisk::new(disk, k), 8192).err()
}

#[test]
fn stores_that_cant_be_made(rt: HostRuntime) {
    let alloc = rt.alloc();
    let small = InitFault::SegmentTooSmall { least: 4233 };
    check(&rt, fault_of(alloc, &[], 4232) == Some(small), "too small");
    let large = InitFault::SegmentTooLarge;
    check(
        &rt,
        fault_of(alloc, &[], 16_777_217) == Some(large),
        "too large",
    );
    let full = InitFault::NotEmpty;
    check(&rt, fault_of(alloc, &[0], 8192) == Some(full), "not empty");
    check(&rt, least_is_made(alloc) == Some(true), "the least");
    for k in 0..11 {
        let holds = fault_at(alloc, k) == Some(InitFault::Device);
        check_at(&rt, holds, "call", k as usize);
    }
}

/// The new store on a disk in memory.
fn store_in_memory(alloc: Global) -> Option<Held<MemoryDisk>> {
    let disk = MemoryDisk::new(alloc, &[], END, 80, 30_000).ok()?;
    made(alloc, disk, 8192).ok()
}

/// The bytes of the file to which a slot is appended.
fn appended(alloc: Global) -> Option<Vec<u8>> {
    let mut store = store_in_memory(alloc)?;
    if append_slot(alloc, &mut store) {
        held(alloc, &mut disk_of_store(store))
    } else {
        None
    }
}

#[test]
fn an_appended_frame_is_its_bytes(rt: HostRuntime) {
    let alloc = rt.alloc();
    let bytes = appended(alloc).unwrap_or(Vec::new(alloc));
    check(&rt, bytes.len() == END, "appended");
    let wanted = file_of_one_slot(alloc).unwrap_or(Vec::new(alloc));
    for (i, byte) in bytes.iter().enumerate() {
        check_at(&rt, wanted.get(i) == Some(byte), "byte", i);
    }
}

/// Where the second task stands in a checkpoint's area.
const SECOND_TASK: usize = TASKS + TASK;

/// The byte of the checkpoint area with the state after one slot of tasks 0 and 1: its gate, the number, the slot, where the set came into
/// force, the set, and a row of 137 bytes for each task, which begins with what the task got.
fn byte_of_checkpoint(i: usize) -> u8 {
    match i {
        0 => 0xc3,
        SET..50 => THIRDS[i - SET],
        1 | 9 | TASKS | SECOND_TASK => 1,
        _ => 0,
    }
}

/// The bytes of the file after a slot, a turn and a whole checkpoint.
fn checkpointed(alloc: Global) -> Option<Vec<u8>> {
    let mut store = store_in_memory(alloc)?;
    let is_ended = append_slot(alloc, &mut store)
        && store.turn() == Ok(true)
        && store.tend() == Ok(Tended::Closed)
        && store.tend() == Ok(Tended::Piece)
        && store.tend() == Ok(Tended::Finished);
    if is_ended {
        held(alloc, &mut disk_of_store(store))
    } else {
        None
    }
}

#[test]
fn a_checkpoint_is_its_bytes(rt: HostRuntime) {
    let alloc = rt.alloc();
    let bytes = checkpointed(alloc).unwrap_or(Vec::new(alloc));
    check(&rt, bytes.len() == END, "checkpointed");
    for i in 0..AREA {
        let holds = bytes.get(SECOND_AREA + i) == Some(&byte_of_checkpoint(i));
        check_at(&rt, holds, "byte", i);
    }
}

/// The number of the last command where a stop so many calls into a disk's life leaves a store, all that isn't synced
/// having met this fate; or that it is no store.
pub fn left(
    alloc: Global,
    disk: &MemoryDisk,
    calls: usize,
    fate: Fate,
) -> Option<Result<u64, Refusal>> {
    if disk.clock() < calls as u64 {
        return None;
    }
    let left = disk
        .stopped(alloc, calls, &[fate, fate, fate, fate, fate])
        .ok()?;
    match Store::<MemoryDisk, AnyJob>::open(alloc, left) {
        Ok(store) => Some(Ok(store.state().number())),
        Err((OpenFault::Refused(refusal), _)) => Some(Err(refusal)),
        Err(_) => None,
    }
}

/// Stops after so many calls, and what is left if this becomes of what isn't synced. The ninth of eleven calls syncs all but the first gate,
/// which the tenth opens.
static MAKINGS: [(usize, Fate, Result<u64, Refusal>); 8] = [
    (8, Fate::Kept, Err(Refusal::NotAStore)),
    (8, Fate::Dropped, Err(Refusal::NotAStore)),
    (8, Fate::Filled(0xc3), Err(Refusal::NotAStore)),
    (9, Fate::Kept, Err(Refusal::NotAStore)),
    (10, Fate::Dropped, Err(Refusal::NotAStore)),
    (10, Fate::Filled(0x5a), Err(Refusal::NotAStore)),
    (10, Fate::Kept, Ok(0)),
    (11, Fate::Dropped, Ok(0)),
];

#[test]
fn a_making_is_stopped(rt: HostRuntime) {
    let alloc = rt.alloc();
    let Some(store) = store_in_memory(alloc) else {
        return check(&rt, false, "made");
    };
    let disk = disk_of_store(store);
    for (row, (calls, fate, wanted)) in MAKINGS.iter().enumerate() {
        let holds = left(alloc, &disk, *calls, *fate) == Some(*wanted);
        check_at(&rt, holds, "row", row);
    }
}

#[test]
fn an_append_is_stopped(rt: HostRuntime) {
    let alloc = rt.alloc();
    let Some(mut store) = store_in_memory(alloc) else {
        return check(&rt, false, "made");
    };
    check(&rt, append_slot(alloc, &mut store), "appended");
    let disk = disk_of_store(store);
    for (calls, number) in [(12, 0), (13, 0), (14, 0), (15, 1)] {
        let holds = left(alloc, &disk, calls, Fate::Filled(0x5a)) == Some(Ok(number));
        check_at(&rt, holds, "calls", calls);
    }
}

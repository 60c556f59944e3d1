//! Small files of the codec of `pfx_store_image`'s worked rows: a header of two bytes, checkpoint areas of a gate, a number and a sum,
//! segments of 42 bytes, and frames of 16 bytes, whose one record is a byte that is added to the sum.
ghost use Rattle.std.specs.Prelude.{◌≡◌};
ghost use Rattle.pfx_store_file.specs.Sizes.{total_len};

use crate::check::{check, check_at, check_pair};
use crate::held::{Kept, has_failed_at, held};
use pfx_disk::{Disk, Fate, FaultDisk, GATE_OPEN, MemoryDisk};
use pfx_store_create::new_places;
use pfx_store_file::laws::{calls_compose, store_is_recovered};
use pfx_store_file::{Places, Sizes, StoreFault, StoreFile, Tended};
use std::alloc::Global;

const LEN: usize = 92;

static AREAS: [usize; 2] = [2, 5];

static SEGMENTS: [usize; 2] = [8, 50];

/// The places of a new file.
fn places() -> Places
    ensures { total_len result.sizes ≡ 92 }
{
    new_places(Sizes {
        head: 2,
        body: 2,
        segment: 42,
    })
}

/// The bytes of a new file: the first area and the first segment are open, and all else is 0.
fn new_bytes() -> [u8; 92] {
    let mut bytes = [0; 92];
    bytes[0] = 1;
    bytes[1] = 32;
    bytes[2] = GATE_OPEN;
    bytes[8] = GATE_OPEN;
    bytes[9] = 1;
    bytes
}

/// What stands behind the gate of the frame of this number, and the next closed gate.
fn frame(number: u8, record: u8) -> [u8; 16] {
    [1, 0, 0, 0, number, 0, 0, 0, 0, 0, 0, 0, 1, 0, record, 0]
}

/// What stands behind the gate of a segment.
fn start(number: u8) -> [u8; 9] {
    [number, 0, 0, 0, 0, 0, 0, 0, 0]
}

fn byte(image: &[u8], at: usize) -> u8 {
    image.get(at).copied().unwrap_or(0)
}

fn is_open(image: &[u8], at: usize) -> bool {
    byte(image, at) == GATE_OPEN
}

/// The number and the sum after the frame at a gate, if it stands open there and is the next.
fn plain_frame(image: &[u8], gate: usize, state: (u8, u8)) -> (u8, u8) {
    let number = byte(image, gate.saturating_add(5));
    if is_open(image, gate) && Some(number) == state.0.checked_add(1) {
        let record = byte(image, gate.saturating_add(15));
        (number, state.1.wrapping_add(record))
    } else {
        state
    }
}

/// The number and the sum after the two frames of a segment, if it stands open and is the next.
fn plain_segment(image: &[u8], segment: usize, state: (u8, u8)) -> (u8, u8) {
    let first = byte(image, segment.saturating_add(1));
    if is_open(image, segment) && Some(first) == state.0.checked_add(1) {
        let one = plain_frame(image, segment.saturating_add(9), state);
        plain_frame(image, segment.saturating_add(25), one)
    } else {
        state
    }
}

/// The plain reader: the number and the sum that an image stands for.
fn plain(image: &[u8]) -> (u8, u8) {
    let mut state = (0, 0);
    let mut found = false;
    for area in AREAS {
        let here = (byte(image, area + 1), byte(image, area + 2));
        if is_open(image, area) && (!found || here.0 > state.0) {
            state = here;
            found = true;
        }
    }
    for segment in [SEGMENTS[0], SEGMENTS[1], SEGMENTS[0], SEGMENTS[1]] {
        state = plain_segment(image, segment, state);
    }
    state
}

/// Appends the frame of this number.
fn append<D: Disk>(file: &mut StoreFile<D>, number: u8, record: u8) -> Result<(), StoreFault> {
    file.append::<u8, (u8, u8)>(&frame(number, record))
}

/// The same with a turn if it doesn't fit: then the checkpoint has this body.
fn append_or_turn<D: Disk>(
    file: &mut StoreFile<D>,
    body: &[u8; 2],
    number: u8,
    record: u8,
) -> Result<bool, StoreFault> {
    if file.places.sizes.body != 2 || file.places.sizes.segment != 42 {
        return Err(StoreFault::NoRoom);
    }
    file.append_or_turn::<u8, (u8, u8)>(body, &start(number), &frame(number, record))
}

/// The same behind a step of the checkpoint at number 2.
fn tend_and_append<D: Disk>(
    file: &mut StoreFile<D>,
    number: u8,
    record: u8,
) -> Result<(), StoreFault> {
    if file.places.sizes.body != 2 {
        return Err(StoreFault::NoRoom);
    }
    let _tended = file.tend::<u8, (u8, u8)>(&[2, 11])?;
    let _fits = append_or_turn(file, &[2, 11], number, record)?;
    Ok(())
}

/// Two frames fill the first segment; the third turns, and the checkpoint at number 2 takes three steps.
fn run_one<D: Disk>(file: &mut StoreFile<D>, number: usize) -> Result<(), StoreFault> {
    match number {
        1 => append(file, 1, 5),
        2 => append(file, 2, 6),
        3 => {
            let _turned = append_or_turn(file, &[0, 0], 3, 7)?;
            Ok(())
        }
        4 => tend_and_append(file, 4, 8),
        _ => tend_and_append(file, 5, 9),
    }
}

/// Five frames, with the clock before the first and behind each.
fn run<D: Disk>(file: &mut StoreFile<D>, clocks: &mut [u64; 6]) -> Result<(), StoreFault> {
    clocks[0] = file.disk.clock();
    for number in 1..6 {
        run_one(file, number)?;
        clocks[number] = file.disk.clock();
    }
    Ok(())
}

/// A file behind a pointer: a proof spells what a function holds itself at each of its steps.
type Filed = Box<StoreFile<MemoryDisk>>;

fn file_in_memory(alloc: Global) -> Option<Filed> {
    let disk = MemoryDisk::new(alloc, &new_bytes(), LEN, 200, 400).ok()?;
    Box::new(alloc, StoreFile::new::<u8, (u8, u8)>(disk, places())).ok()
}

/// A new file with so many of the two frames that fill its first segment.
fn file_with_frames(alloc: Global, number: usize) -> Option<Filed> {
    let mut file = file_in_memory(alloc)?;
    if number > 0 {
        append(&mut file, 1, 5).ok()?;
    }
    if number > 1 {
        append(&mut file, 2, 6).ok()?;
    }
    Some(file)
}

/// Whether a file with so many frames has made so many calls and can be turned as wanted.
fn has_made(alloc: Global, number: usize, calls: u64, turns: bool) -> bool {
    match file_with_frames(alloc, number) {
        Some(file) => { file.disk.clock() == calls && file.can_turn::<u8, (u8, u8)>() == turns }
        None => false,
    }
}

/// Whether the bytes have a frame behind this gate, which is open.
fn is_frame(bytes: &[u8], gate: usize, number: u8, record: u8) -> bool {
    let found = bytes.get(gate.saturating_add(1)..gate.saturating_add(16));
    is_open(bytes, gate) && found == frame(number, record).get(..15)
}

/// Whether the bytes have two frames behind their gates, and a closed gate.
fn are_two_frames(bytes: &[u8]) -> bool {
    is_frame(bytes, 17, 1, 5)
        && is_frame(bytes, 33, 2, 6)
        && bytes.get(49) == Some(&0)
        && plain(bytes) == (2, 11)
}

/// A file's disk.
fn disk_of(alloc: Global, file: Filed) -> Option<Kept> {
    Box::new(alloc, Box::into_inner(file).into_disk()).ok()
}

/// All bytes of a file.
fn bytes_of(alloc: Global, file: Filed) -> Option<Vec<u8>> {
    held(alloc, &mut *disk_of(alloc, file)?)
}

fn two_frames_are_held(alloc: Global) -> Option<bool> {
    let file = file_with_frames(alloc, 2)?;
    let is_full = file.disk.clock() == 8 && file.places.gate == 49;
    let bytes = bytes_of(alloc, file)?;
    Some(is_full && are_two_frames(&bytes))
}

#[test]
fn a_frame_takes_four_calls(rt: HostRuntime) {
    let alloc = rt.alloc();
    check(&rt, has_made(alloc, 0, 0, false), "no frame");
    check(&rt, has_made(alloc, 1, 4, true), "one frame");
    check(&rt, two_frames_are_held(alloc) == Some(true), "two frames");
}

fn third_is_refused(alloc: Global) -> Option<bool> {
    let mut file = file_with_frames(alloc, 2)?;
    let refused = append(&mut file, 3, 7);
    let is_same = file.disk.clock() == 8 && file.places.gate == 49 && !file.broken;
    Some(refused == Err(StoreFault::NoRoom) && is_same && !file.has_room(16))
}

#[test]
fn a_frame_that_does_not_fit_makes_no_call(rt: HostRuntime) {
    check(&rt, third_is_refused(rt.alloc()) == Some(true), "the third");
}

/// What the third frame's append and the fourth's answer: whether the file was turned for it.
fn turns_of(alloc: Global) -> Option<(bool, bool)> {
    let mut file = file_with_frames(alloc, 2)?;
    let third = append_or_turn(&mut file, &[0, 0], 3, 7).ok()?;
    let fourth = append_or_turn(&mut file, &[2, 11], 4, 8).ok()?;
    Some((third, fourth))
}

#[test]
fn an_append_tells_whether_it_turned(rt: HostRuntime) {
    check(
        &rt,
        turns_of(rt.alloc()) == Some((true, false)),
        "the third alone",
    );
}

/// The file with one frame, turned.
fn turned(alloc: Global) -> Option<Filed> {
    let mut file = file_with_frames(alloc, 1)?;
    if !file.can_turn::<u8, (u8, u8)>() {
        return None;
    }
    file.turn::<u8, (u8, u8)>(&start(2)).ok()?;
    Some(file)
}

/// Whether the checkpoint's next step is this one, and so many calls are made then.
fn takes_step(file: &mut StoreFile<MemoryDisk>, step: Tended, calls: u64) -> bool {
    file.places.sizes.body == 2
        && file.tend::<u8, (u8, u8)>(&[1, 5]) == Ok(step)
        && file.disk.clock() == calls
}

/// Whether the bytes have the checkpoint, and the other segment open.
fn has_checkpoint(bytes: &[u8]) -> bool {
    let front = [1, 32, 195, 0, 0, 195, 1, 5, 195, 1, 0, 0, 0, 0, 0, 0, 0];
    let other = [195, 2, 0, 0, 0, 0, 0, 0, 0, 0];
    bytes.get(..17) == front.get(..) && bytes.get(50..60) == other.get(..) && plain(bytes) == (1, 5)
}

#[test]
fn a_checkpoint_takes_its_steps(rt: HostRuntime) {
    let alloc = rt.alloc();
    let Some(mut file) = turned(alloc) else {
        return check(&rt, false, "a turn behind a frame");
    };
    check(&rt, file.disk.clock() == 10, "the turn's calls");
    check(&rt, !file.can_turn::<u8, (u8, u8)>(), "a second turn");
    check(&rt, takes_step(&mut file, Tended::Closed, 12), "closed");
    check(&rt, takes_step(&mut file, Tended::Piece, 13), "a piece");
    check(&rt, takes_step(&mut file, Tended::Finished, 16), "finished");
    check(&rt, takes_step(&mut file, Tended::Nothing, 16), "nothing");
    let bytes = bytes_of(alloc, file).unwrap_or(Vec::new(alloc));
    check(&rt, has_checkpoint(&bytes), "the bytes");
}

/// The disk after the run, which notes its clocks.
fn run_in_memory(alloc: Global, clocks: &mut [u64; 6]) -> Option<Kept> {
    let mut file = file_in_memory(alloc)?;
    run(&mut file, clocks).ok()?;
    disk_of(alloc, file)
}

/// How many frames were appended before so many calls.
fn acknowledged(clocks: &[u64; 6], after: u64) -> usize {
    clocks
        .iter()
        .filter(|&&clock| clock != 0 && clock <= after)
        .count()
}

/// Whether the bytes hold the sum of their number, which is that of the frames acknowledged or one more.
fn keeps(bytes: &[u8], acknowledged: usize) -> bool {
    let (number, sum) = plain(bytes);
    let number = number as usize;
    let sums = [0, 5, 11, 18, 26, 35];
    sums.get(number) == Some(&sum) && acknowledged <= number && number - acknowledged <= 1
}

/// Whether a stop leaves each frame that was appended by then, and at most the one that was being appended besides.
fn is_left(
    alloc: Global,
    disk: &MemoryDisk,
    clocks: &[u64; 6],
    after: usize,
    fate: Fate,
) -> Option<bool> {
    if disk.clock() < after as u64 {
        return None;
    }
    let mut left = disk.stopped(alloc, after, &[fate]).ok()?;
    let bytes = held(alloc, &mut left)?;
    Some(keeps(&bytes, acknowledged(clocks, after as u64)))
}

fn is_whole(alloc: Global, disk: &mut MemoryDisk) -> bool {
    match held(alloc, disk) {
        Some(bytes) => plain(&bytes) == (5, 35),
        None => false,
    }
}

// Wherever the run is stopped, and whatever becomes of the unsynced bytes.
#[test]
fn stops_keep_what_was_appended(rt: HostRuntime) {
    let alloc = rt.alloc();
    let mut clocks = [0; 6];
    let Some(mut disk) = run_in_memory(alloc, &mut clocks) else {
        return check(&rt, false, "a run");
    };
    check(&rt, clocks == [0, 4, 8, 18, 24, 38], "clocks");
    check(&rt, is_whole(alloc, &mut disk), "the run's end");
    let fates = [
        Fate::Kept,
        Fate::Dropped,
        Fate::Filled(0),
        Fate::Filled(0xEE),
        Fate::Filled(GATE_OPEN),
    ];
    for after in 0..39 {
        for (number, fate) in fates.iter().enumerate() {
            let holds = is_left(alloc, &disk, &clocks, after, *fate) == Some(true);
            check_pair(&rt, holds, "calls before the stop, and fate", after, number);
        }
    }
}

/// Whether the file is broken, and refuses a frame with no further call.
fn is_broken<D: Disk>(file: &mut StoreFile<D>) -> bool {
    let clock = file.disk.clock();
    file.broken && append(file, 1, 5) == Err(StoreFault::Broken) && file.disk.clock() == clock
}

/// A new file on a disk whose k-th call fails.
fn failing_file(alloc: Global, k: u64) -> Option<Box<StoreFile<FaultDisk<MemoryDisk>>>> {
    let disk = MemoryDisk::new(alloc, &new_bytes(), LEN, 200, 400).ok()?;
    let file = StoreFile::new::<u8, (u8, u8)>(FaultDisk::new(disk, k), places());
    Box::new(alloc, file).ok()
}

/// Whether the run ends at the k-th call, which fails, and the file is broken from then on.
fn is_ended(alloc: Global, k: u64) -> Option<bool> {
    let mut file = failing_file(alloc, k)?;
    let mut clocks = [0; 6];
    let is_failed = run(&mut file, &mut clocks) == Err(StoreFault::Device);
    let is_counted = has_failed_at(&file.disk, k);
    Some(is_failed && is_counted && is_broken(&mut file))
}

#[test]
fn a_failed_call_breaks_the_file(rt: HostRuntime) {
    let alloc = rt.alloc();
    for k in 0..38 {
        check_at(&rt, is_ended(alloc, k) == Some(true), "call", k as usize);
    }
}

/// The disk of a file that has ended a checkpoint of none.
fn ended(alloc: Global) -> Option<Kept> {
    let mut file = file_in_memory(alloc)?;
    store_is_recovered::<MemoryDisk, u8, (u8, u8)>(&file);
    if file.places.sizes.body != 2 {
        return None;
    }
    file.end_checkpoint::<u8, (u8, u8)>(&[0, 0]).ok()?;
    disk_of(alloc, file)
}

#[test]
fn laws_hold_at_a_disk_in_memory(rt: HostRuntime) {
    let Some(disk) = ended(rt.alloc()) else {
        return check(&rt, false, "a file without a checkpoint");
    };
    calls_compose::<MemoryDisk, u8, (u8, u8)>(&disk, &disk, &disk);
    check(&rt, disk.clock() == 0, "no calls");
}

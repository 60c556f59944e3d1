//! Small files: a header of two bytes, checkpoint areas of a gate and eight bytes, of which the first two are a number and a sum,
//! segments of 42 bytes, and frames of 16 bytes, whose one record is a byte that is added to the sum.
ghost use Rattle.std.specs.Prelude.{◌≡◌, ◌+◌, ◌<◌, length};

use crate::check::{check, check_at};
use crate::held::has_failed_at;
use crate::toy::{Tally, Toy};
use pfx_disk::{Disk, FaultDisk, GATE_OPEN, MemoryDisk};
use pfx_fault::Part;
use pfx_store_file::{StoreFile, Tended};
use pfx_store_recover::{OpenFault, OpenedFile, Refusal, open};
use std::alloc::Global;
use std::process::Abort;

const LEN: usize = 104;

/// A new file: the first area and the first segment are open, and all else is 0.
fn new_file() -> [u8; 104] {
    let mut bytes = [0; 104];
    bytes[0] = 1;
    bytes[1] = 32;
    bytes[2] = GATE_OPEN;
    bytes[20] = GATE_OPEN;
    bytes[21] = 1;
    bytes
}

/// The frame of this number, open, at this gate.
fn with_frame(bytes: &mut [u8], gate: usize, number: u8, record: u8)
    requires { gate + 16 < length bytes.old }
    ensures { length bytes.new ≡ length bytes.old }
{
    let frame = [
        GATE_OPEN, 1, 0, 0, 0, number, 0, 0, 0, 0, 0, 0, 0, 1, 0, record,
    ];
    bytes[gate..gate + 16].copy_from_slice(&frame);
}

/// Two frames in the first segment.
fn one_segment() -> [u8; 104] {
    let mut bytes = new_file();
    with_frame(&mut bytes, 29, 1, 5);
    with_frame(&mut bytes, 45, 2, 6);
    bytes
}

/// And the second segment goes on with one.
fn two_segments() -> [u8; 104] {
    let mut bytes = one_segment();
    bytes[62] = GATE_OPEN;
    bytes[63] = 3;
    with_frame(&mut bytes, 71, 3, 7);
    bytes
}

/// What was opened, behind a pointer: a proof spells what a function holds itself at each of its steps.
type Found = Box<OpenedFile<MemoryDisk, Toy>>;

fn opened(alloc: Global, bytes: &[u8]) -> Option<Found> {
    let disk = MemoryDisk::new(alloc, bytes, bytes.len(), 200, 1000).ok()?;
    Box::new(alloc, open::<Toy, MemoryDisk>(alloc, disk).ok()?).ok()
}

/// Whether the file is refused so.
fn is_refused(alloc: Global, bytes: &[u8], wanted: Refusal) -> bool {
    let Ok(disk) = MemoryDisk::new(alloc, bytes, bytes.len(), 200, 1000) else {
        return false;
    };
    match open::<Toy, MemoryDisk>(alloc, disk) {
        Err((OpenFault::Refused(refusal), _)) => refusal == wanted,
        _ => false,
    }
}

fn damaged(at: usize, what: Part) -> Refusal {
    Refusal::Damaged { at, what }
}

/// Whether the state has this number and this sum.
fn stands_at(opened: &OpenedFile<MemoryDisk, Toy>, number: u64, sum: u64) -> bool {
    opened.state.number() == number && opened.state.sum() == sum
}

/// Whether the area and the segment are these, the first or the second, and turned or not.
fn is_in(file: &StoreFile<MemoryDisk>, area: bool, segment: bool, turned: bool) -> bool {
    let places = &file.places;
    places.area == area && places.segment == segment && places.checkpoint.in_progress() == turned
}

/// Whether the frames end at this gate, and the segment there.
fn ends_at(file: &StoreFile<MemoryDisk>, gate: usize, end: usize) -> bool {
    file.places.gate == gate && file.places.end == end
}

/// Whether the area and the segment that aren't read from stand open.
fn stand_open(file: &StoreFile<MemoryDisk>, area: bool, segment: bool) -> bool {
    file.places.area_open == area && file.places.segment_open == segment
}

#[test]
fn a_new_file_has_no_frame(rt: HostRuntime) {
    let Some(opened) = opened(rt.alloc(), &new_file()) else {
        return check(&rt, false, "opened");
    };
    check(&rt, stands_at(&opened, 0, 0), "state");
    check(&rt, opened.header == 32, "header");
    check(&rt, is_in(&opened.file, false, false, false), "in use");
    check(&rt, ends_at(&opened.file, 29, 62), "gate and end");
    check(&rt, opened.file.places.sizes.file_len() == LEN, "length");
    check(&rt, stand_open(&opened.file, false, false), "other gates");
    check(&rt, opened.middle.is_none(), "middle");
    check(&rt, !opened.file.broken, "broken");
    check(&rt, opened.file.disk.clock() == 9, "calls");
}

// Behind a closed gate no frame is read.
#[test]
fn a_closed_gate_ends_the_frames(rt: HostRuntime) {
    let mut bytes = one_segment();
    bytes[45] = 0;
    let Some(opened) = opened(rt.alloc(), &bytes) else {
        return check(&rt, false, "opened");
    };
    check(&rt, stands_at(&opened, 1, 5), "state");
    check(&rt, ends_at(&opened.file, 45, 62), "gate and end");
    check(&rt, opened.middle.is_none(), "middle");
}

// Both areas and both segments are open: the area with the greater number is taken, and the segment of lower numbers is
// passed over.
#[test]
fn the_newer_area_is_taken(rt: HostRuntime) {
    let mut bytes = two_segments();
    bytes[11] = GATE_OPEN;
    bytes[12] = 2;
    bytes[13] = 40;
    let Some(opened) = opened(rt.alloc(), &bytes) else {
        return check(&rt, false, "opened");
    };
    check(&rt, stands_at(&opened, 3, 47), "state");
    check(&rt, is_in(&opened.file, true, true, false), "in use");
    check(&rt, ends_at(&opened.file, 87, LEN), "gate and end");
    check(&rt, stand_open(&opened.file, true, true), "other gates");
    check(&rt, opened.middle.is_none(), "middle");
}

/// Whether the state between the segments has number 2 and sum 11.
fn has_middle(opened: &OpenedFile<MemoryDisk, Toy>) -> bool {
    match &opened.middle {
        Some(middle) => middle.as_slice() == [2, 11, 0, 0, 0, 0, 0, 0].as_slice(),
        None => false,
    }
}

#[test]
fn two_segments_are_read(rt: HostRuntime) {
    let Some(opened) = opened(rt.alloc(), &two_segments()) else {
        return check(&rt, false, "opened");
    };
    check(&rt, stands_at(&opened, 3, 18), "state");
    check(&rt, is_in(&opened.file, false, true, true), "in use");
    check(&rt, ends_at(&opened.file, 87, LEN), "gate and end");
    check(&rt, stand_open(&opened.file, false, true), "other gates");
    check(&rt, opened.file.disk.clock() == 10, "calls");
    check(&rt, has_middle(&opened), "middle");
}

/// The file with two segments and two bytes changed.
fn changed(changes: &[(usize, u8); 2]) -> [u8; 104] {
    let mut bytes = two_segments();
    for (at, byte) in changes {
        if *at < 104 {
            bytes[*at] = *byte;
        }
    }
    bytes
}

/// Ends a test if a file with two segments and two bytes changed isn't refused as it says beside them.
fn check_refusals(rt: &impl Abort, alloc: Global, cases: &[([(usize, u8); 2], Refusal)]) {
    for (number, case) in cases.iter().enumerate() {
        let holds = is_refused(alloc, &changed(&case.0), case.1);
        check_at(rt, holds, "row", number);
    }
}

// Each test that fails, by two bytes of a file with two segments.
#[test]
fn each_test_has_its_refusal(rt: HostRuntime) {
    let cases = [
        ([(0, 2), (0, 2)], Refusal::WrongVersion { version: 2 }),
        ([(2, 0), (2, 0)], damaged(2, Part::Checkpoint)),
        (
            [(11, GATE_OPEN), (11, GATE_OPEN)],
            damaged(11, Part::Checkpoint),
        ),
        ([(4, 100), (4, 100)], damaged(2, Part::Checkpoint)),
        ([(63, 1), (63, 1)], damaged(62, Part::Segment)),
        ([(20, 0), (20, 0)], damaged(20, Part::Segment)),
        ([(21, 2), (21, 2)], damaged(20, Part::Segment)),
        ([(30, 18), (30, 18)], damaged(29, Part::Frame)),
        ([(50, 3), (50, 3)], damaged(45, Part::Frame)),
        ([(76, 4), (76, 4)], damaged(71, Part::Frame)),
        ([(44, 0), (44, 0)], damaged(29, Part::Record)),
        ([(60, 95), (60, 95)], damaged(45, Part::Record)),
        ([(86, 0), (86, 0)], damaged(71, Part::Record)),
        ([(44, 0), (76, 4)], damaged(71, Part::Frame)),
        ([(44, 0), (63, 4)], damaged(29, Part::Record)),
        ([(63, 4), (63, 4)], damaged(62, Part::Segment)),
    ];
    check_refusals(&rt, rt.alloc(), &cases);
}

#[test]
fn a_file_of_another_length_is_refused(rt: HostRuntime) {
    let alloc = rt.alloc();
    let bytes = one_segment();
    let short = damaged(103, Part::Length);
    let front = bytes.get(..103).unwrap_or(&bytes);
    check(&rt, is_refused(alloc, front, short), "103 bytes");
    let none = Refusal::NotAStore;
    let front = bytes.get(..1).unwrap_or(&bytes);
    check(&rt, is_refused(alloc, front, none), "1 byte");
    check(&rt, is_refused(alloc, &[], none), "no bytes");
}

/// Whether the checkpoint's next step is this one.
fn takes_step(file: &mut StoreFile<MemoryDisk>, middle: &[u8], step: Tended) -> bool {
    middle.len() == file.places.sizes.body && file.tend::<u8, Tally>(middle) == Ok(step)
}

/// The file that was opened, and the body of its checkpoint, if one is in progress.
fn in_progress(alloc: Global, opened: Found) -> Option<(Box<StoreFile<MemoryDisk>>, Vec<u8>)> {
    let OpenedFile { file, middle, .. } = Box::into_inner(opened);
    Some((Box::new(alloc, file).ok()?, middle?))
}

/// Whether the file opens at the same state, with the checkpoint ended.
fn opens_again(alloc: Global, disk: MemoryDisk) -> bool {
    match open::<Toy, MemoryDisk>(alloc, disk) {
        Ok(again) => {
            stands_at(&again, 3, 18)
                && is_in(&again.file, true, true, false)
                && again.middle.is_none()
        }
        Err(_) => false,
    }
}

// A file that was opened goes on: the checkpoint in progress ends, and the file is opened again.
#[test]
fn an_opened_file_goes_on(rt: HostRuntime) {
    let alloc = rt.alloc();
    let Some(opened) = opened(alloc, &two_segments()) else {
        return check(&rt, false, "opened");
    };
    let Some((mut file, middle)) = in_progress(alloc, opened) else {
        return check(&rt, false, "a checkpoint");
    };
    check(
        &rt,
        takes_step(&mut file, &middle, Tended::Closed),
        "closed",
    );
    check(&rt, takes_step(&mut file, &middle, Tended::Piece), "piece");
    let holds = takes_step(&mut file, &middle, Tended::Finished);
    check(&rt, holds, "finished");
    let holds = takes_step(&mut file, &middle, Tended::Nothing);
    check(&rt, holds, "nothing");
    let disk = Box::into_inner(file).into_disk();
    check(&rt, opens_again(alloc, disk), "opened again");
}

/// Whether the disk is handed back at the k-th call, which fails, and the file opens then.
fn is_given_back(alloc: Global, k: u64) -> bool {
    let Ok(disk) = MemoryDisk::new(alloc, &two_segments(), LEN, 200, 1000) else {
        return false;
    };
    match open::<Toy, FaultDisk<MemoryDisk>>(alloc, FaultDisk::new(disk, k)) {
        Err((OpenFault::Device, disk)) => { has_failed_at(&disk, k) && opens_at_18(alloc, disk) }
        _ => false,
    }
}

/// Whether the file opens with the sum 18.
fn opens_at_18(alloc: Global, disk: FaultDisk<MemoryDisk>) -> bool {
    match open::<Toy, FaultDisk<MemoryDisk>>(alloc, disk) {
        Ok(again) => again.state.sum() == 18,
        Err(_) => false,
    }
}

// Each call fails in its turn.
#[test]
fn a_failed_call_gives_the_disk_back(rt: HostRuntime) {
    let alloc = rt.alloc();
    for k in 0..4 {
        check_at(&rt, is_given_back(alloc, k), "call", k as usize);
    }
}

//! Frames of one row of two tasks behind their gates, in a segment that has room for three of them and a closed gate.
ghost use Rattle.std.specs.Prelude.{◌≤◌, ◌<◌, length, IfSome};
ghost use Rattle.pfx_disk.specs.Disk.{IsHonest};
ghost use Rattle.pfx_disk.specs.Memory.{memory_view};

use crate::check::{check, check_pair};
use crate::held::{Kept, failing, has_failed_at, is_held};
use pfx_disk::{DeviceFailed, Disk, Fate, GATE_OPEN, MemoryDisk};
use pfx_segment::frame::{COUNT_AT, FIRST_AT, FRAME_HEAD, LENGTH_AT, frame_len_at};
use pfx_segment::laws::{frames_stay, reading_gives_the_frames};
use pfx_segment::{ReadFault, close, open_gate, prepare, put_behind, read_one};
use std::alloc::Global;

/// The place of the first frame's gate, and the segment's end.
const FIRST: usize = 9;

const END: usize = 76;

/// How long a frame is, and three of them as they stand behind their gates: the length of the record, the number, one
/// command, and the record: its tag, and each task with no state.
const LONG: usize = 22;

static BODIES: [[u8; 22]; 3] = [
    [
        7, 0, 0, 0, 1, 0, 0, 0, 0, 0, 0, 0, 1, 0, 2, 0, 0, 0, 1, 0, 0, 0,
    ],
    [
        7, 0, 0, 0, 2, 0, 0, 0, 0, 0, 0, 0, 1, 0, 2, 0, 0, 0, 2, 0, 0, 0,
    ],
    [
        7, 0, 0, 0, 3, 0, 0, 0, 0, 0, 0, 0, 1, 0, 2, 1, 0, 0, 2, 0, 0, 0,
    ],
];

/// Puts three frames behind their gates.
fn put_three<D: Disk>(disk: &mut D) -> Result<(), DeviceFailed>
    requires { IsHonest (D.view disk.old) → END ≤ length (D.view disk.old).contents }
{
    put_behind(disk, FIRST, &BODIES[0])?;
    put_behind(disk, FIRST + LONG, &BODIES[1])?;
    put_behind(disk, FIRST + 2 * LONG, &BODIES[2])
}

/// Puts the frame that comes after so many behind its gate, after a call of `len`.
fn put_next<D: Disk>(disk: &mut D, before: usize) -> Result<(), DeviceFailed>
    requires { before < 3 }
{
    if disk.len()? < END {
        return Err(DeviceFailed);
    }
    put_behind(disk, FIRST + LONG * before, &BODIES[before])
}

/// The frame at this gate, after a call of `len`.
fn frame_at<D: Disk>(
    alloc: Global,
    disk: &mut D,
    gate: usize,
) -> Result<Option<Vec<u8>>, ReadFault> {
    if gate >= END || disk.len()? < END {
        return Err(ReadFault::Device);
    }
    read_one(alloc, disk, gate, END)
}

/// The frames up to the first closed gate.
fn frames_of<D: Disk>(alloc: Global, disk: &mut D) -> Result<Vec<Vec<u8>>, ReadFault> {
    let mut gate = FIRST;
    let mut frames = Vec::new(alloc);
    for _ in 0..4 {
        let Some(frame) = frame_at(alloc, disk, gate)? else {
            return Ok(frames);
        };
        gate = gate.saturating_add(frame.len());
        frames.push(frame)?;
    }
    Ok(frames)
}

/// Whether these are the first frames, with their gates.
fn are_first_frames(frames: &[Vec<u8>]) -> bool {
    let mut same = true;
    for (frame, body) in frames.iter().zip(&BODIES) {
        if frame.first() != Some(&GATE_OPEN) || frame.get(1..) != body.get(..LONG - 1) {
            same = false;
        }
    }
    same && frames.len() <= 3
}

/// Whether the disk has so many frames, the first ones.
fn has_frames<D: Disk>(alloc: Global, disk: &mut D, number: usize) -> bool {
    match frames_of(alloc, disk) {
        Ok(frames) => frames.len() == number && are_first_frames(&frames),
        Err(_) => false,
    }
}

/// A disk of zeros.
fn zeros(alloc: Global) -> Option<Kept>
    ensures { IfSome result (λ disk. END ≤ length (memory_view disk.value).contents) }
{
    let disk = MemoryDisk::new(alloc, &[0; 76], END, 100, 100).ok()?;
    Box::new(alloc, disk).ok()
}

/// Whether so many calls were made, and none failed.
fn has_made<D: Disk>(disk: &D, calls: u64) -> bool {
    disk.clock() == calls && disk.failures() == 0
}

/// The disk after the three frames.
fn filled(alloc: Global) -> Option<Kept> {
    let mut disk = zeros(alloc)?;
    put_three(&mut *disk).ok()?;
    Some(disk)
}

fn three_frames_are_put(alloc: Global) -> Option<bool> {
    let mut disk = filled(alloc)?;
    let is_made = has_made(&*disk, 12);
    Some(is_made && has_frames(alloc, &mut *disk, 3))
}

#[test]
fn three_frames_take_twelve_calls(rt: HostRuntime) {
    let holds = three_frames_are_put(rt.alloc()) == Some(true);
    check(&rt, holds, "calls and frames");
    frames_stay();
    reading_gives_the_frames();
}

/// Whether the head of a frame says how long it is, and its numbers stand at their places.
fn is_head_told() -> bool {
    let mut frame = [0; 23];
    frame[0] = GATE_OPEN;
    frame[1..].copy_from_slice(&BODIES[1]);
    frame_len_at(&frame, 0) == LONG
        && frame[LENGTH_AT] as usize == LONG - FRAME_HEAD
        && frame[FIRST_AT] == 2
        && frame[COUNT_AT] == 1
}

#[test]
fn a_head_says_how_long_its_frame_is(rt: HostRuntime) {
    check(&rt, is_head_told(), "length, first number and count");
}

/// How many frames survive a stop.
fn surviving(after: usize, fate: Fate) -> usize {
    let is_opened = match fate {
        Fate::Kept => true,
        Fate::Dropped => false,
        Fate::Filled(byte) => byte == GATE_OPEN,
    };
    after / 4 + usize::from(after % 4 == 3 && is_opened)
}

/// Whether the next frame, if there is one, is put behind so many.
fn goes_on(alloc: Global, disk: &mut MemoryDisk, survived: usize) -> bool {
    if survived >= 3 {
        return true;
    }
    put_next(disk, survived).is_ok() && has_frames(alloc, disk, survived + 1)
}

/// Whether a stop leaves the frames that survive it, and what it leaves behind the closed gate does the next frame no harm.
fn is_left(alloc: Global, disk: &MemoryDisk, after: usize, fate: Fate) -> Option<bool> {
    if disk.clock() < after as u64 {
        return None;
    }
    let mut left = Box::new(alloc, disk.stopped(alloc, after, &[fate]).ok()?).ok()?;
    let survived = surviving(after, fate);
    Some(has_frames(alloc, &mut *left, survived) && goes_on(alloc, &mut left, survived))
}

// As a frame is put behind its gate, a stop after its first call or before its third leaves the frames of before, whatever becomes of
// the unsynced bytes; one after its third leaves the new one exactly if the gate is left open.
#[test]
fn stops_leave_the_frames_with_or_without_the_new_one(rt: HostRuntime) {
    let alloc = rt.alloc();
    let Some(disk) = filled(alloc) else {
        return check(&rt, false, "three frames");
    };
    check(&rt, disk.clock() == 12, "twelve calls");
    let fates = [
        Fate::Kept,
        Fate::Dropped,
        Fate::Filled(0),
        Fate::Filled(0xEE),
        Fate::Filled(GATE_OPEN),
    ];
    for after in 0..13 {
        for (number, fate) in fates.iter().enumerate() {
            let holds = is_left(alloc, &disk, after, *fate) == Some(true);
            check_pair(&rt, holds, "calls before the stop, and fate", after, number);
        }
    }
}

/// Whether the frame is broken off at call k, with its work done or not, and what is read has it exactly if its gate was
/// written.
fn is_ended(alloc: Global, k: u64, works: bool) -> Option<bool> {
    let mut disk = failing(alloc, zeros(alloc)?, k, works)?;
    let answer = put_next(&mut *disk, 0);
    let is_failed = answer == Err(DeviceFailed) && has_failed_at(&*disk, k);
    let is_new = k == 4 || k == 3 && works;
    Some(is_failed && has_frames(alloc, &mut *disk, usize::from(is_new)))
}

#[test]
fn a_failing_call_ends_the_frame(rt: HostRuntime) {
    let alloc = rt.alloc();
    for k in 1..5 {
        for works in [false, true] {
            let holds = is_ended(alloc, k, works) == Some(true);
            check_pair(
                &rt,
                holds,
                "call, and its work",
                k as usize,
                usize::from(works),
            );
        }
    }
}

/// What is read of an open frame of a record of this length.
fn read_open(alloc: Global, record: u8) -> Option<Result<Vec<Vec<u8>>, ReadFault>> {
    let mut bytes = [0; 76];
    bytes[FIRST] = GATE_OPEN;
    bytes[FIRST + 1] = record;
    let mut disk = MemoryDisk::new(alloc, &bytes, END, 100, 100).ok()?;
    Some(frames_of(alloc, &mut disk))
}

/// 15 + 51 bytes end before the last one.
fn is_read_to_the_end(alloc: Global) -> bool {
    match read_open(alloc, 51) {
        Some(Ok(frames)) => frames.len() == 1,
        _ => false,
    }
}

fn is_damage(alloc: Global) -> bool {
    match read_open(alloc, 52) {
        Some(Err(fault)) => fault == ReadFault::Damaged { at: 9 },
        _ => false,
    }
}

/// No frame is as short as the bytes that are left.
fn is_too_short(alloc: Global) -> Option<bool> {
    let mut bytes = [0; 76];
    bytes[FIRST] = GATE_OPEN;
    bytes[FIRST + 1] = 52;
    let mut disk = MemoryDisk::new(alloc, &bytes, END, 100, 100).ok()?;
    let refused = read_one(alloc, &mut disk, FIRST, FIRST + 15);
    let is_refused = refused == Err(ReadFault::Damaged { at: 9 }) && disk.clock() == 1;
    let found = read_one(alloc, &mut disk, FIRST + 2, END);
    Some(is_refused && found == Ok(None))
}

#[test]
fn a_frame_past_the_end_is_damage(rt: HostRuntime) {
    let alloc = rt.alloc();
    check(&rt, is_read_to_the_end(alloc), "up to the last byte");
    check(&rt, is_damage(alloc), "over the last byte");
    check(&rt, is_too_short(alloc) == Some(true), "15 bytes");
}

/// Behind a call of `len`, prepares a gate with two bytes, closes it, and puts and opens bytes behind two other gates.
fn turn<D: Disk>(disk: &mut D) -> Result<(), DeviceFailed> {
    if disk.len()? < 8 {
        return Err(DeviceFailed);
    }
    prepare(disk, 0, true, &[5, 6])?;
    close(disk, 0, true)?;
    close(disk, 0, false)?;
    put_behind(disk, 3, &[7])?;
    open_gate(disk, 5)
}

/// One call of `len`, and 6, 2, 2, 4 and 3; then the bytes.
fn is_turned(alloc: Global) -> Option<bool> {
    let start = [GATE_OPEN, 1, 2, 3, 4, 0, 9, 9];
    let mut disk = MemoryDisk::new(alloc, &start, 8, 100, 100).ok()?;
    turn(&mut disk).ok()?;
    let has_made = has_made(&disk, 18);
    let bytes = [0, 5, 6, GATE_OPEN, 7, GATE_OPEN, 9, 9];
    Some(has_made && is_held(alloc, &mut disk, &bytes))
}

#[test]
fn gates_are_closed_and_opened(rt: HostRuntime) {
    check(&rt, is_turned(rt.alloc()) == Some(true), "calls and bytes");
}

//! A file of version 1, written down: three tasks of weight 2/3 on two workers, in segments of 8,192 bytes. A job was given, and three
//! slots ran.

use pfx_checkpoint::{freeze_whole, whole_len};
use pfx_disk::MemoryDisk;
use pfx_kinds::any::AnyJob;
use pfx_kit::frames::put;
use pfx_kit::places::END;
use pfx_machine::{Command, State};
use pfx_weights::TaskSet;
use std::alloc::Global;

/// How many bytes the file has.
pub const OLD_END: usize = 17_281;

/// Where its first frame stands.
pub const OLD_FRAME: usize = 906;

/// How many bytes a segment has.
pub const OLD_SEGMENT: u32 = 8192;

/// The header.
static HEADER: [u8; 41] = [
    0xc3, b'P', b'F', b'X', b'S', b'T', b'O', b'R', b'E', 1, 2, 3, 0, 0, 32, 0, 0, 2, 0, 0, 0, 3,
    0, 0, 0, 2, 0, 0, 0, 3, 0, 0, 0, 2, 0, 0, 0, 3, 0, 0, 0,
];

/// The gates of the first checkpoint's area, which is of the new store, and of the first segment, with its number.
static AREA: [u8; 1] = [0xc3];

static SEGMENT: [u8; 9] = [0xc3, 1, 0, 0, 0, 0, 0, 0, 0];

/// The frame of the job, up to its zeros.
static SUBMIT: [u8; 27] = [
    0xc3, 131, 0, 0, 0, 1, 0, 0, 0, 0, 0, 0, 0, 1, 0, 1, 0, 0, 2, 3, 0, 0, 0, 0x6e, 8, 0, 1,
];

/// The frame of three slots, up to the zeros of the job's state in the first.
static SLOTS: [u8; 28] = [
    0xc3, 21, 1, 0, 0, 2, 0, 0, 0, 0, 0, 0, 0, 3, 0, 2, 0, 0, 1, 2, 2, 0, 0, 0, 0x6e, 8, 0, 3,
];

/// The rest of the first slot, and the second one up to the zeros of the job's state.
static SECOND: [u8; 16] = [1, 0, 0, 2, 0, 0, 1, 2, 1, 0, 0, 0, 0x6e, 8, 0, 7];

/// The rest of the second slot, and the third one.
static THIRD: [u8; 10] = [2, 0, 0, 2, 1, 0, 0, 2, 0, 0];

/// The file before its first frame.
pub fn fresh(alloc: Global) -> Option<Vec<u8>> {
    let mut bytes = vec![in alloc; 0; OLD_END].ok()?;
    let is_put = put(&mut bytes, 0, &HEADER)
        && put(&mut bytes, 41, &AREA)
        && put(&mut bytes, 897, &SEGMENT);
    if is_put { Some(bytes) } else { None }
}

/// The file.
pub fn old_file(alloc: Global) -> Option<Vec<u8>> {
    let mut bytes = fresh(alloc)?;
    let is_put = put(&mut bytes, OLD_FRAME, &SUBMIT)
        && put(&mut bytes, 1052, &SLOTS)
        && put(&mut bytes, 1199, &SECOND)
        && put(&mut bytes, 1334, &THIRD);
    if is_put { Some(bytes) } else { None }
}

/// A disk behind a pointer: a proof spells what a function holds itself at each of its steps.
pub type Held = Box<MemoryDisk>;

/// A disk with these bytes, of which reads alone are noted.
pub fn disk_of(alloc: Global, bytes: &[u8]) -> Option<Held> {
    let disk = MemoryDisk::new(alloc, bytes, bytes.len(), 100, 100).ok()?;
    Box::new(alloc, disk).ok()
}

/// A disk with the file.
pub fn old_disk(alloc: Global) -> Option<Held> {
    disk_of(alloc, &old_file(alloc)?)
}

/// An empty disk with room for the new file.
pub fn new_disk(alloc: Global) -> Option<Held> {
    let disk = MemoryDisk::new(alloc, &[], END, 100, 60_000).ok()?;
    Box::new(alloc, disk).ok()
}

/// The bytes of a state with its set.
pub fn spelled(alloc: Global, state: &State<AnyJob>) -> Option<Vec<u8>> {
    let _total = state.columns().total();
    let mut body = vec![in alloc; 0; whole_len(state.columns().real())].ok()?;
    freeze_whole(state, &mut body);
    Some(body)
}

/// The state before the file's first command, behind a pointer.
fn begun(alloc: Global) -> Option<Box<State<AnyJob>>> {
    let set = TaskSet::new(alloc, 2, &[(2, 3), (2, 3), (2, 3)]).ok()?;
    Box::new(alloc, State::new(alloc, &set, OLD_SEGMENT).ok()?).ok()
}

/// The state that the file stands for, by its commands, as bytes.
pub fn wanted(alloc: Global) -> Option<Vec<u8>> {
    let mut state = begun(alloc)?;
    let job = AnyJob::start("rule", 3, b"110:00000001").ok()?;
    state.apply(Command::Submit { task: 0, job }).ok()?;
    for _slot in 0..3 {
        state.apply(Command::Slot).ok()?;
    }
    spelled(alloc, &state)
}

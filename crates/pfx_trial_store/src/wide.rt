//! A file of as many tasks as there may be: 1,024 of weight 1/1024 on one worker, the frame of whose new weights is longer than the longest
//! batch of its worker.

use crate::check::check;
use crate::held::held;
use crate::journal::{damaged, is_refused};
use pfx_disk::MemoryDisk;
use pfx_fault::Part;
use pfx_kinds::any::AnyJob;
use pfx_kit::frames::put;
use pfx_store::Store;
use pfx_weights::TaskSet;
use std::alloc::Global;

/// Where the first segment stands: behind a header of 8,209 bytes and two checkpoint areas.
const FIRST: usize = 8209 + 2 * (26 + 145 * 1024 + 1024);

/// How many bytes a segment has if the frame just has room: the segment's gate and number, the frame, and the next one's closed gate.
const LEAST: usize = 9 + 15 + 2 + 8 * 1024 + 1;

/// So many weights 1/1024.
fn alike(alloc: Global, count: usize) -> Option<Vec<(u32, u32)>> {
    let mut weights = Vec::new(alloc);
    for _ in 0..count {
        weights.push((1, 1024)).ok()?;
    }
    Some(weights)
}

/// The bytes of the new store's file.
fn new_file(alloc: Global, segment: u32) -> Option<Vec<u8>> {
    let set = TaskSet::new(alloc, 1, &alike(alloc, 1024)?).ok()?;
    let disk = MemoryDisk::new(alloc, &[], 400_000, 400, 1_000_000).ok()?;
    match Store::<MemoryDisk, AnyJob>::init(alloc, disk, &set, segment) {
        Ok(store) => held(alloc, &mut store.into_disk()),
        Err(_) => None,
    }
}

/// The frame of the same weights, of this number.
fn frame(alloc: Global, number: u8) -> Option<Vec<u8>> {
    let mut bytes = Vec::new(alloc);
    let head = [0xc3, 2, 0x20, 0, 0, number, 0, 0, 0, 0, 0, 0, 0, 1, 0, 4, 1];
    for byte in head {
        bytes.push(byte).ok()?;
    }
    for _task in 0..1024 {
        for byte in [1, 0, 0, 0, 0, 4, 0, 0] {
            bytes.push(byte).ok()?;
        }
    }
    Some(bytes)
}

/// The bytes of the file with the frame as the first one of the first segment, and, if that is wanted, of the second one too.
fn file_of(alloc: Global, segment: u32, twice: bool) -> Option<Vec<u8>> {
    let mut bytes = new_file(alloc, segment)?;
    let second = FIRST + segment as usize;
    let mut holds = put(&mut bytes, FIRST + 9, &frame(alloc, 1)?);
    if twice {
        holds = holds
            && put(&mut bytes, second, &[0xc3, 2])
            && put(&mut bytes, second.saturating_add(9), &frame(alloc, 2)?);
    }
    if holds { Some(bytes) } else { None }
}

/// The number and where the set came into force of the store that is opened on the file.
fn told(alloc: Global, twice: bool) -> Option<(u64, u64)> {
    let bytes = file_of(alloc, LEAST as u32, twice)?;
    let disk = MemoryDisk::new(alloc, &bytes, bytes.len(), 40, 1000).ok()?;
    let store = Store::<MemoryDisk, AnyJob>::open(alloc, disk).ok()?;
    Some((store.state().number(), store.state().from()))
}

#[test]
fn the_longest_frame_of_new_weights_just_has_room(rt: HostRuntime) {
    let alloc = rt.alloc();
    check(&rt, LEAST == 8219, "the least");
    check(&rt, told(alloc, false) == Some((1, 0)), "one");
    check(&rt, told(alloc, true) == Some((2, 0)), "one behind a turn");
}

#[test]
fn it_has_none_in_a_byte_less(rt: HostRuntime) {
    let alloc = rt.alloc();
    let bytes = file_of(alloc, 8218, false).unwrap_or(Vec::new(alloc));
    check(&rt, bytes.len() == FIRST + 2 * 8218, "the file");
    let short = damaged(FIRST + 9, Part::Frame);
    check(&rt, is_refused(alloc, &bytes, short), "the frame");
}

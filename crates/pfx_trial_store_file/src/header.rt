//! The worked bytes of a header, bytes that are no header, and the longest header.

use crate::check::{check, check_at};
use crate::thirds::thirds;
use pfx_store_header::{
    HEADER_MOST, HeaderFault, LONGEST_SEGMENT, SegmentSizeFault, check_segment, header_len, laws,
    least_segment, read_header, write_header,
};
use pfx_weights::TaskSet;
use std::alloc::Global;

/// The header of two workers, three tasks of 2/3 and segments of 8,192 bytes.
static WORKED: [u8; 41] = [
    0xC3, 0x50, 0x46, 0x58, 0x53, 0x54, 0x4F, 0x52, 0x45, 2, 2, 3, 0, 0, 0x20, 0, 0, 2, 0, 0, 0, 3,
    0, 0, 0, 2, 0, 0, 0, 3, 0, 0, 0, 2, 0, 0, 0, 3, 0, 0, 0,
];

/// The bytes of a header.
fn written(alloc: Global, set: &TaskSet, segment: u32) -> Option<Vec<u8>> {
    let mut bytes = Vec::new(alloc);
    bytes.resize(header_len(set), 0).ok()?;
    if bytes.len() != header_len(set) {
        return None;
    }
    write_header(set, segment, &mut bytes);
    Some(bytes)
}

/// The worked bytes with some bytes changed.
fn changed(changes: &[(usize, u8)]) -> [u8; 41] {
    let mut bytes = WORKED;
    for (at, byte) in changes {
        if *at < 41 {
            bytes[*at] = *byte;
        }
    }
    bytes
}

/// Whether the bytes are a header of these workers, real tasks, hyperperiod and segment's length.
fn is_read(alloc: Global, bytes: &[u8], wanted: (u32, usize, u32, u32)) -> bool {
    match read_header(alloc, bytes) {
        Ok((set, segment)) => {
            set.workers() == wanted.0
                && set.real() == wanted.1
                && set.hyper() == wanted.2
                && segment == wanted.3
        }
        Err(_) => false,
    }
}

/// Whether the bytes are refused for this.
fn is_refused(alloc: Global, bytes: &[u8], fault: HeaderFault) -> bool {
    read_header(alloc, bytes).err() == Some(fault)
}

fn worked_is_written(alloc: Global) -> Option<bool> {
    let set = thirds(alloc)?;
    let bytes = written(alloc, &set, 8192)?;
    Some(bytes.as_slice() == WORKED.as_slice())
}

#[test]
fn writes_the_worked_header(rt: HostRuntime) {
    check(&rt, worked_is_written(rt.alloc()) == Some(true), "written");
}

/// Whether the set has three tasks of 2/3.
fn is_thirds(set: &TaskSet) -> bool {
    set.total() == 3
        && set.weight(0) == (2, 3)
        && set.weight(1) == (2, 3)
        && set.weight(2) == (2, 3)
}

/// Whether the bytes of the worked header and one more are read as its set and segment.
fn front_is_read(alloc: Global) -> bool {
    let mut bytes = [7; 42];
    bytes[..41].copy_from_slice(&WORKED);
    match read_header(alloc, &bytes) {
        Ok((set, segment)) => segment == 8192 && is_thirds(&set),
        Err(_) => false,
    }
}

#[test]
fn reads_the_worked_header(rt: HostRuntime) {
    let alloc = rt.alloc();
    check(&rt, is_read(alloc, &WORKED, (2, 3, 3, 8192)), "alone");
    check(&rt, front_is_read(alloc), "before a byte");
}

#[test]
fn refuses_what_is_no_store(rt: HostRuntime) {
    let alloc = rt.alloc();
    for len in [0usize, 1, 16, 17, 40] {
        let front = WORKED.get(..len).unwrap_or(&WORKED);
        let holds = is_refused(alloc, front, HeaderFault::NotAStore);
        check_at(&rt, holds, "bytes", len);
    }
    // The gate closed, another letter, both with another version, and bytes for three tasks of four.
    let rows: [&[(usize, u8)]; 5] = [
        &[(0, 0)],
        &[(8, 0x65)],
        &[(0, 0), (9, 1)],
        &[(1, 0), (9, 1)],
        &[(11, 4)],
    ];
    for (number, row) in rows.iter().enumerate() {
        let holds = is_refused(alloc, &changed(row), HeaderFault::NotAStore);
        check_at(&rt, holds, "row", number);
    }
}

#[test]
fn refuses_other_versions(rt: HostRuntime) {
    let alloc = rt.alloc();
    // The workers don't matter.
    for (version, workers) in [(0u8, 2u8), (0, 0), (1, 2), (1, 0), (255, 2), (255, 0)] {
        let bytes = changed(&[(9, version), (10, workers)]);
        let holds = is_refused(alloc, &bytes, HeaderFault::WrongVersion { version });
        check_at(&rt, holds, "version", usize::from(version));
    }
}

#[test]
fn refuses_what_is_damaged(rt: HostRuntime) {
    let alloc = rt.alloc();
    let rows: [&[(usize, u8)]; 10] = [
        // No workers and too many; no tasks, and 1,025, for which there aren't enough bytes.
        &[(10, 0)],
        &[(10, 65)],
        &[(11, 0)],
        &[(11, 1), (12, 4)],
        // A weight of none and of all slots, more work than workers, and a hyperperiod past its limit.
        &[(17, 0)],
        &[(17, 3)],
        &[(10, 1)],
        &[(23, 16)],
        // A segment a byte too short, and one a byte too long.
        &[(13, 0x88), (14, 0x10)],
        &[(13, 1), (14, 0), (15, 0), (16, 1)],
    ];
    for (number, row) in rows.iter().enumerate() {
        let holds = is_refused(alloc, &changed(row), HeaderFault::Damaged);
        check_at(&rt, holds, "row", number);
    }
}

#[test]
fn takes_the_limits(rt: HostRuntime) {
    let alloc = rt.alloc();
    let least = changed(&[(13, 0x89), (14, 0x10)]);
    check(&rt, is_read(alloc, &least, (2, 3, 3, 4233)), "the least");
    let longest = changed(&[(14, 0), (16, 1)]);
    let holds = is_read(alloc, &longest, (2, 3, 3, 16_777_216));
    check(&rt, holds, "the longest");
}

#[test]
fn tests_the_segment(rt: HostRuntime) {
    let Some(set) = thirds(rt.alloc()) else {
        return check(&rt, false, "three tasks of 2/3");
    };
    check(&rt, least_segment(&set) == 4233, "the least");
    let rows = [
        (4232, Err(SegmentSizeFault::SegmentTooSmall { least: 4233 })),
        (4233, Ok(())),
        (LONGEST_SEGMENT, Ok(())),
        (16_777_217, Err(SegmentSizeFault::SegmentTooLarge)),
    ];
    for (segment, answer) in rows {
        let holds = check_segment(&set, segment) == answer;
        check_at(&rt, holds, "segment", segment as usize);
    }
}

/// 1,024 tasks of 1/1024 to 64/1024.
fn many_tasks(alloc: Global) -> Option<Vec<(u32, u32)>> {
    let mut tasks = Vec::new(alloc);
    for task in 0..1024u32 {
        tasks.push((1 + task % 64, 1024)).ok()?;
    }
    Some(tasks)
}

/// Whether the set's first tasks are these.
fn begins_with(set: &TaskSet, tasks: &[(u32, u32)]) -> bool {
    let mut same = true;
    for (task, weight) in tasks.iter().enumerate() {
        if task < set.total() && set.weight(task) != *weight {
            same = false;
        }
    }
    same
}

fn many_are_read(alloc: Global, bytes: &[u8], tasks: &[(u32, u32)]) -> bool {
    match read_header(alloc, bytes) {
        Ok((again, _segment)) => begins_with(&again, tasks),
        Err(_) => false,
    }
}

fn many_are_written_and_read(alloc: Global) -> Option<bool> {
    let tasks = many_tasks(alloc)?;
    let set = TaskSet::new(alloc, 64, &tasks).ok()?;
    let bytes = written(alloc, &set, 200_000)?;
    let same = is_read(alloc, &bytes, (64, 1024, 1024, 200_000));
    Some(bytes.len() == HEADER_MOST && same && many_are_read(alloc, &bytes, &tasks))
}

#[test]
fn reads_the_longest_header(rt: HostRuntime) {
    check(&rt, HEADER_MOST == 8209, "the most bytes");
    let holds = many_are_written_and_read(rt.alloc()) == Some(true);
    check(&rt, holds, "1,024 tasks on 64 workers");
}

fn version_is_named(alloc: Global) -> Option<bool> {
    let fault = HeaderFault::WrongVersion { version: 1 };
    let words = format!(in alloc; "{}", fault).ok()?;
    Some(words.as_str() == "the store has version 1")
}

fn least_is_named(alloc: Global) -> Option<bool> {
    let fault = SegmentSizeFault::SegmentTooSmall { least: 4233 };
    let words = format!(in alloc; "{}", fault).ok()?;
    Some(words.as_str() == "a segment takes 4233 bytes at the least")
}

#[test]
fn says_why_in_words(rt: HostRuntime) {
    check(&rt, version_is_named(rt.alloc()) == Some(true), "version");
    check(&rt, least_is_named(rt.alloc()) == Some(true), "least");
}

#[test]
fn laws_hold() {
    laws::bytes_are_read_as_they_are_written();
    laws::what_is_read_is_a_header();
    laws::what_is_written_is_read();
    laws::header_is_read_alone();
    laws::front_is_enough();
    laws::what_is_refused_is_of_the_header();
    laws::closed_gate_is_no_store();
}

//! Logs that are written and read.

use crate::check::{check, check_at};
use crate::log_vector::{
    BEFORE, FRAMES, GATES, LEN, LOG, NUMBERS, STATE, VERSION, append, block_at, disk_of,
    ends_behind, header_of, held, written,
};
use pfx_disk::Disk;
use pfx_log::laws::{one_head, one_log, unmade_holds_none};
use pfx_log::{AppendFault, CreateLogFault, Damage, LogBlock, LogFault, LogFile, LogPlace, MOST};
use std::alloc::Global;

/// Whether a log of three blocks takes 7 calls and 4 each, and has these very bytes.
fn is_written(alloc: Global) -> Option<bool> {
    let file = written(alloc, 3)?;
    let calls = file.disk.clock();
    let is_there = ends_behind(file.place.at, file.place.last, 3);
    let mut disk = file.into_disk();
    let bytes = held(alloc, &mut disk)?;
    Some(calls == 7 + 3 * 4 && is_there && bytes.as_slice() == LOG.as_slice())
}

#[test]
fn a_log_has_the_bytes_that_another_program_wrote(rt: HostRuntime) {
    check(&rt, is_written(rt.alloc()) == Some(true), "the bytes");
    one_log();
    one_head();
    unmade_holds_none();
}

/// Whether the block is the one of this place in the tables, and ends there.
fn is_block(block: &LogBlock, place: &LogPlace, at: usize) -> bool {
    let Some((first, last)) = NUMBERS.get(at) else {
        return false;
    };
    let is_its = block.first == *first && block.last == *last;
    let Some(frames) = FRAMES.get(at) else {
        return false;
    };
    let Some(end) = GATES.get(at.saturating_add(1)) else {
        return false;
    };
    is_its && block.frames.as_slice() == *frames && place.at == *end && place.last == *last
}

/// Whether the header and the three blocks are read, and then the end.
fn is_read(alloc: Global) -> Option<bool> {
    let mut disk = disk_of(alloc, &LOG)?;
    let (header, mut place) = header_of(alloc, &mut disk)?;
    let is_its = header.version == VERSION && header.before == BEFORE;
    if !is_its || header.state.as_slice() != STATE.as_slice() {
        return None;
    }
    for at in 0..3 {
        let (block, next) = block_at(alloc, &mut disk, place)??;
        if !is_block(&block, &next, at) {
            return None;
        }
        place = next;
    }
    let is_end = block_at(alloc, &mut disk, place)?.is_none();
    Some(is_end && place.head.as_slice() == &LOG[205..237])
}

#[test]
fn its_parts_are_read(rt: HostRuntime) {
    check(&rt, is_read(rt.alloc()) == Some(true), "the parts");
}

/// Whether blocks that don't go on are refused, with no call.
fn is_kept_whole(alloc: Global) -> Option<bool> {
    let mut file = written(alloc, 1)?;
    let calls = file.disk.clock();
    let gap = file.append(alloc, 8, 9, &[1]) == Err(AppendFault::Gap);
    let again = file.append(alloc, 6, 9, &[1]) == Err(AppendFault::Gap);
    let back = file.append(alloc, 7, 6, &[1]) == Err(AppendFault::Gap);
    let none = file.append(alloc, 0, 6, &[1]) == Err(AppendFault::Gap);
    let mut frames = Vec::new(alloc);
    frames.resize(MOST + 1, 0).ok()?;
    let long = file.append(alloc, 7, 7, &frames) == Err(AppendFault::TooLong);
    let is_same = file.disk.clock() == calls && ends_behind(file.place.at, file.place.last, 1);
    Some(gap && again && back && none && long && is_same && !file.broken)
}

/// Whether a block that is put together in room that was handed in is the one that `append` writes, with as many calls, and no room is lost.
fn is_the_same_block(alloc: Global) -> Option<bool> {
    let mut one = written(alloc, 1)?;
    let mut other = written(alloc, 1)?;
    let mut room = Vec::with_capacity(alloc, 60).ok()?;
    one.append(alloc, 7, 9, &[1, 2, 3]).ok()?;
    other.append_in(&mut room, 7, 9, &[1, 2, 3]).ok()?;
    let calls = one.disk.clock() == other.disk.clock();
    let place = one.place.at == other.place.at && one.place.head == other.place.head;
    let (mut one, mut other) = (one.into_disk(), other.into_disk());
    let same = held(alloc, &mut one)?.as_slice() == held(alloc, &mut other)?.as_slice();
    Some(calls && place && same && room.capacity() >= 60)
}

#[test]
fn room_that_is_handed_in_serves(rt: HostRuntime) {
    check(
        &rt,
        is_the_same_block(rt.alloc()) == Some(true),
        "the block",
    );
}

/// Whether a disk that holds a byte gets no log.
fn is_left_alone(alloc: Global) -> Option<bool> {
    let disk = disk_of(alloc, &[7])?;
    match LogFile::create(alloc, disk, VERSION, &STATE, BEFORE) {
        Err((CreateLogFault::NotEmpty, mut disk)) => {
            let calls = disk.clock();
            Some(calls == 1 && held(alloc, &mut disk)?.as_slice() == [7].as_slice())
        }
        _ => Some(false),
    }
}

#[test]
fn what_does_not_go_on_is_refused(rt: HostRuntime) {
    check(&rt, is_kept_whole(rt.alloc()) == Some(true), "a block");
    check(&rt, is_left_alone(rt.alloc()) == Some(true), "a byte");
}

/// The fault of these bytes.
fn fault_of(alloc: Global, bytes: &[u8]) -> Option<LogFault> {
    match LogFile::open(alloc, disk_of(alloc, bytes)?) {
        Ok(_) => None,
        Err((fault, _)) => Some(fault),
    }
}

/// Whether the bytes with another one at this place are refused, or hold a shorter log where a gate was closed or the state's
/// length changed: what stands behind a closed gate isn't read.
fn is_noticed(alloc: Global, at: usize, other: u8) -> Option<bool> {
    let mut bytes = LOG;
    if at >= bytes.len() {
        return None;
    }
    bytes[at] = other;
    match LogFile::open(alloc, disk_of(alloc, &bytes)?) {
        Ok(file) => {
            let is_gate = at == 57 || at == 117 || at == 179;
            let is_len = 11 <= at && at < 15;
            let is_shorter = (is_gate || is_len) && file.place.at < 237;
            Some(is_shorter || at == 237 && file.place.at == 237)
        }
        Err((LogFault::NotALog, _)) => Some(at < 9),
        Err((LogFault::WrongVersion { version }, _)) => Some(at == 9 && version == other),
        Err((LogFault::TooLong { at: part }, _)) => Some(part <= at),
        // The header is hashed with the first block, which begins with the number behind the state's.
        Err((LogFault::Damaged { at: part, what }, _)) => {
            let is_head = what == Damage::Head || what == Damage::Number && at < 23;
            Some(part <= at || part == 57 && is_head)
        }
        Err(_) => Some(false),
    }
}

#[test]
fn each_byte_counts(rt: HostRuntime) {
    let alloc = rt.alloc();
    for at in 0..LEN {
        for change in [1, 0x40, 0xC3] {
            let other = LOG[at] ^ change;
            check_at(&rt, is_noticed(alloc, at, other) == Some(true), "byte", at);
        }
    }
}

/// The bytes, and why they are refused.
#[test]
fn each_fault_is_named(rt: HostRuntime) {
    let alloc = rt.alloc();
    let mut closed = LOG;
    closed[0] = 0;
    check(
        &rt,
        fault_of(alloc, &closed) == Some(LogFault::NotALog),
        "gate",
    );
    check(
        &rt,
        fault_of(alloc, &LOG[..14]) == Some(LogFault::NotALog),
        "cut front",
    );
    let header = LogFault::Damaged {
        at: 0,
        what: Damage::Header,
    };
    check(
        &rt,
        fault_of(alloc, &LOG[..56]) == Some(header),
        "cut header",
    );
    let block = LogFault::Damaged {
        at: 237,
        what: Damage::Block,
    };
    check(
        &rt,
        fault_of(alloc, &LOG[..237]) == Some(block),
        "no gate behind",
    );
    let mut long = LOG;
    long[61] = 2;
    check(
        &rt,
        fault_of(alloc, &long) == Some(LogFault::TooLong { at: 57 }),
        "long",
    );
    let mut number = LOG;
    number[66] = 7;
    let gap = LogFault::Damaged {
        at: 57,
        what: Damage::Number,
    };
    check(&rt, fault_of(alloc, &number) == Some(gap), "number");
    let mut frame = LOG;
    frame[204] = 8;
    let head = LogFault::Damaged {
        at: 179,
        what: Damage::Head,
    };
    check(&rt, fault_of(alloc, &frame) == Some(head), "head");
}

/// Whether a log is written and read where an allocation may fail: what is asked once more is answered.
fn is_asked_again(alloc: Global) -> Option<bool> {
    let mut disk = disk_of(alloc, &[]).or(disk_of(alloc, &[]))?;
    let mut file = match LogFile::create(alloc, disk, VERSION, &STATE, BEFORE) {
        Ok(file) => file,
        Err((CreateLogFault::NoMemory, back)) => {
            LogFile::create(alloc, back, VERSION, &STATE, BEFORE).ok()?
        }
        Err(_) => return Some(false),
    };
    for block in 0..3 {
        if append(alloc, &mut file, block) == Err(AppendFault::NoMemory) {
            append(alloc, &mut file, block).ok()?;
        }
    }
    disk = file.into_disk();
    match LogFile::open(alloc, disk) {
        Ok(file) => Some(file.place.at == 237),
        Err((LogFault::NoMemory, back)) => {
            Some(LogFile::open(alloc, back).ok()?.place.at == 237)
        }
        Err(_) => Some(false),
    }
}

// Run with each allocation failing in turn too.
#[test]
fn refused_memory_changes_nothing(rt: HostRuntime) {
    check(&rt, is_asked_again(rt.alloc()) == Some(true), "asked again");
}

//! A log of three blocks, whose bytes a plain program in Python wrote, with the hashes of hashlib: a state of ten bytes with the
//! number 5, a head before it, and the commands 6, 7 to 9, and 10.

use pfx_disk::{Disk, Fate, GATE_OPEN, MemoryDisk};
use pfx_log::{AppendFault, LogBlock, LogFile, LogHeader, LogPlace, read_block, read_header};
use std::alloc::Global;

pub static STATE: [u8; 10] = [5, 0, 0, 0, 0, 0, 0, 0, 0xAA, 0xBB];

/// The version of the store's file.
pub const VERSION: u8 = 2;

/// The head of the log before.
pub static BEFORE: [u8; 32] = [
    0, 1, 2, 3, 4, 5, 6, 7, 8, 9, 10, 11, 12, 13, 14, 15, 16, 17, 18, 19, 20, 21, 22, 23, 24, 25,
    26, 27, 28, 29, 30, 31,
];

pub static FRAMES: [&[u8]; 3] = [&[1, 2, 3], &[0xC3, 5, 6, 7, 8], &[9]];

/// The numbers of each block's first and last command.
pub static NUMBERS: [(u64, u64); 3] = [(6, 6), (7, 9), (10, 10)];

/// The places of the blocks' gates, and of the closed one behind them.
pub static GATES: [usize; 4] = [57, 117, 179, 237];

pub const LEN: usize = 238;

pub static LOG: [u8; 238] = [
    0xC3, 0x50, 0x46, 0x58, 0x41, 0x55, 0x44, 0x49, 0x54, 0x01, 0x02, 0x0A, 0x00, 0x00, 0x00, 0x05,
    0x00, 0x00, 0x00, 0x00, 0x00, 0x00, 0x00, 0xAA, 0xBB, 0x00, 0x01, 0x02, 0x03, 0x04, 0x05, 0x06,
    0x07, 0x08, 0x09, 0x0A, 0x0B, 0x0C, 0x0D, 0x0E, 0x0F, 0x10, 0x11, 0x12, 0x13, 0x14, 0x15, 0x16,
    0x17, 0x18, 0x19, 0x1A, 0x1B, 0x1C, 0x1D, 0x1E, 0x1F, 0xC3, 0x03, 0x00, 0x00, 0x00, 0x00, 0x00,
    0x00, 0x00, 0x06, 0x00, 0x00, 0x00, 0x00, 0x00, 0x00, 0x00, 0x06, 0x00, 0x00, 0x00, 0x00, 0x00,
    0x00, 0x00, 0x01, 0x02, 0x03, 0xD3, 0x0B, 0xCC, 0xD1, 0xB0, 0xB0, 0x8C, 0x87, 0x4F, 0xD6, 0xC9,
    0x44, 0x78, 0xC8, 0x31, 0xB8, 0x99, 0x03, 0x57, 0x23, 0xBA, 0x46, 0xE5, 0x58, 0x26, 0x37, 0x0E,
    0x26, 0x86, 0x13, 0x1E, 0x9D, 0xC3, 0x05, 0x00, 0x00, 0x00, 0x00, 0x00, 0x00, 0x00, 0x07, 0x00,
    0x00, 0x00, 0x00, 0x00, 0x00, 0x00, 0x09, 0x00, 0x00, 0x00, 0x00, 0x00, 0x00, 0x00, 0xC3, 0x05,
    0x06, 0x07, 0x08, 0x59, 0x71, 0x9F, 0x55, 0x1D, 0x1F, 0x59, 0xA3, 0x82, 0x00, 0x75, 0x70, 0xF2,
    0xAA, 0xE1, 0x61, 0x97, 0x30, 0xDE, 0x02, 0xBC, 0x97, 0xAA, 0x64, 0xF1, 0x91, 0xD2, 0x5E, 0x45,
    0xFA, 0x37, 0x93, 0xC3, 0x01, 0x00, 0x00, 0x00, 0x00, 0x00, 0x00, 0x00, 0x0A, 0x00, 0x00, 0x00,
    0x00, 0x00, 0x00, 0x00, 0x0A, 0x00, 0x00, 0x00, 0x00, 0x00, 0x00, 0x00, 0x09, 0x65, 0xA0, 0x0E,
    0xEB, 0x1F, 0x32, 0x92, 0x8D, 0x87, 0x31, 0x14, 0x76, 0x20, 0x53, 0x06, 0x0A, 0x9F, 0x3B, 0xA3,
    0xFE, 0x43, 0x70, 0x69, 0xFB, 0xD1, 0x04, 0xDE, 0x37, 0x7D, 0x05, 0x16, 0xDF, 0x00,
];

/// The fates of the writes that no sync followed.
pub static FATES: [Fate; 3] = [Fate::Dropped, Fate::Kept, Fate::Filled(GATE_OPEN)];

/// A disk that holds these bytes, with room for what the tests do.
pub fn disk_of(alloc: Global, bytes: &[u8]) -> Option<MemoryDisk> {
    if bytes.len() > 1000 {
        return None;
    }
    MemoryDisk::new(alloc, bytes, 1000, 100, 2000).ok()
}

/// All bytes of the disk.
pub fn held<D: Disk>(alloc: Global, disk: &mut D) -> Option<Vec<u8>> {
    let n = disk.len().ok()?;
    let mut out = Vec::new(alloc);
    out.resize(n, 0).ok()?;
    disk.read(0, &mut out).ok()?;
    Some(out)
}

/// Appends the block of this place in the tables.
pub fn append<D: Disk>(
    alloc: Global,
    file: &mut LogFile<D>,
    block: usize,
) -> Result<(), AppendFault> {
    match (NUMBERS.get(block), FRAMES.get(block)) {
        (Some((first, last)), Some(frames)) => file.append(alloc, *first, *last, frames),
        _ => Err(AppendFault::Gap),
    }
}

/// The log with so many of its blocks on a new disk, as it is written.
pub fn written(alloc: Global, blocks: usize) -> Option<LogFile<MemoryDisk>> {
    let disk = disk_of(alloc, &[])?;
    let mut file = LogFile::create(alloc, disk, VERSION, &STATE, BEFORE).ok()?;
    for block in 0..blocks {
        append(alloc, &mut file, block).ok()?;
    }
    Some(file)
}

/// Whether the log ends behind so many blocks.
pub fn ends_behind(at: usize, last: u64, blocks: usize) -> bool {
    let number = match blocks {
        0 => 5,
        1 => 6,
        2 => 9,
        _ => 10,
    };
    GATES.get(blocks) == Some(&at) && last == number
}

/// Behind how many blocks the log ends that the disk holds, as it is opened.
pub fn blocks_of<D: Disk + Drop>(alloc: Global, disk: D) -> Option<usize> {
    let file = LogFile::open(alloc, disk).ok()?;
    for blocks in 0..4 {
        if ends_behind(file.place.at, file.place.last, blocks) {
            return Some(blocks);
        }
    }
    None
}

/// The header that the disk holds, and the place behind it.
pub fn header_of<D: Disk>(alloc: Global, disk: &mut D) -> Option<(LogHeader, LogPlace)> {
    let len = disk.len().ok()?;
    read_header(alloc, disk, len).ok()
}

/// The block at this place, or none at the log's end.
pub fn block_at<D: Disk>(
    alloc: Global,
    disk: &mut D,
    place: LogPlace,
) -> Option<Option<(LogBlock, LogPlace)>> {
    let len = disk.len().ok()?;
    if place.at > len {
        return None;
    }
    read_block(alloc, disk, len, place).ok()
}

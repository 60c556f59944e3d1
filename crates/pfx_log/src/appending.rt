// Appending a block.
//
// Why it is so:
// - **A block's bytes are put together in memory**, at most 16,777,273 of them, and written by one call, so that an append takes four.
//   The bound is that of a segment.
ghost use Rattle.std.specs.Prelude.{◌≡◌, ◌≢◌, ◌≤◌, ◌<◌, ◌+◌, ◌^◌, length, vec_capacity, MatchResult, OnOk, IsErrOf, true, false};
ghost use Rattle.pfx_log.specs.Files.{Appends, IsAppend, IsBehind, IsLeftBy, IsOpen, IsRefused};
ghost use Rattle.pfx_log.specs.Logs.{Log, block_of};
ghost use Rattle.pfx_log.specs.declared.faults.AppendFault.TheVariants.{NoMemory};

use crate::faults::AppendFault;
use crate::file::LogFile;
use crate::heads::{head_of, put_block};
use crate::place::{LogPlace, MOST};
use crate::putting::put_behind;
use pfx_disk::Disk;
use std::alloc::Global;

/// A log that is so long gets no further block.
const LONGEST: usize = 1 << 62;

impl<D: Disk> LogFile<D> {
    // Whether a block of these numbers, with frames of so many bytes, is appended: else why not.
    fn admits(&self, first: u64, last: u64, long: usize) -> Result<(), AppendFault>
        ensures { MatchResult result
            (λ _. (self.now.broken ≡ false) × (first ≡ self.now.place.last + 1) × (first ≤ last) × (long ≤ MOST) × (self.now.place.at < 2 ^ 62))
            (λ fault. IsRefused self.now.place first last long fault × IsLeftBy self.now self.now fault × (fault ≢ NoMemory)) }
    {
        if self.broken {
            return Err(AppendFault::Broken);
        }
        if first == 0 || first - 1 != self.place.last || last < first {
            return Err(AppendFault::Gap);
        }
        if long > MOST {
            return Err(AppendFault::TooLong);
        }
        if self.place.at >= LONGEST {
            return Err(AppendFault::Full);
        }
        Ok(())
    }

    /// Appends a block: the frames of commands with the numbers `first` to `last`, by four calls of the disk. The block is written behind the
    /// closed gate that ends the log, with the next closed gate as its last byte, and synced; then the gate is opened and synced.
    ///
    /// `first` is the number behind the last one. At every moment of the call each image that a stop may leave holds the log as before, or
    /// with the block, whole; after success only the latter. `NoMemory` comes only if an allocation failed; it, `Gap` for numbers that don't
    /// go on, `TooLong` for frames of more than 16,777,216 bytes and `Full` for a log of 2^62 bytes come before any call, and leave the log
    /// as it was. `Device` comes only if the disk failed: then the log is broken, and each further append answers `Broken`.
    pub fn append(
        &mut self,
        alloc: Global,
        first: u64,
        last: u64,
        frames: &[u8],
    ) -> Result<(), AppendFault>
        ensures call { IsAppend self.old self.new result first last (length frames.now) }
        ensures place { OnOk result (IsBehind self.old.place (block_of first last frames.now) self.new.place) }
        // Of an open log.
        ensures appends { (log : Log) → IsOpen log self.old → Appends self.old self.new result log (block_of first last frames.now) }
    {
        if let Err(fault) = self.admits(first, last, frames.len()) {
            return Err(fault);
        }
        let Ok(mut room) = Vec::with_capacity(alloc, 57 + frames.len()) else {
            return Err(AppendFault::NoMemory);
        };
        self.append_in(&mut room, first, last, frames)
    }

    /// Appends a block as `append` does, and takes no memory: the block is put together in this room, which has 57 bytes more than the frames.
    /// What was in it is lost, but not the room. It never answers `NoMemory`.
    pub fn append_in(
        &mut self,
        room: &mut Vec<u8>,
        first: u64,
        last: u64,
        frames: &[u8],
    ) -> Result<(), AppendFault>
        requires room { 57 + length frames.now ≤ vec_capacity room.old }
        ensures call { IsAppend self.old self.new result first last (length frames.now) }
        ensures place { OnOk result (IsBehind self.old.place (block_of first last frames.now) self.new.place) }
        // Of an open log.
        ensures appends { (log : Log) → IsOpen log self.old → Appends self.old self.new result log (block_of first last frames.now) }
        ensures no_memory { ¬ IsErrOf result NoMemory }
        ensures capacity { vec_capacity room.old ≤ vec_capacity room.new }
    {
        if let Err(fault) = self.admits(first, last, frames.len()) {
            return Err(fault);
        }
        let head = head_of(&self.place.head, first, last, frames);
        put_block(room, first, last, frames, &head);
        self.broken = true;
        put_behind(&mut self.disk, self.place.at, room)?;
        self.place = LogPlace {
            at: self.place.at + room.len(),
            last,
            head,
        };
        self.broken = false;
        Ok(())
    }
}

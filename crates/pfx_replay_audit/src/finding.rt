// The block of a log that has a command.
ghost use Rattle.std.specs.Prelude.{◌≡◌, ◌≤◌, [], List, ℕ};
ghost use Rattle.pfx_log.specs.Holding.{Begins};
ghost use Rattle.pfx_log.specs.Logs.{Log};
ghost use Rattle.pfx_log.specs.Reading.{HasLen, ReadsHeld};
ghost use Rattle.pfx_replay_audit.specs.Finding.{FoundAnswer};

use pfx_disk::Disk;
use pfx_log::{LogBlock, LogFault, LogPlace, read_block, read_header};
use std::alloc::Global;

// The block that has the command of this number, of those that stand behind a place, the log's first.
fn find_from<L: Disk>(
    alloc: Global,
    disk: &mut L,
    len: usize,
    first: LogPlace,
    number: u64,
) -> Result<Option<(LogBlock, LogPlace)>, LogFault>
    requires len { HasLen len (L.view disk.old) }
    requires inside { first.at ≤ len }
    ensures { ReadsHeld (L.view disk.old) (L.view disk.new) result (λ bytes.
        (log : Log) → log.blocks ≡ [] → Begins log first bytes → FoundAnswer number result bytes) }
{
    let mut place = first;
    'walk: loop {
        let Some((block, next)) = read_block(alloc, disk, len, place)? else {
            return Ok(None);
        };
        if block.first <= number && number <= block.last {
            return Ok(Some((block, next)));
        }
        place = next;
    }
}

/// The block of a log that has the command of this number, and the place behind it, which has the block's head; `None` if no block of the
/// log has it.
///
/// A fault is the log's own, of the part up to there. One block is in memory at a time, and nothing is written.
pub fn find_block<L: Disk>(
    alloc: Global,
    disk: &mut L,
    number: u64,
) -> Result<Option<(LogBlock, LogPlace)>, LogFault>
    ensures { ReadsHeld (L.view disk.old) (L.view disk.new) result (FoundAnswer number result) }
{
    let len = disk.len()?;
    let (_, first) = read_header(alloc, disk, len)?;
    find_from(alloc, disk, len, first, number)
}

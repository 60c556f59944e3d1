// Opening a log.
//
// Why it is so:
// - **Opening reads each block and checks its head**, in four calls and with one buffer: constant memory, and time in the log's length.
//   A caller that knows a place may go on from there (`read_block`).
ghost use Rattle.std.specs.Prelude.{◌≡◌, ◌≤◌, List, ℕ, IfErr, IfOk, MatchResult, OnOk};
ghost use Rattle.pfx_disk.specs.Disk.{HasFailed, IsHonest, Only};
ghost use Rattle.pfx_log.specs.Faults.{IsFault, IsOfMachine};
ghost use Rattle.pfx_log.specs.Files.{IsOpen};
ghost use Rattle.pfx_log.specs.Holding.{Begins, Holds};
ghost use Rattle.pfx_log.specs.Logs.{Log};
ghost use Rattle.pfx_log.specs.Reading.{EndAnswer, HasLen, Looks, ReadsHeld};

use crate::faults::LogFault;
use crate::file::LogFile;
use crate::place::LogPlace;
use crate::reading::{read_block, read_header};
use pfx_disk::Disk;
use std::alloc::Global;

// Where a log ends that has this place.
fn find_end<D: Disk>(
    alloc: Global,
    disk: &mut D,
    len: usize,
    first: LogPlace,
) -> Result<LogPlace, LogFault>
    requires len { HasLen len (D.view disk.old) }
    requires inside { first.at ≤ len }
    ensures { ReadsHeld (D.view disk.old) (D.view disk.new) result (λ bytes.
        (log : Log) → Begins log first bytes → EndAnswer result bytes) }
{
    let mut place = first;
    'walk: loop {
        let Some((_, next)) = read_block(alloc, disk, len, place)? else {
            return Ok(place);
        };
        place = next;
    }
}

// Where the log ends that the disk holds, after a sync.
fn find<D: Disk>(alloc: Global, disk: &mut D) -> Result<LogPlace, LogFault>
    ensures read { ReadsHeld (D.view disk.old) (D.view disk.new) result (EndAnswer result) }
    ensures durable { IsHonest (D.view disk.old) → OnOk result (Only (D.view disk.old).contents (D.view disk.new)) }
{
    disk.sync()?;
    let len = disk.len()?;
    let (_, place) = read_header(alloc, disk, len)?;
    find_end(alloc, disk, len, place)
}

impl<D: Disk> LogFile<D> {
    /// Opens a log: a sync, and then reads alone. With a fault the disk comes back.
    ///
    /// Memory is taken for the state or one block at a time. The log is the one that the disk's bytes hold, and blocks can be appended: the gate
    /// behind it is closed in each image that a stop may leave. Without the sync it might be open in one of them, behind a write that a stop
    /// had cut short. A fault names the first part, from the front, that isn't a log's, as `read_header` and `read_block` say; then no log
    /// is held. `NoMemory` and `Device` come only if an allocation or the disk failed. Nothing is written.
    pub fn open(alloc: Global, disk: D) -> Result<LogFile<D>, (LogFault, D)>
        // The log that is held, and it is open.
        ensures opened { IsHonest (D.view disk) → IfOk result (λ file.
            (log : Log) × Holds (D.view disk).contents log × IsOpen log file) }
        ensures refused { IsHonest (D.view disk) → IfErr result (λ e. IsFault e.0 (D.view disk).contents) }
        ensures none { IsHonest (D.view disk) → IfErr result (λ e.
            (log : Log) → Holds (D.view disk).contents log → IsOfMachine e.0) }
        ensures device { IfErr result (λ e. e.0 ≡ LogFault.Device → HasFailed (D.view disk) (D.view e.1)) }
        // Nothing is written.
        ensures looks { MatchResult result (λ file. Looks (D.view disk) (D.view file.disk)) (λ e. Looks (D.view disk) (D.view e.1)) }
    {
        let mut disk = disk;
        match find(alloc, &mut disk) {
            Ok(place) => Ok(LogFile {
                disk,
                place,
                broken: false,
            }),
            Err(fault) => Err((fault, disk)),
        }
    }
}

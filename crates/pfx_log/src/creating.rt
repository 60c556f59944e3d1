// Making a new log.
ghost use Rattle.std.specs.Prelude.{◌≡◌, ◌≤◌, ◌<◌, ◌∷◌, [], length, IfErr, IfOk, MatchResult, OnOk};
ghost use Rattle.pfx_disk.specs.Disk.{IsHonest};
ghost use Rattle.pfx_log.specs.Files.{IsCreateFault, IsOpen, Makes};
ghost use Rattle.pfx_log.specs.Acts.{Begun, MakesPlace};
ghost use Rattle.pfx_log.specs.Logs.{new_log};

use crate::faults::CreateLogFault;
use crate::file::LogFile;
use crate::heads::{first_head, header_and_gate};
use crate::place::{LogPlace, MOST};
use crate::putting::put_behind;
use byteorder::{ByteOrder, LittleEndian};
use pfx_disk::Disk;
use std::alloc::Global;

// Writes a closed gate onto an empty disk, by three calls.
fn begin<D: Disk>(disk: &mut D) -> Result<(), CreateLogFault>
    ensures begun { Begun (D.view disk.old) (D.view disk.new) result }
    ensures fault { IfErr result (IsCreateFault (D.view disk.old) (D.view disk.new)) }
{
    if disk.len()? != 0 {
        return Err(CreateLogFault::NotEmpty);
    }
    disk.write_at(0, &[0])?;
    disk.sync()?;
    Ok(())
}

// Writes a new log onto an empty disk, and answers where it ends.
fn write_new<D: Disk>(
    alloc: Global,
    disk: &mut D,
    version: u8,
    state: &[u8],
    before: &[u8; 32],
) -> Result<LogPlace, CreateLogFault>
    requires some { 8 ≤ length state.now }
    requires most { length state.now ≤ MOST }
    ensures makes { Makes (new_log version state.now before.now) (D.view disk.old) (D.view disk.new) result }
    ensures fault { IfErr result (IsCreateFault (D.view disk.old) (D.view disk.new)) }
    ensures place { IfOk result (MakesPlace (new_log version state.now before.now) (D.view disk.old) (D.view disk.new)) }
{
    let head = first_head(version, state, &before[..]);
    let bytes = header_and_gate(alloc, version, state, &before[..])?;
    begin(disk)?;
    put_behind(disk, 0, &bytes)?;
    Ok(LogPlace {
        at: bytes.len(),
        last: LittleEndian::read_u64(state),
        head,
    })
}

impl<D: Disk> LogFile<D> {
    /// Makes a new log on an empty disk, and opens it, by seven calls: `state` is what it begins at, of a store's file of this version, and
    /// `before` the head of the log before, or zeros. A state has 8 to 16,777,216 bytes, and the first 8 are the number of its last command:
    /// the first block begins with the next. With a fault the disk comes back.
    ///
    /// At every moment of the call what was empty is no log yet, which is a byte at most or a closed first gate, or this one, whole; after
    /// success it is this one. `NoMemory` comes only if an allocation failed, before any call; `Device` only if the disk failed; and
    /// `NotEmpty` if the disk holds bytes already, which are left as they are.
    pub fn create(
        alloc: Global,
        disk: D,
        version: u8,
        state: &[u8],
        before: [u8; 32],
    ) -> Result<LogFile<D>, (CreateLogFault, D)>
        requires some { 8 ≤ length state.now }
        requires most { length state.now ≤ MOST }
        // At every moment of the call, whatever it answers.
        ensures makes { let log = new_log version state.now before in MatchResult result
            (λ file. Makes log (D.view disk) (D.view file.disk) result) (λ e. Makes log (D.view disk) (D.view e.1) result) }
        ensures fault { IfErr result (λ e. IsCreateFault (D.view disk) (D.view e.1) e.0) }
        ensures opened { IsHonest (D.view disk) → IfOk result (λ file. ((D.view disk).contents ≡ []) × IsOpen (new_log version state.now before) file) }
    {
        let mut disk = disk;
        match write_new(alloc, &mut disk, version, state, &before) {
            Ok(place) => Ok(LogFile {
                disk,
                place,
                broken: false,
            }),
            Err(fault) => Err((fault, disk)),
        }
    }
}

// The reads of a log: each is one call of the disk.
ghost use Rattle.std.specs.Prelude.{◌≡◌, ◌↔◌, ◌+◌, ◌++◌, ◌≤◌, length, take, drop, slice_index, IfOk, IsTrue, MatchResult};
ghost use Rattle.byteorder.specs.Endian.{little_bytes};
ghost use Rattle.pfx_disk.specs.declared.gates.TheConstants.{GATE_OPEN};
ghost use Rattle.pfx_log.specs.Faults.{IsOfMachine};
ghost use Rattle.pfx_log.specs.Reading.{ReadsHeld, Reaches};

use crate::faults::LogFault;
use byteorder::{ByteOrder, LittleEndian};
use pfx_disk::{Disk, GATE_OPEN};
use std::alloc::Global;

/// Whether the gate at this place is open.
pub fn is_open<D: Disk>(disk: &mut D, at: usize) -> Result<bool, LogFault>
    requires { Reaches (at + 1) (D.view disk.old) }
    ensures { ReadsHeld (D.view disk.old) (D.view disk.new) result (λ bytes.
        MatchResult result (λ is_open. IsTrue is_open ↔ (slice_index bytes at ≡ GATE_OPEN)) IsOfMachine) }
{
    let mut gate = [0];
    disk.read(at, &mut gate)?;
    Ok(gate[0] == GATE_OPEN)
}

// The numbers that 24 bytes are.
fn numbers_in(bytes: &[u8]) -> (u64, u64, u64)
    requires { length bytes.now ≡ 24 }
    ensures { bytes.now ≡ little_bytes 8 result.0 ++ (little_bytes 8 result.1 ++ little_bytes 8 result.2) }
{
    (
        LittleEndian::read_u64(bytes),
        LittleEndian::read_u64(&bytes[8..]),
        LittleEndian::read_u64(&bytes[16..]),
    )
}

/// The three numbers of eight bytes each from this place on.
pub fn read_numbers<D: Disk>(disk: &mut D, at: usize) -> Result<(u64, u64, u64), LogFault>
    requires { Reaches (at + 24) (D.view disk.old) }
    ensures { ReadsHeld (D.view disk.old) (D.view disk.new) result (λ bytes.
        MatchResult result (λ x. take 24 (drop at bytes) ≡ little_bytes 8 x.0 ++ (little_bytes 8 x.1 ++ little_bytes 8 x.2)) IsOfMachine) }
{
    let mut front = [0; 24];
    disk.read(at, &mut front)?;
    Ok(numbers_in(&front))
}

/// The head at this place.
pub fn read_head<D: Disk>(disk: &mut D, at: usize) -> Result<[u8; 32], LogFault>
    requires { Reaches (at + 32) (D.view disk.old) }
    ensures { ReadsHeld (D.view disk.old) (D.view disk.new) result (λ bytes.
        MatchResult result (λ head. head ≡ take 32 (drop at bytes)) IsOfMachine) }
{
    let mut head = [0; 32];
    disk.read(at, &mut head)?;
    Ok(head)
}

/// So many bytes from this place on.
pub fn read_bytes<D: Disk>(
    alloc: Global,
    disk: &mut D,
    at: usize,
    len: usize,
) -> Result<Vec<u8>, LogFault>
    requires { Reaches (at + len) (D.view disk.old) }
    ensures read { ReadsHeld (D.view disk.old) (D.view disk.new) result (λ bytes.
        MatchResult result (λ found. found.items ≡ take len (drop at bytes)) IsOfMachine) }
    ensures long { IfOk result (λ found. length found.items ≡ len) }
{
    let mut found = vec![in alloc; 0; len]?;
    disk.read(at, &mut found)?;
    Ok(found)
}

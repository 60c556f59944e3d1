// Bytes behind a gate, and gates that are closed and opened.
ghost use Rattle.std.specs.Prelude.{◌≡◌, ◌≢◌, ◌<◌, ◌+◌, ◌^◌, ◌∷◌, ◌++◌, ℕ, List, length, slice_index, OnOk, false};
ghost use Rattle.pfx_disk.specs.Disk.{IsHonest, Leaves, Written};
ghost use Rattle.pfx_segment.specs.Acts.{IsRunOf, put_acts, close_acts, open_acts};
ghost use Rattle.pfx_segment.specs.Segment.{Appended, StandAt};
ghost use Rattle.pfx_segment.specs.Turning.{Closing, Prepared};

use pfx_disk::{DeviceFailed, Disk, GATE_OPEN};

/// Puts bytes behind a closed gate, and opens it, by four calls: the bytes and a sync, the gate and a sync.
/// `gate` is its place in bytes. `DeviceFailed` comes only if a call of the disk failed; no call is made after that.
///
/// The bytes end before the disk does, if it is honest, and below 2^63. It is a run of four calls, and these four; after
/// success a stop leaves what a read gives. At every moment, whatever it answers, the gate is as it was, or the bytes stand
/// behind it, and nothing else changes. After success they are there behind an open gate.
pub fn put_behind<D: Disk>(disk: &mut D, gate: usize, bytes: &[u8]) -> Result<(), DeviceFailed>
    requires inside { IsHonest (D.view disk.old) → gate + length bytes.now < length (D.view disk.old).contents }
    requires fits { gate + length bytes.now < 2 ^ 63 }
    ensures run { IsRunOf 4 (put_acts gate bytes.now) (D.view disk.old) (D.view disk.new) result }
    // At every moment of the call, whatever it answers.
    ensures leaves { IsHonest (D.view disk.old)
        → Leaves (Appended gate bytes.now) (D.view disk.old) (D.view disk.new) }
    ensures written { IsHonest (D.view disk.old) → OnOk result (
        Written gate (GATE_OPEN ∷ bytes.now) (D.view disk.old).contents (D.view disk.new).contents) }
{
    disk.write_at(gate + 1, bytes)?;
    disk.sync()?;
    disk.write_at(gate, &[GATE_OPEN])?;
    disk.sync()?;
    Ok(())
}

/// Closes a gate that stands open, or looks at one that stands closed, and syncs: two calls, and nothing is made of what a read gives.
/// `gate` is its place in bytes. `DeviceFailed` comes only if a call of the disk failed; no call is made after that.
///
/// A closed gate isn't written closed again, since a stop within that write could leave it open. The gate lies before
/// the end, if the disk is honest. It is a run of two calls, and these two; after success a stop leaves what a read gives.
/// At every moment only the gate changes, and nothing if it was said to be closed. After success the gate is closed, if one
/// that was said to be closed was so.
pub fn close<D: Disk>(disk: &mut D, gate: usize, is_open: bool) -> Result<(), DeviceFailed>
    requires inside { IsHonest (D.view disk.old) → gate < length (D.view disk.old).contents }
    ensures run { IsRunOf 2 (close_acts gate is_open) (D.view disk.old) (D.view disk.new) result }
    // At every moment of the call, whatever it answers.
    ensures leaves { IsHonest (D.view disk.old)
        → Leaves (Closing gate is_open) (D.view disk.old) (D.view disk.new) }
    ensures closed { IsHonest (D.view disk.old)
        → (is_open ≡ false → slice_index (D.view disk.old).contents gate ≢ GATE_OPEN)
        → OnOk result (slice_index (D.view disk.new).contents gate ≢ GATE_OPEN) }
{
    if is_open {
        disk.write_at(gate, &[0])?;
        disk.sync()?;
        return Ok(());
    }
    disk.look_at(gate)?;
    disk.sync()?;
    Ok(())
}

/// Closes the gate, if it is open, and then puts bytes behind it and opens it: six calls, by `close` and `put_behind`.
/// `gate` is its place in bytes. `DeviceFailed` comes only if a call of the disk failed; no call is made after that.
///
/// The bytes end before the disk does, if it is honest, and below 2^63. It is a run of six calls, and these six; after
/// success a stop leaves what a read gives. At every moment, whatever it answers, all is as before, or the gate is closed,
/// or it is open and the bytes stand behind it, if a gate that was said to be open or closed was so. After success the
/// bytes stand behind the open gate.
pub fn prepare<D: Disk>(
    disk: &mut D,
    gate: usize,
    is_open: bool,
    bytes: &[u8],
) -> Result<(), DeviceFailed>
    requires inside { IsHonest (D.view disk.old) → gate + length bytes.now < length (D.view disk.old).contents }
    requires fits { gate + length bytes.now < 2 ^ 63 }
    ensures run { IsRunOf 6 (close_acts gate is_open ++ put_acts gate bytes.now) (D.view disk.old) (D.view disk.new) result }
    // At every moment of the call, whatever it answers.
    ensures leaves { IsHonest (D.view disk.old)
        → (is_open ≡ false → slice_index (D.view disk.old).contents gate ≢ GATE_OPEN)
        → Leaves (Prepared gate is_open bytes.now) (D.view disk.old) (D.view disk.new) }
    ensures stands { IsHonest (D.view disk.old)
        → OnOk result (StandAt gate (GATE_OPEN ∷ bytes.now) (D.view disk.new).contents) }
{
    close(disk, gate, is_open)?;
    put_behind(disk, gate, bytes)?;
    Ok(())
}

/// Opens the gate before bytes that were written behind it, by three calls: a sync, the gate and a sync.
/// `gate` is its place in bytes. `DeviceFailed` comes only if a call of the disk failed; no call is made after that.
///
/// The gate lies before the end, if the disk is honest, and below 2^63. It is a run of three calls, and these three; after
/// success a stop leaves what a read gives. At every moment, whatever it answers, the gate is as it was, or the bytes stand
/// behind it, and nothing else changes. After success the gate is open.
pub fn open_gate<D: Disk>(disk: &mut D, gate: usize) -> Result<(), DeviceFailed>
    requires inside { IsHonest (D.view disk.old) → gate < length (D.view disk.old).contents }
    requires fits { gate < 2 ^ 63 }
    ensures run { IsRunOf 3 (open_acts gate) (D.view disk.old) (D.view disk.new) result }
    // At every moment of the call, whatever it answers, and of any bytes that stand behind the gate as it begins.
    ensures leaves { IsHonest (D.view disk.old) → (bytes : List ℕ)
        → gate + length bytes < length (D.view disk.old).contents
        → StandAt (gate + 1) bytes (D.view disk.old).contents
        → Leaves (Appended gate bytes) (D.view disk.old) (D.view disk.new) }
    ensures opened { IsHonest (D.view disk.old)
        → OnOk result (slice_index (D.view disk.new).contents gate ≡ GATE_OPEN) }
{
    let open = [GATE_OPEN];
    disk.sync()?;
    disk.write_at(gate, &open)?;
    disk.sync()?;
    Ok(())
}

// Bytes put behind the gate that ends a log.
//
// Why it is so:
// - **`put_behind` of `pfx_segment` isn't used**: it asks that the bytes end inside the disk, and a log grows. The one here writes past
//   the end; what the two leave is said of whole fronts rather than of places.
ghost use Rattle.std.specs.Prelude.{◌≡◌, ◌<◌, ◌^◌, length};
ghost use Rattle.pfx_disk.specs.Disk.{IsHonest};
ghost use Rattle.pfx_segment.specs.Segment.{IsRun};
ghost use Rattle.pfx_log.specs.Acts.{Puts};

use pfx_disk::{DeviceFailed, Disk, GATE_OPEN};

/// Puts bytes behind a closed gate, past the end too, and opens it, by four calls: the bytes and a sync, the gate and a sync. The last of
/// the bytes is the next gate, closed. `DeviceFailed` comes only if a call of the disk failed; no call is made after that.
pub fn put_behind<D: Disk>(disk: &mut D, gate: usize, bytes: &[u8]) -> Result<(), DeviceFailed>
    requires inside { IsHonest (D.view disk.old) → gate < length (D.view disk.old).contents }
    requires fits { gate < 2 ^ 62 }
    ensures run { IsRun 4 (D.view disk.old) (D.view disk.new) result }
    ensures puts { Puts gate bytes.now (D.view disk.old) (D.view disk.new) result }
{
    disk.write_at(gate + 1, bytes)?;
    disk.sync()?;
    disk.write_at(gate, &[GATE_OPEN])?;
    disk.sync()?;
    Ok(())
}

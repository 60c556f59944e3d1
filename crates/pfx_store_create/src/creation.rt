// Making a new file.
ghost use Rattle.std.specs.Prelude.{◌≡◌, ◌+◌, ◌-◌, ℕ, List, Ok, OnOk, IsErrOf};
ghost use Rattle.pfx_disk.specs.Disk.{IsHonest};
ghost use Rattle.pfx_store_image.specs.Codec.{Codec};
ghost use Rattle.pfx_store_image.specs.Recovery.{recovered};
ghost use Rattle.pfx_store_file.specs.Tending.{pieces};
ghost use Rattle.pfx_store_create.specs.Attempts.{Attempts, IsCall, IsMade, IsMadeOf, IsNoneOrMade, RefusesUnmade, WasNotEmpty};
ghost use Rattle.pfx_store_create.specs.Creating.{CanBeMade, len_of};

use crate::fault::CreateFault;
use crate::pieces::write_unopened;
use pfx_disk::{Disk, GATE_OPEN};

/// Makes a new file on an empty disk, with this header, this body of its first checkpoint area, this number of its first segment, in
/// eight bytes, and segments of this length in bytes. The header begins with its open gate, a segment has more bytes than its
/// head, and the file fewer than 2^62.
///
/// It asks for the disk's length, and answers `NotEmpty` if that isn't 0, with nothing written. Else it writes a closed
/// first gate and syncs, writes all else in pieces and syncs, and opens the gate and syncs. It answers `Device` only if the
/// disk failed: a stop leaves no store's file yet, or the new one.
pub fn create<D: Disk, H, S>(
    disk: &mut D,
    head: &[u8],
    body: &[u8],
    first: &[u8],
    segment: usize,
) -> Result<(), CreateFault>
    requires { CanBeMade head.now body.now first.now segment }
    ensures call { IsCall (6 + pieces (len_of head.now body.now segment - 1)) (IsErrOf result CreateFault.Device)
        (D.view disk.old) (D.view disk.new) result }
    ensures not_empty { IsErrOf result CreateFault.NotEmpty → WasNotEmpty (D.view disk.old) (D.view disk.new) }

    // The new file, whole and durable.
    ensures made { IsHonest (D.view disk.old) → OnOk result (IsMade head.now body.now first.now segment (D.view disk.old) (D.view disk.new)) }
    ensures acknowledged { (K : Codec H S) → (h : H) → (s : S) → IsMadeOf K h s head.now body.now first.now segment
        → IsHonest (D.view disk.old) → OnOk result ((image : List ℕ)
        → (D.view disk.new).since (D.view disk.new).clock image → recovered K image ≡ Ok s) }

    // At every moment of the call, whatever it answers.
    ensures attempts { Attempts head.now body.now first.now segment (D.view disk.old) (D.view disk.new) }
    ensures recovers { (K : Codec H S) → (h : H) → (s : S) → IsMadeOf K h s head.now body.now first.now segment
        → RefusesUnmade K → IsHonest (D.view disk.old) → IsNoneOrMade K s (D.view disk.old) (D.view disk.new) }
{
    if disk.len()? != 0 {
        return Err(CreateFault::NotEmpty);
    }
    write_unopened(disk, head, body, first, segment)?;
    disk.sync()?;
    disk.write_at(0, &[GATE_OPEN])?;
    disk.sync()?;
    Ok(())
}

// The gates of checkpoint areas and segments, and the numbers after them.
ghost use Rattle.std.specs.Prelude.{◌≡◌, ◌≤◌, ◌+◌, ℕ, List};
ghost use Rattle.pfx_store_recover.specs.Choosing.{with_number};
ghost use Rattle.pfx_store_recover.specs.Looking.{IsGateHead, IsKept, LooksAt, Reaches};

use crate::choosing::Numbered;
use pfx_disk::{DeviceFailed, Disk, GATE_OPEN};
use pfx_store_image::SEGMENT_HEAD;

/// How a gate stands, and the eight bytes behind it.
#[derive(Clone, Copy)]
pub(crate) struct GateHead {
    pub open: bool,
    pub bytes: [u8; 8],
}

impl GateHead {
    /// The gate, which stands here, with the number that its bytes spell.
    pub(crate) fn numbered(&self, at: usize, number: u64) -> Numbered
        ensures { result ≡ with_number self.now at number }
    {
        Numbered {
            at,
            open: self.open,
            number,
        }
    }
}

/// The gate of a checkpoint area or a segment and the bytes behind it, by one call of the disk.
pub(crate) fn read_gate<D: Disk>(disk: &mut D, at: usize) -> Result<GateHead, DeviceFailed>
    requires inside { Reaches (at + SEGMENT_HEAD) (D.view disk.old) }
    ensures { LooksAt (D.view disk.old) (D.view disk.new) result (λ head.
        (bytes : List ℕ) → IsKept bytes (D.view disk.old) → IsGateHead at bytes head) }
{
    let mut read = [0; SEGMENT_HEAD];
    disk.read(at, &mut read)?;
    let mut bytes = [0; 8];
    bytes.copy_from_slice(&read[1..]);
    Ok(GateHead {
        open: read[0] == GATE_OPEN,
        bytes,
    })
}

// The records of frames.
ghost use Rattle.std.specs.Prelude.{◌<◌, ◌+◌, ◌^◌, length};
ghost use Rattle.pfx_store_recover.specs.Walking.{ReplaysFrames};

use crate::bytes::len_at;
use crate::faults::{OpenFault, Refusal};
use crate::format::Format;
use pfx_fault::Part;
use std::alloc::Global;

/// The state after the records of the frames that fill these bytes, the first of which has this gate. The first frame
/// whose records aren't right is refused.
pub(crate) fn replay_frames<F: Format>(
    alloc: Global,
    gate: usize,
    state: F::State,
    bytes: &[u8],
) -> Result<F::State, OpenFault>
    requires inside { gate + length bytes.now < 2 ^ 62 }
    ensures { ReplaysFrames F.codec F.fits gate state bytes.now result }
{
    let mut at = 0;
    let mut reached = state;
    'frames: while at < bytes.len() {
        let len = len_at(bytes, at);
        if !F::apply(alloc, &mut reached, &bytes[at..at + len])? {
            return Err(OpenFault::Refused(Refusal::Damaged {
                at: gate + at,
                what: Part::Record,
            }));
        }
        at += len;
    }
    Ok(reached)
}

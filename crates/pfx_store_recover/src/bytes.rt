// Bytes of a file that were read at once, and the frames in them.
ghost use Rattle.std.specs.Prelude.{◌≤◌, ◌<◌, ◌+◌, ◌^◌, length, IfSome, MatchOption};
ghost use Rattle.pfx_store_recover.specs.Looking.{AreHeld, LooksAt, Reaches};
ghost use Rattle.pfx_store_recover.specs.Walking.{IsFrameLen, IsHead, IsNoHead};

use crate::format::Format;
use pfx_disk::{DeviceFailed, Disk};
use pfx_segment::frame::{FRAME_HEAD, frame_len_at};
use std::alloc::Global;

/// So many bytes of a file from this place on, read by one call, or `None` if there is no memory for them.
pub(crate) fn hold<D: Disk>(
    alloc: Global,
    disk: &mut D,
    at: usize,
    len: usize,
) -> Result<Option<Vec<u8>>, DeviceFailed>
    requires inside { Reaches (at + len) (D.view disk.old) }
    ensures { LooksAt (D.view disk.old) (D.view disk.new) result (λ found.
        IfSome found (λ held. AreHeld at len (D.view disk.old) held.items)) }
{
    let Ok(mut bytes) = vec![in alloc; 0; len] else {
        return Ok(None);
    };
    disk.read(at, &mut bytes)?;
    Ok(Some(bytes))
}

/// How long the frame at this place is, as its head says, or how many bytes there are from it on, if these are fewer.
pub(crate) fn len_at(bytes: &[u8], at: usize) -> usize
    requires { at < length bytes.now }
    ensures len { IsFrameLen bytes.now at result }
{
    let left = bytes.len() - at;
    if left < FRAME_HEAD {
        return left;
    }
    left.min(frame_len_at(bytes, at))
}

/// How long the frame at this open gate is, and its last number, or `None` where it doesn't end before the bytes do, or
/// its head isn't right after the command of this number.
pub(crate) fn head_at<F: Format>(bytes: &[u8], at: usize, last: u64) -> Option<(usize, u64)>
    requires inside { at < length bytes.now }
    requires last { last < 2 ^ 48 }
    ensures { MatchOption result (IsNoHead F.codec bytes.now at last)
        (λ head. IsHead F.codec bytes.now at last head.0 head.1) }
{
    let left = bytes.len() - at;
    if left <= FRAME_HEAD {
        return None;
    }
    let len = frame_len_at(bytes, at);
    if len >= left {
        return None;
    }
    let next = F::after(last, &bytes[at..at + len])?;
    Some((len, next))
}

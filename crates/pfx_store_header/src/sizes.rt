//! How long headers and segments are.

ghost use Rattle.std.specs.Prelude.{◌≡◌, ◌≤◌};
ghost use Rattle.pfx_store_header.specs.Headers.{header_len, least_segment};
ghost use Rattle.pfx_store_header.specs.Answers.{Sizes};

use crate::SegmentSizeFault;
use pfx_weights::TaskSet;

/// How many bytes a header has before its tasks: the gate and the letters (9), the version (1), the workers (1), how many tasks
/// are real (2), and the length of a segment (4).
pub(crate) const FRONT: usize = 17;

/// How many bytes the longest header has, of 1,024 real tasks. So many bytes of a file are enough to read its header.
pub const HEADER_MOST: usize = FRONT + 8 * 1024;

/// How many bytes a segment has at the most.
pub const LONGEST_SEGMENT: u32 = 16_777_216;

/// How many bytes the header of a set has: 17, and 8 for each real task, so at most `HEADER_MOST`.
pub fn header_len(set: &TaskSet) -> usize
    ensures long { result ≡ header_len set.now }
    ensures most { result ≤ HEADER_MOST }
{
    let _total = set.total();
    FRONT + 8 * set.real()
}

/// How many bytes a segment has at the least for so many workers, at most 64: its own head (9), the longest batch (31 and 2,096
/// for each worker), and the gate of the frame after it (1). At most 134,185.
pub fn least_for(workers: u32) -> u32
    requires { workers ≤ 64 }
    ensures { result ≡ least_segment workers }
{
    41 + 2096 * workers
}

/// How many bytes a segment of a set has at the least, as `least_for` says of its workers.
pub fn least_segment(set: &TaskSet) -> u32
    ensures { result ≡ least_segment set.now.workers }
{
    let _total = set.total();
    least_for(set.workers())
}

/// Tests the length of a segment, in bytes, for a set.
///
/// It is `SegmentTooSmall` exactly below the least one, which it names, and `SegmentTooLarge` exactly above
/// `LONGEST_SEGMENT`.
pub fn check_segment(set: &TaskSet, segment: u32) -> Result<(), SegmentSizeFault>
    ensures { Sizes set.now.workers segment result }
{
    let least = least_segment(set);
    if segment < least {
        return Err(SegmentSizeFault::SegmentTooSmall { least });
    }
    if segment > LONGEST_SEGMENT {
        return Err(SegmentSizeFault::SegmentTooLarge);
    }
    Ok(())
}

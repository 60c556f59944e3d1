// The frames of a segment.
ghost use Rattle.pfx_store_recover.specs.Looking.{IsStretch};
ghost use Rattle.pfx_store_recover.specs.Walking.{CanBeWalked, ReadsFrames, WalksHeld};

use crate::bytes::{head_at, hold};
use crate::faults::{OpenFault, Refusal};
use crate::format::Format;
use crate::walked::Walked;
use pfx_disk::{Disk, GATE_OPEN};
use pfx_fault::Part;
use pfx_segment::read_one;
use std::alloc::Global;

// How many bytes the frames take that these bytes begin with, up to the first closed gate, and their last number. The
// first of them has this gate, and comes after the command of this number.
fn walk_held<F: Format>(bytes: &[u8], first: usize, number: u64) -> Result<(usize, u64), OpenFault>
    requires { CanBeWalked first number bytes.now }
    ensures { WalksHeld F.codec first number bytes.now result }
{
    let mut at = 0;
    let mut last = number;
    'walk: loop {
        if bytes[at] != GATE_OPEN {
            return Ok((at, last));
        }
        let Some((len, next)) = head_at::<F>(bytes, at, last) else {
            return Err(OpenFault::Refused(Refusal::Damaged {
                at: first + at,
                what: Part::Frame,
            }));
        };
        last = next;
        at += len;
    }
}

// The frames from this gate on, as below, each by at most three calls of the disk, and the gate after them by one.
fn read_singly<F: Format, D: Disk>(
    alloc: Global,
    disk: &mut D,
    first: usize,
    end: usize,
    number: u64,
) -> Result<Walked, OpenFault>
    requires stretch { IsStretch first end number (D.view disk.old) }
    ensures { ReadsFrames F.codec first end number (D.view disk.old) (D.view disk.new) result }
{
    let mut gate = first;
    let mut last = number;
    let mut bytes = Vec::new(alloc);
    'walk: loop {
        let Some(frame) = read_one(alloc, disk, gate, end)? else {
            let len = bytes.len();
            return Ok(Walked {
                bytes,
                len,
                last,
                gate,
            });
        };
        let Some(next) = F::after(last, &frame) else {
            return Err(OpenFault::Refused(Refusal::Damaged {
                at: gate,
                what: Part::Frame,
            }));
        };
        last = next;
        gate += frame.len();
        bytes.extend_from_slice(&frame)?;
    }
}

/// The frames from this gate on, up to the first closed one, after the command of this number. They are read by one
/// call of the disk, or one by one if there is no memory for all bytes up to the end. A frame is refused if it doesn't
/// fit before the end, or its head isn't right after the frames before it.
pub(crate) fn read_frames<F: Format, D: Disk>(
    alloc: Global,
    disk: &mut D,
    first: usize,
    end: usize,
    number: u64,
) -> Result<Walked, OpenFault>
    requires stretch { IsStretch first end number (D.view disk.old) }
    ensures { ReadsFrames F.codec first end number (D.view disk.old) (D.view disk.new) result }
{
    let Some(bytes) = hold(alloc, disk, first, end - first)? else {
        return read_singly::<F, D>(alloc, disk, first, end, number);
    };
    let (len, last) = walk_held::<F>(&bytes, first, number)?;
    Ok(Walked {
        bytes,
        len,
        last,
        gate: first + len,
    })
}

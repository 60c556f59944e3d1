// What stands in the bytes of a store's file.
ghost use Rattle.std.specs.Prelude.{◌≡◌, ◌≢◌, ◌≤◌, ◌<◌, ◌+◌, ℕ, List, length, take, drop, slice_index, IfOk, MatchOption};
ghost use Rattle.pfx_disk.specs.declared.gates.TheConstants.{GATE_OPEN};
ghost use Rattle.pfx_segment.specs.Frames.{AreFrames, frame_len};
ghost use Rattle.pfx_segment.specs.Reading.{views};
ghost use Rattle.pfx_store_image.specs.Layout.{first_at};

use pfx_disk::GATE_OPEN;
use pfx_segment::frame::{FRAME_HEAD, frame_len_at};
use pfx_store_recover::Format;
use std::alloc::{AllocError, Global};

// How long the frame at this gate is, or `None` if it doesn't end before the end.
fn len_at(image: &[u8], gate: usize, end: usize) -> Option<usize>
    requires order { gate < end }
    requires inside { end ≤ length image.now }
    ensures { MatchOption result (end ≤ gate + frame_len gate image.now) (λ len. (len ≡ frame_len gate image.now) × (gate + len < end)) }
{
    if end - gate <= FRAME_HEAD {
        return None;
    }
    let len = frame_len_at(image, gate);
    if len >= end - gate { None } else { Some(len) }
}

// A copy of so many bytes from this place on.
fn copy_of(alloc: Global, image: &[u8], at: usize, len: usize) -> Result<Vec<u8>, AllocError>
    requires { at + len ≤ length image.now }
    ensures { IfOk result (λ copy. copy.items ≡ take len (drop at image.now)) }
{
    Vec::from_slice(alloc, &image[at..at + len])
}

/// The frames from this gate on, each with its gate, up to the first closed gate, or `None` if one doesn't end before
/// the end.
pub fn frames_in(
    alloc: Global,
    image: &[u8],
    first: usize,
    end: usize,
) -> Result<Option<Vec<Vec<u8>>>, AllocError>
    requires order { first < end }
    requires inside { end ≤ length image.now }
    ensures { IfOk result (λ found. MatchOption found
        ((frames : List (List ℕ)) → AreFrames first end frames image.now → ⊥)
        (λ frames. AreFrames first end (views frames.items) image.now)) }
{
    let mut gate = first;
    let mut frames = Vec::new(alloc);
    'walk: loop {
        if image[gate] != GATE_OPEN {
            return Ok(Some(frames));
        }
        let Some(len) = len_at(image, gate, end) else {
            return Ok(None);
        };
        let frame = copy_of(alloc, image, gate, len)?;
        gate += len;
        frames.push(frame)?;
    }
}

/// The state in the body of a checkpoint area at this place, or `None` if it holds none.
pub fn state_in<F: Format>(
    alloc: Global,
    header: &F::Header,
    image: &[u8],
    at: usize,
    len: usize,
) -> Result<Option<F::State>, AllocError>
    requires { at + 1 + len ≤ length image.now }
    ensures { IfOk result (λ state. state ≡ F.codec.read_state header.now (take len (drop (at + 1) image.now))) }
{
    F::read_state(alloc, header, &image[at + 1..at + 1 + len])
}

/// The number after a segment's gate, or `None` if the gate is closed.
pub(crate) fn first_in<F: Format>(image: &[u8], at: usize) -> Option<u64>
    requires { at + 9 ≤ length image.now }
    ensures { MatchOption result (slice_index image.now at ≢ GATE_OPEN)
        (λ n. (slice_index image.now at ≡ GATE_OPEN) × (n ≡ F.codec.segment_number (first_at at image.now))) }
{
    if image[at] != GATE_OPEN {
        return None;
    }
    let mut bytes = [0; 8];
    bytes.copy_from_slice(&image[at + 1..at + 9]);
    Some(F::segment_number(&bytes))
}

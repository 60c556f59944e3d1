// The way from the lesser checkpoint to the checkpoint in use.
//
// Why it is so:
// - **The lesser checkpoint counts only if a way leads from it**: its gate is open, it is a state, and the segment that isn't in use
//   begins after it and holds frames that lead from it to just the number of the checkpoint in use. Otherwise nothing is said of it:
//   what a slot that isn't in use holds is of no consequence.
// - **After the checkpoint the replay goes on from what the checkpoint holds**, which is what the commands led to, or the verdict has
//   already been given.
ghost use Rattle.std.specs.Prelude.{◌≡◌, ◌≢◌, ◌↔◌, ◌≤◌, ◌<◌, ◌+◌, ◌^◌, ℕ, List, length, slice_index, take, drop, Some, IfOk, IsFalse, IsTrue, MatchOption};
ghost use Rattle.pfx_disk.specs.declared.gates.TheConstants.{GATE_OPEN};
ghost use Rattle.pfx_segment.specs.Frames.{AreFrames};
ghost use Rattle.pfx_segment.specs.Reading.{views};
ghost use Rattle.pfx_store_image.specs.Layout.{file_len, first_at};
ghost use Rattle.pfx_store_image.specs.Store.{Parts, Replays};
ghost use Rattle.pfx_replay.specs.Trails.{IsWayIf};
ghost use Rattle.pfx_replay.specs.Ways.{way_of};

use crate::image::{first_in, frames_in, state_in};
use pfx_disk::GATE_OPEN;
use pfx_store_file::Sizes;
use pfx_store_recover::Format;
use std::alloc::{AllocError, Global};

// Leads a state on by frames. Where one isn't right at the state that it comes to, the answer is `false`, and the state is no longer of use.
fn lead_on<F: Format>(
    alloc: Global,
    state: &mut F::State,
    frames: &[Vec<u8>],
) -> Result<bool, AllocError>
    ensures led { IfOk result (λ right. IsTrue right → Replays F.codec state.old (views frames.now) state.new) }
    ensures wrong { IfOk result (λ right. IsFalse right → (t : F.State) → Replays F.codec state.old (views frames.now) t → ⊥) }
{
    for frame in frames {
        if !F::apply(alloc, state, frame)? {
            return Ok(false);
        }
    }
    Ok(true)
}

/// The state that frames lead to, or `None` where one isn't right at the state that it comes to.
pub fn lead<F: Format>(
    alloc: Global,
    state: F::State,
    frames: &[Vec<u8>],
) -> Result<Option<F::State>, AllocError>
    ensures { IfOk result (λ found. MatchOption found
        ((t : F.State) → Replays F.codec state (views frames.now) t → ⊥)
        (λ t. Replays F.codec state (views frames.now) t)) }
{
    let mut reached = state;
    if lead_on::<F>(alloc, &mut reached, frames)? {
        Ok(Some(reached))
    } else {
        Ok(None)
    }
}

// The frames of a segment of so many bytes at this place, if its gate is open and it begins behind the command of this number. `None` comes
// if not, or if a frame doesn't fit.
fn frames_behind<F: Format>(
    alloc: Global,
    image: &[u8],
    place: usize,
    len: usize,
    number: u64,
) -> Result<Option<Vec<Vec<u8>>>, AllocError>
    requires room { 9 < len }
    requires inside { place + len ≤ length image.now }
    ensures { let stand = λ (frames : List (List ℕ)). (slice_index image.now place ≡ GATE_OPEN)
        × (F.codec.segment_number (first_at place image.now) ≡ number + 1) × AreFrames (place + 9) (place + len) frames image.now in
        IfOk result (λ found. MatchOption found ((frames : List (List ℕ)) → stand frames → ⊥) (λ frames. stand (views frames.items))) }
{
    let Some(first) = first_in::<F>(image, place) else {
        return Ok(None);
    };
    if first == 0 || first - 1 != number {
        return Ok(None);
    }
    frames_in(alloc, image, place + 9, place + len)
}

// Whether frames lead from a state to this number. The state is no longer of use.
fn leads_to<F: Format>(
    alloc: Global,
    state: &mut F::State,
    frames: &[Vec<u8>],
    number: u64,
) -> Result<bool, AllocError>
    ensures { IfOk result (λ leads. IsTrue leads
        ↔ ((t : F.State) × Replays F.codec state.old (views frames.now) t × (F.codec.number t ≡ number))) }
{
    if !lead_on::<F>(alloc, state, frames)? {
        return Ok(false);
    }
    Ok(F::number(state) == number)
}

// The frames of a segment of so many bytes at this place that lead from a state to this number, or `None` if there are none. The state is
// no longer of use.
fn frames_from<F: Format>(
    alloc: Global,
    image: &[u8],
    place: usize,
    len: usize,
    state: &mut F::State,
    number: u64,
) -> Result<Option<Vec<Vec<u8>>>, AllocError>
    requires room { 9 < len }
    requires inside { place + len ≤ length image.now }
    ensures { let lead = λ (frames : List (List ℕ)). (slice_index image.now place ≡ GATE_OPEN)
        × (F.codec.segment_number (first_at place image.now) ≡ F.codec.number state.old + 1)
        × AreFrames (place + 9) (place + len) frames image.now
        × ((t : F.State) × Replays F.codec state.old frames t × (F.codec.number t ≡ number)) in
        IfOk result (λ found. MatchOption found ((frames : List (List ℕ)) → lead frames → ⊥) (λ frames. lead (views frames.items))) }
{
    let last = F::number(state);
    let Some(frames) = frames_behind::<F>(alloc, image, place, len, last)? else {
        return Ok(None);
    };
    if leads_to::<F>(alloc, state, &frames, number)? {
        Ok(Some(frames))
    } else {
        Ok(None)
    }
}

// The frames of the segment at this place that lead from the state in the checkpoint area at that one to this number, or `None` if there are
// none.
fn frames_at<F: Format>(
    alloc: Global,
    header: &F::Header,
    image: &[u8],
    sizes: &Sizes,
    at: usize,
    place: usize,
    number: u64,
) -> Result<Option<Vec<Vec<u8>>>, AllocError>
    requires area { at + 1 + sizes.now.body ≤ length image.now }
    requires segment { place + sizes.now.segment ≤ length image.now }
    ensures { let lead = λ (s : F.State) (frames : List (List ℕ)). (Some s ≡ F.codec.read_state header.now (take sizes.now.body (drop (at + 1) image.now)))
        × (slice_index image.now place ≡ GATE_OPEN) × (F.codec.segment_number (first_at place image.now) ≡ F.codec.number s + 1)
        × AreFrames (place + 9) (place + sizes.now.segment) frames image.now
        × ((t : F.State) × Replays F.codec s frames t × (F.codec.number t ≡ number)) in
        IfOk result (λ found. MatchOption found ((s : F.State) → (frames : List (List ℕ)) → lead s frames → ⊥)
        (λ frames. (s : F.State) × lead s (views frames.items))) }
{
    match state_in::<F>(alloc, header, image, at, sizes.body)? {
        Some(start) => {
            let mut start = start;
            frames_from::<F>(alloc, image, place, sizes.segment, &mut start, number)
        }
        None => Ok(None),
    }
}

/// The state in the checkpoint area that isn't in use, and the frames of the segment beside this one that lead from it to this
/// number, or `None` if there are none.
pub(crate) fn find_way<F: Format>(
    alloc: Global,
    header: &F::Header,
    image: &[u8],
    area: bool,
    segment: bool,
    number: u64,
) -> Result<Option<(F::State, Vec<Vec<u8>>)>, AllocError>
    requires { length image.now ≡ file_len (F.codec.layout header.now) }
    ensures { IfOk result (λ found. (p : Parts F.State) → p.area ≡ area → p.segment ≡ segment → F.codec.number p.base ≡ number
        → IsWayIf F.codec header.now p image.now (way_of found)) }
{
    let sizes = F::sizes(header);
    let at = sizes.area_at(!area);
    if image[at] != GATE_OPEN {
        return Ok(None);
    }
    let place = sizes.segment_at(!segment);
    let Some(frames) = frames_at::<F>(alloc, header, image, &sizes, at, place, number)? else {
        return Ok(None);
    };
    match state_in::<F>(alloc, header, image, at, sizes.body)? {
        Some(start) => Ok(Some((start, frames))),
        None => Ok(None),
    }
}

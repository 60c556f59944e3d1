// The frames of a block.
ghost use Rattle.std.specs.Prelude.{◌≡◌, ◌↔◌, ◌+◌, ◌++◌, ◌∷◌, [], List, ℕ, length, IfOk, IsTrue, MatchOption};
ghost use Rattle.std.specs.List.{concat};
ghost use Rattle.pfx_replay_audit.specs.Blocks.{IsSplit};
ghost use Rattle.pfx_segment.specs.Frames.{AreFrames};
ghost use Rattle.pfx_segment.specs.Reading.{views};

use pfx_replay::frames_in;
use std::alloc::{AllocError, Global};

// Frames, one behind the other.
fn joined(alloc: Global, frames: &[Vec<u8>]) -> Result<Vec<u8>, AllocError>
    ensures { IfOk result (λ all. all.items ≡ concat (views frames.now)) }
{
    let mut all = Vec::new(alloc);
    for frame in frames {
        all.extend_from_slice(frame)?;
    }
    Ok(all)
}

// Whether two are the same bytes.
fn are_bytes(one: &[u8], other: &[u8]) -> bool
    ensures { IsTrue result ↔ (one.now ≡ other.now) }
{
    one == other
}

// The frames at the front of bytes with a closed gate behind them, or `None` if there is one that doesn't end before it.
fn with_gate(alloc: Global, bytes: &[u8]) -> Result<Option<Vec<Vec<u8>>>, AllocError>
    ensures { IfOk result (λ found. MatchOption found
        ((frames : List (List ℕ)) → AreFrames 0 (length bytes.now + 1) frames (bytes.now ++ 0 ∷ []) → ⊥)
        (λ frames. AreFrames 0 (length bytes.now + 1) (views frames.items) (bytes.now ++ 0 ∷ []))) }
{
    let mut image = Vec::new(alloc);
    image.extend_from_slice(bytes)?;
    image.push(0)?;
    frames_in(alloc, &image, 0, image.len())
}

/// The frames that bytes are, one behind the other, or `None` if they aren't frames. An error comes only if an allocation failed.
pub(crate) fn frames_of(alloc: Global, bytes: &[u8]) -> Result<Option<Vec<Vec<u8>>>, AllocError>
    ensures { IfOk result (λ found. MatchOption found
        ((frames : List (List ℕ)) → IsSplit bytes.now frames → ⊥) (λ frames. IsSplit bytes.now (views frames.items))) }
{
    let Some(frames) = with_gate(alloc, bytes)? else {
        return Ok(None);
    };
    let all = joined(alloc, &frames)?;
    if are_bytes(bytes, &all) {
        Ok(Some(frames))
    } else {
        Ok(None)
    }
}

// Frames, taken over.
ghost use Rattle.std.specs.Prelude.{◌≡◌, IfOk, IsTrue, IsFalse, Some, None, slice_index, ◌==◌};
ghost use Rattle.pfx_store_version_one.specs.Format.{state_after_1};

use pfx_jobs::job::Job;
use pfx_machine::State;
use pfx_segment::frame::FRAME_HEAD;
use std::alloc::{AllocError, Global};

// The tag of the record of new weights.
const NEW_WEIGHTS: u8 = 4;

// Whether the first record of a frame has the tag of new weights, which are alone in theirs.
fn has_weights(frame: &[u8]) -> bool
    ensures { result ≡ (slice_index frame.now 15 == 4) }
{
    frame.len() > FRAME_HEAD && frame[FRAME_HEAD] == NEW_WEIGHTS
}

/// Takes over a frame. If its head isn't right after the state's number, it has new weights, or a record of it isn't right where
/// it comes, the answer is `false`, and the state is no longer of use. An error comes only if an allocation failed.
pub fn apply_frame<J: Job>(
    alloc: Global,
    state: &mut State<J>,
    frame: &[u8],
) -> Result<bool, AllocError>
    ensures taken { IfOk result (λ right. IsTrue right → state_after_1 J.kind state.old frame.now ≡ Some state.new) }
    ensures wrong { IfOk result (λ right. IsFalse right → state_after_1 J.kind state.old frame.now ≡ None) }
{
    if has_weights(frame) {
        return Ok(false);
    }
    pfx_store_format::apply_frame(alloc, state, frame)
}

// Checkpoint areas, read.
ghost use Rattle.std.specs.Prelude.{◌≡◌, IfOk};
ghost use Rattle.pfx_store_format.specs.Areas.{read_area, with_room};

use pfx_checkpoint::{CheckpointFault, read_whole, whole_len};
use pfx_jobs::job::Job;
use pfx_machine::State;
use pfx_store_header::least_for;
use pfx_weights::TaskSet;
use std::alloc::{AllocError, Global};

// The state, if the longest batch of its workers has room in a segment of this length.
fn with_room<J: Job>(state: State<J>, segment: u32) -> Option<State<J>>
    ensures { result ≡ with_room segment state }
{
    let _total = state.columns().total();
    if least_for(state.columns().workers()) <= segment {
        Some(state)
    } else {
        None
    }
}

/// The state that a checkpoint area's body stands for in a store with the header of this set and segments of so many bytes,
/// or `None` if it stands for none: its own set has as many real tasks, and the longest batch of its workers has room in a segment.
///
/// An error comes only if an allocation failed.
pub fn read_area<J: Job>(
    alloc: Global,
    set: &TaskSet,
    segment: u32,
    bytes: &[u8],
) -> Result<Option<State<J>>, AllocError>
    ensures { IfOk result (λ state. state ≡ read_area J.kind (record { set = set.now; segment = segment }) bytes.now) }
{
    let _total = set.total();
    if bytes.len() != whole_len(set.real()) {
        return Ok(None);
    }
    match read_whole(alloc, set.real(), segment, bytes) {
        Ok(state) => Ok(with_room(state, segment)),
        Err(CheckpointFault::Damaged) => Ok(None),
        Err(CheckpointFault::NoMemory) => Err(AllocError),
    }
}

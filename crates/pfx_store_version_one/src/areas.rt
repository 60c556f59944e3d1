// Checkpoint areas, read.
ghost use Rattle.std.specs.Prelude.{◌≡◌, IfOk};
ghost use Rattle.pfx_checkpoint.specs.Found.{read_state};

use pfx_checkpoint::{CheckpointFault, read, state_len};
use pfx_jobs::job::Job;
use pfx_machine::State;
use pfx_weights::TaskSet;
use std::alloc::{AllocError, Global};

/// The state that a checkpoint area's body stands for in a store with the header of this set and segments of so many bytes,
/// or `None` if it stands for none.
///
/// An error comes only if an allocation failed.
pub fn read_area<J: Job>(
    alloc: Global,
    set: &TaskSet,
    segment: u32,
    bytes: &[u8],
) -> Result<Option<State<J>>, AllocError>
    ensures { IfOk result (λ state. state ≡ read_state J.kind 0 segment set.now bytes.now) }
{
    set.is_of_its_tasks();
    let _total = set.total();
    if bytes.len() != state_len(set) {
        return Ok(None);
    }
    match read(alloc, 0, segment, set, bytes) {
        Ok(state) => Ok(Some(state)),
        Err(CheckpointFault::Damaged) => Ok(None),
        Err(CheckpointFault::NoMemory) => Err(AllocError),
    }
}

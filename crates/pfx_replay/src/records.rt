// The records of frames.
ghost use Rattle.std.specs.Prelude.{◌≡◌, ◌++◌, map, IfOk, IsFalse, IsTrue, None, Some};
ghost use Rattle.pfx_store_format.specs.Batches.{batch_in};
ghost use Rattle.pfx_store_format.specs.Frames.{state_after};
ghost use Rattle.pfx_record.specs.Records.{plain};
ghost use Rattle.pfx_segment.specs.Reading.{views};
ghost use Rattle.pfx_replay.specs.Trails.{records_at, records_behind, records_if};

use pfx_jobs::job::Job;
use pfx_machine::State;
use pfx_record::{Batch, BatchFault, Record, read_batch};
use pfx_store::FileFormat;
use pfx_store_recover::Format;
use std::alloc::{AllocError, Global};

// The records of one frame: none if its bytes aren't a batch.
fn records_of<J: Job>(
    alloc: Global,
    workers: u32,
    real: u32,
    frame: &[u8],
) -> Result<Vec<Record<J>>, AllocError>
    ensures { IfOk result (λ records. map plain records.items ≡ records_if J.kind (batch_in J.kind workers real frame.now)) }
{
    match read_batch(alloc, workers, real, frame) {
        Err(BatchFault::NoMemory) => Err(AllocError),
        Err(BatchFault::Damaged { .. }) => Ok(Vec::new(alloc)),
        Ok((batch, taken)) => {
            if taken != frame.len() {
                return Ok(Vec::new(alloc));
            }
            let Batch { records, .. } = batch;
            Ok(records)
        }
    }
}

// Adds the records of a frame behind a state, read by the set that is in force there, and takes the frame over. If it isn't right there, the
// answer is `false`, and the state is no longer of use.
fn add_records<J: Job>(
    alloc: Global,
    reached: &mut State<J>,
    records: &mut Vec<Record<J>>,
    frame: &[u8],
) -> Result<bool, AllocError>
    ensures records { IfOk result (λ right. map plain records.new.items ≡ map plain records.old.items ++ records_at J.kind reached.old frame.now) }
    ensures taken { IfOk result (λ right. IsTrue right → state_after J.kind reached.old frame.now ≡ Some reached.new) }
    ensures wrong { IfOk result (λ right. IsFalse right → state_after J.kind reached.old frame.now ≡ None) }
{
    let _total = reached.columns().total();
    let workers = reached.columns().workers();
    let real = reached.columns().real() as u32;
    let mut more = records_of(alloc, workers, real, frame)?;
    records.append(&mut more)?;
    FileFormat::<J>::apply(alloc, reached, frame)
}

// Adds the records of frames behind a state, up to a frame that isn't right where it comes. The state is no longer of use.
fn add_all<J: Job>(
    alloc: Global,
    state: &mut State<J>,
    records: &mut Vec<Record<J>>,
    frames: &[Vec<u8>],
) -> Result<(), AllocError>
    ensures { IfOk result (λ done. map plain records.new.items ≡ map plain records.old.items ++ records_behind J.kind state.old (views frames.now)) }
{
    for frame in frames {
        if !add_records(alloc, state, records, frame)? {
            return Ok(());
        }
    }
    Ok(())
}

/// The records of frames behind a state, each frame read by the set that is in force where it comes, up to one that isn't right
/// there. An error comes only if an allocation failed.
pub fn records_behind<J: Job>(
    alloc: Global,
    state: &State<J>,
    frames: &[Vec<u8>],
) -> Result<Vec<Record<J>>, AllocError>
    ensures { IfOk result (λ records. map plain records.items ≡ records_behind J.kind state.now (views frames.now)) }
{
    let mut records = Vec::new(alloc);
    let mut reached = state.copy_of(alloc)?;
    add_all(alloc, &mut reached, &mut records, frames)?;
    Ok(records)
}

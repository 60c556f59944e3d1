//! Appending what was taken.
//!
//! Why it is so:
//! - **A batch is of a Reweigh alone, or of other commands**, as a frame is: the flusher's batch ends before a Reweigh that waits and
//!   behind one that it took first. Until a Reweigh is taken the book's state is of other workers than the next batch's rows, so a book
//!   keeps, as a number of its own, how many workers are in force after what was taken.
//! - **A batch says of no task that it is real, unless it is a Reweigh's**, as a store's `append` asks. The flusher goes by the record,
//!   which has the weights that are prepared.
//! - **The flusher takes the memory of new weights before it writes anything**, but behind their reply: the book has room for the
//!   command, the store's own set and room are the flusher's. If it is refused the store is as it was, and the front ends as at the
//!   board's memory: Memory, and the number of the last mark. A client's reply is no receipt, so nothing that was acknowledged is lost.
ghost use Rattle.std.specs.Prelude.{◌≡◌, ◌∷◌, [], ℕ, map, None, IfSome, IfNone, IfOk, IfErr};
ghost use Rattle.pfx_book.specs.Batching.{real_for};
ghost use Rattle.pfx_record.specs.Records.{plain, reweighed};
ghost use Rattle.pfx_front.specs.Appending.{ComesNext, IsAppended, IsMissed};

use pfx_disk::Disk;
use pfx_fault::Cause;
use pfx_jobs::job::Job;
use pfx_record::{Batch, Record};
use pfx_store::{BatchKeeper, Mark};
use pfx_weights::Weights;
use std::alloc::Global;

/// The workers and the weights of a batch that is of new ones.
fn new_weights<J: Job>(batch: &Batch<J>) -> Option<(u32, &Weights)>
    ensures new { IfSome result (λ new. map plain batch.now.records.items ≡ reweighed new.0 new.1.now ∷ []) }
    ensures none { IfNone result ((real : ℕ) → real_for real (map plain batch.now.records.items) ≡ 0) }
{
    match batch.records.first() {
        Some(Record::Reweigh { workers, weights }) => Some((u32::from(*workers), weights)),
        Some(Record::Submit { .. }) => None,
        Some(Record::Slot { .. }) => None,
        Some(Record::Withdraw { .. }) => None,
        None => None,
    }
}

/// Keeps a batch that comes next; what new weights take of memory is taken before. `Memory` and `Log` leave the store as it was, and `Device` breaks it.
pub(crate) fn append_taken<J: Job, D: Disk, S: BatchKeeper<D, J>>(
    alloc: Global,
    keeper: &mut S,
    batch: &Batch<J>,
) -> Result<Mark, Cause>
    requires next { ComesNext J.kind (S.kept keeper.old).state batch.now }
    requires goes_on { S.failed keeper.old ≡ None }
    ensures done { IfOk result (λ mark. IsAppended D.view J.kind batch.now mark (S.kept keeper.old) (S.kept keeper.new) (S.failed keeper.new)) }
    ensures missed { IfErr result (λ cause. IsMissed D.view J.kind batch.now cause (S.kept keeper.old) (S.kept keeper.new) (S.failed keeper.new)) }
{
    match new_weights(batch) {
        None => {
            let result = keeper.keep(batch);
            let _failure = keeper.failure();
            result
        }
        Some((workers, weights)) => match keeper.stored().prepare_reweigh(alloc, workers, weights) {
            Ok(renewal) => {
                let result = keeper.keep_reweigh(batch, renewal);
                let _failure = keeper.failure();
                result
            }
            Err(_fault) => Err(Cause::Memory),
        },
    }
}

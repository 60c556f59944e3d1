// A state and the file that keeps it, with nothing said yet of whether they agree.
ghost use Rattle.std.specs.Prelude.{◌≡◌, ◌≤◌, ◌+◌, length, vec_capacity};
ghost use Rattle.pfx_checkpoint.specs.Whole.{whole_len};
ghost use Rattle.pfx_store_header.specs.Headers.{least_segment};
ghost use Rattle.pfx_record.specs.Batches.{batch_most};

use pfx_disk::Disk;
use pfx_jobs::job::Job;
use pfx_machine::State;
use pfx_store_file::StoreFile;

/// A state, and the file on a disk that is to keep it. That the file stands for the state is a store's promise.
#[derive(Drop)]
pub(crate) struct Journal<D: Disk, J: Job> {
    /// The file.
    pub file: StoreFile<D>,
    /// The state.
    pub state: State<J>,
    /// The body of the checkpoint area that the checkpoint in progress writes.
    pub spelled: Vec<u8>,
    /// Room for the longest frame, and for that of new weights.
    pub frame: Vec<u8>,
    ghost long: { length spelled.items ≡ file.places.sizes.body },
    ghost body: { file.places.sizes.body ≡ whole_len state.ledger.set.real },
    ghost fits: { least_segment state.ledger.set.workers ≤ state.segment },
    ghost inside: { state.segment ≤ file.places.sizes.segment },
    ghost room: { batch_most state.ledger.set.workers state.ledger.set.real + 1 ≤ vec_capacity frame },
}

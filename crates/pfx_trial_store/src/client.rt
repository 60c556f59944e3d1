//! A worked client: ten calls of a store, through which each mark is kept.
ghost use Rattle.std.specs.Prelude.{◌≡◌, ◌+◌, ◌++◌, ◌∷◌, [], List, ℕ, map, Some, IfOk, OnErr};
ghost use Rattle.pfx_disk.specs.Disk.{IsHonest};
ghost use Rattle.pfx_record_redo.specs.Applying.{applied};
ghost use Rattle.pfx_store.specs.Marks.{Covers};
ghost use Rattle.pfx_store.specs.declared.appending.Mark.{Mark};
ghost use Rattle.pfx_machine.specs.Plain.{Plain};
ghost use Rattle.pfx_record.specs.Batches.{batch_bytes, batch_of};
ghost use Rattle.pfx_record.specs.Records.{plain};

use pfx_disk::Disk;
use pfx_jobs::job::Job;
use pfx_record::Batch;
use pfx_store::{Mark, Store};
use pfx_store_file::StoreFault;

/// Ten calls, two of which append a batch. Whatever they answer, each mark noted before is kept after them, and
/// if both batches are appended their marks are too.
pub fn ten_calls<D: Disk, J: Job>(
    store: &mut Store<D, J>,
    first: &Batch<J>,
    second: &Batch<J>,
) -> Result<(Mark, Mark), StoreFault>
    requires workers { (first.now.workers ≡ store.old.state.ledger.set.workers) × (second.now.workers ≡ store.old.state.ledger.set.workers) }
    requires real { (first.now.real ≡ 0) × (second.now.real ≡ 0) }
    requires first { first.now.first ≡ store.old.state.number + 1 }
    requires right { (s : Plain J) × (applied J.kind store.old.state (map plain first.now.records.items) ≡ Some s)
        × (second.now.first ≡ s.number + 1) × (t : Plain J) × (applied J.kind s (map plain second.now.records.items) ≡ Some t) }
    ensures marked { IsHonest (D.view store.old.file.disk) → (start : Plain J) → (all : List (List ℕ)) → (noted : List Mark)
        → Covers J.kind start all noted store.old.file.broken store.old.state (D.view store.old.file.disk)
        → IfOk result (λ marks. Covers J.kind start
        ((all ++ batch_bytes J.kind (batch_of first.now.first first.now.records.items) ∷ [])
        ++ batch_bytes J.kind (batch_of second.now.first second.now.records.items) ∷ [])
        (marks.1 ∷ marks.0 ∷ noted) store.new.file.broken store.new.state (D.view store.new.file.disk)) }
    ensures kept { IsHonest (D.view store.old.file.disk) → (start : Plain J) → (all : List (List ℕ)) → (noted : List Mark)
        → Covers J.kind start all noted store.old.file.broken store.old.state (D.view store.old.file.disk)
        → OnErr result ((more : List (List ℕ)) × (marks : List Mark)
        × Covers J.kind start more (marks ++ noted) store.new.file.broken store.new.state (D.view store.new.file.disk)) }
{
    let one = store.append(first)?;
    let _turned = store.turn();
    let _closed = store.tend();
    let _piece = store.tend();
    let _finished = store.tend();
    let two = store.append(second)?;
    let _again = store.turn();
    let _step = store.tend();
    let _other = store.tend();
    let _last = store.tend();
    Ok((one, two))
}

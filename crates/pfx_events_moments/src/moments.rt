//! The store's calls, at each moment of the disk's list.
ghost use Rattle.std.specs.Prelude.{◌≡◌, ◌≤◌, ◌∷◌, [], List, ℕ, length, map, take, OnOk};
ghost use Rattle.pfx_disk_chronicle.specs.Chart.{acts_of, noted_view};
ghost use Rattle.pfx_disk.specs.Stop.{Left};
ghost use Rattle.pfx_events.specs.Store.{store_of};
ghost use Rattle.pfx_events.specs.Ties.{Carries, through};
ghost use Rattle.pfx_machine.specs.Plain.{Plain};
ghost use Rattle.pfx_events_moments.specs.Moments.{Holds, IsTold};
ghost use Rattle.pfx_record.specs.Batches.{batch_of};
ghost use Rattle.pfx_record.specs.Records.{plain};
ghost use Rattle.pfx_store.specs.Working.{IsNext};
ghost use Rattle.pfx_events_world.specs.Claims.{IsReceipted};
ghost use Rattle.pfx_events_world.specs.Events.{Take, Tend, MayHappen, CanRun, next_of, run};
ghost use Rattle.pfx_events_world.specs.World.{World, state_at};

use pfx_disk::Disk;
use pfx_disk_chronicle::chronicle::Chronicle;
use pfx_disk_chronicle::name::Charted;
use pfx_events::{laws, tied};
use pfx_jobs::job::Job;
use pfx_record::Batch;
use pfx_store::{Mark, Store};
use pfx_store_file::{StoreFault, Tended};

/// While the store waits: each image that a stop may leave after the calls that its disk tells is recovered to the outcome of first
/// accepted commands, every receipted one among them.
pub fn survives<D: Disk, B: Charted, J: Job>(store: &Store<Chronicle<D, B>, J>)
    ensures { (start : Plain J) → (w : World (store_of J.kind)) → IsTold J.kind B.held B.image B.clock B.failures start w store.now → B.held
        → (n : ℕ) → IsReceipted n w.book.receipts → (image : List ℕ) → Left B.image (acts_of store.now.file.disk.made) image
        → Holds J.kind start w.book.accepted n image }
{
    laws::runs_go_on::<J>();
    laws::runs_begin_at_files::<J>();
}

/// An append: at each moment of it, whatever it answers, the same holds; and if it succeeds, the store is the next world's.
pub fn append<D: Disk, B: Charted, J: Job>(
    store: &mut Store<Chronicle<D, B>, J>,
    batch: &Batch<J>,
) -> Result<Mark, StoreFault>
    requires next { IsNext J.kind store.old.state batch.now.workers batch.now.real batch.now.first
        (map plain batch.now.records.items) }
    ensures onward { let S = store_of J.kind in (start : Plain J) → (w : World (store_of J.kind)) → (n : ℕ) → MayHappen S start w (Take n)
        → IsTold J.kind B.held B.image B.clock B.failures start w store.old
        → Carries J.kind store.old.state (next_of S w n) (batch_of batch.now.first batch.now.records.items)
        → OnOk result (let events = Take n ∷ through (S.calls w.place (state_at S start w.book.accepted w.book.taken) (next_of S w n)) in
        CanRun S start w events × IsTold J.kind B.held B.image B.clock B.failures start (run S start w events) store.new) }
    ensures moments { let S = store_of J.kind in (start : Plain J) → (w : World (store_of J.kind)) → (n : ℕ) → MayHappen S start w (Take n)
        → IsTold J.kind B.held B.image B.clock B.failures start w store.old
        → Carries J.kind store.old.state (next_of S w n) (batch_of batch.now.first batch.now.records.items) → B.held
        → (k : ℕ) → length store.old.file.disk.made ≤ k → k ≤ length store.new.file.disk.made
        → (m : ℕ) → IsReceipted m w.book.receipts → (image : List ℕ) → Left B.image (take k (acts_of store.new.file.disk.made)) image
        → Holds J.kind start w.book.accepted m image }
{
    laws::runs_go_on::<J>();
    laws::runs_begin_at_files::<J>();
    tied::append(store, batch)
}

/// A step of a checkpoint: as for an append.
pub fn tend<D: Disk, B: Charted, J: Job>(
    store: &mut Store<Chronicle<D, B>, J>,
) -> Result<Tended, StoreFault>
    ensures onward { let S = store_of J.kind in (start : Plain J) → (w : World (store_of J.kind)) → MayHappen S start w Tend
        → IsTold J.kind B.held B.image B.clock B.failures start w store.old
        → OnOk result (let events = Tend ∷ through (S.tends w.place) in
        CanRun S start w events × IsTold J.kind B.held B.image B.clock B.failures start (run S start w events) store.new) }
    ensures moments { let S = store_of J.kind in (start : Plain J) → (w : World (store_of J.kind)) → MayHappen S start w Tend
        → IsTold J.kind B.held B.image B.clock B.failures start w store.old → B.held
        → (k : ℕ) → length store.old.file.disk.made ≤ k → k ≤ length store.new.file.disk.made
        → (m : ℕ) → IsReceipted m w.book.receipts → (image : List ℕ) → Left B.image (take k (acts_of store.new.file.disk.made)) image
        → Holds J.kind start w.book.accepted m image }
{
    laws::runs_go_on::<J>();
    laws::runs_begin_at_files::<J>();
    tied::tend(store)
}

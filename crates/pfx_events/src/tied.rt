//! The store's calls as events of the world: what they do to the disk is what the world's device calls do.
ghost use Rattle.std.specs.Prelude.{◌≡◌, ◌⊎◌, ◌≤◌, ◌+◌, ◌++◌, ◌∷◌, [], List, ℕ, length, map, true, false, Some, OnOk, IfOk, IfErr, IsErrOf};
ghost use Rattle.pfx_disk.specs.CallsMade.{IsAfter, LeavesAtMost};
ghost use Rattle.pfx_disk.specs.Disk.{IsHonest};
ghost use Rattle.pfx_disk.specs.Stop.{Act};
ghost use Rattle.pfx_events.specs.Batches.{joined, AreSmall, KeepsBatches};
ghost use Rattle.pfx_events.specs.Reached.{AreAside, IsReached, going_world};
ghost use Rattle.pfx_events.specs.Store.{store_of};
ghost use Rattle.pfx_events.specs.Ties.{Carries, IsIn, IsTied, through, broken_off};
ghost use Rattle.pfx_store.specs.Files.{FileOf, recovered_file};
ghost use Rattle.pfx_store.specs.Working.{IsNext, IsRenewal};
ghost use Rattle.pfx_machine.specs.Outcome.{outcome};
ghost use Rattle.pfx_machine.specs.Plain.{Plain, IsState};
ghost use Rattle.pfx_machine.specs.Sessions.{IsAcceptable};
ghost use Rattle.pfx_machine.specs.declared.command.Command.{Command};
ghost use Rattle.pfx_record.specs.Batches.{batch_of};
ghost use Rattle.pfx_record.specs.Records.{plain};
ghost use Rattle.pfx_events_world.specs.Claims.{IsNew};
ghost use Rattle.pfx_events_world.specs.Events.{Event, Take, Tend, Device, Stop, MayHappen, CanRun, next_of, run};
ghost use Rattle.pfx_events_world.specs.World.{World, new_world, state_at};

use pfx_disk::Disk;
use pfx_jobs::job::Job;
use pfx_record::Batch;
use pfx_store::{Mark, Renewal, Store};
use pfx_store_file::{StoreFault, Tended};
use pfx_store_recover::OpenFault;
use std::alloc::Global;

/// `Store::append`, in each world whose store this is, if the flusher may take the batch's commands.
///
/// If it succeeds, `Take` and its calls, all of which go through, lead to a world whose store this still is. If the
/// disk fails, some of them go through and the next fails, and a stop leaves no image but those of the world after that.
///
/// If a run has led to that world and the store has its state, it is so of the next world too: runs chain by themselves.
/// A stop within the call, whatever it answers, is a stop after some of these calls, or one that might have come before.
///
/// Said of lists of batches: what survived of them does so at every moment, and after success the new one survives as well.
pub fn append<D: Disk, J: Job>(
    store: &mut Store<D, J>,
    batch: &Batch<J>,
) -> Result<Mark, StoreFault>
    requires next { IsNext J.kind store.old.state batch.now.workers batch.now.real batch.now.first
        (map plain batch.now.records.items) }
    ensures takes { let S = store_of J.kind in (B : Plain J) → (w : World (store_of J.kind)) → (n : ℕ) → MayHappen S B w (Take n)
        → IsIn J.kind w store.old.file.places store.old.spelled (D.view store.old.file.disk)
        → store.old.state ≡ state_at S B w.book.accepted w.book.taken
        → Carries J.kind store.old.state (next_of S w n) (batch_of batch.now.first batch.now.records.items)
        → IsHonest (D.view store.old.file.disk)
        → OnOk result (let events = Take n ∷ through (S.calls w.place (state_at S B w.book.accepted w.book.taken) (next_of S w n)) in
        CanRun S B w events
        × IsIn J.kind (run S B w events) store.new.file.places store.new.spelled (D.view store.new.file.disk)) }
    ensures breaks_off { let S = store_of J.kind in (B : Plain J) → (w : World (store_of J.kind)) → (n : ℕ) → MayHappen S B w (Take n)
        → IsIn J.kind w store.old.file.places store.old.spelled (D.view store.old.file.disk)
        → store.old.state ≡ state_at S B w.book.accepted w.book.taken
        → Carries J.kind store.old.state (next_of S w n) (batch_of batch.now.first batch.now.records.items)
        → IsHonest (D.view store.old.file.disk)
        → IsErrOf result StoreFault.Device → (gone : List Act) × CanRun S B w (Take n ∷ broken_off gone)
        × LeavesAtMost (D.view store.new.file.disk) (run S B w (Take n ∷ broken_off gone)).start (run S B w (Take n ∷ broken_off gone)).done }
    ensures onward { let S = store_of J.kind in (B : Plain J) → (w : World (store_of J.kind)) → (n : ℕ) → MayHappen S B w (Take n)
        → IsTied J.kind D.view B w store.old
        → Carries J.kind store.old.state (next_of S w n) (batch_of batch.now.first batch.now.records.items)
        → OnOk result (let events = Take n ∷ through (S.calls w.place (state_at S B w.book.accepted w.book.taken) (next_of S w n)) in
        CanRun S B w events × IsTied J.kind D.view B (run S B w events) store.new) }
    ensures within { let S = store_of J.kind in (B : Plain J) → (w : World (store_of J.kind)) → (n : ℕ) → MayHappen S B w (Take n)
        → IsTied J.kind D.view B w store.old
        → Carries J.kind store.old.state (next_of S w n) (batch_of batch.now.first batch.now.records.items)
        → (c : ℕ) → (image : List ℕ) → c ≤ (D.view store.old.file.disk).clock → (D.view store.new.file.disk).since c image
        → (D.view store.old.file.disk).since c image ⊎ ((gone : List Act) × CanRun S B w (Take n ∷ through gone)
        × MayHappen S B (run S B w (Take n ∷ through gone)) (Stop image)) }
    ensures keeps { (s : Plain J) → (batches : List (List (Command J))) → (H : List (Command J))
        → IsState s → IsAcceptable J.kind s (joined (batches ++ H ∷ [])) → AreSmall (batches ++ H ∷ [])
        → store.old.state ≡ outcome J.kind s (joined batches)
        → Carries J.kind store.old.state H (batch_of batch.now.first batch.now.records.items) → IsHonest (D.view store.old.file.disk)
        → (c n : ℕ) → c ≤ (D.view store.old.file.disk).clock
        → ((image : List ℕ) → (D.view store.old.file.disk).since c image → KeepsBatches J.kind s batches n image)
        → (image : List ℕ) → (D.view store.new.file.disk).since c image → KeepsBatches J.kind s (batches ++ H ∷ []) n image }
    ensures acknowledged { (s : Plain J) → (batches : List (List (Command J))) → (H : List (Command J))
        → IsState s → IsAcceptable J.kind s (joined (batches ++ H ∷ [])) → AreSmall (batches ++ H ∷ [])
        → store.old.state ≡ outcome J.kind s (joined batches)
        → Carries J.kind store.old.state H (batch_of batch.now.first batch.now.records.items) → IsHonest (D.view store.old.file.disk)
        → OnOk result ((image : List ℕ) → (D.view store.new.file.disk).since (D.view store.new.file.disk).clock image
        → KeepsBatches J.kind s (batches ++ H ∷ []) (length batches + 1) image) }
{
    store.append(batch)
}

/// `Store::append_reweigh`, in each world whose store this is, if the flusher may take the Reweigh, by itself: its calls are those
/// of `append`, and so is all that is said of them.
pub fn append_reweigh<D: Disk, J: Job>(
    store: &mut Store<D, J>,
    batch: &Batch<J>,
    renewal: Renewal,
) -> Result<Mark, StoreFault>
    requires next { IsRenewal J.kind store.old.state batch.now.workers batch.now.real batch.now.first
        (map plain batch.now.records.items) renewal }
    ensures takes { let S = store_of J.kind in (B : Plain J) → (w : World (store_of J.kind)) → (n : ℕ) → MayHappen S B w (Take n)
        → IsIn J.kind w store.old.file.places store.old.spelled (D.view store.old.file.disk)
        → store.old.state ≡ state_at S B w.book.accepted w.book.taken
        → Carries J.kind store.old.state (next_of S w n) (batch_of batch.now.first batch.now.records.items)
        → IsHonest (D.view store.old.file.disk)
        → OnOk result (let events = Take n ∷ through (S.calls w.place (state_at S B w.book.accepted w.book.taken) (next_of S w n)) in
        CanRun S B w events
        × IsIn J.kind (run S B w events) store.new.file.places store.new.spelled (D.view store.new.file.disk)) }
    ensures breaks_off { let S = store_of J.kind in (B : Plain J) → (w : World (store_of J.kind)) → (n : ℕ) → MayHappen S B w (Take n)
        → IsIn J.kind w store.old.file.places store.old.spelled (D.view store.old.file.disk)
        → store.old.state ≡ state_at S B w.book.accepted w.book.taken
        → Carries J.kind store.old.state (next_of S w n) (batch_of batch.now.first batch.now.records.items)
        → IsHonest (D.view store.old.file.disk)
        → IsErrOf result StoreFault.Device → (gone : List Act) × CanRun S B w (Take n ∷ broken_off gone)
        × LeavesAtMost (D.view store.new.file.disk) (run S B w (Take n ∷ broken_off gone)).start (run S B w (Take n ∷ broken_off gone)).done }
    ensures onward { let S = store_of J.kind in (B : Plain J) → (w : World (store_of J.kind)) → (n : ℕ) → MayHappen S B w (Take n)
        → IsTied J.kind D.view B w store.old
        → Carries J.kind store.old.state (next_of S w n) (batch_of batch.now.first batch.now.records.items)
        → OnOk result (let events = Take n ∷ through (S.calls w.place (state_at S B w.book.accepted w.book.taken) (next_of S w n)) in
        CanRun S B w events × IsTied J.kind D.view B (run S B w events) store.new) }
    ensures within { let S = store_of J.kind in (B : Plain J) → (w : World (store_of J.kind)) → (n : ℕ) → MayHappen S B w (Take n)
        → IsTied J.kind D.view B w store.old
        → Carries J.kind store.old.state (next_of S w n) (batch_of batch.now.first batch.now.records.items)
        → (c : ℕ) → (image : List ℕ) → c ≤ (D.view store.old.file.disk).clock → (D.view store.new.file.disk).since c image
        → (D.view store.old.file.disk).since c image ⊎ ((gone : List Act) × CanRun S B w (Take n ∷ through gone)
        × MayHappen S B (run S B w (Take n ∷ through gone)) (Stop image)) }
    ensures keeps { (s : Plain J) → (batches : List (List (Command J))) → (H : List (Command J))
        → IsState s → IsAcceptable J.kind s (joined (batches ++ H ∷ [])) → AreSmall (batches ++ H ∷ [])
        → store.old.state ≡ outcome J.kind s (joined batches)
        → Carries J.kind store.old.state H (batch_of batch.now.first batch.now.records.items) → IsHonest (D.view store.old.file.disk)
        → (c n : ℕ) → c ≤ (D.view store.old.file.disk).clock
        → ((image : List ℕ) → (D.view store.old.file.disk).since c image → KeepsBatches J.kind s batches n image)
        → (image : List ℕ) → (D.view store.new.file.disk).since c image → KeepsBatches J.kind s (batches ++ H ∷ []) n image }
    ensures acknowledged { (s : Plain J) → (batches : List (List (Command J))) → (H : List (Command J))
        → IsState s → IsAcceptable J.kind s (joined (batches ++ H ∷ [])) → AreSmall (batches ++ H ∷ [])
        → store.old.state ≡ outcome J.kind s (joined batches)
        → Carries J.kind store.old.state H (batch_of batch.now.first batch.now.records.items) → IsHonest (D.view store.old.file.disk)
        → OnOk result ((image : List ℕ) → (D.view store.new.file.disk).since (D.view store.new.file.disk).clock image
        → KeepsBatches J.kind s (batches ++ H ∷ []) (length batches + 1) image) }
{
    store.append_reweigh(batch, renewal)
}

/// `Store::tend`, in each world whose store this is, if the flusher may take a step of a checkpoint: `Tend` and its
/// calls, as for `append`.
pub fn tend<D: Disk, J: Job>(store: &mut Store<D, J>) -> Result<Tended, StoreFault>
    ensures tends { let S = store_of J.kind in (B : Plain J) → (w : World (store_of J.kind)) → MayHappen S B w Tend
        → IsIn J.kind w store.old.file.places store.old.spelled (D.view store.old.file.disk)
        → IsHonest (D.view store.old.file.disk)
        → OnOk result (let events = Tend ∷ through (S.tends w.place) in
        CanRun S B w events
        × IsIn J.kind (run S B w events) store.new.file.places store.new.spelled (D.view store.new.file.disk)) }
    ensures breaks_off { let S = store_of J.kind in (B : Plain J) → (w : World (store_of J.kind)) → MayHappen S B w Tend
        → IsIn J.kind w store.old.file.places store.old.spelled (D.view store.old.file.disk)
        → IsHonest (D.view store.old.file.disk)
        → IsErrOf result StoreFault.Device → (gone : List Act) × CanRun S B w (Tend ∷ broken_off gone)
        × LeavesAtMost (D.view store.new.file.disk) (run S B w (Tend ∷ broken_off gone)).start (run S B w (Tend ∷ broken_off gone)).done }
    ensures onward { let S = store_of J.kind in (B : Plain J) → (w : World (store_of J.kind)) → MayHappen S B w Tend
        → IsTied J.kind D.view B w store.old
        → OnOk result (let events = Tend ∷ through (S.tends w.place) in
        CanRun S B w events × IsTied J.kind D.view B (run S B w events) store.new) }
    ensures within { let S = store_of J.kind in (B : Plain J) → (w : World (store_of J.kind)) → MayHappen S B w Tend
        → IsTied J.kind D.view B w store.old
        → (c : ℕ) → (image : List ℕ) → c ≤ (D.view store.old.file.disk).clock → (D.view store.new.file.disk).since c image
        → (D.view store.old.file.disk).since c image ⊎ ((gone : List Act) × CanRun S B w (Tend ∷ through gone)
        × MayHappen S B (run S B w (Tend ∷ through gone)) (Stop image)) }
{
    store.tend()
}

/// `Store::open` on a disk that holds the image of a stop and nothing else, in each world that may stop with this image:
/// `Stop` and its sync lead to a world whose store this is, at the state that recovery finds. With a fault a stop still leaves
/// that image and no other.
pub fn open<D: Disk, J: Job>(alloc: Global, disk: D) -> Result<Store<D, J>, (OpenFault, D)>
    ensures stops { let S = store_of J.kind in (B : Plain J) → (w : World (store_of J.kind)) → (image : List ℕ)
        → MayHappen S B w (Stop image) → IsHonest (D.view disk) → IsAfter (D.view disk) image []
        → IfOk result (λ store. let events = Stop image ∷ Device true ∷ [] in
        CanRun S B w events × (recovered_file J.kind image ≡ Some (store.state, (run S B w events).place))
        × IsIn J.kind (run S B w events) store.file.places store.spelled (D.view store.file.disk)) }
    ensures fails { (image : List ℕ) → IsHonest (D.view disk) → IsAfter (D.view disk) image []
        → IfErr result (λ e. LeavesAtMost (D.view e.1) image []) }
    ensures onward { let S = store_of J.kind in (B : Plain J) → (w : World (store_of J.kind)) → (image : List ℕ)
        → IsReached S B w → MayHappen S B w (Stop image) → IsHonest (D.view disk) → IsAfter (D.view disk) image []
        → IfOk result (λ store. let events = Stop image ∷ Device true ∷ [] in
        CanRun S B w events × IsTied J.kind D.view B (run S B w events) store) }
    ensures begins { (image : List ℕ) → IsHonest (D.view disk) → IsAfter (D.view disk) image []
        → IfOk result (λ store. (f : FileOf J) × IsNew (store_of J.kind) store.state image f
        × IsTied J.kind D.view store.state (new_world (store_of J.kind) store.state image f) store) }
{
    Store::open(alloc, disk)
}

/// What happens with which the store has nothing to do leaves it tied as it is; and if none of its calls has failed, a run
/// of its own begins there, at its state, whatever pieces of a checkpoint the disk still keeps back.
pub fn meanwhile<D: Disk, J: Job>(store: &Store<D, J>)
    ensures stays { let S = store_of J.kind in (B : Plain J) → (w : World (store_of J.kind)) → (events : List (Event J))
        → AreAside events → CanRun S B w events → IsTied J.kind D.view B w store.now
        → IsTied J.kind D.view B (run S B w events) store.now }
    ensures anew { let S = store_of J.kind in (B : Plain J) → (w : World (store_of J.kind)) → w.broken ≡ false
        → IsTied J.kind D.view B w store.now
        → IsTied J.kind D.view store.now.state (going_world S store.now.state w.start w.done w.place) store.now }
{}

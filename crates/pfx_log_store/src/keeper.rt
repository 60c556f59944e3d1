// A store beside its log is a keeper.
//
// Why it is so:
// - **A log's failing disk doesn't break the store**, and stops what keeps the batches (`BatchKeeper::failure`), whose cause tells that it
//   was the log.
// - **Coverage is said of the calls that the engines make** (`keep`, `keep_reweigh`, `tend_on` of a store beside its log), in two steps
//   where the log is brought up first: an image of the log from before that with one of the file from after it is no pair that a stop
//   may leave.
ghost use Rattle.std.specs.Prelude.{◌≡◌, ◌⊎◌, ◌++◌, ◌∷◌, [], ℕ, List, length, map, None, Some, OnOk, IfErr};
ghost use Rattle.pfx_fault.specs.declared.fields.Cause.TheVariants.{Log as LogCause};
ghost use Rattle.pfx_log.specs.Logs.{Log};
ghost use Rattle.pfx_machine.specs.Plain.{Plain};
ghost use Rattle.pfx_machine.specs.declared.command.Command.{Command};
ghost use Rattle.pfx_record.specs.Batches.{batch_bytes, batch_of};
ghost use Rattle.pfx_record.specs.Records.{plain};
ghost use Rattle.pfx_store.specs.Groups.{frame_of};
ghost use Rattle.pfx_store.specs.Keepers.{Keeps, KeepsTending};
ghost use Rattle.pfx_store.specs.Working.{IsNext, IsRenewal};
ghost use Rattle.pfx_log_store.specs.Working.{IsBatchOf, IsLogged, IsReady, KeepsBoth, KeepsLogged, failure_beside};

use crate::beside::LoggedStore;
use pfx_disk::Disk;
use pfx_fault::Cause;
use pfx_jobs::job::Job;
use pfx_record::Batch;
use pfx_store::{BatchKeeper, Mark, Renewal, Store};
use pfx_store_file::Tended;

// What has failed of a store beside its log.
fn what_failed<D: Disk, L: Disk, J: Job>(beside: &LoggedStore<D, L, J>) -> Option<Cause>
    ensures { result ≡ failure_beside beside.now }
{
    if beside.store.is_broken() {
        return Some(Cause::Device);
    }
    if beside.log.broken || beside.stopped {
        return Some(Cause::Log);
    }
    None
}

impl<D: Disk, L: Disk, J: Job> LoggedStore<D, L, J> {
    // Makes ready for a batch: where its frame has no room, the log is brought up. What has failed is answered.
    fn make_ready(&mut self, batch: &Batch<J>) -> Result<(), Cause>
        ensures store { self.new.store ≡ self.old.store }
        ensures ready { OnOk result (IsReady (length (batch_bytes J.kind (batch_of batch.now.first batch.now.records.items))) self.new) }
        ensures whole { OnOk result ((failure_beside self.old ≡ None) × (failure_beside self.new ≡ None)) }
        ensures fails { IfErr result (λ cause. failure_beside self.new ≡ Some cause) }
        ensures stays { IfErr result (λ cause. failure_beside self.old ≡ None → cause ≡ LogCause) }
        ensures still { IfErr result (λ cause. failure_beside self.old ≡ None ⊎ (failure_beside self.old ≡ Some cause)) }
        ensures beside { (start : Plain J) → (all : List (List ℕ)) → (held : Log) → IsLogged J.kind start all held self.old
            → KeepsLogged J.kind start all (length all) self.old self.new result }
    {
        if let Some(cause) = what_failed(self) {
            return Err(cause);
        }
        if self.has_room(batch) {
            return Ok(());
        }
        match self.keep_up() {
            Ok(()) => Ok(()),
            Err(_) => Err(Cause::Log),
        }
    }
}

impl<D: Disk, L: Disk, J: Job> BatchKeeper<D, J> for LoggedStore<D, L, J> {
    ghost kept = { λ beside. beside.store };

    ghost failed = { λ beside. failure_beside beside };

    fn stored(&self) -> &Store<D, J> {
        &self.store
    }

    fn failure(&self) -> Option<Cause> {
        what_failed(self)
    }

    /// Keeps a batch. Where its frame has no room the log is brought up first, and then the store turns.
    fn keep(&mut self, batch: &Batch<J>) -> Result<Mark, Cause>
        requires next { IsNext J.kind self.old.store.state batch.now.workers batch.now.real batch.now.first
            (map plain batch.now.records.items) }
        ensures kept { Keeps D.view J.kind (map plain batch.now.records.items) (batch_bytes J.kind (batch_of batch.now.first batch.now.records.items))
            self.old.store self.new.store (failure_beside self.old) (failure_beside self.new) result }
        // At each moment of both what a stop may leave of the log and of the file has every frame, without a gap.
        ensures beside { (start : Plain J) → (all : List (List ℕ)) → (held : Log) → (H : List (Command J))
            → IsBatchOf J.kind self.old.store.state H (batch_of batch.now.first batch.now.records.items)
            → IsLogged J.kind start all held self.old
            → KeepsBoth J.kind start all (all ++ frame_of J.kind self.old.store.state H ∷ []) self.old self.new result }
    {
        match self.make_ready(batch) {
            Err(cause) => Err(cause),
            Ok(()) => match self.append(batch) {
                Ok(mark) => Ok(mark),
                Err(_) => Err(Cause::Device),
            },
        }
    }

    /// Keeps the record of new weights, as `keep` keeps a batch.
    fn keep_reweigh(&mut self, batch: &Batch<J>, renewal: Renewal) -> Result<Mark, Cause>
        requires next { IsRenewal J.kind self.old.store.state batch.now.workers batch.now.real batch.now.first
            (map plain batch.now.records.items) renewal }
        ensures kept { Keeps D.view J.kind (map plain batch.now.records.items) (batch_bytes J.kind (batch_of batch.now.first batch.now.records.items))
            self.old.store self.new.store (failure_beside self.old) (failure_beside self.new) result }
        // At each moment of both what a stop may leave of the log and of the file has every frame, without a gap.
        ensures beside { (start : Plain J) → (all : List (List ℕ)) → (held : Log) → (H : List (Command J))
            → IsBatchOf J.kind self.old.store.state H (batch_of batch.now.first batch.now.records.items)
            → IsLogged J.kind start all held self.old
            → KeepsBoth J.kind start all (all ++ frame_of J.kind self.old.store.state H ∷ []) self.old self.new result }
    {
        match self.make_ready(batch) {
            Err(cause) => Err(cause),
            Ok(()) => match self.append_reweigh(batch, renewal) {
                Ok(mark) => Ok(mark),
                Err(_) => Err(Cause::Device),
            },
        }
    }

    /// Takes one step of the checkpoint in progress, if there is one. Nothing is asked of the log.
    fn tend_on(&mut self) -> Result<Tended, Cause>
        ensures kept { KeepsTending D.view J.kind self.old.store self.new.store (failure_beside self.old) (failure_beside self.new) result }
        ensures beside { (start : Plain J) → (all : List (List ℕ)) → (held : Log) → IsLogged J.kind start all held self.old
            → KeepsLogged J.kind start all (length all) self.old self.new result }
    {
        if let Some(cause) = what_failed(self) {
            return Err(cause);
        }
        match self.tend() {
            Ok(tended) => Ok(tended),
            Err(_) => Err(Cause::Device),
        }
    }
}

//! What keeps a store's batches: the store itself, or one beside a log.
//!
//! What carries commands out is generic over it, so it makes these calls and no others of what it keeps.
ghost use Rattle.pfx_store.specs.Keepers.{failure_of};

use crate::appending::Mark;
use crate::renewal::Renewal;
use crate::store::Store;
use pfx_disk::Disk;
use pfx_fault::Cause;
use pfx_jobs::job::Job;
use pfx_record::Batch;
use pfx_store_file::Tended;

/// What keeps batches in a store.
pub trait BatchKeeper<D: Disk, J: Job> {
    ghost use Rattle.std.specs.Prelude.{◌≡◌, false, Option, None, map};
    ghost use Rattle.pfx_fault.specs.declared.fields.Cause.{Cause};
    ghost use Rattle.pfx_record.specs.Batches.{batch_bytes, batch_of};
    ghost use Rattle.pfx_record.specs.Records.{plain};
    ghost use Rattle.pfx_store.specs.Keepers.{Keeps, KeepsTending};
    ghost use Rattle.pfx_store.specs.Stores.{PlainStore};
    ghost use Rattle.pfx_store.specs.Working.{IsNext, IsRenewal};

    /// The store that is kept.
    ghost kept: { Self → PlainStore D J };

    /// What has failed: the disk of the store, or that of the log beside it.
    ghost failed: { Self → Option Cause };

    /// The store that is kept.
    fn stored(&self) -> &Store<D, J>
        ensures { result.now ≡ kept self.now };

    /// What has failed, if anything has: then nothing is done any more, and the store has to be opened again.
    fn failure(&self) -> Option<Cause>
        ensures answer { result ≡ failed self.now }
        ensures whole { failed self.now ≡ None → (kept self.now).file.broken ≡ false };

    /// Keeps a batch: from the mark on it is durable. It takes no memory.
    ///
    /// The batch is one that the store's `append` takes. `Device` breaks the store; `Log` says that the disk of the log failed, and that
    /// nothing was done to the store; both keep the state. What has failed answers what it answered then, and does nothing.
    fn keep(&mut self, batch: &Batch<J>) -> Result<Mark, Cause>
        requires next { IsNext J.kind (kept self.old).state batch.now.workers batch.now.real batch.now.first
            (map plain batch.now.records.items) }
        ensures { Keeps D.view J.kind (map plain batch.now.records.items) (batch_bytes J.kind (batch_of batch.now.first batch.now.records.items))
            (kept self.old) (kept self.new) (failed self.old) (failed self.new) result };

    /// Keeps the record of new weights, alone in its frame, and puts their set in force, which was prepared at this state; in all else it
    /// does what `keep` does.
    fn keep_reweigh(&mut self, batch: &Batch<J>, renewal: Renewal) -> Result<Mark, Cause>
        requires next { IsRenewal J.kind (kept self.old).state batch.now.workers batch.now.real batch.now.first
            (map plain batch.now.records.items) renewal }
        ensures { Keeps D.view J.kind (map plain batch.now.records.items) (batch_bytes J.kind (batch_of batch.now.first batch.now.records.items))
            (kept self.old) (kept self.new) (failed self.old) (failed self.new) result };

    /// Takes one step of the checkpoint in progress, if there is one, as the store does.
    fn tend_on(&mut self) -> Result<Tended, Cause>
        ensures { KeepsTending D.view J.kind (kept self.old) (kept self.new) (failed self.old) (failed self.new) result };
}

impl<D: Disk, J: Job> BatchKeeper<D, J> for Store<D, J> {
    ghost kept = { λ store. store };

    ghost failed = { λ store. failure_of store };

    fn stored(&self) -> &Store<D, J> {
        self
    }

    fn failure(&self) -> Option<Cause> {
        if self.is_broken() {
            Some(Cause::Device)
        } else {
            None
        }
    }

    fn keep(&mut self, batch: &Batch<J>) -> Result<Mark, Cause> {
        match self.append(batch) {
            Ok(mark) => Ok(mark),
            Err(_) => Err(Cause::Device),
        }
    }

    fn keep_reweigh(&mut self, batch: &Batch<J>, renewal: Renewal) -> Result<Mark, Cause> {
        match self.append_reweigh(batch, renewal) {
            Ok(mark) => Ok(mark),
            Err(_) => Err(Cause::Device),
        }
    }

    fn tend_on(&mut self) -> Result<Tended, Cause> {
        match self.tend() {
            Ok(tended) => Ok(tended),
            Err(_) => Err(Cause::Device),
        }
    }
}

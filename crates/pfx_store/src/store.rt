// A store: a journal that stands for its state.
//
// Why it is so:
// - **A store's `append` says of no task that it is real**, so that its batch has no new weights: its set stays, and it takes no memory.
//   An opening takes new weights over, which takes memory for their set.
// - **A store's promise is its type's invariant**, that of its Model and not a ghost field, since proofs need the parts of what stands,
//   and a ghost field can hold none. `init` syncs the file's directory whether or not it made the file: the opening doesn't tell.
ghost use Rattle.std.specs.Prelude.{◌≡◌, ◌++◌, ◌∷◌, [], ℕ, List, length, map, true, false, Ok, OnOk, IfOk, MatchResult, None};
ghost use Rattle.pfx_disk.specs.Disk.{IsHonest};
ghost use Rattle.pfx_store_format.specs.Format.{format};
ghost use Rattle.pfx_machine.specs.Plain.{Plain};
ghost use Rattle.pfx_machine.specs.Refusals.{refusal, IsFaultOf};
ghost use Rattle.pfx_machine.specs.Reweighing.{new_set};
ghost use Rattle.pfx_machine.specs.declared.command.Command.{Command};
ghost use Rattle.pfx_record.specs.Batches.{batch_bytes, batch_of};
ghost use Rattle.pfx_record.specs.Records.{plain};
ghost use Rattle.pfx_store_image.specs.Recovery.{recovered};
ghost use Rattle.pfx_store_image.specs.Store.{Replays};
ghost use Rattle.pfx_store_file.specs.Acts.{tended_file, turned_file};
ghost use Rattle.pfx_store_file.specs.Holding.{KeepsAll};
ghost use Rattle.pfx_store_file.specs.Tending.{TakesFrame, append_calls, calls_of, next_step, turn_calls};
ghost use Rattle.pfx_store.specs.Files.{appending, appended, tending, turning};
ghost use Rattle.pfx_store.specs.Marks.{Covers, marked};
ghost use Rattle.pfx_store.specs.Standing.{Stands};
ghost use Rattle.pfx_store.specs.Working.{Commits, IsCall, IsComing, IsNext, IsRenewal, Makes, MovesBy, Tends, Turns};

use crate::appending::Mark;
use crate::journal::Journal;
use crate::renewal::{Renewal, prepared};
use pfx_disk::Disk;
use pfx_jobs::job::Job;
use pfx_machine::{MachineFault, State};
use pfx_record::Batch;
use pfx_store_file::{Places, StoreFault, Tended};
use pfx_weights::Weights;
use std::alloc::Global;
use std::marker::Model;

/// A state, and the file on a disk that keeps it. If no call of the disk has failed and the disk is honest, the file
/// stands for the state: no other store can be made.
#[derive(Drop)]
pub struct Store<D: Disk, J: Job> {
    pub(crate) journal: Journal<D, J>,
}

impl<D: Disk, J: Job> Model for Store<D, J> {
    ghost use Rattle.std.specs.Prelude.{◌≡◌, false};
    ghost use Rattle.pfx_disk.specs.Disk.{IsHonest};
    ghost use Rattle.pfx_store.specs.Standing.{Stands};
    ghost use Rattle.pfx_store.specs.Stores.{PlainStore};

    ghost Value = { PlainStore D J };

    ghost view = { λ s. record {
      file = record { disk = s.journal.file.disk; places = s.journal.file.places; broken = s.journal.file.broken };
      state = s.journal.state;
      spelled = s.journal.spelled.items;
    } };

    ghost invariant = { λ s. s.journal.file.broken ≡ false → IsHonest (D.view s.journal.file.disk)
        → Stands J.kind s.journal.file.places s.journal.state s.journal.spelled.items (D.view s.journal.file.disk) };
}

impl<D: Disk, J: Job> Store<D, J> {
    /// The state: that of every command up to the last mark.
    pub fn state(&self) -> &State<J>
        ensures { result.now ≡ self.now.state }
    {
        &self.journal.state
    }

    /// Whether the disk has failed in an earlier call: then the store does nothing any more, and has to be opened again.
    pub fn is_broken(&self) -> bool
        ensures broken { result ≡ self.now.file.broken }

        // A store that isn't broken stands for its state: each image that a stop now may leave is recovered to it.
        ensures stands { self.now.file.broken ≡ false → IsHonest (D.view self.now.file.disk)
            → Stands J.kind self.now.file.places self.now.state self.now.spelled (D.view self.now.file.disk) }
        ensures recovered { self.now.file.broken ≡ false → IsHonest (D.view self.now.file.disk) → (image : List ℕ)
            → (D.view self.now.file.disk).now image → recovered (format J.kind) image ≡ Ok self.now.state }
    {
        self.journal.file.broken
    }

    /// Where the parts of the file lie, and how its gates stand.
    pub fn places(&self) -> Places
        ensures { result ≡ self.now.file.places }
    {
        self.journal.file.places
    }

    /// The disk.
    pub fn disk(&self) -> &D
        ensures { result.now ≡ self.now.file.disk }
    {
        &self.journal.file.disk
    }

    /// The disk.
    pub fn into_disk(self) -> D
        ensures { result ≡ self.file.disk }
    {
        self.journal.file.into_disk()
    }

    /// Appends a batch: from the mark on it is durable. If its frame doesn't fit, the checkpoint in progress is ended
    /// first, if there is one, and the file turned to its other segment. It takes no memory.
    ///
    /// It makes four calls of the disk where the frame fits, and otherwise six more and those of the checkpoint's steps that
    /// are left: never more than 15 and one for each 4,096 bytes of a checkpoint area.
    ///
    /// The batch begins with the next number, has rows of the state's workers, says of no task that it is real, and is right at
    /// the state. `Device` breaks the store, and it keeps its state; a broken store answers `Broken` and does nothing.
    pub fn append(&mut self, batch: &Batch<J>) -> Result<Mark, StoreFault>
        requires next { IsNext J.kind self.old.state batch.now.workers batch.now.real batch.now.first
            (map plain batch.now.records.items) }
        ensures call { let n = length (batch_bytes J.kind (batch_of batch.now.first batch.now.records.items)) in
            IsCall D.view self.old self.new result (append_calls n self.old.file.places) }
        ensures state { MovesBy J.kind (map plain batch.now.records.items) result self.old.state self.new.state }
        ensures place { let n = length (batch_bytes J.kind (batch_of batch.now.first batch.now.records.items)) in
            OnOk result (TakesFrame n self.old.file.places self.new.file.places) }
        ensures mark { IfOk result (λ mark. (mark.number ≡ self.new.state.number)
            × (mark.clock ≡ (D.view self.new.file.disk).clock)) }

        // Each mark is kept, whatever the call answers, and the new one too.
        ensures marks { IsHonest (D.view self.old.file.disk)
            → (start : Plain J) → (all : List (List ℕ)) → (marks : List Mark)
            → Covers J.kind start all marks self.old.file.broken self.old.state (D.view self.old.file.disk)
            → Covers J.kind start (all ++ batch_bytes J.kind (batch_of batch.now.first batch.now.records.items) ∷ [])
            (marked result marks) self.new.file.broken self.new.state (D.view self.new.file.disk) }

        // At every moment what survived before survives, with the batch or without; from the return on each image has the batch.
        ensures commits { IsHonest (D.view self.old.file.disk)
            → Commits J.kind self.old.state (batch_bytes J.kind (batch_of batch.now.first batch.now.records.items)) result
            (D.view self.old.file.disk) (D.view self.new.file.disk) }

        // These calls of the disk, and the file after them.
        ensures acts { let frame = batch_bytes J.kind (batch_of batch.now.first batch.now.records.items) in
            Makes D.view self.old self.new result J.kind (λ f. appending J.kind f self.old.state frame)
            (λ f. appended J.kind f self.old.state frame) (OnOk result) }
    {
        self.take(batch, None)
    }

    /// The set of these workers and weights, prepared for `append_reweigh`, with all memory that it takes. The store stays as it is,
    /// and the disk isn't asked.
    ///
    /// It is refused as a Reweigh is, in the same order; `SegmentTooSmall` tells the least length of segments, in which the
    /// longest batch of the new workers has room, and the record of the new weights. `NoRow(NoMemory)` comes only if an
    /// allocation failed.
    pub fn prepare_reweigh(
        &self,
        alloc: Global,
        workers: u32,
        weights: &Weights,
    ) -> Result<Renewal, MachineFault>
        ensures set { IfOk result (λ renewal. renewal ≡ new_set self.now.state.ledger.set workers weights.now) }
        ensures exact { MatchResult result (λ _. refusal J.kind self.now.state (Command.Reweigh workers weights.now) ≡ None)
            (λ fault. IsFaultOf J.kind self.now.state (Command.Reweigh workers weights.now) fault) }
    {
        prepared(alloc, &self.journal.state, workers, weights)
    }

    /// Appends the record of new weights, alone in its frame, and puts their set in force, which was prepared at this state: from
    /// the mark on it is durable. In all else it does what `append` does: it makes as many calls of the disk, ends a
    /// checkpoint and turns where its frame doesn't fit, and takes no memory.
    ///
    /// The batch begins with the next number, has rows of the state's workers, says of as many tasks that they are real as the
    /// state has, and its one record is right at the state. `Device` breaks the store, and it keeps its state and its set; a
    /// broken store answers `Broken` and does nothing.
    pub fn append_reweigh(&mut self, batch: &Batch<J>, renewal: Renewal) -> Result<Mark, StoreFault>
        requires next { IsRenewal J.kind self.old.state batch.now.workers batch.now.real batch.now.first
            (map plain batch.now.records.items) renewal }
        ensures call { let n = length (batch_bytes J.kind (batch_of batch.now.first batch.now.records.items)) in
            IsCall D.view self.old self.new result (append_calls n self.old.file.places) }
        ensures state { MovesBy J.kind (map plain batch.now.records.items) result self.old.state self.new.state }
        ensures place { let n = length (batch_bytes J.kind (batch_of batch.now.first batch.now.records.items)) in
            OnOk result (TakesFrame n self.old.file.places self.new.file.places) }
        ensures mark { IfOk result (λ mark. (mark.number ≡ self.new.state.number)
            × (mark.clock ≡ (D.view self.new.file.disk).clock)) }

        // Each mark is kept, whatever the call answers, and the new one too.
        ensures marks { IsHonest (D.view self.old.file.disk)
            → (start : Plain J) → (all : List (List ℕ)) → (marks : List Mark)
            → Covers J.kind start all marks self.old.file.broken self.old.state (D.view self.old.file.disk)
            → Covers J.kind start (all ++ batch_bytes J.kind (batch_of batch.now.first batch.now.records.items) ∷ [])
            (marked result marks) self.new.file.broken self.new.state (D.view self.new.file.disk) }

        // At every moment what survived before survives, with the batch or without; from the return on each image has the batch.
        ensures commits { IsHonest (D.view self.old.file.disk)
            → Commits J.kind self.old.state (batch_bytes J.kind (batch_of batch.now.first batch.now.records.items)) result
            (D.view self.old.file.disk) (D.view self.new.file.disk) }

        // These calls of the disk, and the file after them.
        ensures acts { let frame = batch_bytes J.kind (batch_of batch.now.first batch.now.records.items) in
            Makes D.view self.old self.new result J.kind (λ f. appending J.kind f self.old.state frame)
            (λ f. appended J.kind f self.old.state frame) (OnOk result) }
    {
        self.take(batch, Some(renewal))
    }

    // Appends a batch, or one of new weights with what was prepared for them.
    fn take(&mut self, batch: &Batch<J>, renewal: Option<Renewal>) -> Result<Mark, StoreFault>
        requires next { IsComing J.kind self.old.state batch.now.workers batch.now.real batch.now.first
            (map plain batch.now.records.items) renewal }
        ensures call { let n = length (batch_bytes J.kind (batch_of batch.now.first batch.now.records.items)) in
            IsCall D.view self.old self.new result (append_calls n self.old.file.places) }
        ensures state { MovesBy J.kind (map plain batch.now.records.items) result self.old.state self.new.state }
        ensures place { let n = length (batch_bytes J.kind (batch_of batch.now.first batch.now.records.items)) in
            OnOk result (TakesFrame n self.old.file.places self.new.file.places) }
        ensures mark { IfOk result (λ mark. (mark.number ≡ self.new.state.number)
            × (mark.clock ≡ (D.view self.new.file.disk).clock)) }

        // Each mark is kept, whatever the call answers, and the new one too.
        ensures marks { IsHonest (D.view self.old.file.disk)
            → (start : Plain J) → (all : List (List ℕ)) → (marks : List Mark)
            → Covers J.kind start all marks self.old.file.broken self.old.state (D.view self.old.file.disk)
            → Covers J.kind start (all ++ batch_bytes J.kind (batch_of batch.now.first batch.now.records.items) ∷ [])
            (marked result marks) self.new.file.broken self.new.state (D.view self.new.file.disk) }

        // At every moment what survived before survives, with the batch or without; from the return on each image has the batch.
        ensures commits { IsHonest (D.view self.old.file.disk)
            → Commits J.kind self.old.state (batch_bytes J.kind (batch_of batch.now.first batch.now.records.items)) result
            (D.view self.old.file.disk) (D.view self.new.file.disk) }

        // These calls of the disk, and the file after them.
        ensures acts { let frame = batch_bytes J.kind (batch_of batch.now.first batch.now.records.items) in
            Makes D.view self.old self.new result J.kind (λ f. appending J.kind f self.old.state frame)
            (λ f. appended J.kind f self.old.state frame) (OnOk result) }
    {
        self.journal.append(batch, renewal)
    }

    /// Takes one step of the checkpoint in progress, if there is one: two calls of the disk for the first, one for each
    /// piece of at most 4,096 bytes, three for the last. It takes no memory.
    ///
    /// The checkpoint holds the state at the turn, whatever was appended since. `Device` breaks the store; a broken store
    /// answers `Broken` and does nothing.
    pub fn tend(&mut self) -> Result<Tended, StoreFault>
        ensures call { IsCall D.view self.old self.new result (calls_of (next_step self.old.file.places)) }
        ensures state { self.new.state ≡ self.old.state }
        ensures tends { Tends self.old self.new result }

        // Each mark is kept, whatever the call answers.
        ensures marks { IsHonest (D.view self.old.file.disk)
            → (start : Plain J) → (all : List (List ℕ)) → (marks : List Mark)
            → Covers J.kind start all marks self.old.file.broken self.old.state (D.view self.old.file.disk)
            → Covers J.kind start all marks self.new.file.broken self.new.state (D.view self.new.file.disk) }

        // At every moment of the call, whatever it answers, what survived before survives.
        ensures keeps { IsHonest (D.view self.old.file.disk)
            → (start : Plain J) → (all : List (List ℕ)) → Replays (format J.kind) start all self.old.state
            → KeepsAll (format J.kind) start all all (D.view self.old.file.disk) (D.view self.new.file.disk) }

        // These calls of the disk, and the file after them.
        ensures acts { Makes D.view self.old self.new result J.kind (λ f. tending J.kind f) (λ f. tended_file (format J.kind) f) (OnOk result) }
    {
        self.journal.tend()
    }

    /// Turns the store to its other segment, by six calls of the disk: a checkpoint of the state is in progress then.
    /// `false`, and nothing done, if that isn't lawful: a checkpoint is in progress, or the segment that frames go to has
    /// none. It takes no memory.
    ///
    /// `Device` breaks the store; a broken store answers `Broken` and does nothing.
    pub fn turn(&mut self) -> Result<bool, StoreFault>
        ensures call { IsCall D.view self.old self.new result (turn_calls self.old.file.places) }
        ensures state { self.new.state ≡ self.old.state }
        ensures turns { Turns self.old self.new result }

        // Each mark is kept, whatever the call answers.
        ensures marks { IsHonest (D.view self.old.file.disk)
            → (start : Plain J) → (all : List (List ℕ)) → (marks : List Mark)
            → Covers J.kind start all marks self.old.file.broken self.old.state (D.view self.old.file.disk)
            → Covers J.kind start all marks self.new.file.broken self.new.state (D.view self.new.file.disk) }

        // At every moment of the call, whatever it answers, what survived before survives.
        ensures keeps { IsHonest (D.view self.old.file.disk)
            → (start : Plain J) → (all : List (List ℕ)) → Replays (format J.kind) start all self.old.state
            → KeepsAll (format J.kind) start all all (D.view self.old.file.disk) (D.view self.new.file.disk) }

        // These calls of the disk if it turns, and the file after them.
        ensures acts { Makes D.view self.old self.new result J.kind (λ f. turning J.kind f self.old.state)
            (λ f. turned_file (format J.kind) f self.old.state) (λ P. result ≡ Ok true → P) }
    {
        self.journal.turn()
    }
}

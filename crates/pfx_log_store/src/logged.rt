// What a store beside its log does.
//
// Why it is so:
// - **An append to the log takes no memory** (`append_in`): the room for a block is taken with the store's. So want of memory can't come
//   when a state has moved on and its command isn't kept.
ghost use Rattle.std.specs.Prelude.{◌≡◌, ◌≤◌, ◌+◌, ◌++◌, ◌∷◌, [], ℕ, List, length, map, vec_capacity, ◌↔◌, OnOk, OnErr, IfOk, IfErr};
ghost use Rattle.std.specs.Prelude.{IsErrOf, IsTrue, false, true};
ghost use Rattle.pfx_disk.specs.Disk.{IsHonest};
ghost use Rattle.pfx_store_format.specs.Format.{format};
ghost use Rattle.pfx_log.specs.Files.{IsLeftBy, IsOpen};
ghost use Rattle.pfx_log.specs.Logs.{Log};
ghost use Rattle.pfx_log.specs.declared.faults.AppendFault.TheVariants.{NoMemory};
ghost use Rattle.pfx_machine.specs.Plain.{Plain};
ghost use Rattle.pfx_machine.specs.declared.command.Command.{Command};
ghost use Rattle.pfx_record.specs.Batches.{batch_bytes, batch_of};
ghost use Rattle.pfx_record.specs.Records.{plain};
ghost use Rattle.pfx_store_image.specs.Store.{Replays};
ghost use Rattle.pfx_store.specs.Files.{appended, appending, tending};
ghost use Rattle.pfx_store.specs.Groups.{frame_of};
ghost use Rattle.pfx_store.specs.Marks.{Covers as KeepsMarks, marked};
ghost use Rattle.pfx_store.specs.Working.{Commits, IsCall, IsNext, IsRenewal, Makes, MovesBy, Tends};
ghost use Rattle.pfx_store_file.specs.Acts.{tended_file};
ghost use Rattle.pfx_store_file.specs.Fitting.{HasRoom};
ghost use Rattle.pfx_store_file.specs.Holding.{KeepsAll};
ghost use Rattle.pfx_store_file.specs.Tending.{TakesFrame, append_calls, calls_of, next_step};
ghost use Rattle.pfx_log_store.specs.Fitting.{FitsIn};
ghost use Rattle.pfx_log_store.specs.Working.{CanJoin, Copies, IsBatchOf, IsKeptUpTo, IsLogged, IsReady, IsUpToDate, KeepsLogged};

use crate::beside::LoggedStore;
use pfx_disk::Disk;
use pfx_jobs::job::Job;
use pfx_log::{AppendFault, LogFile};
use pfx_record::{Batch, batch_len, write_batch};
use pfx_store::{Mark, Renewal, Store};
use pfx_store_file::{StoreFault, Tended};
use std::alloc::{AllocError, Global};

// Frames in a vector with room for so many bytes.
fn copied(alloc: Global, room: usize, frames: &[u8]) -> Result<Vec<u8>, AllocError>
    ensures items { IfOk result (λ copy. copy.items ≡ frames.now) }
    ensures room { IfOk result (λ copy. room ≤ vec_capacity copy) }
{
    let mut copy = Vec::with_capacity(alloc, room)?;
    copy.extend_from_slice(frames)?;
    Ok(copy)
}

impl<D: Disk, L: Disk, J: Job> LoggedStore<D, L, J> {
    /// A store and a log that go on together. `frames` are those that the store has behind the log's last number, one behind the other;
    /// they are in the segment that frames go to. If an allocation failed, the two are given back.
    pub fn new(
        alloc: Global,
        store: Store<D, J>,
        log: LogFile<L>,
        frames: &[u8],
    ) -> Result<LoggedStore<D, L, J>, (AllocError, Store<D, J>, LogFile<L>)>
        requires fits { FitsIn (length frames.now) store.file.places }
        ensures store { IfOk result (λ beside. beside.store ≡ store) }
        ensures log { IfOk result (λ beside. beside.log ≡ log) }
        ensures copy { IfOk result (λ beside. beside.copy.items ≡ frames.now) }
        ensures fresh { IfOk result (λ beside. beside.stopped ≡ false) }
        ensures given_back { IfErr result (λ e. (e.1 ≡ store) × (e.2 ≡ log)) }
        // If they can go on together the store is logged.
        ensures logged { (start : Plain J) → (all : List (List ℕ)) → (held : Log) → CanJoin J.kind start all held D.view store log frames.now
            → IfOk result (λ beside. IsLogged J.kind start all held beside) }
    {
        let _broken = store.is_broken();
        let segment = store.places().sizes.segment;
        let copy = match copied(alloc, segment, frames) {
            Ok(copy) => copy,
            Err(fault) => return Err((fault, store, log)),
        };
        match Vec::with_capacity(alloc, 57 + segment) {
            Ok(block) => Ok(LoggedStore {
                store,
                log,
                copy,
                block,
                stopped: false,
            }),
            Err(fault) => Err((fault, store, log)),
        }
    }

    /// Brings the log up to the store's state: the frames that are copied are appended to it as a block, by four calls of its disk, if
    /// there are any.
    ///
    /// It takes no memory, and never answers `NoMemory`. `Device` comes only if the log's disk failed, and breaks the log; after a fault
    /// the store is stopped, and its frames stay copied. Nothing is done to the store.
    pub fn keep_up(&mut self) -> Result<(), AppendFault>
        ensures store { self.new.store ≡ self.old.store }
        ensures up { OnOk result (IsUpToDate self.new) }
        ensures goes_on { OnOk result ((self.new.log.broken ≡ self.old.log.broken) × (self.new.stopped ≡ self.old.stopped)) }
        ensures fault { IfErr result (λ fault. (self.new.copy ≡ self.old.copy) × IsLeftBy self.old.log self.new.log fault) }
        ensures stopped { OnErr result (self.new.stopped ≡ true) }
        ensures no_memory { ¬ IsErrOf result NoMemory }
        ensures beside { (start : Plain J) → (all : List (List ℕ)) → (held : Log) → IsLogged J.kind start all held self.old
            → KeepsLogged J.kind start all (length all) self.old self.new result }
    {
        let last = self.store.state().number();
        let kept = self.log.place.last;
        if kept >= last {
            self.copy.clear();
            return Ok(());
        }
        let result = self
            .log
            .append_in(&mut self.block, kept + 1, last, &self.copy);
        if result.is_ok() {
            self.copy.clear();
        } else {
            self.stopped = true;
        }
        result
    }

    /// Whether the batch's frame has room in the segment that frames go to: else the store turns before it, and `keep_up` has to come
    /// first.
    pub fn has_room(&self, batch: &Batch<J>) -> bool
        ensures { IsTrue result ↔ HasRoom (length (batch_bytes J.kind (batch_of batch.now.first batch.now.records.items))) self.now.store.file.places }
    {
        let places = self.store.places();
        batch_len(batch) < places.end - places.gate
    }

    /// Appends a batch, as the store does: it makes the same calls, takes no memory, and asks nothing of the log.
    ///
    /// Its frame has room, or the log is kept up. The frame is copied once it is durable. At every moment what a stop may leave of the
    /// log and of the file has every frame up to the last one, or the batch's too.
    pub fn append(&mut self, batch: &Batch<J>) -> Result<Mark, StoreFault>
        requires next { IsNext J.kind self.old.store.state batch.now.workers batch.now.real batch.now.first (map plain batch.now.records.items) }
        requires ready { let n = length (batch_bytes J.kind (batch_of batch.now.first batch.now.records.items)) in IsReady n self.old }
        ensures call { let n = length (batch_bytes J.kind (batch_of batch.now.first batch.now.records.items)) in
            IsCall D.view self.old.store self.new.store result (append_calls n self.old.store.file.places) }
        ensures state { MovesBy J.kind (map plain batch.now.records.items) result self.old.store.state self.new.store.state }
        ensures place { let n = length (batch_bytes J.kind (batch_of batch.now.first batch.now.records.items)) in
            OnOk result (TakesFrame n self.old.store.file.places self.new.store.file.places) }
        ensures mark { IfOk result (λ mark. (mark.number ≡ self.new.store.state.number)
            × (mark.clock ≡ (D.view self.new.store.file.disk).clock)) }
        ensures marks { IsHonest (D.view self.old.store.file.disk)
            → (start : Plain J) → (all : List (List ℕ)) → (marks : List Mark)
            → KeepsMarks J.kind start all marks self.old.store.file.broken self.old.store.state (D.view self.old.store.file.disk)
            → KeepsMarks J.kind start (all ++ batch_bytes J.kind (batch_of batch.now.first batch.now.records.items) ∷ [])
            (marked result marks) self.new.store.file.broken self.new.store.state (D.view self.new.store.file.disk) }
        ensures commits { IsHonest (D.view self.old.store.file.disk)
            → Commits J.kind self.old.store.state (batch_bytes J.kind (batch_of batch.now.first batch.now.records.items)) result
            (D.view self.old.store.file.disk) (D.view self.new.store.file.disk) }
        ensures acts { let frame = batch_bytes J.kind (batch_of batch.now.first batch.now.records.items) in
            Makes D.view self.old.store self.new.store result J.kind (λ f. appending J.kind f self.old.store.state frame)
            (λ f. appended J.kind f self.old.store.state frame) (OnOk result) }
        ensures log { (self.new.log ≡ self.old.log) × (self.new.stopped ≡ self.old.stopped) }
        ensures copy { Copies (batch_bytes J.kind (batch_of batch.now.first batch.now.records.items)) self.old.copy.items self.new.copy.items result }
        ensures beside { (start : Plain J) → (all : List (List ℕ)) → (held : Log) → (H : List (Command J))
            → IsBatchOf J.kind self.old.store.state H (batch_of batch.now.first batch.now.records.items)
            → IsLogged J.kind start all held self.old
            → (let more = all ++ frame_of J.kind self.old.store.state H ∷ [] in
            KeepsLogged J.kind start more (length all) self.old self.new result) }
    {
        let result = self.store.append(batch);
        if result.is_ok() {
            write_batch(batch, &mut self.copy);
        }
        result
    }

    /// Appends the record of new weights and puts their set in force, as the store does: it makes the same calls, takes no memory, and
    /// asks nothing of the log.
    ///
    /// Its frame has room, or the log is kept up. It keeps what `append` keeps.
    pub fn append_reweigh(&mut self, batch: &Batch<J>, renewal: Renewal) -> Result<Mark, StoreFault>
        requires next { IsRenewal J.kind self.old.store.state batch.now.workers batch.now.real batch.now.first (map plain batch.now.records.items) renewal }
        requires ready { let n = length (batch_bytes J.kind (batch_of batch.now.first batch.now.records.items)) in IsReady n self.old }
        ensures call { let n = length (batch_bytes J.kind (batch_of batch.now.first batch.now.records.items)) in
            IsCall D.view self.old.store self.new.store result (append_calls n self.old.store.file.places) }
        ensures state { MovesBy J.kind (map plain batch.now.records.items) result self.old.store.state self.new.store.state }
        ensures place { let n = length (batch_bytes J.kind (batch_of batch.now.first batch.now.records.items)) in
            OnOk result (TakesFrame n self.old.store.file.places self.new.store.file.places) }
        ensures mark { IfOk result (λ mark. (mark.number ≡ self.new.store.state.number)
            × (mark.clock ≡ (D.view self.new.store.file.disk).clock)) }
        ensures marks { IsHonest (D.view self.old.store.file.disk)
            → (start : Plain J) → (all : List (List ℕ)) → (marks : List Mark)
            → KeepsMarks J.kind start all marks self.old.store.file.broken self.old.store.state (D.view self.old.store.file.disk)
            → KeepsMarks J.kind start (all ++ batch_bytes J.kind (batch_of batch.now.first batch.now.records.items) ∷ [])
            (marked result marks) self.new.store.file.broken self.new.store.state (D.view self.new.store.file.disk) }
        ensures commits { IsHonest (D.view self.old.store.file.disk)
            → Commits J.kind self.old.store.state (batch_bytes J.kind (batch_of batch.now.first batch.now.records.items)) result
            (D.view self.old.store.file.disk) (D.view self.new.store.file.disk) }
        ensures acts { let frame = batch_bytes J.kind (batch_of batch.now.first batch.now.records.items) in
            Makes D.view self.old.store self.new.store result J.kind (λ f. appending J.kind f self.old.store.state frame)
            (λ f. appended J.kind f self.old.store.state frame) (OnOk result) }
        ensures log { (self.new.log ≡ self.old.log) × (self.new.stopped ≡ self.old.stopped) }
        ensures copy { Copies (batch_bytes J.kind (batch_of batch.now.first batch.now.records.items)) self.old.copy.items self.new.copy.items result }
        ensures beside { (start : Plain J) → (all : List (List ℕ)) → (held : Log) → (H : List (Command J))
            → IsBatchOf J.kind self.old.store.state H (batch_of batch.now.first batch.now.records.items)
            → IsLogged J.kind start all held self.old
            → (let more = all ++ frame_of J.kind self.old.store.state H ∷ [] in
            KeepsLogged J.kind start more (length all) self.old self.new result) }
    {
        let result = self.store.append_reweigh(batch, renewal);
        if result.is_ok() {
            write_batch(batch, &mut self.copy);
        }
        result
    }

    /// Takes one step of the checkpoint in progress, if there is one, as the store does.
    pub fn tend(&mut self) -> Result<Tended, StoreFault>
        ensures call { IsCall D.view self.old.store self.new.store result (calls_of (next_step self.old.store.file.places)) }
        ensures state { self.new.store.state ≡ self.old.store.state }
        ensures tends { Tends self.old.store self.new.store result }
        ensures marks { IsHonest (D.view self.old.store.file.disk)
            → (start : Plain J) → (all : List (List ℕ)) → (marks : List Mark)
            → KeepsMarks J.kind start all marks self.old.store.file.broken self.old.store.state (D.view self.old.store.file.disk)
            → KeepsMarks J.kind start all marks self.new.store.file.broken self.new.store.state (D.view self.new.store.file.disk) }
        ensures keeps { IsHonest (D.view self.old.store.file.disk)
            → (start : Plain J) → (all : List (List ℕ)) → Replays (format J.kind) start all self.old.store.state
            → KeepsAll (format J.kind) start all all (D.view self.old.store.file.disk) (D.view self.new.store.file.disk) }
        ensures acts { Makes D.view self.old.store self.new.store result J.kind (λ f. tending J.kind f) (λ f. tended_file (format J.kind) f) (OnOk result) }
        ensures log { (self.new.log ≡ self.old.log) × (self.new.copy ≡ self.old.copy) × (self.new.stopped ≡ self.old.stopped) }
        ensures beside { (start : Plain J) → (all : List (List ℕ)) → (held : Log) → IsLogged J.kind start all held self.old
            → KeepsLogged J.kind start all (length all) self.old self.new result }
    {
        self.store.tend()
    }

    /// The store, the log, and the frames that the store has and the log hasn't, one behind the other: a run ends with them.
    pub fn into_parts(self) -> (Store<D, J>, LogFile<L>, Vec<u8>)
        ensures store { result.0 ≡ self.store }
        ensures log { result.1 ≡ self.log }
        ensures frames { result.2 ≡ self.copy }
        ensures fits { result.0.file.broken ≡ false → FitsIn (length result.2.items) result.0.file.places }
        // The log is that one still, and these frames lead from its end to the store's state.
        ensures beside { (start : Plain J) → (all : List (List ℕ)) → (held : Log) → IsLogged J.kind start all held self
            → IsOpen held result.1 × IsKeptUpTo J.kind start all held result.2.items result.0.state }
    {
        let LoggedStore {
            store,
            log,
            copy,
            ..
        } = self;
        (store, log, copy)
    }
}

//! What the flusher calls.
ghost use Rattle.std.specs.Prelude.{◌≡◌, ◌↔◌, [], ◌∷◌, ◌++◌, ◌<◌, ◌≤◌, ◌+◌, length, map, IfOk, IfErr, OnErr, IsTrue, Some, None, vec_capacity};
ghost use Rattle.pfx_record.specs.Records.{plain};
ghost use Rattle.pfx_events_world.specs.Session.{marked_now, gave_up};
ghost use Rattle.pfx_book.specs.Batching.{real_for, width_behind};
ghost use Rattle.pfx_book.specs.Calls.{IsTaken};
ghost use Rattle.pfx_book.specs.Notes.{IsRested, records_in, took_in};
ghost use Rattle.pfx_book.specs.declared.note.Note.TheVariants.{Marked, Failed};

use crate::book::{Book, Share};
use crate::name::Named;
use crate::note::Note;
use crate::room::take_front;
use pfx_fault::Cause;
use pfx_jobs::job::Job;
use pfx_record::{Batch, Record};

/// The batch that a note holds.
fn took_of<J: Job>(note: Note<J>) -> Option<Vec<Record<J>>>
    ensures { result ≡ took_in note }
{
    match note {
        Note::Took(_first, records) => Some(records),
        _ => None,
    }
}

/// How many tasks a batch says to be real, if so many are: none, but for new weights.
fn real_for<J>(real: u32, records: &[Record<J>]) -> u32
    ensures { result ≡ real_for real (map plain records.now) }
{
    match records.first() {
        Some(Record::Reweigh { .. }) => real,
        _ => 0,
    }
}

/// The workers behind a batch, if there were so many before it.
fn width_behind<J>(width: u32, records: &[Record<J>]) -> u32
    ensures { result ≡ width_behind width (map plain records.now) }
{
    match records.first() {
        Some(Record::Reweigh { workers, .. }) => u32::from(*workers),
        _ => width,
    }
}

impl<J: Job, B: Named<J>> Book<J, B> {
    /// Whether accepted commands wait for the flusher.
    pub fn has_pending(&self) -> bool
        ensures { IsTrue result ↔ (self.now.session.taken < length self.now.session.accepted) }
    {
        !self.pending.is_empty()
    }

    /// Takes the records of the next commands, as many as may be, 16 at the most, as a batch, which the share notes, into an empty vector with room
    /// for them. A Reweigh is a batch of its own, so the one before it ends there. All that was taken before has to be marked. If
    /// there are none nothing changes, and the vector comes back. It takes no memory.
    pub fn take_batch(
        &mut self,
        share: &mut Share<J, B>,
        room: Vec<Record<J>>,
    ) -> Result<Batch<J>, Vec<Record<J>>>
        requires empty { room.items ≡ [] }
        requires room { 16 ≤ vec_capacity room }
        requires rested { IsRested B.start.number share.old }
        ensures taken { IfOk result (λ b. IsTaken J.kind B.start b.workers b.real b.first b.records self.old self.new share.old share.new) }
        ensures err { OnErr result ((self.old.session.taken ≡ length self.old.session.accepted) × (self.new ≡ self.old) × (share.new ≡ share.old)) }
        ensures width { IfOk result (λ b. vec_capacity b.records ≡ vec_capacity room) }
        ensures back { IfErr result (λ v. (v.items ≡ []) × (vec_capacity v ≡ vec_capacity room)) }
    {
        let Book {
            alloc,
            keeper,
            state,
            pending,
            taken,
            width,
            ..
        } = self;
        let ledger = state.columns();
        let _total = ledger.total();
        let most = ledger.real() as u32;
        let count = pending.len() as u64;
        let records = take_front(pending, room);
        if records.is_empty() {
            return Err(records);
        }
        let first = state.number() - count + 1;
        let more = records.len() as u64;
        let real = real_for(most, &records);
        let workers = *width;
        let later = width_behind(workers, &records);
        let note = Note::Took(first, records);
        keeper.note(&mut share.token, &note);
        *taken += more;
        *width = later;
        match took_of(note) {
            Some(records) => return Ok(Batch::new(workers, real, first, records)),
            None => return Err(Vec::new(*alloc)),
        }
    }

    /// All that was taken counts as durable, since this clock of the disk. `number` is that of the last command that the share
    /// took, or of the start if it took none. Once the flusher has given up it marks nothing more.
    pub fn mark(&mut self, share: &mut Share<J, B>, number: u64, clock: u64)
        requires number { number ≡ B.start.number + length (records_in share.old) }
        requires goes_on { self.old.failure ≡ None }
        ensures event { self.new ≡ record self.old { session = marked_now clock self.old.session } }
        ensures noted { share.new ≡ share.old ++ Marked number clock ∷ [] }
        ensures rested { IsRested B.start.number share.new }
    {
        let Book {
            keeper,
            taken,
            marked,
            ..
        } = self;
        keeper.note(&mut share.token, &Note::Marked(number, clock));
        *marked = *taken;
        self.clock = clock;
    }

    /// The flusher gives up: from now on nothing is accepted.
    pub fn fail(&mut self, share: &mut Share<J, B>, cause: Cause)
        ensures event { self.new ≡ record self.old { session = gave_up self.old.session; failure = Some cause } }
        ensures noted { share.new ≡ share.old ++ Failed cause ∷ [] }
    {
        self.keeper.note(&mut share.token, &Note::Failed(cause));
        self.failure = Some(cause);
    }
}

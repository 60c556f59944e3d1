// Appending to a journal.
ghost use Rattle.std.specs.Prelude.{◌≡◌, ◌≤◌, ◌<◌, ◌+◌, ◌^◌, ◌++◌, ◌∷◌, [], length, map, vec_capacity, OnOk, false};
ghost use Rattle.pfx_checkpoint.specs.Whole.{whole_len};
ghost use Rattle.pfx_store_header.specs.Headers.{least_segment};
ghost use Rattle.pfx_machine.specs.Reweighing.{renewed};
ghost use Rattle.pfx_record.specs.Batches.{batch_bytes, batch_most, batch_of};
ghost use Rattle.pfx_record.specs.Records.{plain};
ghost use Rattle.pfx_store_file.specs.Tending.{append_calls};
ghost use Rattle.pfx_store.specs.Files.{appending, appended};
ghost use Rattle.pfx_store.specs.Standing.{IsBehind};
ghost use Rattle.pfx_store.specs.Stores.{stored};
ghost use Rattle.pfx_store.specs.Working.{BeginsBehind, IsCall, IsComing, IsEncoded, IsSpelled, LeadsOn, Makes, SpellsTurn};
ghost use Rattle.pfx_store.specs.Working.{StandsAfter, TakesBatch};

use crate::format::FileHeader;
use crate::journal::Journal;
use crate::renewal::Renewal;
use byteorder::{ByteOrder, LittleEndian};
use pfx_checkpoint::freeze_whole;
use pfx_disk::Disk;
use pfx_jobs::job::Job;
use pfx_machine::State;
use pfx_record::{Batch, write_batch};
use pfx_record_redo::apply_all;
use pfx_store_file::StoreFault;
use pfx_store_image::SEGMENT_HEAD;

/// What is durable: every command up to this number, at this tick of the disk's clock.
#[derive(Clone, Copy, Debug, PartialEq, Eq)]
pub struct Mark {
    /// The number of the last command.
    pub number: u64,
    /// The disk's clock when that was known.
    pub clock: u64,
}

// The bytes behind the gate of a segment whose first command comes behind this number.
pub(crate) fn start_behind(number: u64) -> [u8; SEGMENT_HEAD]
    requires { number < 2 ^ 48 }
    ensures { BeginsBehind number result }
{
    let mut start = [0; SEGMENT_HEAD];
    LittleEndian::write_u64(&mut start[..8], number + 1);
    start
}

// Encodes a state with its set over the encoding of another one.
pub(crate) fn encode<J: Job>(state: &State<J>, spelled: &mut Vec<u8>)
    requires { length spelled.old.items ≡ whole_len state.now.ledger.set.real }
    ensures { IsEncoded J.kind state.now spelled.old.items spelled.new.items }
{
    let _number = state.number();
    freeze_whole(state, spelled);
}

// Encodes the state at a turn for the checkpoint that begins there, where the file was turned.
fn encode_turn<J: Job>(turned: bool, state: &State<J>, spelled: &mut Vec<u8>)
    requires { length spelled.old.items ≡ whole_len state.now.ledger.set.real }
    ensures { SpellsTurn J.kind turned state.now spelled.old.items spelled.new.items }
{
    if turned {
        encode(state, spelled);
    }
}

// Encodes a frame, with the closed gate of the next one behind it.
fn encode_frame<J: Job>(batch: &Batch<J>, frame: &mut Vec<u8>)
    requires { length (batch_bytes J.kind (batch_of batch.now.first batch.now.records.items)) < vec_capacity frame.old }
    ensures { IsSpelled (batch_bytes J.kind (batch_of batch.now.first batch.now.records.items)) frame.new.items
        (vec_capacity frame.old) (vec_capacity frame.new) }
{
    frame.clear();
    write_batch(batch, frame);
    frame.push_reserved(0);
}

// What stands behind a frame's gate: the rest of its encoding, and the closed gate of the next one.
fn behind_gate<'a, J: Job>(batch: &Batch<J>, frame: &'a [u8]) -> &'a [u8]
    requires { frame.now ≡ batch_bytes J.kind (batch_of batch.now.first batch.now.records.items) ++ 0 ∷ [] }
    ensures { IsBehind (batch_bytes J.kind (batch_of batch.now.first batch.now.records.items)) result.now }
{
    &frame[1..]
}

// Puts a set that was prepared in force, with its room for frames.
fn renew<J: Job>(state: &mut State<J>, frame: &mut Vec<u8>, renewal: Renewal)
    requires number { state.old.number + 1 < 2 ^ 48 }
    requires real { renewal.real ≡ state.old.ledger.set.real }
    ensures state { state.new ≡ renewed state.old renewal }
    ensures room { batch_most renewal.workers renewal.real + 1 ≤ vec_capacity frame.new }
{
    let Renewal {
        epoch,
        frame: longest,
    } = renewal;
    let _reply = state.begin(epoch);
    *frame = longest;
}

// Takes a batch over that is right at the state: its new weights come into force, if it has any, with their room for frames.
fn take_over<J: Job>(
    state: &mut State<J>,
    frame: &mut Vec<u8>,
    batch: &Batch<J>,
    renewal: Option<Renewal>,
)
    requires next { IsComing J.kind state.old batch.now.workers batch.now.real batch.now.first
        (map plain batch.now.records.items) renewal }
    requires fits { least_segment state.old.ledger.set.workers ≤ state.old.segment }
    requires room { batch_most state.old.ledger.set.workers state.old.ledger.set.real + 1 ≤ vec_capacity frame.old }
    ensures { LeadsOn J.kind state.old (map plain batch.now.records.items) state.new (vec_capacity frame.new) }
{
    match renewal {
        None => {
            let _taken = apply_all(state, &batch.records);
        }
        Some(renewal) => renew(state, frame, renewal),
    }
}

impl<D: Disk, J: Job> Journal<D, J> {
    // Appends a batch, or one of new weights with what was prepared for them, as a store does.
    pub(crate) fn append(
        &mut self,
        batch: &Batch<J>,
        renewal: Option<Renewal>,
    ) -> Result<Mark, StoreFault>
        requires next { IsComing J.kind self.old.state batch.now.workers batch.now.real batch.now.first
            (map plain batch.now.records.items) renewal }
        ensures call { let n = length (batch_bytes J.kind (batch_of batch.now.first batch.now.records.items)) in
            IsCall D.view (stored self.old) (stored self.new) result (append_calls n self.old.file.places) }
        ensures moves { let n = length (batch_bytes J.kind (batch_of batch.now.first batch.now.records.items)) in
            TakesBatch D.view J.kind (map plain batch.now.records.items) n (stored self.old) (stored self.new) result }

        // The store goes on after the batch. At every moment what survived before survives, with the batch or without; from the
        // return on each image has the batch.
        ensures stands { StandsAfter D.view J.kind (batch_bytes J.kind (batch_of batch.now.first batch.now.records.items))
            (stored self.old) (stored self.new) result }

        // These calls of the disk, and the file after them.
        ensures acts { let frame = batch_bytes J.kind (batch_of batch.now.first batch.now.records.items) in
            Makes D.view (stored self.old) (stored self.new) result J.kind (λ f. appending J.kind f self.old.state frame)
            (λ f. appended J.kind f self.old.state frame) (OnOk result) }
    {
        encode_frame(batch, &mut self.frame);
        let start = start_behind(self.state.number());
        let turned = self
            .file
            .append_or_turn::<FileHeader, State<J>>(
                &self.spelled,
                &start,
                behind_gate(batch, &self.frame),
            )?;
        encode_turn(turned, &self.state, &mut self.spelled);
        take_over(&mut self.state, &mut self.frame, batch, renewal);
        Ok(Mark {
            number: self.state.number(),
            clock: self.file.disk.clock(),
        })
    }
}

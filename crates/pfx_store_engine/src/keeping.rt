//! Keeping commands.
//!
//! Why it is so:
//! - **A step of the checkpoint comes before each append, not after it.** The order of the device's calls is the same, but no reply waits
//!   behind a step, and a step that fails ends a command that wasn't kept: after the append it would hide that the command was, or leave
//!   a broken store behind an answer that all is well.

ghost use Rattle.std.specs.Prelude.{◌≡◌, ◌<◌, ◌≤◌, ◌∷◌, ◌++◌, [], List, length, map, MatchResult, IfOk, IfErr, OnOk, OnErr, None};
ghost use Rattle.pfx_disk.specs.Disk.{IsHonest};
ghost use Rattle.pfx_store.specs.Groups.{AreKeptAs};
ghost use Rattle.pfx_machine.specs.Outcome.{outcome};
ghost use Rattle.pfx_machine.specs.Plain.{Plain, IsState};
ghost use Rattle.pfx_machine.specs.Refusals.{refusal, reply, IsFaultOf};
ghost use Rattle.pfx_machine.specs.Sessions.{IsAcceptable};
ghost use Rattle.pfx_machine.specs.declared.command.Command.{Command};
ghost use Rattle.pfx_record.specs.Records.{plain};
ghost use Rattle.pfx_record_redo.specs.Recording.{record_of};
ghost use Rattle.pfx_segment.specs.Segment.{Takes};
ghost use Rattle.pfx_store_engine.specs.Executing.{IsCommit, IsPut};
ghost use Rattle.pfx_store_engine.specs.Keeping.{Anchors};
ghost use Rattle.pfx_store_engine.specs.Renewing.{IsKeepable, IsRenewalFor};
ghost use Rattle.pfx_store_engine.specs.Stepping.{command_calls, frame_len};
ghost use Rattle.pfx_store_engine.specs.Surviving.{KeepsAll};

use pfx_disk::Disk;
use pfx_fault::Cause;
use pfx_jobs::job::Job;
use pfx_machine::{Command, MachineFault, State};
use pfx_record::Record;
use pfx_record_redo::{Recorded, apply_recorded};
use pfx_store::{BatchKeeper, Mark, Renewal, Store, batch_of, reweigh_of};
use std::alloc::Global;

/// What a store prepares for a command: the set of a Reweigh, and nothing for others.
fn prepared_for<D: Disk, J: Job>(
    alloc: Global,
    store: &Store<D, J>,
    command: &Command<J>,
) -> Result<Option<Renewal>, MachineFault>
    ensures renews { IfOk result (λ renewal. IsRenewalFor store.now.state command.now renewal) }
    ensures err { IfErr result (λ fault. IsFaultOf J.kind store.now.state command.now fault) }
{
    match command {
        Command::Submit { .. } => Ok(None),
        Command::Slot => Ok(None),
        Command::Withdraw { .. } => Ok(None),
        Command::Reweigh { workers, weights } => {
            match store.prepare_reweigh(alloc, *workers, weights) {
                Ok(renewal) => Ok(Some(renewal)),
                Err(fault) => Err(fault),
            }
        }
    }
}

/// A command that was run on a state: its reply and its record, and what the store prepared for it.
#[derive(Drop)]
pub(crate) struct Prepared<J> {
    /// Its reply and its record.
    pub done: Recorded<J>,
    /// The set of new weights, if it was a Reweigh.
    pub renewal: Option<Renewal>,
}

/// Runs a command on the state, which is the store's, and has the store prepare for it: then no more memory is needed to keep it.
/// A refusal leaves the state, and is the machine's.
pub(crate) fn run_prepared<D: Disk, J: Job>(
    alloc: Global,
    store: &Store<D, J>,
    state: &mut State<J>,
    command: Command<J>,
) -> Result<Prepared<J>, MachineFault>
    requires same { state.old ≡ store.now.state }
    ensures exact { MatchResult result (λ _. refusal J.kind state.old command ≡ None) (λ fault. IsFaultOf J.kind state.old command fault) }
    ensures reply { IfOk result (λ ran. ran.done.reply ≡ reply state.old command) }
    ensures kept_as { IfOk result (λ ran. plain ran.done.entry ≡ record_of J.kind state.old command) }
    ensures renews { IfOk result (λ ran. IsRenewalFor state.old command ran.renewal) }
    ensures outcome { OnOk result ((B : Plain J) (H : List (Command J)) → state.old ≡ outcome J.kind B H
        → state.new ≡ outcome J.kind B (H ++ command ∷ [])) }
    ensures kept { OnErr result (state.new ≡ state.old) }
{
    let renewal = prepared_for(alloc, store, &command)?;
    let done = apply_recorded(alloc, state, command)?;
    Ok(Prepared { done, renewal })
}

/// Keeps the records of commands in one batch, or that of new weights with what was prepared for them.
fn put<D: Disk, J: Job, K: BatchKeeper<D, J>>(
    keeper: &mut K,
    records: Vec<Record<J>>,
    renewal: Option<Renewal>,
) -> Result<Mark, Cause>
    requires some { 0 < length records.items }
    requires few { length records.items ≤ 16 }
    requires right { IsKeepable J.kind (K.kept keeper.old).state (map plain records.items) renewal }
    ensures put { (G : List (Command J)) → AreKeptAs J.kind (K.kept keeper.old).state G (map plain records.items)
        → IsPut J.kind D.view (K.kept keeper.old) G (K.kept keeper.new) (K.failed keeper.old) (K.failed keeper.new) result }
    ensures state { IsState (K.kept keeper.old).state }
{
    match renewal {
        None => {
            let batch = batch_of(keeper.stored().state(), records);
            keeper.keep(&batch)
        }
        Some(renewal) => {
            let batch = reweigh_of(keeper.stored().state(), records);
            keeper.keep_reweigh(&batch, renewal)
        }
    }
}

/// Takes a step of the checkpoint in progress, if there is one, and then keeps the records of 1 to 16 commands that the
/// store's state accepts one after the other, in one batch; or that of a Reweigh, with the set that the store prepared for it. The
/// step comes first, so that no reply waits after it.
pub(crate) fn commit<D: Disk, J: Job, K: BatchKeeper<D, J>>(
    keeper: &mut K,
    records: Vec<Record<J>>,
    renewal: Option<Renewal>,
) -> Result<Mark, Cause>
    requires some { 0 < length records.items }
    requires few { length records.items ≤ 16 }
    requires right { IsKeepable J.kind (K.kept keeper.old).state (map plain records.items) renewal }
    ensures call { IsCommit D.view (K.kept keeper.old) (K.kept keeper.new) (K.failed keeper.old) (K.failed keeper.new) result }
    ensures state { (G : List (Command J)) → AreKeptAs J.kind (K.kept keeper.old).state G (map plain records.items)
        → OnOk result ((K.kept keeper.new).state ≡ outcome J.kind (K.kept keeper.old).state G) }

    // A step of the checkpoint in progress, and then the records.
    ensures calls { (G : List (Command J)) → AreKeptAs J.kind (K.kept keeper.old).state G (map plain records.items)
        → Takes (command_calls (frame_len J.kind (K.kept keeper.old).state G) (K.kept keeper.old).file.places)
        (D.view (K.kept keeper.old).file.disk) (D.view (K.kept keeper.new).file.disk) result }

    // At every moment of the call, whatever it answers, what survived before survives, with these commands or without.
    ensures keeps { IsHonest (D.view (K.kept keeper.old).file.disk)
        → (start : Plain J) → (H : List (Command J)) → (G : List (Command J))
        → IsState start → IsAcceptable J.kind start H → (K.kept keeper.old).state ≡ outcome J.kind start H
        → AreKeptAs J.kind (K.kept keeper.old).state G (map plain records.items)
        → KeepsAll J.kind start H (H ++ G) (D.view (K.kept keeper.old).file.disk) (D.view (K.kept keeper.new).file.disk) }

    // From the return on, each image is recovered to the state after the commands.
    ensures acknowledged { IsHonest (D.view (K.kept keeper.old).file.disk)
        → OnOk result (Anchors J.kind (D.view (K.kept keeper.new).file.disk) (K.kept keeper.new).state) }
{
    let _tended = keeper.tend_on()?;
    put(keeper, records, renewal)
}

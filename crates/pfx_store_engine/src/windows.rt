//! Running several commands before any of them is kept.
//!
//! Why it is so:
//! - **An engine that had no memory within a window of Slots is starved**: what was run is kept and answered, and the next call for Slots
//!   answers NoMemory. So a clause can say that a window is filled: fewer Slots than were asked for are followed by a refusal or by that
//!   answer. To take back what was run would need a copy of the state for each window.

ghost use Rattle.std.specs.Prelude.{◌≡◌, ◌<◌, map, IfOk, IfErr, OnErr};
ghost use Rattle.pfx_machine.specs.Outcome.{outcome};
ghost use Rattle.pfx_machine.specs.declared.command.Command.{Command};
ghost use Rattle.pfx_store_engine.specs.Sharing.{AreChanges, AreTold, accepted_of};
ghost use Rattle.pfx_record.specs.Records.{plain};
ghost use Rattle.pfx_store.specs.Groups.{AreRecordsOf};
ghost use Rattle.pfx_store_engine.specs.Executing.{Fills};
ghost use Rattle.pfx_store_engine.specs.Failing.{Fails, NotAccepted};
ghost use Rattle.pfx_store_engine.specs.Surviving.{AreRun};

use crate::engine::{EngineFault, Told};
use pfx_fault::Fault;
use pfx_jobs::job::Job;
use pfx_machine::{Command, Reply, State};
use pfx_record::Record;
use pfx_record_redo::{Recorded, apply_recorded};
use std::alloc::{AllocError, Global};

/// Slots that were run, in order.
#[derive(Drop)]
pub(crate) struct Window<J> {
    /// Their numbers and their replies.
    pub(crate) said: Vec<(u64, Reply)>,
    /// Their records.
    pub(crate) records: Vec<Record<J>>,
}

/// Runs Slots on the state, at least one and at most `count`, up to the first that is refused, or for which there is no memory, and then
/// `starved` says so. If that is the first of all, the state stays.
pub(crate) fn run_slots<J: Job>(
    alloc: Global,
    state: &mut State<J>,
    starved: &mut bool,
    count: u32,
) -> Result<Window<J>, EngineFault>
    requires some { 0 < count }
    ensures ran { IfOk result (λ w. AreRun J.kind state.old count w.said.items (map plain w.records.items) state.new) }

    // All of them, unless the next one is refused by the machine, or for want of memory.
    ensures fills { IfOk result (λ w. Fills J.kind count w.said.items state.new starved.new) }
    ensures refused { IfErr result (NotAccepted J.kind state.old Command.Slot state.new) }
    ensures stays { OnErr result (state.new ≡ state.old) }

    // It is refused by the machine, or for want of memory.
    ensures why { IfErr result (Fails 0 (λ cause. ⊥) (state.new ≡ state.old)) }
{
    let Ok(mut said) = Vec::with_capacity(alloc, count as usize) else {
        return Err(EngineFault::Failed(Fault::NoMemory));
    };
    let Ok(mut records) = Vec::with_capacity(alloc, count as usize) else {
        return Err(EngineFault::Failed(Fault::NoMemory));
    };
    for _ in 0..count {
        let before = state.number();
        match apply_recorded(alloc, state, Command::Slot) {
            Ok(Recorded { reply, entry }) => {
                said.push_reserved((before + 1, reply));
                records.push_reserved(entry);
            }
            Err(fault) if !said.is_empty() => {
                *starved = fault.is_memory();
                return Ok(Window { said, records });
            }
            Err(fault) if fault.is_memory() => return Err(EngineFault::Failed(Fault::NoMemory)),
            Err(fault) => return Err(EngineFault::Refused(fault)),
        }
    }
    Ok(Window { said, records })
}

/// Commands that were run, in order.
#[derive(Drop)]
pub(crate) struct Changes<J> {
    /// What each of them is told.
    pub(crate) told: Vec<Told>,
    /// The records of those that were accepted.
    pub(crate) records: Vec<Record<J>>,
}

/// Runs commands that are no Slots on the state, one after the other. If an allocation failed, none was run.
pub(crate) fn run_changes<J: Job>(
    alloc: Global,
    state: &mut State<J>,
    commands: Vec<Command<J>>,
) -> Result<Changes<J>, AllocError>
    requires changes { AreChanges commands.items }
    ensures told { IfOk result (λ w. AreTold J.kind state.old commands.items w.told.items) }
    ensures moves { IfOk result (λ w. state.new ≡ outcome J.kind state.old (accepted_of commands.items w.told.items)) }
    ensures recorded { IfOk result (λ w. AreRecordsOf J.kind state.old (accepted_of commands.items w.told.items) (map plain w.records.items)) }
    ensures stays { OnErr result (state.new ≡ state.old) }
{
    let mut told = Vec::with_capacity(alloc, commands.len())?;
    let mut records = Vec::with_capacity(alloc, commands.len())?;
    for command in commands {
        let last = state.number();
        match apply_recorded(alloc, state, command) {
            Ok(Recorded { reply, entry }) => {
                told.push_reserved(Ok((last + 1, reply)));
                records.push_reserved(entry);
            }
            Err(fault) => told.push_reserved(Err(fault)),
        }
    }
    Ok(Changes { told, records })
}

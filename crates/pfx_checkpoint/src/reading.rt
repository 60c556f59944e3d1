//! Bytes as a state.
//!
//! Why it is so:
//! - **Bytes are a state's if they are the ones that it is written as.** The reader takes what stands at the places, tests it, writes it
//!   again and compares. So flags, zeros after a flag of 0 and jobs that decode are covered at once, and no byte is free.

ghost use Rattle.std.specs.Prelude.{◌≡◌, ◌≢◌, ◌↔◌, IsTrue, ◌+◌, ◌<◌, ◌≤◌, ◌*◌, ◌^◌, length, IfOk, MatchResult};
ghost use Rattle.pfx_columns.specs.Ledgers.{ledger_at, IsLedger};
ghost use Rattle.pfx_checkpoint.specs.Spelling.{state_bytes, state_len};
ghost use Rattle.pfx_checkpoint.specs.Found.{number_at, allocs_at, job_at, jobs_at, read_state, Reads};

use crate::CheckpointFault;
use crate::freezing::{FLAGGED, FRONT, REAL, freeze, place_of};
use byteorder::{ByteOrder, LittleEndian};
use pfx_columns::{Columns, LedgerFault};
use pfx_jobs::job::Job;
use pfx_machine::State;
use pfx_weights::TaskSet;
use std::alloc::{AllocError, Global};

/// The number at a place.
pub(crate) fn number_at(bytes: &[u8], at: usize) -> u64
    requires { at + 8 ≤ length bytes.now }
    ensures { result ≡ number_at at bytes.now }
{
    LittleEndian::read_u64(&bytes[at..])
}

/// The allocations of all tasks.
fn allocs_at(alloc: Global, set: &TaskSet, bytes: &[u8]) -> Result<Vec<u64>, AllocError>
    requires { length bytes.now ≡ state_len set.now }
    ensures { IfOk result (λ allocs. allocs.items ≡ allocs_at set.now.real (length set.now.weights) bytes.now) }
{
    let mut allocs = Vec::with_capacity(alloc, set.total())?;
    for task in 0..set.total() {
        allocs.push(number_at(bytes, place_of(set.real(), task)))?;
    }
    Ok(allocs)
}

/// The job at a place, if there is a flag and a job can be read.
fn job_at<J: Job>(bytes: &[u8], at: usize) -> Option<J>
    requires { at + 129 ≤ length bytes.now }
    ensures { result ≡ job_at J.kind at bytes.now }
{
    if bytes[at] == 0 {
        return None;
    }
    let mut spelled = [0; 128];
    spelled.copy_from_slice(&bytes[at + 1..at + FLAGGED]);
    J::decode(&spelled).ok()
}

/// The jobs of all real tasks.
fn jobs_at<J: Job>(alloc: Global, real: usize, bytes: &[u8]) -> Result<Vec<Option<J>>, AllocError>
    requires few { real ≤ 1024 }
    requires long { 16 + 137 * real ≤ length bytes.now }
    ensures { IfOk result (λ jobs. jobs.items ≡ jobs_at J.kind real bytes.now) }
{
    let mut jobs = Vec::with_capacity(alloc, real)?;
    for task in 0..real {
        jobs.push(job_at(bytes, FRONT + REAL * task + 8))?;
    }
    Ok(jobs)
}

/// The state that the bytes are, of a set that came into force at a slot and of a store whose segments have so many bytes,
/// or `Damaged` if they are none: the slot in them is counted from there.
///
/// There are as many bytes as `state_len` says. `NoMemory` comes only if an allocation failed.
pub fn read<J: Job>(
    alloc: Global,
    from: u64,
    segment: u32,
    set: &TaskSet,
    bytes: &[u8],
) -> Result<State<J>, CheckpointFault>
    requires from { from < 2 ^ 40 }
    requires long { length bytes.now ≡ state_len set.now }
    ensures { Reads (read_state J.kind from segment set.now bytes.now) result }
{
    let _total = set.total();
    let number = number_at(bytes, 0);
    let slot = number_at(bytes, 8);
    let Ok(allocs) = allocs_at(alloc, set, bytes) else {
        return Err(CheckpointFault::NoMemory);
    };
    let Ok(jobs) = jobs_at(alloc, set.real(), bytes) else {
        return Err(CheckpointFault::NoMemory);
    };
    if number >= 1 << 48 {
        return Err(CheckpointFault::Damaged);
    }
    if slot >= (1 << 40) - from {
        return Err(CheckpointFault::Damaged);
    }
    set.is_of_its_tasks();
    match ledger_of(alloc, set, slot, &allocs) {
        Ok(ledger) => compare(
            alloc,
            State::from_parts(alloc, number, from, ledger, jobs, segment),
            bytes,
        ),
        Err(fault) => Err(fault),
    }
}

/// The ledger of these allocations, or `Damaged` if they are none.
fn ledger_of(
    alloc: Global,
    set: &TaskSet,
    slot: u64,
    allocs: &[u64],
) -> Result<Columns, CheckpointFault>
    requires long { length allocs.now ≡ length set.now.weights }
    requires slot { slot < 2 ^ 40 }
    ensures { MatchResult result (λ g. (g ≡ ledger_at set.now slot allocs.now) × IsLedger g)
        (λ f. f ≡ CheckpointFault.Damaged → IsLedger (ledger_at set.now slot allocs.now) → ⊥) }
{
    match Columns::from_allocations(alloc, set, slot, allocs) {
        Ok(ledger) => Ok(ledger),
        Err(LedgerFault::NoMemory) => Err(CheckpointFault::NoMemory),
        Err(LedgerFault::OutOfRange { .. }) => Err(CheckpointFault::Damaged),
        Err(LedgerFault::WrongSum) => Err(CheckpointFault::Damaged),
    }
}

/// The state, if it is written as these bytes.
fn compare<J: Job>(
    alloc: Global,
    state: State<J>,
    bytes: &[u8],
) -> Result<State<J>, CheckpointFault>
    requires { length bytes.now ≡ state_len state.ledger.set }
    ensures { MatchResult result (λ s. (s ≡ state) × (bytes.now ≡ state_bytes J.kind state))
        (λ f. f ≡ CheckpointFault.Damaged → bytes.now ≢ state_bytes J.kind state) }
{
    let mut room = Vec::new(alloc);
    let Ok(_) = room.resize(bytes.len(), 0) else {
        return Err(CheckpointFault::NoMemory);
    };
    if is_spelling(&state, &mut room, bytes) {
        Ok(state)
    } else {
        Err(CheckpointFault::Damaged)
    }
}

/// Whether the bytes are the state's. It writes these into the room.
fn is_spelling<J: Job>(state: &State<J>, room: &mut [u8], bytes: &[u8]) -> bool
    requires room { length room.old ≡ state_len state.now.ledger.set }
    ensures { IsTrue result ↔ (bytes.now ≡ state_bytes J.kind state.now) }
{
    freeze(state, room);
    *bytes == *room
}

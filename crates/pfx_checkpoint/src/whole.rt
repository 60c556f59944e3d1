//! A state with the set in force as bytes, and back.
//!
//! Why it is so:
//! - **The set stands in a file's checkpoints**, with the slot from which on it is in force: the header's set is the one that the store
//!   began with, and another may come. The length of segments stands in the header alone. Each set of so many real tasks takes as many
//!   bytes, so that areas don't move: behind the tasks stand zeros for the idle ones that it lacks of 128, of which there are never more
//!   than 127.
//! - **The bytes of version 1 are in those of version 2.** A state alone has its number, its slot since the set came into force, and its
//!   tasks; with its set, the head takes the place of the first 16 bytes. So it is written behind the head's place, and the head over its
//!   front; to be read, those 16 are put together, and version 1's reader is asked. Its laws carry those of version 2.

ghost use Rattle.std.specs.Prelude.{◌≡◌, ◌≢◌, ◌↔◌, IsTrue, ◌+◌, ◌*◌, ◌≤◌, ◌++◌, ◌∷◌, length, take, drop, IfOk, MatchResult};
ghost use Rattle.byteorder.specs.Endian.{little_bytes};
ghost use Rattle.pfx_weights.specs.Bytes.{weight_bytes, weight_of, weights_of};
ghost use Rattle.pfx_weights.specs.Tests.{set_of};
ghost use Rattle.pfx_machine.specs.Plain.{whole};
ghost use Rattle.pfx_checkpoint.specs.Found.{number_at, Reads};
ghost use Rattle.pfx_checkpoint.specs.Spelling.{state_len};
ghost use Rattle.pfx_checkpoint.specs.Whole.{before_bytes, head_bytes, whole_bytes, whole_len, set_at, inner, if_some, checked, read_of_set, read_whole};

use crate::CheckpointFault;
use crate::freezing::{FRONT, REAL, freeze, frozen_len, put_number, state_len};
use crate::reading::{number_at, read};
use byteorder::{ByteOrder, LittleEndian};
use pfx_jobs::job::Job;
use pfx_machine::State;
use pfx_weights::{SetFault, TaskSet};
use std::alloc::{AllocError, Global};

/// How many bytes stand before the weights: three numbers of eight, and the workers.
const BEFORE: usize = 25;

/// How many bytes a weight takes.
const WEIGHT: usize = 8;

/// How many bytes the places of idle tasks take, of which there are 128 for any set.
const IDLE: usize = 1024;

/// How many bytes a state with its set takes, if so many tasks are real, at most 1,024: 1,049, and 145 for each.
pub fn whole_len(real: usize) -> usize
    requires { real ≤ 1024 }
    ensures { result ≡ whole_len real }
{
    BEFORE + IDLE + (WEIGHT + REAL) * real
}

/// Writes a number of four bytes at a place.
fn put_u32(bytes: &mut [u8], at: usize, number: u32)
    requires { at + 4 ≤ length bytes.old }
    ensures front { take (at + 4) bytes.new ≡ take at bytes.old ++ little_bytes 4 number }
    ensures long { length bytes.new ≡ length bytes.old }
{
    LittleEndian::write_u32(&mut bytes[at..at + 4], number);
}

/// Writes a weight at a place.
fn put_weight(bytes: &mut [u8], at: usize, weight: (u32, u32))
    requires { at + 8 ≤ length bytes.old }
    ensures front { take (at + 8) bytes.new ≡ take at bytes.old ++ weight_bytes weight }
    ensures long { length bytes.new ≡ length bytes.old }
{
    put_u32(bytes, at, weight.0);
    put_u32(bytes, at + 4, weight.1);
}

/// Writes what stands before the weights.
fn put_before<J: Job>(state: &State<J>, head: &mut [u8])
    requires { 25 ≤ length head.old }
    ensures front { take 25 head.new ≡ before_bytes state.now }
    ensures long { length head.new ≡ length head.old }
{
    let _total = state.columns().total();
    put_number(head, 0, state.number());
    put_number(head, 8, state.slot());
    put_number(head, 16, state.from());
    head[BEFORE - 1] = state.columns().workers() as u8;
}

/// Writes what stands before the tasks, which fills the bytes.
fn put_head<J: Job>(state: &State<J>, head: &mut [u8])
    requires { length head.old ≡ 25 + 8 * state.now.ledger.set.real }
    ensures { head.new ≡ head_bytes state.now }
{
    let _total = state.columns().total();
    put_before(state, head);
    for task in 0..state.columns().real() {
        put_weight(head, BEFORE + WEIGHT * task, state.columns().weight(task));
    }
}

/// Writes the state with its set, which fills the bytes: as many as `whole_len` says of its real tasks. It takes no memory.
pub fn freeze_whole<J: Job>(state: &State<J>, bytes: &mut [u8])
    requires { length bytes.old ≡ whole_len state.now.ledger.set.real }
    ensures { bytes.new ≡ whole_bytes J.kind state.now }
{
    let _number = state.number();
    let _total = state.columns().total();
    let tasks = BEFORE + WEIGHT * state.columns().real();
    let end = tasks - FRONT + frozen_len(state);
    // The state's own bytes begin with two numbers, over which the head is written.
    freeze(state, &mut bytes[tasks - FRONT..end]);
    put_head(state, &mut bytes[..tasks]);
    bytes[end..].fill(0);
}

/// The weight at a place.
fn weight_at(bytes: &[u8], at: usize) -> (u32, u32)
    requires { at + 8 ≤ length bytes.now }
    ensures { result ≡ weight_of (drop at bytes.now) }
{
    (
        LittleEndian::read_u32(&bytes[at..]),
        LittleEndian::read_u32(&bytes[at + 4..]),
    )
}

/// The weights of so many real tasks.
fn weights_at(alloc: Global, real: usize, bytes: &[u8]) -> Result<Vec<(u32, u32)>, AllocError>
    requires few { real ≤ 1024 }
    requires long { 25 + 8 * real ≤ length bytes.now }
    ensures { IfOk result (λ weights. weights.items ≡ weights_of real (drop 25 bytes.now)) }
{
    let mut weights = Vec::with_capacity(alloc, real)?;
    for task in 0..real {
        weights.push(weight_at(bytes, BEFORE + WEIGHT * task))?;
    }
    Ok(weights)
}

/// The set of these workers and weights, or none if `TaskSet::new` refuses them.
fn set_of(
    alloc: Global,
    workers: u32,
    weights: &[(u32, u32)],
) -> Result<Option<TaskSet>, AllocError>
    ensures { IfOk result (λ set. set ≡ set_of workers weights.now) }
{
    match TaskSet::new(alloc, workers, weights) {
        Ok(set) => Ok(Some(set)),
        Err(SetFault::NoMemory) => Err(AllocError),
        Err(SetFault::NoTasks) => Ok(None),
        Err(SetFault::TooManyTasks) => Ok(None),
        Err(SetFault::BadWorkers) => Ok(None),
        Err(SetFault::BadWeight { .. }) => Ok(None),
        Err(SetFault::HyperperiodTooLarge { .. }) => Ok(None),
        Err(SetFault::Overload) => Ok(None),
    }
}

/// The set that stands in the bytes, or none if there is none.
fn set_at(alloc: Global, real: usize, bytes: &[u8]) -> Result<Option<TaskSet>, AllocError>
    requires few { real ≤ 1024 }
    requires long { 25 + 8 * real ≤ length bytes.now }
    ensures { IfOk result (λ set. set ≡ set_at real bytes.now) }
{
    let weights = weights_at(alloc, real, bytes)?;
    set_of(alloc, u32::from(bytes[BEFORE - 1]), &weights)
}

/// Writes the bytes of the state alone, whose slot is counted from the one at which the set came into force: as many as
/// `state_len` says.
fn put_inner(set: &TaskSet, bytes: &[u8], room: &mut [u8])
    requires bytes { length bytes.now ≡ whole_len set.now.real }
    requires room { length room.old ≡ state_len set.now }
    ensures { room.new ≡ inner set.now bytes.now }
{
    let len = state_len(set);
    let _total = set.total();
    let tasks = BEFORE + WEIGHT * set.real();
    put_number(room, 0, number_at(bytes, 0));
    let slot = number_at(bytes, 8).saturating_sub(number_at(bytes, 16));
    put_number(room, 8, slot);
    room[FRONT..].copy_from_slice(&bytes[tasks..tasks + (len - FRONT)]);
}

/// The bytes of the state alone.
fn inner(alloc: Global, set: &TaskSet, bytes: &[u8]) -> Result<Vec<u8>, AllocError>
    requires { length bytes.now ≡ whole_len set.now.real }
    ensures { IfOk result (λ room. room.items ≡ inner set.now bytes.now) }
{
    let mut room = Vec::from_elem(alloc, 0, state_len(set))?;
    put_inner(set, bytes, &mut room);
    Ok(room)
}

/// Whether the bytes are the state's with its set. It writes these into the room.
fn is_whole<J: Job>(state: &State<J>, room: &mut [u8], bytes: &[u8]) -> bool
    requires { length room.old ≡ whole_len state.now.ledger.set.real }
    ensures { IsTrue result ↔ (bytes.now ≡ whole_bytes J.kind state.now) }
{
    freeze_whole(state, room);
    *bytes == *room
}

/// The state, if it is written with its set as these bytes.
fn check<J: Job>(alloc: Global, state: State<J>, bytes: &[u8]) -> Result<State<J>, CheckpointFault>
    requires { length bytes.now ≡ whole_len state.ledger.set.real }
    ensures { Reads (checked J.kind bytes.now state) result }
{
    let Ok(room) = Vec::from_elem(alloc, 0, bytes.len()) else {
        return Err(CheckpointFault::NoMemory);
    };
    let mut room = room;
    if is_whole(&state, &mut room, bytes) {
        Ok(state)
    } else {
        Err(CheckpointFault::Damaged)
    }
}

/// The state of a set that stands in the bytes, or `Damaged` if there is none.
fn read_of_set<J: Job>(
    alloc: Global,
    set: &TaskSet,
    segment: u32,
    bytes: &[u8],
) -> Result<State<J>, CheckpointFault>
    requires { length bytes.now ≡ whole_len set.now.real }
    ensures { Reads (read_of_set J.kind segment bytes.now set.now) result }
{
    let _total = set.total();
    set.is_of_its_tasks();
    let from = number_at(bytes, 16);
    if from >= 1 << 40 {
        return Err(CheckpointFault::Damaged);
    }
    let Ok(room) = inner(alloc, set, bytes) else {
        return Err(CheckpointFault::NoMemory);
    };
    match read(alloc, from, segment, set, &room) {
        Ok(state) => check(alloc, state, bytes),
        Err(fault) => Err(fault),
    }
}

/// The state that the bytes are with its set, of so many real tasks, at most 1,024, and of a store whose segments have so
/// many bytes, or `Damaged` if they are none.
///
/// There are as many bytes as `whole_len` says. `NoMemory` comes only if an allocation failed.
pub fn read_whole<J: Job>(
    alloc: Global,
    real: usize,
    segment: u32,
    bytes: &[u8],
) -> Result<State<J>, CheckpointFault>
    requires few { real ≤ 1024 }
    requires long { length bytes.now ≡ whole_len real }
    ensures { Reads (read_whole J.kind real segment bytes.now) result }
{
    match set_at(alloc, real, bytes) {
        Ok(Some(set)) => read_of_set(alloc, &set, segment, bytes),
        Ok(None) => Err(CheckpointFault::Damaged),
        Err(_) => Err(CheckpointFault::NoMemory),
    }
}

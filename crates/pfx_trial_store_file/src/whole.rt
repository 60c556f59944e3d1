//! The worked bytes of a state with its set, and bytes that are none.

use crate::check::{check, check_at};
use crate::checkpoint::{has, has_zeros, new_of, worked, worked_bytes};
use crate::thirds::Held;
use pfx_checkpoint::{CheckpointFault, freeze_whole, read_whole, whole_len};
use pfx_kinds::any::AnyJob;
use pfx_machine::State;
use pfx_weights::TaskSet;
use std::alloc::Global;

fn frozen(alloc: Global, state: &State<AnyJob>) -> Option<Vec<u8>> {
    let real = state.columns().real();
    if real > 1024 {
        return None;
    }
    let mut bytes = Vec::new(alloc);
    bytes.resize(whole_len(real), 0).ok()?;
    if bytes.len() != whole_len(real) {
        return None;
    }
    freeze_whole(state, &mut bytes);
    Some(bytes)
}

/// The bytes of three tasks of 2/3 after a job of rule 110 for task 0 and three slots.
fn whole_bytes(alloc: Global) -> Option<Vec<u8>> {
    let state = worked(alloc)?;
    frozen(alloc, &state)
}

/// The state of so many real tasks that the bytes are, or why there is none.
fn thawed(alloc: Global, real: usize, bytes: &[u8]) -> Result<Held, CheckpointFault> {
    if real > 1024 || bytes.len() != whole_len(real) {
        return Err(CheckpointFault::NoMemory);
    }
    let state = read_whole(alloc, real, 8192, bytes)?;
    Box::new(alloc, state).map_err(|_| CheckpointFault::NoMemory)
}

fn has_worked_head(bytes: &[u8]) -> bool {
    let head = [4, 0, 0, 0, 0, 0, 0, 0, 3, 0, 0, 0, 0, 0, 0, 0];
    let set = [
        2, 2, 0, 0, 0, 3, 0, 0, 0, 2, 0, 0, 0, 3, 0, 0, 0, 2, 0, 0, 0, 3, 0, 0, 0,
    ];
    has(bytes, 0, &head) && has_zeros(bytes, 16, 8) && has(bytes, 24, &set)
}

/// Whether the tasks stand there as without the set, and zeros behind them.
fn has_worked_tasks(alloc: Global, bytes: &[u8]) -> Option<bool> {
    let alone = worked_bytes(alloc);
    Some(has(bytes, 49, alone.get(16..)?) && has_zeros(bytes, 460, 1024))
}

fn worked_whole_is_written(alloc: Global) -> Option<bool> {
    let bytes = whole_bytes(alloc)?;
    let long = bytes.len() == 1484 && whole_len(3) == 1484;
    Some(long && has_worked_head(&bytes) && has_worked_tasks(alloc, &bytes)?)
}

#[test]
fn freezes_the_worked_state_with_its_set(rt: HostRuntime) {
    let alloc = rt.alloc();
    check(&rt, worked_whole_is_written(alloc) == Some(true), "bytes");
}

fn worked_whole_is_read(alloc: Global) -> Option<bool> {
    let state = thawed(alloc, 3, &whole_bytes(alloc)?).ok()?;
    let ledger = state.columns();
    let numbers = state.number() == 4 && state.slot() == 3 && state.from() == 0;
    Some(numbers && ledger.workers() == 2 && ledger.real() == 3 && state.segment() == 8192)
}

#[test]
fn reads_what_it_froze_with_its_set(rt: HostRuntime) {
    let alloc = rt.alloc();
    check(&rt, worked_whole_is_read(alloc) == Some(true), "read");
}

/// The bytes of one task of 1/2 on 64 workers.
fn half_of_many(alloc: Global) -> Option<Vec<u8>> {
    let set = TaskSet::new(alloc, 64, &[(1, 2)]).ok()?;
    let state = new_of(alloc, &set)?;
    frozen(alloc, &state)
}

/// Whether that task has 127 idle ones beside it, and zeros for one more.
fn most_idle_tasks_are_read(alloc: Global) -> Option<bool> {
    let bytes = half_of_many(alloc)?;
    let state = thawed(alloc, 1, &bytes).ok()?;
    let zeros = bytes.len() == 1194 && has_zeros(&bytes, 1186, 8);
    Some(zeros && state.columns().total() == 128 && state.columns().workers() == 64)
}

#[test]
fn reads_as_many_idle_tasks_as_there_are(rt: HostRuntime) {
    let holds = most_idle_tasks_are_read(rt.alloc()) == Some(true);
    check(&rt, holds, "127 idle tasks");
}

/// Whether the worked bytes with these changed are no state.
fn is_damaged(alloc: Global, changes: &[(usize, u8)]) -> Option<bool> {
    let mut bytes = whole_bytes(alloc)?;
    for (at, byte) in changes {
        *bytes.get_mut(*at)? = *byte;
    }
    Some(thawed(alloc, 3, &bytes).err() == Some(CheckpointFault::Damaged))
}

#[test]
fn refuses_bytes_of_no_state(rt: HostRuntime) {
    let alloc = rt.alloc();
    // A number past its limit; a slot past its limit; a set that came into force behind the slot, or three slots later than these
    // allocations say; 65 workers and none; a weight of 3/3; an overload; allocations of another sum; a byte among the zeros, and
    // the last one.
    let rows: [&[(usize, u8)]; 11] = [
        &[(6, 1)],
        &[(13, 1)],
        &[(16, 4)],
        &[(16, 3)],
        &[(24, 65)],
        &[(24, 0)],
        &[(25, 3)],
        &[(24, 1)],
        &[(49, 3)],
        &[(460, 1)],
        &[(1483, 1)],
    ];
    for (number, row) in rows.iter().enumerate() {
        check_at(&rt, is_damaged(alloc, row) == Some(true), "row", number);
    }
}

/// Whether the worked bytes are read as a state whose set came into force so many slots later, its slot as much later.
fn is_shifted(alloc: Global, by: u8) -> Option<bool> {
    let mut bytes = whole_bytes(alloc)?;
    *bytes.get_mut(8)? = by.saturating_add(3);
    *bytes.get_mut(16)? = by;
    let state = thawed(alloc, 3, &bytes).ok()?;
    Some(state.from() == u64::from(by) && state.columns().slot() == 3)
}

#[test]
fn counts_slots_from_the_first_one_of_all(rt: HostRuntime) {
    let alloc = rt.alloc();
    for by in [1u8, 3, 200] {
        let holds = is_shifted(alloc, by) == Some(true);
        check_at(&rt, holds, "from", usize::from(by));
    }
}

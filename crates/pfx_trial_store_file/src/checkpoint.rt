//! The worked bytes of a state, and bytes that are no state.

use crate::check::{check, check_at};
use crate::thirds::{Held, new_state, thirds};
use pfx_checkpoint::{CheckpointFault, freeze, frozen_len, read, state_len};
use pfx_jobs::job::Job;
use pfx_kinds::any::AnyJob;
use pfx_machine::{Command, State};
use pfx_weights::TaskSet;
use std::alloc::Global;

/// Their state after a job of rule 110 for task 0 and three slots.
pub fn worked(alloc: Global) -> Option<Held> {
    let mut state = new_state(alloc)?;
    let job = AnyJob::start("rule", 3, b"110:00000001").ok()?;
    state.apply(Command::Submit { task: 0, job }).ok()?;
    for _slot in 0..3 {
        state.apply(Command::Slot).ok()?;
    }
    Some(state)
}

fn frozen(alloc: Global, state: &State<AnyJob>) -> Option<Vec<u8>> {
    let mut bytes = Vec::new(alloc);
    bytes.resize(frozen_len(state), 0).ok()?;
    if bytes.len() != frozen_len(state) {
        return None;
    }
    freeze(state, &mut bytes);
    Some(bytes)
}

/// The worked bytes, or none if memory lacks.
pub fn worked_bytes(alloc: Global) -> Vec<u8> {
    match worked(alloc) {
        Some(state) => frozen(alloc, &state).unwrap_or(Vec::new(alloc)),
        None => Vec::new(alloc),
    }
}

/// Whether the bytes are those of a state of the set with this number and this slot.
fn is_thawed(alloc: Global, set: &TaskSet, bytes: &[u8], number: u64, slot: u64) -> bool {
    if bytes.len() != state_len(set) {
        return false;
    }
    match read::<AnyJob>(alloc, 0, 8192, set, bytes) {
        Ok(state) => state.number() == number && state.columns().slot() == slot,
        Err(_) => false,
    }
}

/// Whether the bytes from a place on begin so.
pub fn has(bytes: &[u8], at: usize, wanted: &[u8]) -> bool {
    match bytes.get(at..) {
        Some(rest) => rest.starts_with(wanted),
        None => false,
    }
}

/// Whether so many bytes from a place on are zeros.
pub fn has_zeros(bytes: &[u8], at: usize, number: usize) -> bool {
    bytes.iter().skip(at).take(number).all(|byte| *byte == 0)
}

fn has_worked_length(alloc: Global, bytes: &[u8]) -> Option<bool> {
    let set = thirds(alloc)?;
    Some(bytes.len() == 427 && state_len(&set) == 427)
}

fn has_worked_job(bytes: &[u8]) -> bool {
    has(bytes, 16, &[2, 0, 0, 0, 0, 0, 0, 0, 1])
        && has(bytes, 25, &[2, 1, 0, 0, 0, 0x6e, 8, 0, 7])
        && has_zeros(bytes, 34, 119)
}

/// Whether the task whose bytes begin here has two allocations and no job.
fn has_no_job(bytes: &[u8], at: usize) -> bool {
    has(bytes, at, &[2, 0, 0, 0, 0, 0, 0, 0, 0]) && has_zeros(bytes, at.saturating_add(9), 128)
}

#[test]
fn freezes_the_worked_state(rt: HostRuntime) {
    let alloc = rt.alloc();
    let bytes = worked_bytes(alloc);
    check(
        &rt,
        has_worked_length(alloc, &bytes) == Some(true),
        "length",
    );
    let number = [4, 0, 0, 0, 0, 0, 0, 0, 3, 0, 0, 0, 0, 0, 0, 0];
    check(&rt, has(&bytes, 0, &number), "number and slot");
    check(&rt, has_worked_job(&bytes), "task 0");
    check(&rt, has_no_job(&bytes, 153), "task 1");
    check(&rt, has_no_job(&bytes, 290), "task 2");
}

fn is_worked_state(alloc: Global, bytes: &[u8]) -> Option<bool> {
    let set = thirds(alloc)?;
    Some(is_thawed(alloc, &set, bytes, 4, 3))
}

#[test]
fn reads_what_it_froze(rt: HostRuntime) {
    let alloc = rt.alloc();
    let bytes = worked_bytes(alloc);
    check(&rt, is_worked_state(alloc, &bytes) == Some(true), "read");
}

/// A new state of a set.
pub fn new_of(alloc: Global, set: &TaskSet) -> Option<Held> {
    Box::new(alloc, State::new(alloc, set, 8192).ok()?).ok()
}

fn half_is_frozen_and_read(alloc: Global) -> Option<bool> {
    let set = TaskSet::new(alloc, 2, &[(1, 2)]).ok()?;
    let state = new_of(alloc, &set)?;
    let bytes = frozen(alloc, &state)?;
    Some(bytes.len() == 16 + 137 + 3 * 8 && is_thawed(alloc, &set, &bytes, 0, 0))
}

#[test]
fn gives_idle_tasks_no_job(rt: HostRuntime) {
    let holds = half_is_frozen_and_read(rt.alloc()) == Some(true);
    check(&rt, holds, "one task of 1/2 on two workers");
}

/// Whether so many bytes as a state of the set has are none.
fn is_no_state(alloc: Global, set: &TaskSet, bytes: &[u8]) -> bool {
    if bytes.len() != state_len(set) {
        return false;
    }
    match read::<AnyJob>(alloc, 0, 8192, set, bytes) {
        Ok(_) => false,
        Err(fault) => fault == CheckpointFault::Damaged,
    }
}

/// Whether the worked bytes with one byte changed are no state.
fn is_damaged(alloc: Global, at: usize, byte: u8) -> Option<bool> {
    let mut bytes = worked_bytes(alloc);
    *bytes.get_mut(at)? = byte;
    let set = thirds(alloc)?;
    Some(is_no_state(alloc, &set, &bytes))
}

#[test]
fn refuses_numbers_of_no_state(rt: HostRuntime) {
    let alloc = rt.alloc();
    // The number and the slot past their limits, allocations out of range or of another sum.
    for (at, byte) in [(6, 1), (13, 1), (16, 3), (290, 1)] {
        check_at(&rt, is_damaged(alloc, at, byte) == Some(true), "byte", at);
    }
}

#[test]
fn refuses_jobs_that_are_none(rt: HostRuntime) {
    let alloc = rt.alloc();
    // A flag of 2, a job that is none, and bytes behind a flag of 0.
    for (at, byte) in [(24, 2), (25, 9), (161, 2), (170, 1), (426, 1)] {
        check_at(&rt, is_damaged(alloc, at, byte) == Some(true), "byte", at);
    }
}

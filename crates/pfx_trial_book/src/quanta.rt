//! Quanta of jobs that count, and what is done with them at a desk.

use pfx_crew::desk::Desk;
use pfx_jobs::job::{Job, are_same};
use pfx_jobs::quantum::{Done, Quantum};
use pfx_kinds::any::AnyJob;
use std::sync::Wait;

/// A quantum of a job that counts from this number, in decimal digits, and has five steps to go.
pub fn quantum(number: u64, slot: u64, task: u16, start: &[u8]) -> Option<Quantum<AnyJob>> {
    let job = AnyJob::start("count", 5, start).ok()?;
    if job.is_done() {
        return None;
    }
    Some(Quantum::new(number, slot, task, job))
}

/// Whether a result is that of task's quantum: the state before, stepped once.
pub fn is_result(done: &Done<AnyJob>, task: u16) -> bool {
    let mut after = done.before.copy_of();
    if after.is_done() {
        return false;
    }
    after.step();
    done.task == task && are_same(&after, &done.after)
}

/// Whether the desk takes the first quantum of a task, dealt by command 1 in slot 0.
pub fn is_dealt<K: Desk<Quantum<AnyJob>, Done<AnyJob>>, R: Wait>(
    rt: &R,
    desk: &K,
    seat: &mut K::Seat,
    task: u16,
) -> bool {
    match quantum(1, 0, task, b"20") {
        Some(one) => desk.deal(rt, seat, one).is_ok(),
        None => false,
    }
}

/// Whether there is a quantum, and its result is handed back.
pub fn is_run<K: Desk<Quantum<AnyJob>, Done<AnyJob>>, R: Wait>(
    rt: &R,
    desk: &K,
    seat: &mut K::Seat,
) -> bool {
    match desk.next(rt, seat) {
        Some(one) => desk.hand_back(rt, seat, one.run()).is_ok(),
        None => false,
    }
}

/// The task of the next result, if there is one.
pub fn collected<K: Desk<Quantum<AnyJob>, Done<AnyJob>>, R: Wait>(
    rt: &R,
    desk: &K,
    seat: &mut K::Seat,
) -> Option<u16> {
    match desk.collect(rt, seat) {
        Some(done) => Some(done.task),
        None => None,
    }
}

//! States that books begin with.

use pfx_jobs::job::Job;
use pfx_kinds::any::AnyJob;
use pfx_kit::states::{SEGMENT, state_at};
use pfx_machine::{Command, State};
use pfx_weights::TaskSet;
use std::alloc::Global;

/// A kind of which the trials begin jobs. They know no more of it, so that their proofs are over any kind.
pub trait Trial: Job {
    /// A job of five steps.
    fn count() -> Option<Self>;
}

impl Trial for AnyJob {
    fn count() -> Option<AnyJob> {
        AnyJob::start("count", 5, b"").ok()
    }
}

/// A state behind a pointer: a proof spells what a function holds itself at each of its steps.
pub type Held = Box<State<AnyJob>>;

/// Three tasks of 2/3 on two workers, before the first command.
pub fn thirds(alloc: Global) -> Option<Held> {
    let set = TaskSet::new(alloc, 2, &[(2, 3), (2, 3), (2, 3)]).ok()?;
    Box::new(alloc, State::new(alloc, &set, SEGMENT).ok()?).ok()
}

/// The same after the first command, which gave task 2 a count.
pub fn later(alloc: Global) -> Option<Held> {
    let mut state = thirds(alloc)?;
    let job = AnyJob::count()?;
    state.apply(Command::Submit { task: 2, job }).ok()?;
    Some(state)
}

/// One task of 1/2 with a job, at the last slot and before the last number.
pub fn at_the_limits(alloc: Global) -> Option<Held> {
    let allocs = [1 << 39, (1 << 39) - 1];
    let set = TaskSet::new(alloc, 1, &[(1, 2)]).ok()?;
    let (number, slot) = ((1 << 48) - 2, (1 << 40) - 1);
    let job = Some(AnyJob::count()?);
    Box::new(alloc, state_at(alloc, number, &set, slot, &allocs, job)?).ok()
}

/// Four tasks in slot 2, of which two are urgent for one worker.
pub fn urgent(alloc: Global) -> Option<Held> {
    let tasks = [(1, 3), (1, 3), (1, 6), (1, 6)];
    let set = TaskSet::new(alloc, 1, &tasks).ok()?;
    let state = state_at(alloc, 7, &set, 2, &[0, 0, 1, 1], None)?;
    Box::new(alloc, state).ok()
}

/// Four tasks in slot 2, of which two are eligible for three workers.
pub fn idle(alloc: Global) -> Option<Held> {
    let tasks = [(2, 3), (2, 3), (5, 6), (5, 6)];
    let set = TaskSet::new(alloc, 3, &tasks).ok()?;
    let state = state_at(alloc, 0, &set, 2, &[2, 2, 1, 1], None)?;
    Box::new(alloc, state).ok()
}

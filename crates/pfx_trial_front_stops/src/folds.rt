//! The run of the trials, and what its commands lead to by a slow fold, one task after the other.

use crate::courses::Course;
use pfx_disk::MemoryDisk;
use pfx_jobs::job::Job;
use pfx_kinds::any::AnyJob;
use pfx_kit::places::FIRST_SEGMENT;
use pfx_machine::{Command, State};
use pfx_replay::{PlainLedger, PlainState, plain_state};
use pfx_weights::{TaskSet, Weights};
use std::alloc::Global;

/// How many commands the run has: two Submits, three Reweighs and 57 Slots.
pub const COMMANDS: u64 = 62;

/// The least length of a segment of two workers, so that the run turns twice.
pub const SEGMENT: u32 = 4233;

/// How many calls make the file.
pub const MADE: u64 = 9;

/// How many calls the run takes after them, with its turns and their checkpoints, if each command has a frame of its own.
pub const CALLS: u64 = 272;

/// How long the file is.
pub const LONGEST: usize = FIRST_SEGMENT + 2 * SEGMENT as usize;

/// How many bytes the run and what comes after it write at most.
pub const WRITTEN: usize = 60_000;

/// An empty disk with room for the run if it is for so many calls.
pub fn empty_for(alloc: Global, calls: usize) -> Option<MemoryDisk> {
    MemoryDisk::new(alloc, &[], LONGEST, calls, WRITTEN).ok()
}

/// An empty disk with room for the run.
pub fn empty(alloc: Global) -> Option<MemoryDisk> {
    empty_for(alloc, 1000)
}

/// The set: three tasks of weight 2/3 on two workers.
pub fn thirds(alloc: Global) -> Option<TaskSet> {
    TaskSet::new(alloc, 2, &[(2, 3), (2, 3), (2, 3)]).ok()
}

/// New weights for all three tasks, e/p each.
fn reweigh(alloc: Global, workers: u32, e: u32, p: u32) -> Option<Command<AnyJob>> {
    let weights = Weights::new(Vec::from_slice(alloc, &[(e, p), (e, p), (e, p)]).ok()?);
    Some(Command::Reweigh { workers, weights })
}

/// The run's command of this number: jobs of a thousand steps for tasks 0 and 1, and then Slots, between them new weights where no
/// task is ahead or behind: for one worker, for two with an idle task, and the first ones again.
pub fn command(alloc: Global, number: u64) -> Option<Command<AnyJob>> {
    match number {
        0 => None,
        9 => reweigh(alloc, 1, 1, 3),
        16 => reweigh(alloc, 2, 1, 2),
        29 => reweigh(alloc, 2, 2, 3),
        1..=2 => {
            let job = AnyJob::start("count", 1000, b"").ok()?;
            Some(Command::Submit {
                task: (number - 1) as u16,
                job,
            })
        }
        _ => Some(Command::Slot),
    }
}

/// What commands lead to, and what they and one Slot after them do.
#[derive(Drop)]
pub struct Fold {
    pub state: PlainState<AnyJob>,
    pub behind_slot: PlainState<AnyJob>,
}

/// What commands lead to.
fn state_after(
    alloc: Global,
    start: &State<AnyJob>,
    commands: &[Command<AnyJob>],
) -> Option<PlainState<AnyJob>> {
    plain_state(alloc, start, commands).ok()?
}

/// The fold of these commands, which are left as they are.
fn fold_of(
    alloc: Global,
    start: &State<AnyJob>,
    commands: &mut Vec<Command<AnyJob>>,
) -> Option<Fold> {
    let state = state_after(alloc, start, commands)?;
    commands.push(Command::Slot).ok()?;
    let behind_slot = state_after(alloc, start, commands)?;
    commands.pop()?;
    Some(Fold { state, behind_slot })
}

/// The state that a run begins with.
fn begin(alloc: Global) -> Option<State<AnyJob>> {
    State::new(alloc, &thirds(alloc)?, SEGMENT).ok()
}

/// Puts a run's command of this number behind those before it, if it isn't 0, and their fold behind theirs. `None` if an allocation
/// failed.
fn go_on(
    alloc: Global,
    start: &State<AnyJob>,
    course: Course,
    number: u64,
    commands: &mut Vec<Command<AnyJob>>,
    folds: &mut Vec<Fold>,
) -> Option<()> {
    if number > 0 {
        commands.push(course.command(alloc, number)?).ok()?;
    }
    folds.push(fold_of(alloc, start, commands)?).ok()
}

/// The folds of a run's first commands: of none of them, of one, and so on up to all.
pub fn folds(alloc: Global, course: Course) -> Option<Vec<Fold>> {
    let start = begin(alloc)?;
    let mut commands = Vec::new(alloc);
    let mut folds = Vec::new(alloc);
    for number in 0..course.commands().saturating_add(1) {
        go_on(alloc, &start, course, number, &mut commands, &mut folds)?;
    }
    Some(folds)
}

/// Whether a task's lag, in parts of its period, is what it is due less what it got.
fn is_lag(ledger: &PlainLedger, task: usize, lag: i32) -> Option<bool> {
    let (e, p) = *ledger.weights.get(task)?;
    let got = *ledger.allocations.get(task)?;
    let due = u64::from(e).saturating_mul(ledger.slot);
    let had = u64::from(p).saturating_mul(got);
    let distance = u64::from(lag.unsigned_abs());
    Some(if lag < 0 {
        had == due.saturating_add(distance)
    } else {
        due == had.saturating_add(distance)
    })
}

/// Whether both are none, or jobs of the same encoding.
fn is_job(job: Option<&AnyJob>, other: Option<&AnyJob>) -> bool {
    match (job, other) {
        (None, None) => true,
        (Some(one), Some(two)) => {
            let mut first = [0; 128];
            let mut second = [0; 128];
            one.encode(&mut first);
            two.encode(&mut second);
            first == second
        }
        _ => false,
    }
}

/// Whether a state has these numbers, these weights, allocations and lags, and these states of jobs.
pub fn is_state(state: &State<AnyJob>, fold: &PlainState<AnyJob>) -> bool {
    let ledger = state.columns();
    let total = ledger.total();
    if state.number() != fold.number
        || state.from() != fold.from
        || ledger.workers() != fold.ledger.workers
        || ledger.slot() != fold.ledger.slot
        || fold.ledger.allocations.len() != total
        || state.jobs().len() != fold.jobs.len()
    {
        return false;
    }
    for task in 0..total {
        if fold.ledger.weights.get(task) != Some(&ledger.weight(task))
            || fold.ledger.allocations.get(task) != Some(&ledger.alloc(task))
            || is_lag(&fold.ledger, task, ledger.lag(task)) != Some(true)
        {
            return false;
        }
    }
    for (task, job) in state.jobs().iter().enumerate() {
        match fold.jobs.get(task) {
            Some(other) if is_job(job.as_ref(), other.as_ref()) => {}
            _ => return false,
        }
    }
    true
}

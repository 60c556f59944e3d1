// The slow fold: commands one after the other.
ghost use Rattle.std.specs.Prelude.{◌≡◌, ◌≢◌, ◌↔◌, ◌∷◌, [], slice_get, IsTrue, IfOk, MatchOption, None};
ghost use Rattle.pfx_machine.specs.Outcome.{outcome};
ghost use Rattle.pfx_machine.specs.Refusals.{refusal, submit_fault, withdraw_fault};
ghost use Rattle.pfx_machine.specs.Reweighing.{least_for, reweigh_fault};
ghost use Rattle.pfx_machine.specs.Sessions.{IsAcceptable};
ghost use Rattle.pfx_replay.specs.Stated.{plain_of};

use crate::jobs::PlainState;
use pfx_jobs::job::Job;
use pfx_machine::{Command, State};
use pfx_weights::{SetFault, TaskSet};
use std::alloc::{AllocError, Global};

/// No command has this number.
const NUMBER_LIMIT: u64 = 1 << 48;

// Whether a task may be given a job: it is a real one without an unfinished job.
fn may_submit<J: Job>(jobs: &[Option<J>], task: u16) -> bool
    ensures { IsTrue result ↔ (submit_fault J.kind task (slice_get jobs.now task) ≡ None) }
{
    match jobs.get(usize::from(task)) {
        None => false,
        Some(None) => true,
        Some(Some(job)) => job.is_done(),
    }
}

// Whether a task's job may be taken away: it has one.
fn may_withdraw<J: Job>(jobs: &[Option<J>], task: u16) -> bool
    ensures { IsTrue result ↔ (withdraw_fault task (slice_get jobs.now task) ≡ None) }
{
    match jobs.get(usize::from(task)) {
        None => false,
        Some(None) => false,
        Some(Some(_)) => true,
    }
}

// How long a segment has to be for a set: for the longest batch of its workers, and for the record of its weights.
fn least_for(set: &TaskSet) -> u32
    ensures { result ≡ least_for set.now.workers set.now.real }
{
    let _total = set.total();
    (41 + 2096 * set.workers()).max(27 + 8 * set.real() as u32)
}

// Whether an allocation failed.
fn is_memory(fault: SetFault) -> bool
    ensures { IsTrue result ↔ (fault ≡ SetFault.NoMemory) }
{
    matches!(fault, SetFault::NoMemory)
}

// Whether new weights may come into force: there is one for each real task, every lag is zero, they are a set, and the segments
// have room for it. An error comes only if an allocation failed.
fn may_reweigh<J: Job>(
    alloc: Global,
    state: &PlainState<J>,
    workers: u32,
    weights: &[(u32, u32)],
) -> Result<bool, AllocError>
    ensures { IfOk result (λ may. IsTrue may ↔ (reweigh_fault (plain_of state.now) workers weights.now ≡ None)) }
{
    if weights.len() != state.ledger.real {
        return Ok(false);
    }
    if !state.ledger.is_level() {
        return Ok(false);
    }
    match TaskSet::new(alloc, workers, weights) {
        Ok(set) => Ok(state.segment >= least_for(&set)),
        Err(fault) => {
            if is_memory(fault) {
                return Err(AllocError);
            }
            Ok(false)
        }
    }
}

// The state after one command, or `None` if the state refuses it.
fn step<J: Job>(
    alloc: Global,
    state: PlainState<J>,
    command: &Command<J>,
) -> Result<Option<PlainState<J>>, AllocError>
    ensures { IfOk result (λ found. MatchOption found
        (refusal J.kind (plain_of state) command.now ≢ None)
        (λ next. (refusal J.kind (plain_of state) command.now ≡ None) × (plain_of next ≡ outcome J.kind (plain_of state) (command.now ∷ [])))) }
{
    if state.number + 1 >= NUMBER_LIMIT {
        return Ok(None);
    }
    match command {
        Command::Submit { task, job } => {
            if !may_submit(&state.jobs, *task) {
                return Ok(None);
            }
            Ok(Some(state.submitted(*task, job.copy_of())))
        }
        Command::Slot => {
            let Some(row) = state.row(alloc)? else {
                return Ok(None);
            };
            Ok(Some(state.ran(&row)))
        }
        Command::Withdraw { task } => {
            if !may_withdraw(&state.jobs, *task) {
                return Ok(None);
            }
            Ok(Some(state.withdrawn(*task)))
        }
        Command::Reweigh { workers, weights } => {
            let weights = weights.as_slice();
            if !may_reweigh(alloc, &state, *workers, weights)? {
                return Ok(None);
            }
            let next = state.reweighed(alloc, *workers, weights)?;
            Ok(Some(next))
        }
    }
}

/// The state after commands, one after the other from a start, or `None` if one is refused after those before it.
///
/// The ledger is kept in plain numbers, PF's row is found by counting who goes before whom, and each job is stepped if its
/// task is in the row, one task after the other. An error comes only if an allocation failed.
pub fn plain_state<J: Job>(
    alloc: Global,
    start: &State<J>,
    commands: &[Command<J>],
) -> Result<Option<PlainState<J>>, AllocError>
    ensures { IfOk result (λ found. MatchOption found
        (IsAcceptable J.kind start.now commands.now → ⊥)
        (λ state. IsAcceptable J.kind start.now commands.now × (plain_of state ≡ outcome J.kind start.now commands.now))) }
{
    let mut reached = PlainState::of(alloc, start)?;
    for command in commands {
        match step(alloc, reached, command)? {
            Some(next) => reached = next,
            None => return Ok(None),
        }
    }
    Ok(Some(reached))
}

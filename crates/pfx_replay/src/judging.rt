// Records against what their commands do.
//
// Why it is so:
// - **What a record holds decides what is compared**: a slot's row and states. A submit's or a withdrawal's record says what its command
//   says, and recovery has already tested that the state lets it pass.
ghost use Rattle.std.specs.Prelude.{◌≡◌, ◌≢◌, ◌↔◌, ◌+◌, ◌∷◌, [], ℕ, List, length, map, slice_get, slice_index_or, IsTrue, IfOk, MatchOption, Some, None, Ok};
ghost use Rattle.pfx_machine.specs.Choosing.{row_in};
ghost use Rattle.pfx_machine.specs.Outcome.{outcome};
ghost use Rattle.pfx_machine.specs.Plain.{Plain};
ghost use Rattle.pfx_machine.specs.Refusals.{refusal};
ghost use Rattle.pfx_kinds.specs.Units.{count_in, is_behind, is_taken, last_by};
ghost use Rattle.pfx_record.specs.Records.{plain, ran, submitted, tasks_of};
ghost use Rattle.pfx_record_redo.specs.Applying.{applied, is_right};
ghost use Rattle.pfx_record_redo.specs.Recording.{place_of, state_after_step};
ghost use Rattle.pfx_replay.specs.Commands.{is_next};
ghost use Rattle.pfx_replay.specs.Judged.{GivesAll, GivesOne};
ghost use Rattle.pfx_replay.specs.Stated.{plain_of};
ghost use Rattle.pfx_replay.specs.Verdicts.{IsWrong};

use crate::jobs::PlainState;
use crate::judged::Judged;
use crate::verdict::Difference;
use pfx_jobs::job::{Job, are_same};
use pfx_kinds::units::{Unit, Units};
use pfx_record::{Place, Record};
use std::alloc::{AllocError, Global};

// The state of a job after a step, unless there is none or it is done.
fn stepped<J: Job>(jobs: &[Option<J>], task: u16) -> Option<J>
    ensures { result ≡ state_after_step J.kind (slice_get jobs.now task) }
{
    match jobs.get(usize::from(task)) {
        None => None,
        Some(None) => None,
        Some(Some(job)) => {
            if job.is_done() {
                return None;
            }
            let mut next = job.copy_of();
            next.step();
            Some(next)
        }
    }
}

/// Whether two places have the same job's state, or none.
pub(crate) fn is_same<J: Job>(one: &Option<J>, other: &Option<J>) -> bool
    ensures { IsTrue result ↔ (one.now ≡ other.now) }
{
    match (one, other) {
        (None, None) => true,
        (Some(one), Some(other)) => are_same(one, other),
        _ => false,
    }
}

// Whether a place of a row has the state after its task's quantum.
fn is_stepped<J: Job>(jobs: &[Option<J>], place: &Place<J>) -> bool
    ensures { IsTrue result ↔ (place.now ≡ place_of J.kind jobs.now place.now.task) }
{
    is_same(&place.state, &stepped(jobs, place.task))
}

// Whether each place of a row has the state after its task's quantum.
fn are_stepped<J: Job>(jobs: &[Option<J>], row: &[Place<J>]) -> bool
    ensures { IsTrue result ↔ (row.now ≡ map (place_of J.kind jobs.now) (tasks_of row.now)) }
{
    for place in row {
        if !is_stepped(jobs, place) {
            return false;
        }
    }
    true
}

// Whether the places of a row are those of these tasks.
fn are_tasks<J>(row: &[Place<J>], tasks: &[u16]) -> bool
    ensures { IsTrue result ↔ (tasks_of row.now ≡ tasks.now) }
{
    if row.len() != tasks.len() {
        return false;
    }
    for i in 0..row.len() {
        if row[i].task != tasks[i] {
            return false;
        }
    }
    true
}

// What differs in a slot's record at a state whose row is of these tasks.
fn difference_in<J: Job + Units>(
    state: &PlainState<J>,
    row: &[Place<J>],
    tasks: &[u16],
) -> Option<Difference>
    requires { row_in (plain_of state.now) ≡ Ok tasks.now }
    ensures { MatchOption result
        ((tasks_of row.now ≡ tasks.now) × (row.now ≡ map (place_of J.kind state.now.jobs.items) (tasks_of row.now)))
        (λ what. IsWrong J.kind J.unit what (plain_of state.now) (ran row.now)) }
{
    if !are_tasks(row, tasks) {
        return Some(Difference::Row);
    }
    if !are_stepped(&state.jobs, row) {
        return Some(Difference::State);
    }
    None
}

// A slot's record.
fn judge_row<J: Job + Units>(
    alloc: Global,
    state: PlainState<J>,
    row: &[Place<J>],
) -> Result<Judged<J>, AllocError>
    requires { IsTrue (is_right J.kind (plain_of state) (ran row.now)) }
    ensures { IfOk result (GivesOne J.kind J.unit (plain_of state) (ran row.now)) }
{
    let number = state.number + 1;
    let Some(tasks) = state.row(alloc)? else {
        return Ok(Judged::Differs {
            number,
            what: Difference::Row,
        });
    };
    match difference_in(&state, row, &tasks) {
        Some(what) => Ok(Judged::Differs { number, what }),
        None => Ok(Judged::Agrees(state.ran(&tasks))),
    }
}

// How many units a task was given.
fn granted(allocations: &[u64], task: u16) -> u64
    ensures { result ≡ slice_index_or allocations.now task 0 }
{
    match allocations.get(usize::from(task)) {
        None => 0,
        Some(units) => *units,
    }
}

// How many units were answered by then, counted in the weights that are in force from a slot on.
fn count_in(from: u64, last: Unit) -> u64
    ensures { result ≡ count_in from last }
{
    if last.since == from { last.number } else { 0 }
}

// Whether a unit is the one behind the last that was answered at a task's place.
fn is_behind<J: Units>(from: u64, place: &Option<J>, number: u64) -> bool
    ensures { result ≡ is_behind from (last_by J.unit place.now) number }
{
    match place {
        None => true,
        Some(job) => match job.unit_answered() {
            None => true,
            Some(last) => {
                let count = count_in(from, last);
                count < number && number - count == 1
            }
        },
    }
}

// Whether a unit's answer is taken for a task.
fn is_taken<J: Units>(state: &PlainState<J>, task: u16, unit: Unit) -> bool
    ensures { result ≡ is_taken J.unit state.now.from (slice_get state.now.jobs.items task) (slice_index_or state.now.ledger.allocations.items task 0) (Some unit) }
{
    match state.jobs.get(usize::from(task)) {
        None => true,
        Some(place) => {
            unit.since == state.from
                && unit.number <= granted(&state.ledger.allocations, task)
                && is_behind(state.from, place, unit.number)
        }
    }
}

// Whether a job that is given to a task is no answer, or that of the next unit that the task was given by the weights in force.
fn is_next<J: Job + Units>(state: &PlainState<J>, task: u16, job: &J) -> bool
    ensures { result ≡ is_next J.unit (plain_of state.now) (submitted task job.now) }
{
    match job.unit_answered() {
        None => true,
        Some(unit) => is_taken(state, task, unit),
    }
}

/// The verdict on one record at a state, at which it is right: the state after it, or what differs. An error comes only if an allocation
/// failed.
pub fn judge_one<J: Job + Units>(
    alloc: Global,
    state: PlainState<J>,
    entry: &Record<J>,
) -> Result<Judged<J>, AllocError>
    requires { IsTrue (is_right J.kind (plain_of state) (plain entry.now)) }
    ensures { IfOk result (GivesOne J.kind J.unit (plain_of state) (plain entry.now)) }
{
    match entry {
        Record::Submit { task, job } => {
            if !is_next(&state, *task, job) {
                return Ok(Judged::Differs {
                    number: state.number + 1,
                    what: Difference::Answer,
                });
            }
            Ok(Judged::Agrees(state.submitted(*task, job.copy_of())))
        }
        Record::Slot { row } => judge_row(alloc, state, row),
        Record::Withdraw { task } => Ok(Judged::Agrees(state.withdrawn(*task))),
        Record::Reweigh { workers, weights } => {
            let next = state.reweighed(alloc, u32::from(*workers), weights.as_slice())?;
            Ok(Judged::Agrees(next))
        }
    }
}

/// Records after a state, one after the other, up to the first that isn't what its command does.
pub(crate) fn judge_all<J: Job + Units>(
    alloc: Global,
    state: PlainState<J>,
    records: &[Record<J>],
) -> Result<Judged<J>, AllocError>
    requires { (t : Plain J) × (applied J.kind (plain_of state) (map plain records.now) ≡ Some t) }
    ensures { IfOk result (GivesAll J.kind J.unit (plain_of state) (map plain records.now)) }
{
    let mut reached = state;
    for entry in records {
        match judge_one(alloc, reached, entry)? {
            Judged::Agrees(next) => reached = next,
            Judged::Differs { number, what } => return Ok(Judged::Differs { number, what }),
        }
    }
    Ok(Judged::Agrees(reached))
}

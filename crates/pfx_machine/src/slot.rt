//! One slot: its quanta, and its jobs' steps.
//!
//! Why it is so:
//! - **Opening a slot changes nothing.** A slot that was opened and given up leaves the state as it was, and may be opened again.
//! - **The results of a slot come back in increasing task order**, the order in which its quanta were dealt. Whoever runs them in another
//!   order sorts them first.
//! - **A job that is chosen when it is done stays as it is**, and keeps its place until it is withdrawn or another is given.

ghost use Rattle.std.specs.Prelude.{◌≡◌, ℕ, ◌≤◌, length, map, [], ◌∷◌, MatchOption, IfOk, slice_get, slice_set};
ghost use Rattle.std.specs.List.Sorted.{IsStrictlyIncreasing};
ghost use Rattle.pfx_machine.specs.Steps.{once_job, served};
ghost use Rattle.pfx_machine.specs.Slots.{deal, deal_at, deals, written_back};

use pfx_jobs::job::Job;
use pfx_jobs::quantum::{Done, Quantum};
use pfx_weights::Row;
use std::alloc::{AllocError, Global};

/// The quantum of one task, if it has an unfinished job.
fn deal_one<J: Job>(number: u64, slot: u64, task: u16, jobs: &[Option<J>]) -> Option<Quantum<J>>
    ensures { MatchOption result (deal_at J.kind number slot task (slice_get jobs.now task) ≡ [])
        (λ q. deal_at J.kind number slot task (slice_get jobs.now task) ≡ deal q.number q.slot q.task q.before ∷ []) }
{
    match jobs.get(usize::from(task)) {
        Some(Some(job)) => {
            if job.is_done() {
                None
            } else {
                Some(Quantum::new(number, slot, task, job.copy_of()))
            }
        }
        Some(None) => None,
        None => None,
    }
}

/// The quanta of a row's slot, in rising task order: of each task of the row that has an unfinished job, with a copy of that job.
/// `AllocError` only if an allocation failed.
pub fn deal_all<J: Job>(
    alloc: Global,
    number: u64,
    slot: u64,
    row: &Row,
    jobs: &[Option<J>],
) -> Result<Vec<Quantum<J>>, AllocError>
    ensures { IfOk result (λ quanta. map (λ q. deal q.number q.slot q.task q.before) quanta.items ≡ deals J.kind number slot row.now jobs.now) }
{
    let mut quanta = Vec::with_capacity(alloc, row.len())?;
    for i in 0..row.len() {
        if let Some(quantum) = deal_one(number, slot, row.get(i), jobs) {
            quanta.push(quantum)?;
        }
    }
    Ok(quanta)
}

/// Runs the quanta, one after the other, and gives their results in the same order. `AllocError` only if an allocation
/// failed.
pub fn run_all<J: Job>(alloc: Global, quanta: Vec<Quantum<J>>) -> Result<Vec<Done<J>>, AllocError>
    ensures { IfOk result
        (λ dones. map (λ d. deal d.number d.slot d.task d.before) dones.items ≡ map (λ q. deal q.number q.slot q.task q.before) quanta.items) }
{
    let mut dones = Vec::with_capacity(alloc, quanta.len())?;
    for quantum in quanta {
        dones.push(quantum.run())?;
    }
    Ok(dones)
}

/// Puts a value at a place, if there is one.
fn put<T: Drop>(all: &mut [T], at: usize, value: T)
    ensures { all.new ≡ slice_set all.old at value }
{
    if at < all.len() {
        all[at] = value;
    }
}

/// Writes the results of a slot back.
pub fn write_back<J: Job>(jobs: &mut [Option<J>], dones: Vec<Done<J>>)
    ensures { jobs.new ≡ written_back J.kind (map (λ d. deal d.number d.slot d.task d.before) dones.items) jobs.old }
{
    for done in dones {
        put(jobs, usize::from(done.task), Some(done.after));
    }
}

/// Steps a job, unless there is none or it is done.
fn serve<J: Job>(place: &mut Option<J>)
    ensures { place.new ≡ once_job J.kind place.old }
{
    if let Some(job) = place {
        if !job.is_done() {
            job.step();
        }
    }
}

/// Steps the job of one task, if it is a real one.
fn serve_at<J: Job>(jobs: &mut [Option<J>], task: u16)
    ensures { jobs.new ≡ served J.kind (task ∷ []) jobs.old }
{
    let at = usize::from(task);
    if at < jobs.len() {
        serve(&mut jobs[at]);
    }
}

/// Steps the job of each task of the row.
pub fn serve_all<J: Job>(jobs: &mut [Option<J>], row: &Row)
    ensures { jobs.new ≡ served J.kind row.now jobs.old }
{
    for i in 0..row.len() {
        serve_at(jobs, row.get(i));
    }
}

// What job a task has.
ghost use Rattle.std.specs.Prelude.{◌≡◌, slice_get, IfOk};
ghost use Rattle.pfx_machine.specs.Jobs.{has_job, is_busy, is_free};

use pfx_jobs::job::Job;
use std::alloc::{AllocError, Global};

/// Whether a task is a real one without an unfinished job.
pub fn is_free<J: Job>(jobs: &[Option<J>], task: u16) -> bool
    ensures { result ≡ is_free J.kind (slice_get jobs.now task) }
{
    match jobs.get(usize::from(task)) {
        None => false,
        Some(None) => true,
        Some(Some(job)) => job.is_done(),
    }
}

/// Whether a task has a job, be it done or not.
pub fn has_job<J: Job>(jobs: &[Option<J>], task: u16) -> bool
    ensures { result ≡ has_job (slice_get jobs.now task) }
{
    match jobs.get(usize::from(task)) {
        None => false,
        Some(None) => false,
        Some(Some(_)) => true,
    }
}

/// Whether a task has an unfinished job.
pub fn is_busy<J: Job>(jobs: &[Option<J>], task: u16) -> bool
    ensures { result ≡ is_busy J.kind (slice_get jobs.now task) }
{
    has_job(jobs, task) && !is_free(jobs, task)
}

// A copy of a task's job, if it has one.
fn copy_one<J: Job>(place: &Option<J>) -> Option<J>
    ensures { result ≡ place.now }
{
    match place {
        Some(job) => Some(job.copy_of()),
        None => None,
    }
}

/// Copies of all tasks' jobs. An error comes only if an allocation failed.
pub fn copy_jobs<J: Job>(alloc: Global, jobs: &[Option<J>]) -> Result<Vec<Option<J>>, AllocError>
    ensures { IfOk result (λ copies. copies.items ≡ jobs.now) }
{
    let mut copies = Vec::with_capacity(alloc, jobs.len())?;
    for place in jobs {
        copies.push(copy_one(place))?;
    }
    Ok(copies)
}

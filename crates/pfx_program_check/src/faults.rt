//! All faults of a set.

ghost use Rattle.std.specs.Prelude.{◌≡◌, ◌∷◌, [], ◌++◌, ◌≤◌, ◌↔◌, IsTrue, IfOk, option_to_list, length, take};
ghost use Rattle.pfx_weights.specs.Sets.{IsTaskCount, IsWorkerCount};
ghost use Rattle.pfx_program_check.specs.Faults.{tried_of, segment_faults, AreAllFaults};
ghost use Rattle.pfx_program_check.specs.Going.{IsFollowedBy};

use crate::candidate::Candidate;
use pfx_fault::Fault;
use pfx_store_header::{LONGEST_SEGMENT, least_for};
use std::alloc::{AllocError, Global};

const MOST_TASKS: usize = 1024;

const MOST_WORKERS: u32 = 64;

/// What is tried if a set has no task.
const HALF: [(u32, u32); 1] = [(1, 2)];

fn are_workers(workers: u32) -> bool
    ensures { IsTrue result ↔ IsWorkerCount workers }
{
    1 <= workers && workers <= MOST_WORKERS
}

/// The faults, and after them those of what is tried next.
fn followed(
    alloc: Global,
    mut candidate: Candidate,
    mut faults: Vec<Fault>,
) -> Result<Vec<Fault>, AllocError>
    ensures { IfOk result (λ all. IsFollowedBy candidate faults.items all.items) }
{
    'refusals: loop {
        let Some(why) = candidate.refusal(alloc)? else {
            return Ok(faults);
        };
        faults.push(candidate.told(why))?;
        if !candidate.mend(why) {
            return Ok(faults);
        }
    }
}

/// The same for any number of workers.
fn by_workers(
    alloc: Global,
    workers: u32,
    tasks: &[(u32, u32)],
    mut faults: Vec<Fault>,
) -> Result<Vec<Fault>, AllocError>
    requires { IsTaskCount (length tasks.now) }
    ensures { IfOk result (λ all. IsFollowedBy (tried_of workers tasks.now) faults.items all.items) }
{
    if are_workers(workers) {
        let candidate = Candidate::new(alloc, workers, tasks)?;
        return followed(alloc, candidate, faults);
    }
    faults.push(Fault::BadWorkers)?;
    let candidate = Candidate::new(alloc, MOST_WORKERS, tasks)?;
    followed(alloc, candidate, faults)
}

/// As many tasks as a set has at the most.
fn first_tasks(tasks: &[(u32, u32)]) -> &[(u32, u32)]
    requires { 1024 ≤ length tasks.now }
    ensures { result.now ≡ take 1024 tasks.now }
{
    let (first, _) = tasks.split_at(MOST_TASKS);
    first
}

/// The same for any number of tasks too.
fn by_tasks(alloc: Global, workers: u32, tasks: &[(u32, u32)]) -> Result<Vec<Fault>, AllocError>
    ensures { IfOk result (λ all. IsFollowedBy (tried_of workers tasks.now) [] all.items) }
{
    let mut faults = Vec::new(alloc);
    if tasks.is_empty() {
        faults.push(Fault::NoTasks)?;
        return by_workers(alloc, workers, &HALF, faults);
    }
    if tasks.len() <= MOST_TASKS {
        return by_workers(alloc, workers, tasks, faults);
    }
    faults.push(Fault::TooManyTasks)?;
    let first = first_tasks(tasks);
    by_workers(alloc, workers, first, faults)
}

/// The fault of a segment's length.
fn segment_fault(workers: u32, segment: u32) -> Option<Fault>
    ensures { segment_faults workers segment ≡ option_to_list result }
{
    if 1 <= workers && workers <= MOST_WORKERS {
        let least = least_for(workers);
        if segment < least {
            return Some(Fault::SegmentTooSmall { least });
        }
    }
    if segment > LONGEST_SEGMENT {
        Some(Fault::SegmentTooLarge)
    } else {
        None
    }
}

/// All faults of a set of these workers and tasks, whose store has a segment of so many bytes.
pub(crate) fn all_faults(
    alloc: Global,
    workers: u32,
    tasks: &[(u32, u32)],
    segment: u32,
) -> Result<Vec<Fault>, AllocError>
    ensures { IfOk result (λ all. AreAllFaults workers tasks.now segment all.items) }
{
    let mut faults = by_tasks(alloc, workers, tasks)?;
    if let Some(fault) = segment_fault(workers, segment) {
        faults.push(fault)?;
    }
    Ok(faults)
}

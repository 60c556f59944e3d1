//! The definitions as plain, slow programs: one task at a time, over the whole list of what happened.

ghost use Rattle.std.specs.Prelude.{◌≡◌, ◌≤◌, [], ◌∷◌};
ghost use Rattle.pfx_choice.specs.Plans.{times_in};
ghost use Rattle.pfx_machine.specs.Happenings.{rows_of};
ghost use Rattle.pfx_machine.specs.Outcome.{job_after};
ghost use Rattle.pfx_machine.specs.Steps.{once_job, job_step};

use pfx_jobs::job::Job;
use pfx_weights::{Row, TaskSet};

/// What a command did.
#[derive(Drop)]
pub enum Happening<J> {
    /// A task was given a job.
    Given { task: u16, job: J },
    /// A task's job was taken away.
    Taken { task: u16 },
    /// A slot was run with this row.
    Ran { slot: u64, row: Row },
    /// At this slot this set came into force.
    Reweighed { slot: u64, set: TaskSet },
}

/// A task's job after all that happened: as it was at the start of its span, stepped once for each of its quanta.
pub fn plain_job<J: Job>(task: u16, before: Option<J>, happened: &[Happening<J>]) -> Option<J>
    ensures { result ≡ job_after J.kind task before happened.now }
{
    let mut job = before;
    for one in happened {
        job = after_one(task, job, one);
    }
    job
}

/// A task's job after one happening.
fn after_one<J: Job>(task: u16, job: Option<J>, happening: &Happening<J>) -> Option<J>
    ensures { result ≡ job_step J.kind task happening.now job }
{
    match happening {
        Happening::Given {
            task: other,
            job: given,
        } => {
            if *other == task {
                Some(given.copy_of())
            } else {
                job
            }
        }
        Happening::Taken { task: other } => { if *other == task { None } else { job } }
        Happening::Ran { row, .. } => { if row.holds(task) { once(job) } else { job } }
        Happening::Reweighed { .. } => job,
    }
}

/// A job after a slot that holds its task.
fn once<J: Job>(job: Option<J>) -> Option<J>
    ensures { result ≡ once_job J.kind job }
{
    match job {
        Some(job) => {
            let mut job = job;
            if !job.is_done() {
                job.step();
            }
            Some(job)
        }
        None => None,
    }
}

/// How many of the slots that were run hold a task.
pub fn plain_slots<J: Job>(task: u16, happened: &[Happening<J>]) -> usize
    ensures { result ≡ times_in (rows_of happened.now) task }
{
    let mut count = 0;
    for one in happened {
        count += slots_of_one(task, one);
    }
    count
}

/// One if a slot was run that holds the task, else none.
fn slots_of_one<J: Job>(task: u16, happening: &Happening<J>) -> usize
    ensures count { result ≡ times_in (rows_of (happening.now ∷ [])) task }
    ensures few { result ≤ 1 }
{
    match happening {
        Happening::Ran { row, .. } => usize::from(row.holds(task)),
        _ => 0,
    }
}

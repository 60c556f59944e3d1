//! What is shown of a state.

ghost use Rattle.std.specs.Prelude.{◌≡◌, ◌<◌, IfOk, slice_get};
ghost use Rattle.pfx_columns.specs.Ledgers.{total};
ghost use Rattle.pfx_machine.specs.Plain.{whole};
ghost use Rattle.pfx_machine.specs.Board.{status_at, line_of, all_lines};

use crate::State;
use pfx_jobs::job::Job;
use std::alloc::{AllocError, Global};

/// How a task's job stands.
#[derive(Clone, Copy, Debug, PartialEq, Eq)]
pub enum JobStatus {
    /// The task has no job. Idle tasks never have one.
    None,
    /// The job has steps left.
    Open,
    /// The job is done.
    Done,
}

/// One task as a board shows it.
#[derive(Clone, Copy, Debug, PartialEq, Eq)]
pub struct TaskLine {
    /// How many slots the task got.
    pub alloc: u64,
    /// The numerator of its lag, strictly between minus the period and the period.
    pub lag: i32,
    /// The period, which is the lag's denominator.
    pub period: u32,
    /// How its job stands.
    pub job: JobStatus,
}

/// A state as users see it.
#[derive(Debug, Drop)]
pub struct Board {
    /// The number of the last command.
    pub number: u64,
    /// The slot to come.
    pub slot: u64,
    /// The slot at which the set came into force.
    pub from: u64,
    /// A line for each task, idle ones too, by task number.
    pub lines: Vec<TaskLine>,
}

/// How the job at a place stands.
fn status_at<J: Job>(jobs: &[Option<J>], task: usize) -> JobStatus
    ensures { result ≡ status_at J.kind (slice_get jobs.now task) }
{
    match jobs.get(task) {
        None => JobStatus::None,
        Some(None) => JobStatus::None,
        Some(Some(job)) => {
            if job.is_done() {
                JobStatus::Done
            } else {
                JobStatus::Open
            }
        }
    }
}

impl<J: Job> State<J> {
    /// The line of one task.
    fn line(&self, task: usize) -> TaskLine
        requires { task < total self.now.ledger }
        ensures { result ≡ line_of J.kind self.now task }
    {
        let ledger = self.columns();
        TaskLine {
            alloc: ledger.alloc(task),
            lag: ledger.lag(task),
            period: ledger.weight(task).1,
            job: status_at(self.jobs(), task),
        }
    }

    /// The board of the state. An error comes only if an allocation failed.
    pub fn board(&self, alloc: Global) -> Result<Board, AllocError>
        ensures number { IfOk result (λ board. board.number ≡ self.now.number) }
        ensures slot { IfOk result (λ board. board.slot ≡ whole self.now) }
        ensures from { IfOk result (λ board. board.from ≡ self.now.from) }
        ensures lines { IfOk result (λ board. board.lines.items ≡ all_lines J.kind self.now) }
    {
        let total = self.columns().total();
        let mut lines = Vec::with_capacity(alloc, total)?;
        for task in 0..total {
            lines.push(self.line(task))?;
        }
        Ok(Board {
            number: self.number(),
            slot: self.slot(),
            from: self.from(),
            lines,
        })
    }
}

//! Commands and their replies.

use pfx_weights::{Row, Weights};

/// A command. Task numbers count from 0; only real tasks have jobs.
#[derive(Debug, Drop)]
pub enum Command<J> {
    /// Gives a job to a task without an unfinished one.
    Submit { task: u16, job: J },
    /// Runs one slot: each task of PF's row gets a slot, and its job, if it isn't done, one step.
    Slot,
    /// Takes a task's job away, finished or not.
    Withdraw { task: u16 },
    /// Gives all real tasks new weights, one each in the order of the tasks, and the set 1 to 64 workers. Every lag has to be
    /// zero. From the next slot on tasks are chosen by the new set, as from its first slot; jobs stay as they are.
    Reweigh { workers: u32, weights: Weights },
}

/// The answer to a command that is accepted.
#[derive(Debug, Drop)]
pub enum Reply {
    /// The task has the job.
    Submitted { task: u16 },
    /// The slot was run with this row of tasks.
    Ran { slot: u64, row: Row },
    /// The task has no job any more.
    Withdrawn { task: u16 },
    /// The new weights are in force from this slot on.
    Reweighed { slot: u64 },
}

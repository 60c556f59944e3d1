use pfx_jobs::job::Job;
use pfx_weights::Weights;

/// How many bytes the record of a job given takes: a tag, the task in two, and the job in 128.
pub(crate) const GIVEN: usize = 131;

/// How many bytes a task of a row takes that has a state: the task in two, a flag, and the state in 128.
pub(crate) const FULL_PLACE: usize = 131;

/// How many bytes a weight takes: e and p in four each.
pub(crate) const WEIGHT: usize = 8;

/// A task of a slot's row.
#[derive(Drop)]
pub struct Place<J> {
    /// The task's number.
    pub task: u16,
    /// The state of its job after the step, if it took one.
    pub state: Option<J>,
}

/// What an accepted command did.
#[derive(Drop)]
pub enum Record<J> {
    /// The task got the job.
    Submit { task: u16, job: J },
    /// The tasks of this row ran.
    Slot { row: Vec<Place<J>> },
    /// The task's job was taken away.
    Withdraw { task: u16 },
    /// There are so many workers from now on, and the real tasks have these weights.
    Reweigh { workers: u8, weights: Weights },
}

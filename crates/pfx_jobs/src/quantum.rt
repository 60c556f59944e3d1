ghost use Rattle.std.specs.Prelude.{◌≡◌, ◌<◌, ◌↔◌, IsTrue};

use crate::job::{Job, are_same};

/// One step of a job that is to be run. Its type keeps that the job is not done.
#[derive(Drop)]
pub struct Quantum<J: Job> {
    /// The number of the command that the step belongs to.
    pub number: u64,
    /// The slot in which the step is run.
    pub slot: u64,
    /// The task whose job it is.
    pub task: u16,
    /// The job's state before the step.
    pub before: J,
    ghost unfinished: { 0 < J.kind.left before },
}

/// One step of a job that was run. Its type keeps that the state after is the state before, stepped once.
#[derive(Drop)]
pub struct Done<J: Job> {
    /// The number of the command that the step belongs to.
    pub number: u64,
    /// The slot in which the step was run.
    pub slot: u64,
    /// The task whose job it is.
    pub task: u16,
    /// The job's state before the step.
    pub before: J,
    /// The job's state after the step.
    pub after: J,
    ghost unfinished: { 0 < J.kind.left before },
    ghost stepped: { after ≡ J.kind.stepped before },
}

impl<J: Job> Quantum<J> {
    /// The step of a job that is not done, as `Job::is_done` tells.
    pub fn new(number: u64, slot: u64, task: u16, before: J) -> Quantum<J>
        requires { 0 < J.kind.left before }
        ensures number { result.number ≡ number }
        ensures slot { result.slot ≡ slot }
        ensures task { result.task ≡ task }
        ensures before { result.before ≡ before }
    {
        Quantum {
            number,
            slot,
            task,
            before,
        }
    }

    /// Runs the step.
    pub fn run(self) -> Done<J>
        ensures number { result.number ≡ self.number }
        ensures slot { result.slot ≡ self.slot }
        ensures task { result.task ≡ self.task }
        ensures before { result.before ≡ self.before }
        ensures after { result.after ≡ J.kind.stepped self.before }
    {
        let Quantum {
            number,
            slot,
            task,
            before,
        } = self;
        let mut after = before.copy_of();
        after.step();
        Done {
            number,
            slot,
            task,
            before,
            after,
        }
    }
}

impl<J: Job> Done<J> {
    /// Whether this is the result of that quantum: the same number, slot and task, and the same state before.
    pub fn answers(&self, quantum: &Quantum<J>) -> bool
        ensures { IsTrue result ↔ (self.now.number ≡ quantum.now.number) × (self.now.slot ≡ quantum.now.slot)
            × (self.now.task ≡ quantum.now.task) × (self.now.before ≡ quantum.now.before) }
    {
        self.number == quantum.number
            && self.slot == quantum.slot
            && self.task == quantum.task
            && are_same(&self.before, &quantum.before)
    }
}

//! A set that is tried.

ghost use Rattle.std.specs.Prelude.{◌≡◌, ◌<◌, ◌≤◌, if◌then◌else◌, true, Some, None, IfOk, MatchOption, length};
ghost use Rattle.pfx_weights.specs.Sets.{IsTaskCount, IsWorkerCount};
ghost use Rattle.pfx_program_check.specs.Faults.{IsTaken, IsRefusedBy, tried_of, told, mended, others};

use pfx_choice_refusals::set_fault;
use pfx_fault::Fault;
use pfx_weights::{SetFault, TaskSet};
use std::alloc::{AllocError, Global};
use std::marker::Model;

/// Workers and tasks in such numbers as sets have them, each task with its number in the set file.
#[derive(Drop)]
pub(crate) struct Candidate {
    workers: u32,
    numbers: Vec<u16>,
    tasks: Vec<(u32, u32)>,
}

impl Model for Candidate {
    ghost use Rattle.std.specs.Prelude.{◌≡◌, length};
    ghost use Rattle.pfx_weights.specs.Sets.{IsTaskCount, IsWorkerCount};
    ghost use Rattle.pfx_program_check.specs.Faults.{Tried};

    ghost Value = { Tried };

    ghost view = { λ a. record { workers = a.workers; numbers = a.numbers.items; tasks = a.tasks.items } };

    ghost invariant = { λ a. IsWorkerCount a.workers × IsTaskCount (length a.tasks.items) × (length a.numbers.items ≡ length a.tasks.items) };
}

impl Candidate {
    /// These workers and tasks, numbered in their order.
    pub(crate) fn new(
        alloc: Global,
        workers: u32,
        tasks: &[(u32, u32)],
    ) -> Result<Candidate, AllocError>
        requires workers { IsWorkerCount workers }
        requires count { IsTaskCount (length tasks.now) }
        ensures { IfOk result (λ c. c ≡ tried_of workers tasks.now) }
    {
        let mut numbers = Vec::new(alloc);
        for x in 0..tasks.len() {
            numbers.push(x as u16)?;
        }
        let tasks = Vec::from_slice(alloc, tasks)?;
        Ok(Candidate {
            workers,
            numbers,
            tasks,
        })
    }

    /// Why it is refused, if it is.
    pub(crate) fn refusal(&self, alloc: Global) -> Result<Option<SetFault>, AllocError>
        ensures { IfOk result (λ r. MatchOption r (IsTaken self.now) (λ why. IsRefusedBy self.now why)) }
    {
        match TaskSet::new(alloc, self.workers, self.tasks.as_slice()) {
            Ok(_set) => Ok(None),
            Err(SetFault::NoMemory) => Err(AllocError),
            Err(why) => Ok(Some(why)),
        }
    }

    /// The fault of a refusal, by the number of the task in the set file.
    pub(crate) fn told(&self, why: SetFault) -> Fault
        requires { IsRefusedBy self.now why }
        ensures { result ≡ told self.now why }
    {
        match why {
            SetFault::BadWeight { task } => Fault::BadWeight {
                task: self.numbers[usize::from(task)],
            },
            SetFault::HyperperiodTooLarge { task } => Fault::HyperperiodTooLarge {
                task: self.numbers[usize::from(task)],
            },
            other => set_fault(other),
        }
    }

    /// Leaves a task out; `false` if no other is left, and then nothing is done.
    fn leave_out(&mut self, x: usize) -> bool
        requires { x < length self.old.tasks }
        ensures left { others self.old x ≡ (if result then Some self.new else None) }
        ensures fewer { result ≡ true → length self.new.tasks < length self.old.tasks }
    {
        if self.tasks.len() == 1 {
            return false;
        }
        self.numbers.remove(x);
        self.tasks.remove(x);
        true
    }

    /// Becomes what is tried after a refusal; `false` if nothing is, and then nothing is done.
    pub(crate) fn mend(&mut self, why: SetFault) -> bool
        requires { IsRefusedBy self.old why }
        ensures next { mended self.old why ≡ (if result then Some self.new else None) }
        ensures fewer { result ≡ true → length self.new.tasks < length self.old.tasks }
    {
        let _ = &self.workers;
        match why {
            SetFault::BadWeight { task } | SetFault::HyperperiodTooLarge { task } => {
                self.leave_out(usize::from(task))
            }
            _ => false,
        }
    }
}

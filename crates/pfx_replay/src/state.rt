// A state as plain numbers and jobs, and the state after a command.
ghost use Rattle.std.specs.Prelude.{◌≡◌, ◌≢◌, ◌<◌, ◌+◌, ◌^◌, ◌∷◌, [], if◌then◌else◌, ℕ, List, Bool, IfOk, MatchOption, Ok, None};
ghost use Rattle.pfx_machine.specs.Choosing.{row_in};
ghost use Rattle.pfx_machine.specs.Outcome.{outcome};
ghost use Rattle.pfx_machine.specs.Refusals.{refusal};
ghost use Rattle.pfx_machine.specs.Steps.{once_job, served};
ghost use Rattle.pfx_machine.specs.declared.command.Command.TheVariants.{Submit, Slot, Withdraw, Reweigh};
ghost use Rattle.pfx_replay.specs.Shown.{ledger_of};
ghost use Rattle.pfx_replay.specs.Stated.{plain_of};

use crate::jobs::PlainState;
use crate::ledger::holds;
use crate::numbers::PlainLedger;
use pfx_jobs::job::Job;
use pfx_machine::{State, copy_jobs};
use pfx_weights::TaskSet;
use std::alloc::{AllocError, Global};

// Steps a job that runs, unless there is none or it is done.
fn step_one<J: Job>(place: &mut Option<J>, runs: bool)
    ensures { place.new ≡ (if runs then once_job J.kind place.old else place.old) }
{
    if let Some(job) = place {
        if runs && !job.is_done() {
            job.step();
        }
    }
}

// Steps the job of each task of the row, one task after the other.
fn step_all<J: Job>(jobs: &mut Vec<Option<J>>, row: &[u16])
    ensures { jobs.new.items ≡ served J.kind row.now jobs.old.items }
{
    for task in 0..jobs.len() {
        step_one(&mut jobs[task], holds(row, task));
    }
}

impl<J: Job> PlainState<J> {
    /// The numbers of a state.
    pub fn of(alloc: Global, state: &State<J>) -> Result<PlainState<J>, AllocError>
        ensures { IfOk result (λ s. plain_of s ≡ state.now) }
    {
        Ok(PlainState {
            number: state.number(),
            from: state.from(),
            ledger: PlainLedger::of(alloc, state.columns())?,
            jobs: copy_jobs(alloc, state.jobs())?,
            segment: state.segment(),
        })
    }

    /// The state after a job was given to a task.
    pub(crate) fn submitted(self, task: u16, job: J) -> PlainState<J>
        requires { refusal J.kind (plain_of self) (Submit task job) ≡ None }
        ensures { plain_of result ≡ outcome J.kind (plain_of self) (Submit task job ∷ []) }
    {
        let PlainState {
            number,
            from,
            ledger,
            jobs,
            segment,
        } = self;
        let mut jobs = jobs;
        jobs[usize::from(task)] = Some(job);
        PlainState {
            number: number + 1,
            from,
            ledger,
            jobs,
            segment,
        }
    }

    /// The state after a task's job was taken away.
    pub(crate) fn withdrawn(self, task: u16) -> PlainState<J>
        requires { refusal J.kind (plain_of self) (Withdraw task) ≡ None }
        ensures { plain_of result ≡ outcome J.kind (plain_of self) (Withdraw task ∷ []) }
    {
        let PlainState {
            number,
            from,
            ledger,
            jobs,
            segment,
        } = self;
        let mut jobs = jobs;
        jobs[usize::from(task)] = None;
        PlainState {
            number: number + 1,
            from,
            ledger,
            jobs,
            segment,
        }
    }

    /// PF's row at the state, or `None` if there is none, as where its slot, counted from the first one of all, is the last.
    /// An error comes only if an allocation failed.
    pub(crate) fn row(&self, alloc: Global) -> Result<Option<Vec<u16>>, AllocError>
        ensures { IfOk result (λ found. MatchOption found
            ((row : List ℕ) → row_in (plain_of self.now) ≢ Ok row)
            (λ row. row_in (plain_of self.now) ≡ Ok row.items)) }
    {
        if self.from + self.ledger.slot + 1 >= 1 << 40 {
            return Ok(None);
        }
        self.ledger.row(alloc)
    }

    /// The state after a slot with this row, which is PF's.
    pub(crate) fn ran(self, row: &[u16]) -> PlainState<J>
        requires number { (plain_of self).number + 1 < 2 ^ 48 }
        requires row { row_in (plain_of self) ≡ Ok row.now }
        ensures { plain_of result ≡ outcome J.kind (plain_of self) (Slot ∷ []) }
    {
        let PlainState {
            number,
            from,
            ledger,
            jobs,
            segment,
        } = self;
        let mut jobs = jobs;
        step_all(&mut jobs, row);
        PlainState {
            number: number + 1,
            from,
            ledger: ledger.after(row),
            jobs,
            segment,
        }
    }
    /// The state after new weights came into force. An error comes only if an allocation failed.
    pub(crate) fn reweighed(
        self,
        alloc: Global,
        workers: u32,
        weights: &[(u32, u32)],
    ) -> Result<PlainState<J>, AllocError>
        requires { refusal J.kind (plain_of self) (Reweigh workers weights.now) ≡ None }
        ensures { IfOk result (λ next. plain_of next ≡ outcome J.kind (plain_of self) (Reweigh workers weights.now ∷ [])) }
    {
        let Ok(set) = TaskSet::new(alloc, workers, weights) else {
            return Err(AllocError);
        };
        let begun = PlainLedger::begin(alloc, &set)?;
        let PlainState {
            number,
            from,
            ledger,
            jobs,
            segment,
        } = self;
        Ok(PlainState {
            number: number + 1,
            from: from + ledger.slot,
            ledger: begun,
            jobs,
            segment,
        })
    }
}

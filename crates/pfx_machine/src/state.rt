//! The machine's state.
//!
//! Why it is so:
//! - **A state says from which slot on its set is in force**, and how long its store's segments are. The ledger's slot is counted from
//!   there, and so are allocations and lags; a Slot's reply, its quanta, the board and the slot limit count from the first slot of all
//!   (`whole`). Until the first Reweigh the two are the same.
//! - **A state keeps that its set is the one of its tasks.** Idle tasks follow from the real ones, so whoever writes a state down needs
//!   only these.

ghost use Rattle.std.specs.Prelude.{◌≡◌, ◌↔◌, ℕ, ◌+◌, ◌<◌, ◌≤◌, ◌^◌, ◌++◌, [], ◌∷◌, List, length, map, replicate, slice_get, slice_set, Some, None, Ok, IsTrue};
ghost use Rattle.std.specs.Prelude.{IsFalse, MatchResult, IfOk, IfNone, OnOk, OnErr};
ghost use Rattle.std.specs.Option.{option_copied};
ghost use Rattle.pfx_weights.specs.Rows.{is_in, IsFullRow};
ghost use Rattle.pfx_weights.specs.Sets.{IsOfItsTasks};
ghost use Rattle.pfx_columns.specs.Ledgers.{start, after, IsFair};
ghost use Rattle.pfx_machine.specs.Plain.{Plain, whole, IsState, empty};
ghost use Rattle.pfx_choice.specs.PfRows.{AnswersFunction};
ghost use Rattle.pfx_machine.specs.Choosing.{row_in};
ghost use Rattle.pfx_machine.specs.Reweighing.{new_set, renewed};
ghost use Rattle.pfx_machine.specs.Outcome.{outcome};
ghost use Rattle.pfx_machine.specs.Steps.{state_step, happening_in};
ghost use Rattle.pfx_machine.specs.Refusals.{submit_fault, withdraw_fault, refusal, reply, IsFaultOf};
ghost use Rattle.pfx_machine.specs.Slots.{deal, deals_in};
ghost use Rattle.pfx_machine.specs.declared.command.Command.{Command};

use crate::jobs::{copy_jobs, has_job, is_free};
use crate::reweighing::{NewEpoch, new_epoch};
use crate::slot::{deal_all, serve_all, write_back};
use crate::{Command, MachineFault, Reply};
use pfx_choice::{ChoiceFault, Chooser, give};
use pfx_columns::Columns;
use pfx_jobs::job::Job;
use pfx_jobs::quantum::{Done, Quantum};
use pfx_weights::{Row, TaskSet, Weights};
use std::alloc::{AllocError, Global};
use std::marker::Model;

/// The greatest command number.
const LAST_NUMBER: u64 = (1 << 48) - 1;

/// A ledger, the slot at which its set came into force, a job or none for each real task, the number of the last command, and
/// how long a segment of the store is.
///
/// The ledger is fair, the number is below 2^48 and the slot below 2^40, the set is the one of its tasks, and there is a place
/// for a job for each real task.
#[derive(Drop)]
pub struct State<J: Job> {
    alloc: Global,
    number: u64,
    from: u64,
    ledger: Columns,
    jobs: Vec<Option<J>>,
    segment: u32,
    chooser: Chooser,
}

impl<J: Job> Model for State<J> {
    ghost use Rattle.pfx_machine.specs.Plain.{Plain, IsState};

    ghost Value = { Plain J };

    ghost view = { λ s. record { number = s.number; from = s.from; ledger = s.ledger; jobs = s.jobs.items; segment = s.segment } };

    ghost invariant = { λ s. IsState (record { number = s.number; from = s.from; ledger = s.ledger; jobs = s.jobs.items; segment = s.segment }) };
}

/// Why a job can't be given to a task.
fn fault_of_submit<J: Job>(jobs: &[Option<J>], task: u16) -> Option<MachineFault>
    ensures fault { result ≡ submit_fault J.kind task (slice_get jobs.now task) }
    ensures real { IfNone result (task < length jobs.now) }
{
    if usize::from(task) >= jobs.len() {
        return Some(MachineFault::NoSuchTask { task });
    }
    if is_free(jobs, task) {
        return None;
    }
    Some(MachineFault::TaskBusy { task })
}

/// Why a task's job can't be taken away.
fn fault_of_withdraw<J: Job>(jobs: &[Option<J>], task: u16) -> Option<MachineFault>
    ensures fault { result ≡ withdraw_fault task (slice_get jobs.now task) }
    ensures real { IfNone result (task < length jobs.now) }
{
    if usize::from(task) >= jobs.len() {
        return Some(MachineFault::NoSuchTask { task });
    }
    if has_job(jobs, task) {
        return None;
    }
    Some(MachineFault::NoJob { task })
}

fn no_jobs<J: Job>(alloc: Global, number: usize) -> Result<Vec<Option<J>>, AllocError>
    ensures { IfOk result (λ jobs. jobs.items ≡ replicate number None) }
{
    let mut jobs = Vec::with_capacity(alloc, number)?;
    for _task in 0..number {
        jobs.push(None)?;
    }
    Ok(jobs)
}

impl<J: Job> State<J> {
    /// The state of a set before its first command, in a store whose segments have so many bytes: number 0, slot 0, no
    /// allocations and no jobs.
    ///
    /// An error comes only if an allocation failed.
    pub fn new(alloc: Global, set: &TaskSet, segment: u32) -> Result<State<J>, AllocError>
        ensures { IfOk result (λ s. s ≡ empty set.now segment) }
    {
        set.is_of_its_tasks();
        let ledger = Columns::zero(alloc, set)?;
        let jobs = no_jobs(alloc, set.real())?;
        let _total = ledger.total();
        Ok(State {
            alloc,
            number: 0,
            from: 0,
            ledger,
            jobs,
            segment,
            chooser: Chooser::new(alloc),
        })
    }

    /// The state of a ledger whose set came into force at a slot, with the number of the last command, a job or none for each
    /// real task, and the length of a store's segments.
    pub fn from_parts(
        alloc: Global,
        number: u64,
        from: u64,
        ledger: Columns,
        jobs: Vec<Option<J>>,
        segment: u32,
    ) -> State<J>
        requires number { number < 2 ^ 48 }
        requires slot { from + ledger.slot < 2 ^ 40 }
        requires set { IsOfItsTasks ledger.set }
        requires jobs { length jobs.items ≡ ledger.set.real }
        ensures { result ≡ record { number = number; from = from; ledger = ledger; jobs = jobs.items; segment = segment } }
    {
        let _total = ledger.total();
        State {
            alloc,
            number,
            from,
            ledger,
            jobs,
            segment,
            chooser: Chooser::new(alloc),
        }
    }

    /// The number of the last command, 0 before the first.
    pub fn number(&self) -> u64
        ensures number { result ≡ self.now.number }

        // The ledger is fair, the number is below 2^48 and the slot below 2^40, the set is the one of its tasks, and there is
        // a place for a job for each real task.
        ensures state { IsState self.now }
    {
        self.number
    }

    /// The slot at which the set came into force, from which the ledger's slot is counted.
    pub fn from(&self) -> u64
        ensures { result ≡ self.now.from }
    {
        self.from
    }

    /// The slot to come, counted from the first one of all.
    pub fn slot(&self) -> u64
        ensures slot { result ≡ whole self.now }
        ensures limit { result < 2 ^ 40 }
    {
        self.from + self.ledger.slot()
    }

    /// How many bytes a segment of the store has.
    pub fn segment(&self) -> u32
        ensures { result ≡ self.now.segment }
    {
        self.segment
    }

    /// The ledger: the set, the slot to come since it came into force, and each task's allocations, lag and phase.
    pub fn columns(&self) -> &Columns
        ensures { result.now ≡ self.now.ledger }
    {
        &self.ledger
    }

    /// The job of a real task, as it is now.
    pub fn job(&self, task: u16) -> Option<&J>
        requires { task < length self.now.jobs }
        ensures { slice_get self.now.jobs task ≡ Some (option_copied result) }
    {
        let jobs = &self.jobs;
        jobs[usize::from(task)].as_ref()
    }

    /// The jobs of all real tasks, by task number.
    pub fn jobs(&self) -> &[Option<J>]
        ensures { result.now ≡ self.now.jobs }
    {
        &self.jobs
    }

    /// Puts a job, or none, at the place of a real task.
    ///
    /// This bypasses acceptance, as `pass_row` and `count` do: a command that is taken over from its record was accepted before.
    pub fn put_job(&mut self, task: u16, job: Option<J>)
        requires { task < length self.old.jobs }
        ensures { self.new ≡ record self.old { jobs = slice_set self.old.jobs task job } }
    {
        self.jobs[usize::from(task)] = job;
    }

    /// Gives each task of the row a slot, and goes to the next one. No job is stepped and no number taken. If the row
    /// doesn't give each worker one of the set's tasks, the slot limit is reached, or a lag would be out of range,
    /// nothing changes. This bypasses acceptance: the row need not be the chosen one.
    pub fn pass_row(&mut self, row: &Row) -> bool
        ensures right { IsTrue result ↔ (IsFullRow self.old.ledger.set.workers (length self.old.ledger.set.weights) row.now)
            × (whole self.old + 1 < 2 ^ 40) × IsFair (after self.old.ledger (is_in row.now)) }
        ensures passed { IsTrue result → self.new ≡ record self.old { ledger = after self.old.ledger (is_in row.now) } }
        ensures kept { IsFalse result → self.new ≡ self.old }
    {
        if !self.ledger.fits(row) {
            return false;
        }
        if self.slot() + 1 >= 1 << 40 {
            return false;
        }
        match self.ledger.advance(row) {
            Ok(()) => {
                let _total = self.ledger.total();
                true
            }
            Err(_) => false,
        }
    }

    /// Takes the next number. This bypasses acceptance: nothing else changes.
    pub fn count(&mut self)
        requires { self.old.number + 1 < 2 ^ 48 }
        ensures { self.new ≡ record self.old { number = self.old.number + 1 } }
    {
        self.number = self.number + 1;
    }

    /// An equal state. An error comes only if an allocation failed.
    pub fn copy_of(&self, alloc: Global) -> Result<State<J>, AllocError>
        ensures { IfOk result (λ copy. copy ≡ self.now) }
    {
        let ledger = self.ledger.copy_of(alloc)?;
        let jobs = copy_jobs(alloc, &self.jobs)?;
        Ok(State {
            alloc,
            number: self.number,
            from: self.from,
            ledger,
            jobs,
            segment: self.segment,
            chooser: Chooser::new(alloc),
        })
    }

    /// One step of the machine.
    fn accept(&mut self, command: Command<J>) -> Result<Reply, MachineFault>
        ensures exact { MatchResult result (λ _. refusal J.kind self.old command ≡ None) (λ fault. IsFaultOf J.kind self.old command fault) }
        ensures reply { IfOk result (λ said. said ≡ reply self.old command) }
        ensures step { OnOk result (self.new ≡ state_step J.kind self.old (happening_in self.old command)) }
        ensures kept { OnErr result (self.new ≡ self.old) }
    {
        if self.number >= LAST_NUMBER {
            return Err(MachineFault::NumberLimit);
        }
        match command {
            Command::Submit { task, job } => {
                if let Some(fault) = fault_of_submit(&self.jobs, task) {
                    return Err(fault);
                }
                self.put(task, Some(job));
                Ok(Reply::Submitted { task })
            }
            Command::Withdraw { task } => {
                if let Some(fault) = fault_of_withdraw(&self.jobs, task) {
                    return Err(fault);
                }
                self.put(task, None);
                Ok(Reply::Withdrawn { task })
            }
            Command::Slot => match self.next_row() {
                Err(fault) => Err(fault),
                Ok(row) => Ok(self.run_row(row)),
            },
            Command::Reweigh { workers, weights } => self.reweigh(workers, &weights),
        }
    }

    /// Puts a job, or none, at a task's place, and takes the next number.
    fn put(&mut self, task: u16, place: Option<J>)
        requires number { self.old.number + 1 < 2 ^ 48 }
        requires task { task < length self.old.jobs }
        ensures { self.new ≡ record self.old { number = self.old.number + 1; jobs = slice_set self.old.jobs task place } }
    {
        self.jobs[usize::from(task)] = place;
        self.number += 1;
    }

    /// A set of these workers and weights comes into force, if it may.
    fn reweigh(&mut self, workers: u32, weights: &Weights) -> Result<Reply, MachineFault>
        ensures exact { MatchResult result (λ _. refusal J.kind self.old (Command.Reweigh workers weights.now) ≡ None) (λ fault. IsFaultOf J.kind self.old (Command.Reweigh workers weights.now) fault) }
        ensures reply { IfOk result (λ said. said ≡ Reply.Reweighed (whole self.old)) }
        ensures step { OnOk result (self.new ≡ renewed self.old (new_set self.old.ledger.set workers weights.now)) }
        ensures kept { OnErr result (self.new ≡ self.old) }
    {
        let alloc = self.alloc;
        match self.prepare(alloc, workers, weights) {
            Err(fault) => Err(fault),
            Ok(epoch) => Ok(self.begin(epoch)),
        }
    }

    /// The row of the next slot.
    fn next_row(&mut self) -> Result<Row, MachineFault>
        ensures row { IfOk result (λ row. row_in self.old ≡ Ok row) }
        ensures number { OnOk result (self.old.number + 1 < 2 ^ 48) }
        ensures exact { MatchResult result (λ _. refusal J.kind self.old Command.Slot ≡ None) (λ fault. IsFaultOf J.kind self.old Command.Slot fault) }
        ensures same { self.new ≡ self.old }
    {
        if self.number >= LAST_NUMBER {
            return Err(MachineFault::NumberLimit);
        }
        match self.choose() {
            Ok(row) => Ok(row),
            Err(fault) => Err(MachineFault::NoRow(fault)),
        }
    }

    /// The row of the next slot, by the ledger and the slot limit alone.
    fn choose(&mut self) -> Result<Row, ChoiceFault>
        ensures row { AnswersFunction (row_in self.old) result }
        ensures same { self.new ≡ self.old }
    {
        if self.slot() + 1 >= 1 << 40 {
            return Err(ChoiceFault::SlotLimit);
        }
        self.chooser.choose(&self.ledger)
    }

    /// The slot of a chosen row.
    fn run_row(&mut self, row: Row) -> Reply
        requires number { self.old.number + 1 < 2 ^ 48 }
        requires row { row_in self.old ≡ Ok row }
        ensures reply { result ≡ reply self.old Command.Slot }
        ensures step { self.new ≡ state_step J.kind self.old (happening_in self.old Command.Slot) }
    {
        let slot = self.slot();
        serve_all(&mut self.jobs, &row);
        give(&mut self.ledger, &row);
        self.number += 1;
        Reply::Ran { slot, row }
    }

    /// A whole command, on one thread.
    ///
    /// If the state is the outcome of commands from some start, it is afterwards the outcome of these and this one. A
    /// command is refused by the first of these that holds, and then nothing changes: NumberLimit; for a Submit
    /// NoSuchTask, TaskBusy; for a Withdraw NoSuchTask, NoJob; for a Slot, as NoRow, SlotLimit, TooManyUrgent,
    /// TooFewEligible; for a Reweigh WrongCount, NotLevel, as NoSet the first fault that `TaskSet::new` finds, SegmentTooSmall.
    /// NoRow(NoMemory) comes only for a Slot or a Reweigh, and only if an allocation failed.
    pub fn apply(&mut self, command: Command<J>) -> Result<Reply, MachineFault>
        ensures exact { MatchResult result (λ _. refusal J.kind self.old command ≡ None) (λ fault. IsFaultOf J.kind self.old command fault) }
        ensures reply { IfOk result (λ said. said ≡ reply self.old command) }
        ensures outcome { OnOk result ((B : Plain J) (H : List (Command J)) → self.old ≡ outcome J.kind B H → self.new ≡ outcome J.kind B (H ++ command ∷ [])) }
        ensures kept { OnErr result (self.new ≡ self.old) }
    {
        self.accept(command)
    }

    /// The set of a Reweigh's workers and weights, with the ledger that it begins with. The state stays as it is. It is refused
    /// as a Reweigh is, in the same order.
    pub fn prepare(
        &self,
        alloc: Global,
        workers: u32,
        weights: &Weights,
    ) -> Result<NewEpoch, MachineFault>
        ensures set { IfOk result (λ epoch. epoch ≡ new_set self.now.ledger.set workers weights.now) }
        ensures number { OnOk result (self.now.number + 1 < 2 ^ 48) }
        ensures real { IfOk result (λ epoch. epoch.real ≡ self.now.ledger.set.real) }
        ensures exact { MatchResult result (λ _. refusal J.kind self.now (Command.Reweigh workers weights.now) ≡ None) (λ fault. IsFaultOf J.kind self.now (Command.Reweigh workers weights.now) fault) }
    {
        if self.number >= LAST_NUMBER {
            return Err(MachineFault::NumberLimit);
        }
        new_epoch(
            alloc,
            &self.ledger,
            self.segment,
            workers,
            weights.as_slice(),
        )
    }

    /// Puts a set in force that was prepared: from the next slot on tasks are chosen by it, as from its first slot. It takes no
    /// memory.
    ///
    /// The reply is that of `apply` of a Reweigh. So is the state, if the set is that of the Reweigh's workers and weights.
    pub fn begin(&mut self, epoch: NewEpoch) -> Reply
        requires number { self.old.number + 1 < 2 ^ 48 }
        requires real { epoch.real ≡ self.old.ledger.set.real }
        ensures reply { result ≡ Reply.Reweighed (whole self.old) }
        ensures state { self.new ≡ renewed self.old epoch }
        ensures outcome { (workers : ℕ) (weights : List (ℕ × ℕ)) → epoch ≡ new_set self.old.ledger.set workers weights →
            (B : Plain J) (H : List (Command J)) → self.old ≡ outcome J.kind B H → self.new ≡ outcome J.kind B (H ++ Command.Reweigh workers weights ∷ []) }
    {
        let slot = self.slot();
        let ledger = epoch.ledger();
        let _total = ledger.total();
        self.from = slot;
        self.ledger = ledger;
        self.number += 1;
        Reply::Reweighed { slot }
    }

    /// The row of the next slot, and a quantum for each of its tasks with an unfinished job, in rising task order. The
    /// state stays as it is. It is refused as a Slot is, in the same order.
    pub fn open_slot(&mut self, alloc: Global) -> Result<(Row, Vec<Quantum<J>>), MachineFault>
        ensures row { IfOk result (λ opened. row_in self.old ≡ Ok opened.0) }
        ensures number { OnOk result (self.old.number + 1 < 2 ^ 48) }
        ensures quanta { IfOk result (λ opened. map (λ q. deal q.number q.slot q.task q.before) opened.1.items ≡ deals_in J.kind self.old opened.0) }
        ensures exact { MatchResult result (λ _. refusal J.kind self.old Command.Slot ≡ None) (λ fault. IsFaultOf J.kind self.old Command.Slot fault) }
        ensures same { self.new ≡ self.old }
    {
        let row = self.next_row()?;
        match deal_all(alloc, self.number + 1, self.slot(), &row, &self.jobs) {
            Err(_) => Err(MachineFault::NoRow(ChoiceFault::NoMemory)),
            Ok(quanta) => Ok((row, quanta)),
        }
    }

    /// Ends a slot that was opened: each quantum's result goes into its task's job. It takes no memory.
    ///
    /// The row and the results are those of the slot that `open_slot` gives at this state, in the same order. The reply
    /// and the state are those of `apply` of a Slot.
    pub fn seal(&mut self, row: Row, dones: Vec<Done<J>>) -> Reply
        requires number { self.old.number + 1 < 2 ^ 48 }
        requires row { row_in self.old ≡ Ok row }
        requires results { map (λ d. deal d.number d.slot d.task d.before) dones.items ≡ deals_in J.kind self.old row }
        ensures reply { result ≡ reply self.old Command.Slot }
        ensures outcome { (B : Plain J) (H : List (Command J)) → self.old ≡ outcome J.kind B H → self.new ≡ outcome J.kind B (H ++ Command.Slot ∷ []) }
    {
        self.close_row(row, dones)
    }

    /// The slot of a chosen row, by the results of its quanta.
    fn close_row(&mut self, row: Row, dones: Vec<Done<J>>) -> Reply
        requires number { self.old.number + 1 < 2 ^ 48 }
        requires row { row_in self.old ≡ Ok row }
        requires results { map (λ d. deal d.number d.slot d.task d.before) dones.items ≡ deals_in J.kind self.old row }
        ensures reply { result ≡ reply self.old Command.Slot }
        ensures step { self.new ≡ state_step J.kind self.old (happening_in self.old Command.Slot) }
    {
        let slot = self.slot();
        write_back(&mut self.jobs, dones);
        give(&mut self.ledger, &row);
        self.number += 1;
        Reply::Ran { slot, row }
    }
}

// Taking records over.
ghost use Rattle.std.specs.Prelude.{◌≡◌, ◌≤◌, ◌<◌, ◌+◌, ◌^◌, ◌==◌, ◌&&◌, nat_lt, map, length, slice_get, All, IsTrue, IsFalse, IfOk, OnErr, Some, None};
ghost use Rattle.std.specs.List.{list_all};
ghost use Rattle.std.specs.List.Sorted.{IsStrictlyIncreasing};
ghost use Rattle.pfx_columns.specs.Ledgers.{total};
ghost use Rattle.pfx_record.specs.Records.{plain, ran, record_fits, reweighed, rises_from, tasks_of};
ghost use Rattle.pfx_record.specs.Effect.{jobs_from};
ghost use Rattle.pfx_machine.specs.Jobs.{has_job, is_busy, is_free};
ghost use Rattle.pfx_record_redo.specs.Applying.{after_record, applied, form_at, is_common, is_flagged, is_right};

use pfx_jobs::job::Job;
use pfx_machine::{State, has_job, is_busy, is_free};
use pfx_record::{Form, Place, Record, record_fits};
use pfx_weights::{Row, Weights};
use std::alloc::{AllocError, Global};

// Whether a place of a row has a state exactly if its task has an unfinished job.
fn is_flagged<J: Job>(jobs: &[Option<J>], place: &Place<J>) -> bool
    ensures { result ≡ is_flagged J.kind jobs.now place.now }
{
    match &place.state {
        Some(_) => is_busy(jobs, place.task),
        None => !is_busy(jobs, place.task),
    }
}

// Whether each place of a row is one of so many tasks, and has a state where it should.
fn are_flagged<J: Job>(jobs: &[Option<J>], total: usize, row: &[Place<J>]) -> bool
    ensures { result ≡ list_all (λ place. nat_lt place.task total && is_flagged J.kind jobs.now place) row.now }
{
    for place in row {
        if usize::from(place.task) >= total {
            return false;
        }
        if !is_flagged(jobs, place) {
            return false;
        }
    }
    true
}

// The tasks of a row.
fn row_of<J>(row: &[Place<J>]) -> Row
    requires few { length row.now ≤ 64 }
    requires rises { IsTrue (rises_from 0 (tasks_of row.now)) }
    ensures { result ≡ tasks_of row.now }
{
    let mut tasks = [0; 64];
    for i in 0..row.len() {
        tasks[i] = row[i].task;
    }
    let mut made = Row::empty();
    made.set(&tasks[..row.len()]);
    made
}

// Puts the states of a row in the places of its tasks' jobs.
fn put_states<J: Job>(state: &mut State<J>, row: &[Place<J>])
    requires rises { IsTrue (rises_from 0 (tasks_of row.now)) }
    requires flagged { IsTrue (list_all (λ place. nat_lt place.task (total state.old.ledger) && is_flagged J.kind state.old.jobs place) row.now) }
    ensures { state.new ≡ record state.old { jobs = jobs_from (ran row.now) 0 state.old.jobs } }
{
    for place in row {
        match &place.state {
            None => (),
            Some(job) => state.put_job(place.task, Some(job.copy_of())),
        }
    }
}

// Takes over a row.
fn apply_row<J: Job>(state: &mut State<J>, row: &[Place<J>]) -> bool
    requires number { state.old.number + 1 < 2 ^ 48 }
    requires fits { IsTrue (record_fits (form_at state.old) (ran row.now)) }
    ensures right { result ≡ is_right J.kind state.old (ran row.now) }
    ensures taken { IsTrue result → state.new ≡ after_record state.old (ran row.now) }
    ensures kept { IsFalse result → state.new ≡ state.old }
{
    let total = state.columns().total();
    if !are_flagged(state.jobs(), total, row) {
        return false;
    }
    let tasks = row_of(row);
    if !state.pass_row(&tasks) {
        return false;
    }
    put_states(state, row);
    state.count();
    true
}

// The form of a record at the state.
fn form_at<J: Job>(state: &State<J>) -> Form
    ensures { result ≡ form_at state.now }
{
    let ledger = state.columns();
    let _total = ledger.total();
    Form {
        workers: ledger.workers(),
        real: ledger.real() as u32,
        alone: true,
    }
}

/// Whether a record is another than one of new weights.
pub fn is_common<J>(entry: &Record<J>) -> bool
    ensures { result ≡ is_common (plain entry.now) }
{
    !matches!(entry, Record::Reweigh { .. })
}

/// Takes over a record other than one of new weights, if it is right at the state. Else nothing changes. It takes no memory.
pub fn apply_record<J: Job>(state: &mut State<J>, entry: &Record<J>) -> bool
    requires common { IsTrue (is_common (plain entry.now)) }
    ensures right { result ≡ is_right J.kind state.old (plain entry.now) }
    ensures taken { IsTrue result → state.new ≡ after_record state.old (plain entry.now) }
    ensures kept { IsFalse result → state.new ≡ state.old }
{
    let _total = state.columns().total();
    if !record_fits(form_at(state), entry) {
        return false;
    }
    if state.number() >= (1 << 48) - 1 {
        return false;
    }
    match entry {
        Record::Submit { task, job } => {
            if !is_free(state.jobs(), *task) {
                return false;
            }
            state.put_job(*task, Some(job.copy_of()));
            state.count();
            true
        }
        Record::Slot { row } => apply_row(state, row),
        Record::Withdraw { task } => {
            if !has_job(state.jobs(), *task) {
                return false;
            }
            state.put_job(*task, None);
            state.count();
            true
        }
        Record::Reweigh {
            workers: _,
            weights: _,
        } => false,
    }
}

/// Takes over records other than of new weights, each of which is right after those before it. If one isn't, the answer is
/// `false`, and the state is that of the records before it. It takes no memory.
pub fn apply_all<J: Job>(state: &mut State<J>, records: &[Record<J>]) -> bool
    requires common { All (λ entry. IsTrue (is_common (plain entry))) records.now }
    ensures taken { IsTrue result → applied J.kind state.old (map plain records.now) ≡ Some state.new }
    ensures wrong { IsFalse result → applied J.kind state.old (map plain records.now) ≡ None }
{
    for entry in records {
        if !apply_record(state, entry) {
            return false;
        }
    }
    true
}

// Puts the set of new weights in force, if it may come into force at the state.
fn renew<J: Job>(
    alloc: Global,
    state: &mut State<J>,
    workers: u8,
    weights: &Weights,
) -> Result<bool, AllocError>
    ensures right { IfOk result (λ right. right ≡ is_right J.kind state.old (reweighed workers weights.now)) }
    ensures taken { IfOk result (λ right. IsTrue right → state.new ≡ after_record state.old (reweighed workers weights.now)) }
    ensures kept { IfOk result (λ right. IsFalse right → state.new ≡ state.old) }
    ensures err { OnErr result (state.new ≡ state.old) }
{
    let _number = state.number();
    match state.prepare(alloc, u32::from(workers), weights) {
        Ok(epoch) => {
            state.begin(epoch);
            Ok(true)
        }
        Err(fault) => {
            if fault.is_memory() {
                return Err(AllocError);
            }
            Ok(false)
        }
    }
}

/// Takes over a record, of new weights too, if it is right at the state. Else nothing changes.
///
/// An error comes only for new weights, if an allocation failed, and then nothing changes either.
pub fn apply_reweigh<J: Job>(
    alloc: Global,
    state: &mut State<J>,
    entry: &Record<J>,
) -> Result<bool, AllocError>
    ensures right { IfOk result (λ right. right ≡ is_right J.kind state.old (plain entry.now)) }
    ensures taken { IfOk result (λ right. IsTrue right → state.new ≡ after_record state.old (plain entry.now)) }
    ensures kept { IfOk result (λ right. IsFalse right → state.new ≡ state.old) }
    ensures err { OnErr result (state.new ≡ state.old) }
{
    match entry {
        Record::Reweigh { workers, weights } => renew(alloc, state, *workers, weights),
        Record::Submit { .. } => Ok(apply_record(state, entry)),
        Record::Slot { .. } => Ok(apply_record(state, entry)),
        Record::Withdraw { .. } => Ok(apply_record(state, entry)),
    }
}

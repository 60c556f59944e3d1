//! Records of runs, taken over by a second state; records that are wrong.

use crate::check::{check, check_at};
use crate::thirds::{Held, new_state};
use pfx_jobs::job::Job;
use pfx_kinds::any::AnyJob;
use pfx_machine::{Command, MachineFault, Reply, State};
use pfx_record::{Place, Record};
use pfx_record_redo::{
    Recorded, apply_all, apply_record, apply_recorded, apply_reweigh, is_common, laws,
};
use pfx_weights::Weights;
use std::alloc::Global;

/// A submit of rule 110 from one cell to task 0.
fn rule(goal: u64) -> Option<Command<AnyJob>> {
    let job = AnyJob::start("rule", goal, b"110:00000001").ok()?;
    Some(Command::Submit { task: 0, job })
}

/// The bytes of a job, zeros if there is none.
fn bytes_of(job: Option<&AnyJob>) -> [u8; 128] {
    let mut bytes = [0; 128];
    if let Some(job) = job {
        job.encode(&mut bytes);
    }
    bytes
}

/// Whether two states have the same allocations.
fn have_same_allocations(one: &State<AnyJob>, other: &State<AnyJob>) -> bool {
    if one.columns().total() != other.columns().total() {
        return false;
    }
    let mut same = true;
    for task in 0..one.columns().total() {
        same = same && one.columns().alloc(task) == other.columns().alloc(task);
    }
    same
}

/// Whether the first jobs of two states have the same bytes.
fn have_same_first_job(one: &State<AnyJob>, other: &State<AnyJob>) -> bool {
    match (one.jobs().first(), other.jobs().first()) {
        (Some(left), Some(right)) => bytes_of(left.as_ref()) == bytes_of(right.as_ref()),
        _ => false,
    }
}

/// Whether two states have the same number, slot and allocations, and their first jobs the same bytes.
fn are_alike(one: &State<AnyJob>, other: &State<AnyJob>) -> bool {
    one.number() == other.number()
        && one.columns().slot() == other.columns().slot()
        && have_same_allocations(one, other)
        && have_same_first_job(one, other)
}

/// Runs a command on one state and takes its record over by the other: whether that is taken, and they are alike then.
fn run_both(
    alloc: Global,
    one: &mut State<AnyJob>,
    other: &mut State<AnyJob>,
    command: Command<AnyJob>,
) -> bool {
    match apply_recorded(alloc, one, command) {
        Ok(done) => {
            is_common(&done.entry) && apply_record(other, &done.entry) && are_alike(one, other)
        }
        Err(_) => false,
    }
}

/// A job given, six slots, and the job taken away.
fn command_at(step: usize) -> Option<Command<AnyJob>> {
    match step {
        0 => rule(3),
        1..7 => Some(Command::Slot),
        _ => Some(Command::Withdraw { task: 0 }),
    }
}

/// How many of the eight commands lead both states alike, up to the first that doesn't.
fn run_eight(alloc: Global, one: &mut State<AnyJob>, other: &mut State<AnyJob>) -> usize {
    for step in 0..8 {
        let Some(command) = command_at(step) else {
            return step;
        };
        if !run_both(alloc, one, other, command) {
            return step;
        }
    }
    8
}

fn is_at_number_8(state: &State<AnyJob>) -> bool {
    state.number() == 8 && state.columns().total() == 3 && state.columns().alloc(0) == 4
}

#[test]
fn records_lead_where_commands_lead(rt: HostRuntime) {
    let alloc = rt.alloc();
    let (Some(mut one), Some(mut other)) = (new_state(alloc), new_state(alloc)) else {
        return check(&rt, false, "two states");
    };
    let alike = run_eight(alloc, &mut one, &mut other);
    check_at(&rt, alike == 8, "commands that lead alike", alike);
    check(&rt, is_at_number_8(&one), "number and allocations");
}

/// Whether a command is recorded as a submit for task 0.
fn is_given(alloc: Global, state: &mut State<AnyJob>, command: Option<Command<AnyJob>>) -> bool {
    let Some(command) = command else {
        return false;
    };
    match apply_recorded(alloc, state, command) {
        Ok(done) => matches!(done.reply, Reply::Submitted { task: 0 }),
        Err(_) => false,
    }
}

/// The row that a slot is recorded with.
fn row_of_slot(alloc: Global, state: &mut State<AnyJob>) -> Option<Vec<Place<AnyJob>>> {
    match apply_recorded(alloc, state, Command::Slot) {
        Ok(
            Recorded {
                entry: Record::Slot { row },
                ..
            },
        ) => Some(row),
        _ => None,
    }
}

/// The row that the first slot after a submit is recorded with.
fn first_row(alloc: Global) -> Option<Vec<Place<AnyJob>>> {
    let mut state = new_state(alloc)?;
    if is_given(alloc, &mut state, rule(3)) {
        row_of_slot(alloc, &mut state)
    } else {
        None
    }
}

/// Whether the row is tasks 0 and 1, the second without a state.
fn is_row_of_two(row: &[Place<AnyJob>]) -> bool {
    match row {
        [first, second] => first.task == 0 && second.task == 1 && second.state.is_none(),
        _ => false,
    }
}

/// Whether the first state of the row is that of rule 110 after its first step.
fn has_first_step(row: &[Place<AnyJob>]) -> bool {
    match row.first() {
        Some(first) => bytes_of(first.state.as_ref())[..10] == [2, 2, 0, 0, 0, 0x6e, 8, 0, 3, 0],
        None => false,
    }
}

#[test]
fn a_slot_is_recorded_with_its_states(rt: HostRuntime) {
    let Some(row) = first_row(rt.alloc()) else {
        return check(&rt, false, "a submit for task 0 and a row");
    };
    check(&rt, is_row_of_two(&row), "the tasks");
    check(&rt, has_first_step(&row), "the first state");
}

/// A row of these tasks, the first one with this state.
fn row_of(alloc: Global, tasks: &[u16], first: Option<AnyJob>) -> Option<Record<AnyJob>> {
    let mut row = Vec::new(alloc);
    let mut state = first;
    for task in tasks {
        let place = Place {
            task: *task,
            state: state.take(),
        };
        row.push(place).ok()?;
    }
    Some(Record::Slot { row })
}

/// The job at the first task.
fn count() -> Option<AnyJob> {
    AnyJob::start("count", 5, b"10").ok()
}

/// The job after one step.
fn stepped() -> Option<AnyJob> {
    let mut job = count()?;
    if !job.is_done() {
        job.step();
    }
    Some(job)
}

/// The new state with an unfinished job at the first task.
fn busy_thirds(alloc: Global) -> Option<Held> {
    let mut state = new_state(alloc)?;
    if is_right(&mut state, submit(0)) {
        Some(state)
    } else {
        None
    }
}

/// Whether the state is as `busy_thirds` gives it.
fn is_unchanged(alloc: Global, state: &State<AnyJob>) -> bool {
    match busy_thirds(alloc) {
        Some(fresh) => {
            state.number() == 1 && state.columns().slot() == 0 && are_alike(state, &fresh)
        }
        None => false,
    }
}

/// Whether the record, which isn't of new weights, is refused at `state` in either way, and nothing changes.
fn is_wrong(alloc: Global, state: &mut State<AnyJob>, record: Option<Record<AnyJob>>) -> bool {
    match record {
        Some(record) => {
            is_common(&record)
                && !apply_record(state, &record)
                && apply_reweigh(alloc, state, &record) == Ok(false)
                && is_unchanged(alloc, state)
        }
        None => false,
    }
}

/// The job given to a task.
fn submit(task: u16) -> Option<Record<AnyJob>> {
    let job = count()?;
    Some(Record::Submit { task, job })
}

/// New weights.
fn new_weights(alloc: Global, workers: u8, weights: &[(u32, u32)]) -> Option<Record<AnyJob>> {
    let weights = Vec::from_slice(alloc, weights).ok()?;
    Some(Record::Reweigh {
        workers,
        weights: Weights::new(weights),
    })
}

/// A third of the slots for each of three tasks, which one worker has.
static THIRDS: [(u32, u32); 3] = [(1, 3), (1, 3), (1, 3)];

/// Whether new weights are right at a state, which has them then.
fn renews(
    alloc: Global,
    state: &mut State<AnyJob>,
    workers: u8,
    weights: &[(u32, u32)],
) -> Option<bool> {
    let record = new_weights(alloc, workers, weights)?;
    apply_reweigh(alloc, state, &record).ok()
}

/// Whether new weights are refused where they could come into force, and nothing changes.
fn are_wrong(alloc: Global, workers: u8, weights: &[(u32, u32)]) -> Option<bool> {
    let mut state = busy_thirds(alloc)?;
    let right = renews(alloc, &mut state, workers, weights)?;
    Some(!right && is_unchanged(alloc, &state))
}

// Too few and too many weights; no worker, 65, and 4, whose longest batch has no room in a segment; a weight that is none, and too much
// for one worker.
#[test]
fn wrong_new_weights_change_nothing(rt: HostRuntime) {
    let alloc = rt.alloc();
    let rows: [(u8, &[(u32, u32)]); 7] = [
        (1, &[(1, 3), (1, 3)]),
        (1, &[(1, 4), (1, 4), (1, 4), (1, 4)]),
        (0, &THIRDS),
        (65, &THIRDS),
        (4, &THIRDS),
        (1, &[(1, 3), (3, 3), (1, 3)]),
        (1, &[(2, 3), (1, 3), (1, 3)]),
    ];
    for (number, (workers, weights)) in rows.iter().enumerate() {
        let holds = are_wrong(alloc, *workers, weights) == Some(true);
        check_at(&rt, holds, "row", number);
    }
}

/// Whether new weights are refused where two tasks are ahead and one is behind, and nothing changes.
fn are_too_early(alloc: Global) -> Option<bool> {
    let mut state = busy_thirds(alloc)?;
    let row = row_of(alloc, &[1, 2], None);
    if !is_right(&mut state, row) {
        return None;
    }
    let right = renews(alloc, &mut state, 1, &THIRDS)?;
    let same = state.number() == 2 && state.from() == 0 && state.columns().workers() == 2;
    Some(!right && same && state.columns().slot() == 1)
}

#[test]
fn new_weights_at_another_lag_change_nothing(rt: HostRuntime) {
    let holds = are_too_early(rt.alloc()) == Some(true);
    check(&rt, holds, "behind one slot");
}

/// The state with a job in which new weights have come into force.
fn renewed(alloc: Global) -> Option<Held> {
    let mut state = busy_thirds(alloc)?;
    if renews(alloc, &mut state, 1, &THIRDS)? {
        Some(state)
    } else {
        None
    }
}

/// Whether a row of two is refused at a state of one worker, and one of one is right.
fn takes_one_alone(alloc: Global, state: &mut State<AnyJob>) -> bool {
    let two = row_of(alloc, &[0, 1], stepped());
    let refused = is_refused(state, two);
    let one = row_of(alloc, &[0], stepped());
    refused && is_right(state, one) && state.slot() == 1
}

/// Whether a row of two tasks is refused behind new weights for one worker, and one of the task with the job is taken over.
fn are_rows_of_one(alloc: Global) -> Option<bool> {
    let mut state = renewed(alloc)?;
    let renewed = state.number() == 2 && state.columns().workers() == 1;
    let before = busy_thirds(alloc)?;
    let stays = have_same_first_job(&state, &before);
    Some(renewed && stays && takes_one_alone(alloc, &mut state))
}

#[test]
fn new_weights_come_into_force(rt: HostRuntime) {
    let holds = are_rows_of_one(rt.alloc()) == Some(true);
    check(&rt, holds, "one worker, and the job stays");
}

// An unfinished job gets none over it; idle and missing tasks get none; nothing is taken if nothing is.
#[test]
fn wrong_jobs_change_nothing(rt: HostRuntime) {
    let alloc = rt.alloc();
    let Some(mut state) = busy_thirds(alloc) else {
        return check(&rt, false, "a job given");
    };
    check(&rt, is_wrong(alloc, &mut state, submit(0)), "a second job");
    check(&rt, is_wrong(alloc, &mut state, submit(3)), "no such task");
    let none = Some(Record::Withdraw { task: 1 });
    check(&rt, is_wrong(alloc, &mut state, none), "no job to take");
}

/// Whether a row of these tasks, the first one with this state, is refused so.
fn is_wrong_row(
    alloc: Global,
    state: &mut State<AnyJob>,
    tasks: &[u16],
    first: Option<AnyJob>,
) -> bool {
    is_wrong(alloc, state, row_of(alloc, tasks, first))
}

// No state for an unfinished job, a state for none, tasks that fall, too few, too many, out of range.
#[test]
fn wrong_rows_change_nothing(rt: HostRuntime) {
    let alloc = rt.alloc();
    let Some(mut state) = busy_thirds(alloc) else {
        return check(&rt, false, "a job given");
    };
    let holds = is_wrong_row(alloc, &mut state, &[0, 1], None);
    check(&rt, holds, "no state");
    let holds = is_wrong_row(alloc, &mut state, &[1, 2], count());
    check(&rt, holds, "a state for none");
    let holds = is_wrong_row(alloc, &mut state, &[1, 0], None);
    check(&rt, holds, "falling tasks");
    let holds = is_wrong_row(alloc, &mut state, &[1], None);
    check(&rt, holds, "one task");
    let holds = is_wrong_row(alloc, &mut state, &[0, 1, 2], stepped());
    check(&rt, holds, "three tasks");
    let holds = is_wrong_row(alloc, &mut state, &[1, 3], None);
    check(&rt, holds, "no such task");
}

/// Whether the record is taken over by the state.
fn is_right(state: &mut State<AnyJob>, record: Option<Record<AnyJob>>) -> bool {
    match record {
        Some(record) => is_common(&record) && apply_record(state, &record),
        None => false,
    }
}

/// Whether there is such a record, and the state refuses it.
fn is_refused(state: &mut State<AnyJob>, record: Option<Record<AnyJob>>) -> bool {
    match record {
        Some(record) => is_common(&record) && !apply_record(state, &record),
        None => false,
    }
}

#[test]
fn a_row_that_would_be_unfair_changes_nothing(rt: HostRuntime) {
    let alloc = rt.alloc();
    let Some(mut state) = busy_thirds(alloc) else {
        return check(&rt, false, "a job given");
    };
    let others = row_of(alloc, &[1, 2], None);
    check(&rt, is_right(&mut state, others), "the others once");
    let others = row_of(alloc, &[1, 2], None);
    check(&rt, is_refused(&mut state, others), "and twice");
    let fair = row_of(alloc, &[0, 1], stepped());
    check(&rt, is_right(&mut state, fair), "the first one");
    let counts = state.number() == 3 && state.columns().slot() == 2;
    check(&rt, counts, "number and slot");
}

/// Rows of three slots that are right in turn, and a job taken away if none is.
fn rows_and_a_withdraw(alloc: Global) -> Option<Vec<Record<AnyJob>>> {
    let mut records = Vec::new(alloc);
    records.push(row_of(alloc, &[0, 1], None)?).ok()?;
    records.push(row_of(alloc, &[0, 2], None)?).ok()?;
    records.push(row_of(alloc, &[1, 2], None)?).ok()?;
    records.push(Record::Withdraw { task: 0 }).ok()?;
    Some(records)
}

/// Whether all of so many first records are taken over by a new state is as wanted.
fn are_applied(alloc: Global, records: &[Record<AnyJob>], number: usize, wanted: bool) -> bool {
    match (new_state(alloc), records.get(..number)) {
        (Some(mut state), Some(front)) => {
            if !front.iter().all(|entry| is_common(entry)) {
                return false;
            }
            let applied = apply_all(&mut state, front);
            applied == wanted && (!wanted || state.number() == number as u64)
        }
        _ => false,
    }
}

#[test]
fn all_or_up_to_the_first_wrong_one(rt: HostRuntime) {
    let alloc = rt.alloc();
    let records = rows_and_a_withdraw(alloc).unwrap_or(Vec::new(alloc));
    check(&rt, are_applied(alloc, &records, 2, true), "two rows");
    check(&rt, are_applied(alloc, &records, 3, true), "three rows");
    check(
        &rt,
        are_applied(alloc, &records, 4, false),
        "and a withdraw",
    );
    laws::records_are_outcomes::<AnyJob>();
    laws::records_of_lists_are_outcomes::<AnyJob>();
}

/// Whether the task has no job that can be taken away, and nothing is recorded.
fn has_no_record(alloc: Global, state: &mut State<AnyJob>, task: u16) -> bool {
    match apply_recorded(alloc, state, Command::Withdraw { task }) {
        Ok(_) => false,
        Err(fault) => fault == MachineFault::NoJob { task: 2 } && state.number() == 0,
    }
}

#[test]
fn refused_commands_have_no_record(rt: HostRuntime) {
    let Some(mut state) = new_state(rt.alloc()) else {
        return check(&rt, false, "three tasks of 2/3");
    };
    let holds = has_no_record(rt.alloc(), &mut state, 2);
    check(&rt, holds, "a withdraw of no job");
}

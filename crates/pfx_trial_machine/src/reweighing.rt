//! Worked sets with new weights.

use crate::machine::Held;
use pfx_choice::ChoiceFault;
use pfx_jobs::job::Job;
use pfx_kinds::any::AnyJob;
use pfx_kit::states::{SEGMENT, state_at};
use pfx_machine::{Command, JobStatus, MachineFault, Reply, State};
use pfx_weights::{SetFault, TaskSet, Weights};
use std::alloc::Global;

/// The state of a set before its first command.
fn begun(alloc: Global, workers: u32, tasks: &[(u32, u32)], segment: u32) -> Option<Held> {
    let set = TaskSet::new(alloc, workers, tasks).ok()?;
    Box::new(alloc, State::new(alloc, &set, segment).ok()?).ok()
}

/// A Reweigh.
fn reweigh(alloc: Global, workers: u32, weights: &[(u32, u32)]) -> Option<Command<AnyJob>> {
    let weights = Vec::from_slice(alloc, weights).ok()?;
    Some(Command::Reweigh {
        workers,
        weights: Weights::new(weights),
    })
}

/// Whether so many slots are run.
fn runs(state: &mut State<AnyJob>, slots: u32) -> bool {
    for _slot in 0..slots {
        if state.apply(Command::Slot).is_err() {
            return false;
        }
    }
    true
}

/// Whether new weights are refused for this fault, with nothing changed.
fn refuses(
    alloc: Global,
    state: &mut State<AnyJob>,
    workers: u32,
    weights: &[(u32, u32)],
    fault: MachineFault,
) -> bool {
    let before = (state.number(), state.slot(), state.from());
    let Some(command) = reweigh(alloc, workers, weights) else {
        return false;
    };
    match state.apply(command) {
        Ok(_) => false,
        Err(got) => got == fault && (state.number(), state.slot(), state.from()) == before,
    }
}

/// Whether new weights come into force, from this slot on.
fn takes(
    alloc: Global,
    state: &mut State<AnyJob>,
    workers: u32,
    weights: &[(u32, u32)],
    from: u64,
) -> bool {
    let Some(command) = reweigh(alloc, workers, weights) else {
        return false;
    };
    match state.apply(command) {
        Ok(Reply::Reweighed { slot }) => {
            slot == from
                && state.from() == from
                && state.slot() == from
                && state.columns().slot() == 0
        }
        _ => false,
    }
}

/// Whether the next slot is this one, with this row.
fn ran(state: &mut State<AnyJob>, slot: u64, row: &[u16]) -> bool {
    match state.apply(Command::Slot) {
        Ok(
            Reply::Ran {
                slot: got,
                row: tasks,
            },
        ) => got == slot && tasks.as_slice() == row,
        _ => false,
    }
}

/// The allocations of three tasks.
fn allocations(state: &State<AnyJob>) -> Option<(u64, u64, u64)> {
    let ledger = state.columns();
    if ledger.total() != 3 {
        return None;
    }
    Some((ledger.alloc(0), ledger.alloc(1), ledger.alloc(2)))
}

/// Whether a count of so many steps is given to the first task.
fn is_given(state: &mut State<AnyJob>, steps: u64) -> bool {
    match AnyJob::start("count", steps, b"") {
        Ok(job) => state.apply(Command::Submit { task: 0, job }).is_ok(),
        Err(_) => false,
    }
}

/// Whether the board is of this slot and of a set that is in force since this one, with so many lines.
fn is_board(alloc: Global, state: &State<AnyJob>, from: u64, slot: u64, lines: usize) -> bool {
    match state.board(alloc) {
        Ok(board) => board.from == from && board.slot == slot && board.lines.len() == lines,
        Err(_) => false,
    }
}

/// Whether the first task's job is done.
fn is_done(alloc: Global, state: &State<AnyJob>) -> bool {
    match state.board(alloc) {
        Ok(board) => board.lines.first().map(|line| line.job) == Some(JobStatus::Done),
        Err(_) => false,
    }
}

/// The number, the slot and the steps left of the only quantum of the next slot, if it has one.
fn next_quantum(alloc: Global, state: &mut State<AnyJob>) -> Option<(u64, u64, u32)> {
    let (_row, quanta) = state.open_slot(alloc).ok()?;
    match quanta.as_slice() {
        [quantum] => Some((quantum.number, quantum.slot, quantum.before.left())),
        _ => None,
    }
}

/// What is done at a state, and what has to come of it.
#[derive(Clone, Copy)]
enum Step<'a> {
    /// So many slots are run.
    Runs(u32),
    /// The next slot is this one, with this row.
    Ran(u64, &'a [u16]),
    /// There is no next slot, for this fault.
    Ends(MachineFault),
    /// New weights for so many workers come into force, from this slot on.
    Takes(u32, &'a [(u32, u32)], u64),
    /// They are refused for this fault, with nothing changed.
    Refuses(u32, &'a [(u32, u32)], MachineFault),
    /// A count of so many steps is given to the first task.
    Counts(u64),
    /// The first task's job is done.
    Done,
    /// The last command's number.
    Number(u64),
    /// How many tasks the set has, idle ones too.
    Total(usize),
    /// How many slots three tasks have got.
    Got(u64, u64, u64),
    /// The number, the slot and the steps left of the only quantum of the next slot.
    Quantum(u64, u64, u32),
    /// The slot that the board's set is in force since, the board's slot, and how many lines it has.
    Board(u64, u64, usize),
}

/// Whether a step that does something goes as it should.
fn goes(alloc: Global, state: &mut State<AnyJob>, step: &Step<'_>) -> bool {
    match step {
        Step::Runs(slots) => runs(state, *slots),
        Step::Ran(slot, row) => ran(state, *slot, row),
        Step::Ends(fault) => state.apply(Command::Slot).err() == Some(*fault),
        Step::Takes(workers, weights, from) => takes(alloc, state, *workers, weights, *from),
        Step::Refuses(workers, weights, fault) => refuses(alloc, state, *workers, weights, *fault),
        Step::Counts(steps) => is_given(state, *steps),
        Step::Quantum(number, slot, left) => {
            next_quantum(alloc, state) == Some((*number, *slot, *left))
        }
        _ => stands(alloc, state, step),
    }
}

/// Whether a step that only looks finds what it should.
fn stands(alloc: Global, state: &State<AnyJob>, step: &Step<'_>) -> bool {
    match step {
        Step::Done => is_done(alloc, state),
        Step::Number(number) => state.number() == *number,
        Step::Total(total) => state.columns().total() == *total,
        Step::Got(first, second, third) => allocations(state) == Some((*first, *second, *third)),
        Step::Board(from, slot, lines) => is_board(alloc, state, *from, *slot, *lines),
        _ => false,
    }
}

/// How many steps go as they should, up to the first that doesn't.
fn right_steps(alloc: Global, state: Option<Held>, steps: &[Step<'_>]) -> usize {
    let Some(mut state) = state else {
        return 0;
    };
    for (at, step) in steps.iter().enumerate() {
        if !goes(alloc, &mut state, step) {
            return at;
        }
    }
    steps.len()
}

/// Three tasks of 2/3, and of 1/3.
static TWO: [(u32, u32); 3] = [(2, 3), (2, 3), (2, 3)];

static ONE: [(u32, u32); 3] = [(1, 3), (1, 3), (1, 3)];

// Three tasks of 2/3 on two workers, and then of 1/3 on one.
#[test]
fn new_weights_come_into_force_where_all_are_level(rt: HostRuntime) {
    let steps = [
        Step::Runs(1),
        Step::Refuses(1, &ONE, MachineFault::NotLevel { task: 0 }),
        Step::Refuses(1, &[(1, 3), (1, 3)], MachineFault::WrongCount),
        Step::Runs(2),
        Step::Takes(1, &ONE, 3),
        Step::Number(4),
        Step::Ran(3, &[0]),
        Step::Number(5),
        Step::Board(3, 4, 3),
        Step::Got(1, 0, 0),
    ];
    let right = right_steps(rt.alloc(), begun(rt.alloc(), 2, &TWO, SEGMENT), &steps);
    assert!(rt; right == 10, "{right} of 10");
}

// The real task is level earlier than the two idle ones.
#[test]
fn an_idle_task_may_not_be_level(rt: HostRuntime) {
    let steps = [
        Step::Runs(2),
        Step::Refuses(2, &[(1, 2)], MachineFault::NotLevel { task: 1 }),
        Step::Runs(2),
        Step::Takes(2, &[(1, 2)], 4),
    ];
    let right = right_steps(rt.alloc(), begun(rt.alloc(), 2, &[(2, 4)], SEGMENT), &steps);
    assert!(rt; right == 4, "{right} of 4");
}

// Sets that there are not, and segments that are too short.
#[test]
fn sets_without_room_are_refused(rt: HostRuntime) {
    let steps = [
        Step::Refuses(0, &[(1, 2)], MachineFault::NoSet(SetFault::BadWorkers)),
        Step::Refuses(
            1,
            &[(2, 2)],
            MachineFault::NoSet(SetFault::BadWeight { task: 0 }),
        ),
        Step::Refuses(2, &[(1, 2)], MachineFault::SegmentTooSmall { least: 4233 }),
        Step::Takes(1, &[(1, 3)], 0),
    ];
    let right = right_steps(rt.alloc(), begun(rt.alloc(), 1, &[(1, 2)], 2137), &steps);
    assert!(rt; right == 4, "{right} of 4");
}

// The jobs stay as they are.
#[test]
fn a_job_goes_on_over_new_weights(rt: HostRuntime) {
    let steps = [
        Step::Counts(2),
        Step::Runs(2),
        Step::Takes(1, &[(1, 3)], 2),
        Step::Runs(3),
        Step::Board(2, 5, 2),
        Step::Done,
    ];
    let right = right_steps(rt.alloc(), begun(rt.alloc(), 1, &[(1, 2)], SEGMENT), &steps);
    assert!(rt; right == 6, "{right} of 6");
}

// As many idle tasks as there may be.
#[test]
fn one_half_on_64_workers_has_127_idle_tasks(rt: HostRuntime) {
    let steps = [
        Step::Total(2),
        Step::Takes(64, &[(1, 2)], 0),
        Step::Total(128),
    ];
    let right = right_steps(rt.alloc(), begun(rt.alloc(), 1, &[(1, 2)], SEGMENT), &steps);
    assert!(rt; right == 3, "{right} of 3");
}

/// So many weights 1/1024.
fn alike(alloc: Global, count: usize) -> Vec<(u32, u32)> {
    let mut weights = Vec::new(alloc);
    for _ in 0..count {
        let _ = weights.push((1, 1024));
    }
    weights
}

/// Whether new weights 1/1024 for 1,024 such tasks of one worker are refused in the first segment, for the least one, and taken in the second.
fn wants_room(alloc: Global, short: u32, least: u32) -> bool {
    let weights = alike(alloc, 1024);
    let small = [Step::Refuses(1, &weights, MachineFault::SegmentTooSmall { least })];
    let taken = [Step::Takes(1, &weights, 0)];
    right_steps(alloc, begun(alloc, 1, &weights, short), &small) == 1
        && right_steps(alloc, begun(alloc, 1, &weights, least), &taken) == 1
}

// The record of 1,024 weights is longer than the longest batch of one worker.
#[test]
fn as_many_weights_as_there_may_be_want_room(rt: HostRuntime) {
    assert!(rt; wants_room(rt.alloc(), 8218, 8219), "8,218 and 8,219 bytes");
}

// Two workers, one, and two again, with rows of as many tasks.
#[test]
fn rows_have_as_many_tasks_as_there_are_workers(rt: HostRuntime) {
    let steps = [
        Step::Ran(0, &[0, 1]),
        Step::Ran(1, &[0, 2]),
        Step::Ran(2, &[1, 2]),
        Step::Takes(1, &ONE, 3),
        Step::Ran(3, &[0]),
        Step::Ran(4, &[1]),
        Step::Ran(5, &[2]),
        Step::Takes(2, &TWO, 6),
        Step::Ran(6, &[0, 1]),
        Step::Number(9),
    ];
    let right = right_steps(rt.alloc(), begun(rt.alloc(), 2, &TWO, SEGMENT), &steps);
    assert!(rt; right == 10, "{right} of 10");
}

// New weights take a number each, and no slot.
#[test]
fn two_come_into_force_at_one_slot(rt: HostRuntime) {
    let steps = [
        Step::Runs(3),
        Step::Takes(1, &ONE, 3),
        Step::Number(4),
        Step::Takes(2, &ONE, 3),
        Step::Number(5),
        Step::Board(3, 3, 5),
    ];
    let right = right_steps(rt.alloc(), begun(rt.alloc(), 2, &TWO, SEGMENT), &steps);
    assert!(rt; right == 6, "{right} of 6");
}

// A job of five steps has two of them before new weights, and its quanta rise in number and slot.
#[test]
fn quanta_rise_over_new_weights(rt: HostRuntime) {
    let steps = [
        Step::Counts(5),
        Step::Quantum(2, 0, 5),
        Step::Runs(1),
        Step::Quantum(3, 1, 4),
        Step::Runs(2),
        Step::Takes(1, &ONE, 3),
        Step::Quantum(6, 3, 3),
        Step::Runs(3),
        Step::Quantum(9, 6, 2),
    ];
    let right = right_steps(rt.alloc(), begun(rt.alloc(), 2, &TWO, SEGMENT), &steps);
    assert!(rt; right == 9, "{right} of 9");
}

/// One task of 1/3 on one worker at the last slot, where no task is ahead or behind, at this number.
fn level_at_the_last_slot(alloc: Global, number: u64) -> Option<Held> {
    let set = TaskSet::new(alloc, 1, &[(1, 3)]).ok()?;
    let slot = (1 << 40) - 1;
    let allocs = [slot / 3, 2 * (slot / 3)];
    let state = state_at(alloc, number, &set, slot, &allocs, None)?;
    Box::new(alloc, state).ok()
}

// New weights come into force at the last slot, and no slot comes behind them; behind the last number there is none for them, whatever
// they are.
#[test]
fn limits_stand_for_new_weights(rt: HostRuntime) {
    let steps = [
        Step::Takes(1, &[(1, 2)], (1 << 40) - 1),
        Step::Number((1 << 48) - 1),
        Step::Refuses(0, &[], MachineFault::NumberLimit),
        Step::Refuses(0, &[(1, 2), (1, 2)], MachineFault::NumberLimit),
        Step::Refuses(0, &[(1, 2)], MachineFault::NumberLimit),
    ];
    let state = level_at_the_last_slot(rt.alloc(), (1 << 48) - 2);
    let right = right_steps(rt.alloc(), state, &steps);
    assert!(rt; right == 5, "{right} of 5");
}

// The slots are counted from the first one of all, whatever the set in force.
#[test]
fn no_slot_comes_behind_the_last_one(rt: HostRuntime) {
    let steps = [
        Step::Takes(1, &[(1, 2)], (1 << 40) - 1),
        Step::Ends(MachineFault::NoRow(ChoiceFault::SlotLimit)),
        Step::Number(8),
    ];
    let right = right_steps(rt.alloc(), level_at_the_last_slot(rt.alloc(), 7), &steps);
    assert!(rt; right == 3, "{right} of 3");
}

// The first test that fails is told: the count, then the lags, then the set, then the room.
#[test]
fn refusals_come_in_their_order(rt: HostRuntime) {
    let bad = MachineFault::NoSet(SetFault::BadWorkers);
    let large = SetFault::HyperperiodTooLarge { task: 0 };
    let steps = [
        Step::Runs(1),
        Step::Refuses(0, &[(2, 2), (1, 2)], MachineFault::WrongCount),
        Step::Refuses(0, &[(2, 2)], MachineFault::NotLevel { task: 0 }),
        Step::Runs(1),
        Step::Refuses(0, &[(2, 2)], bad),
        Step::Refuses(65, &[(2, 2)], bad),
        Step::Refuses(
            2,
            &[(2, 2)],
            MachineFault::NoSet(SetFault::BadWeight { task: 0 }),
        ),
        Step::Refuses(2, &[(1, 1_048_577)], MachineFault::NoSet(large)),
        Step::Refuses(2, &[(1, 2)], MachineFault::SegmentTooSmall { least: 4233 }),
    ];
    let right = right_steps(rt.alloc(), begun(rt.alloc(), 1, &[(1, 2)], 2137), &steps);
    assert!(rt; right == 9, "{right} of 9");
}

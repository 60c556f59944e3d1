//! The machine beside the plain programs, on many lists.

use pfx_choice::choose;
use pfx_jobs::job::{Job, are_same};
use pfx_kinds::any::AnyJob;
use pfx_kit::states::{SEGMENT, ledger_at};
use pfx_machine::{Command, Happening, Reply, State, plain_job, plain_slots};
use pfx_weights::{Row, TaskSet};
use std::alloc::Global;

/// Marsaglia's 32-bit xorshift, so that each run sees the same lists.
fn next(seed: u32) -> u32 {
    let one = seed ^ (seed << 13);
    let two = one ^ (one >> 17);
    two ^ (two << 5)
}

/// A job from a seed.
fn some_job(seed: u32) -> Option<AnyJob> {
    let goal = u64::from(seed % 4 + 1);
    let started = match seed % 3 {
        0 => AnyJob::start("rule", goal, b"110:0110001"),
        1 => AnyJob::start("scan", 0, b"ab:abcab"),
        _ => AnyJob::start("count", goal, b"9"),
    };
    started.ok()
}

/// A command from a seed, over some tasks that aren't there too.
fn some_command(seed: u32, real: u16) -> Option<Command<AnyJob>> {
    let task = (seed / 16 % (u32::from(real) + 1)) as u16;
    match seed % 16 {
        0..=3 => {
            let job = some_job(seed / 64)?;
            Some(Command::Submit { task, job })
        }
        4..=5 => Some(Command::Withdraw { task }),
        _ => Some(Command::Slot),
    }
}

/// PF's row at the ledger of the slots before it, made anew.
fn plain_row(
    alloc: Global,
    set: &TaskSet,
    happened: &[Happening<AnyJob>],
    slot: u64,
) -> Option<Row> {
    let mut allocs = Vec::new(alloc);
    for task in 0..set.total() {
        allocs.push(plain_slots(task as u16, happened) as u64).ok()?;
    }
    let ledger = ledger_at(alloc, set, slot, &allocs)?;
    choose(alloc, &ledger).ok()
}

/// Whether two places hold the same job or none.
fn agree(one: &Option<AnyJob>, other: &Option<AnyJob>) -> bool {
    match (one, other) {
        (Some(a), Some(b)) => are_same(a, b),
        (None, None) => true,
        _ => false,
    }
}

/// Whether the state's jobs are those of the plain program, over all that happened.
fn jobs_agree(state: &State<AnyJob>, happened: &[Happening<AnyJob>]) -> bool {
    let mut task: u16 = 0;
    for job in state.jobs() {
        if !agree(job, &plain_job(task, None, happened)) {
            return false;
        }
        task = task.wrapping_add(1);
    }
    true
}

/// Whether the ledger's allocations are the counts of the plain program.
fn slots_agree(state: &State<AnyJob>, happened: &[Happening<AnyJob>]) -> bool {
    for task in 0..state.columns().total() {
        if state.columns().alloc(task) != plain_slots(task as u16, happened) as u64 {
            return false;
        }
    }
    true
}

/// What a command does if it is accepted.
fn given_by(
    alloc: Global,
    set: &TaskSet,
    happened: &[Happening<AnyJob>],
    slot: u64,
    command: &Command<AnyJob>,
) -> Option<Happening<AnyJob>> {
    match command {
        Command::Submit { task, job } => Some(Happening::Given {
            task: *task,
            job: job.copy_of(),
        }),
        Command::Withdraw { task } => Some(Happening::Taken { task: *task }),
        Command::Slot => {
            let row = plain_row(alloc, set, happened, slot)?;
            Some(Happening::Ran { slot, row })
        }
        Command::Reweigh { .. } => None,
    }
}

/// Whether a reply to a slot has the row that happened.
fn row_agrees(reply: &Reply, given: &Happening<AnyJob>) -> bool {
    match (reply, given) {
        (Reply::Ran { row, .. }, Happening::Ran { row: plain, .. }) => row.as_slice()
            == plain.as_slice(),
        (Reply::Ran { .. }, _) => false,
        _ => true,
    }
}

/// Gives a command to the state, and says whether what it answers and its number are those of what is given, which has then
/// happened.
fn answers(
    state: &mut State<AnyJob>,
    happened: &mut Vec<Happening<AnyJob>>,
    command: Command<AnyJob>,
    given: Happening<AnyJob>,
) -> bool {
    let before = state.number();
    match state.apply(command) {
        Ok(reply) => row_agrees(&reply, &given) && happened.push(given).is_ok(),
        Err(_) => state.number() == before,
    }
}

/// Gives a command to the state, and says whether the plain programs agree with what is answered and left.
fn agrees_after(
    alloc: Global,
    set: &TaskSet,
    state: &mut State<AnyJob>,
    happened: &mut Vec<Happening<AnyJob>>,
    command: Command<AnyJob>,
) -> bool {
    let Some(given) = given_by(alloc, set, happened, state.columns().slot(), &command) else {
        return false;
    };
    answers(state, happened, command, given)
        && state.number() == happened.len() as u64
        && slots_agree(state, happened)
        && jobs_agree(state, happened)
}

/// How many commands of a list of 40 the machine and the plain programs agree on, up to the first on which they don't.
fn commands_agree(
    alloc: Global,
    set: &TaskSet,
    state: &mut State<AnyJob>,
    happened: &mut Vec<Happening<AnyJob>>,
    real: u16,
    seed: u32,
) -> u32 {
    let mut seed = seed;
    for number in 0..40 {
        seed = next(seed);
        let Some(command) = some_command(seed, real) else {
            return number;
        };
        if !agrees_after(alloc, set, state, happened, command) {
            return number;
        }
    }
    40
}

/// The same from the state of a set before its first command on.
fn list_agrees(alloc: Global, m: u32, tasks: &[(u32, u32)], seed: u32) -> Option<u32> {
    let real = u16::try_from(tasks.len()).ok()?;
    let set = TaskSet::new(alloc, m, tasks).ok()?;
    let mut state: State<AnyJob> = State::new(alloc, &set, SEGMENT).ok()?;
    let mut happened: Vec<Happening<AnyJob>> = Vec::new(alloc);
    Some(commands_agree(alloc, &set, &mut state, &mut happened, real, seed))
}

#[test]
fn agrees_with_the_plain_programs(rt: HostRuntime) {
    let sets: [(u32, &[(u32, u32)]); 4] = [
        (2, &[(2, 3), (2, 3), (2, 3)]),
        (1, &[(1, 2), (1, 3)]),
        (2, &[(1, 2), (3, 4), (1, 6), (5, 12)]),
        (3, &[(4, 5), (2, 7), (1, 10)]),
    ];
    for (at, (m, tasks)) in sets.into_iter().enumerate() {
        for seed in [1, 77, 4_711, 123_456, 7_654_321, 987_654_321] {
            let agreed = list_agrees(rt.alloc(), m, tasks, seed).unwrap_or(0);
            assert!(rt; agreed == 40, "set {at}, seed {seed}: {agreed} of 40");
        }
    }
}

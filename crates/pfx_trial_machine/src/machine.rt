//! Worked rows of commands, slots in parts, and boards.

use pfx_choice::ChoiceFault;
use pfx_jobs::job::{Job, are_same};
use pfx_jobs::quantum::{Done, Quantum};
use pfx_kinds::any::AnyJob;
use pfx_kit::states::{SEGMENT, state_at};
use pfx_machine::{Answer, Board, Command, JobStatus, MachineFault, Reply, State, run, run_all};
use pfx_weights::TaskSet;
use std::alloc::Global;

/// A state behind a pointer: a proof spells what a function holds itself at each of its steps.
pub type Held = Box<State<AnyJob>>;

/// Three tasks of 2/3 on two workers, before the first command.
fn thirds(alloc: Global) -> Option<Held> {
    let set = TaskSet::new(alloc, 2, &[(2, 3), (2, 3), (2, 3)]).ok()?;
    Box::new(alloc, State::new(alloc, &set, SEGMENT).ok()?).ok()
}

/// A submit of a count of `goal` steps.
fn count(task: u16, goal: u64) -> Option<Command<AnyJob>> {
    let job = AnyJob::start("count", goal, b"").ok()?;
    Some(Command::Submit { task, job })
}

/// Whether the command is accepted, and this is the last number then.
fn takes(state: &mut State<AnyJob>, command: Command<AnyJob>, number: u64) -> bool {
    state.apply(command).is_ok() && state.number() == number
}

/// Whether the command is refused for this fault, and the last number stays.
fn refuses(state: &mut State<AnyJob>, command: Command<AnyJob>, fault: MachineFault) -> bool {
    let number = state.number();
    match state.apply(command) {
        Ok(_) => false,
        Err(got) => got == fault && state.number() == number,
    }
}

/// `takes` of a count's submit.
fn takes_count(state: &mut State<AnyJob>, task: u16, goal: u64, number: u64) -> bool {
    match count(task, goal) {
        Some(command) => takes(state, command, number),
        None => false,
    }
}

/// `refuses` of a count's submit.
fn refuses_count(state: &mut State<AnyJob>, task: u16, goal: u64, fault: MachineFault) -> bool {
    match count(task, goal) {
        Some(command) => refuses(state, command, fault),
        None => false,
    }
}

/// The byte of a task's encoded job, 0 if it has none.
fn job_byte(state: &State<AnyJob>, task: u16, at: usize) -> u8 {
    let mut bytes = [0; 128];
    if usize::from(task) < state.jobs().len()
        && let Some(job) = state.job(task)
    {
        job.encode(&mut bytes);
    }
    match bytes.get(at) {
        Some(byte) => *byte,
        None => 0,
    }
}

/// The row of a reply to a slot.
fn row_of(reply: &Reply) -> &[u16] {
    match reply {
        Reply::Ran { row, .. } => row.as_slice(),
        _ => &[],
    }
}

/// The three tasks, of which the first has a rule of three steps.
fn ruled(alloc: Global) -> Option<Held> {
    let mut state = thirds(alloc)?;
    let job = AnyJob::start("rule", 3, b"110:00000001").ok()?;
    match state.apply(Command::Submit { task: 0, job }) {
        Ok(Reply::Submitted { task: 0 }) => Some(state),
        _ => None,
    }
}

/// Whether the next slot has this row, and leaves the rule so many steps and these cells.
fn runs(state: &mut State<AnyJob>, row: [u16; 2], left: u8, cells: u8) -> bool {
    match state.apply(Command::Slot) {
        Ok(reply) => {
            row_of(&reply) == row.as_slice()
                && job_byte(state, 0, 1) == left
                && job_byte(state, 0, 8) == cells
        }
        Err(_) => false,
    }
}

/// How many of the rule's first five slots are as expected, up to the first that isn't, and one more if the numbers after
/// them are right.
fn right_slots(state: &mut State<AnyJob>) -> u32 {
    if !runs(state, [0, 1], 2, 0b0000_0011) {
        return 0;
    }
    if !runs(state, [0, 2], 1, 0b0000_0111) {
        return 1;
    }
    if !runs(state, [1, 2], 1, 0b0000_0111) {
        return 2;
    }
    if !runs(state, [0, 1], 0, 0b0000_1101) {
        return 3;
    }
    if !runs(state, [0, 2], 0, 0b0000_1101) {
        return 4;
    }
    if state.number() == 6 && state.columns().slot() == 5 {
        6
    } else {
        5
    }
}

/// The same from the state of a job with a rule on.
fn slots_as_expected(alloc: Global) -> u32 {
    match ruled(alloc) {
        Some(mut state) => right_slots(&mut state),
        None => 0,
    }
}

#[test]
fn steps_the_jobs_of_each_row(rt: HostRuntime) {
    let right = slots_as_expected(rt.alloc());
    assert!(rt; right == 6, "{right} of 6");
}

/// How many of these commands are answered as expected, up to the first that isn't.
fn answers_as_expected(state: &mut State<AnyJob>) -> u32 {
    if !takes_count(state, 0, 2, 1) {
        return 0;
    }
    if !refuses_count(state, 0, 2, MachineFault::TaskBusy { task: 0 }) {
        return 1;
    }
    if !takes(state, Command::Withdraw { task: 0 }, 2) {
        return 2;
    }
    if !takes_count(state, 0, 1, 3) {
        return 3;
    }
    if !refuses_count(state, 3, 1, MachineFault::NoSuchTask { task: 3 }) {
        return 4;
    }
    let fault = MachineFault::NoSuchTask { task: 3 };
    if !refuses(state, Command::Withdraw { task: 3 }, fault) {
        return 5;
    }
    if !refuses(
        state,
        Command::Withdraw { task: 1 },
        MachineFault::NoJob { task: 1 },
    ) {
        return 6;
    }
    // A finished job makes room for another, and can be taken away.
    if !takes(state, Command::Slot, 4) {
        return 7;
    }
    if takes_count(state, 0, 7, 5) && job_byte(state, 0, 1) == 7 {
        9
    } else {
        8
    }
}

/// `answers_as_expected` from the start.
fn refusals_as_expected(alloc: Global) -> u32 {
    match thirds(alloc) {
        Some(mut state) => answers_as_expected(&mut state),
        None => 0,
    }
}

#[test]
fn refuses_by_name(rt: HostRuntime) {
    let right = refusals_as_expected(rt.alloc());
    assert!(rt; right == 9, "{right} of 9");
}

/// One task of 1/2 with a job, at the last slot and before the last number.
fn at_the_limits(alloc: Global) -> Option<Held> {
    let set = TaskSet::new(alloc, 1, &[(1, 2)]).ok()?;
    let allocs = [1 << 39, (1 << 39) - 1];
    let job = AnyJob::start("count", 1, b"").ok()?;
    let (number, slot) = ((1 << 48) - 2, (1 << 40) - 1);
    let state = state_at(alloc, number, &set, slot, &allocs, Some(job))?;
    Box::new(alloc, state).ok()
}

/// Whether a slot at the number limit isn't opened, for that.
fn opens_no_slot(alloc: Global, state: &mut State<AnyJob>) -> bool {
    match state.open_slot(alloc) {
        Ok(_) => false,
        Err(fault) => fault == MachineFault::NumberLimit,
    }
}

/// How many of these commands are answered as expected, up to the first that isn't.
fn right_limits(alloc: Global, state: &mut State<AnyJob>) -> u32 {
    if !refuses(
        state,
        Command::Slot,
        MachineFault::NoRow(ChoiceFault::SlotLimit),
    ) {
        return 0;
    }
    if !takes(state, Command::Withdraw { task: 0 }, (1 << 48) - 1) {
        return 1;
    }
    let limit = MachineFault::NumberLimit;
    if !refuses(state, Command::Slot, limit) {
        return 2;
    }
    if !refuses(state, Command::Withdraw { task: 9 }, limit) {
        return 3;
    }
    if !refuses_count(state, 0, 1, limit) {
        return 4;
    }
    if opens_no_slot(alloc, state) { 6 } else { 5 }
}

/// The same from the state at the limits on.
fn limits_as_expected(alloc: Global) -> u32 {
    match at_the_limits(alloc) {
        Some(mut state) => right_limits(alloc, &mut state),
        None => 0,
    }
}

#[test]
fn refuses_at_the_limits(rt: HostRuntime) {
    let right = limits_as_expected(rt.alloc());
    assert!(rt; right == 6, "{right} of 6");
}

/// Whether a slot at the ledger of these allocations is refused for this fault, and nothing changes.
fn cannot_go_on(
    alloc: Global,
    number: u64,
    m: u32,
    tasks: &[(u32, u32)],
    allocs: [u64; 4],
    fault: MachineFault,
) -> Option<bool> {
    let set = TaskSet::new(alloc, m, tasks).ok()?;
    let mut state = state_at(alloc, number, &set, 2, &allocs, None)?;
    Some(
        refuses(&mut state, Command::Slot, fault)
            && state.number() == number
            && state.columns().slot() == 2,
    )
}

#[test]
fn refuses_a_ledger_that_cannot_go_on(rt: HostRuntime) {
    let fault = MachineFault::NoRow(ChoiceFault::TooManyUrgent { urgent: 2, m: 1 });
    let sixths = [(1, 3), (1, 3), (1, 6), (1, 6)];
    let refused = cannot_go_on(rt.alloc(), 7, 1, &sixths, [0, 0, 1, 1], fault);
    assert!(rt; refused == Some(true), "too many urgent");
    let fault = MachineFault::NoRow(ChoiceFault::TooFewEligible { eligible: 2, m: 3 });
    let thirds = [(2, 3), (2, 3), (5, 6), (5, 6)];
    let refused = cannot_go_on(rt.alloc(), 0, 3, &thirds, [2, 2, 1, 1], fault);
    assert!(rt; refused == Some(true), "too few eligible");
}

#[test]
fn want_of_memory_is_told_from_refusals(rt: HostRuntime) {
    let rows = [
        (MachineFault::NoRow(ChoiceFault::NoMemory), true),
        (MachineFault::NoRow(ChoiceFault::SlotLimit), false),
        (MachineFault::NumberLimit, false),
        (MachineFault::NoJob { task: 0 }, false),
    ];
    for (fault, is_memory) in rows {
        assert!(rt; fault.is_memory() == is_memory, "{fault}");
    }
}

/// The same quantum again, unless its job is done.
fn again(quantum: &Quantum<AnyJob>) -> Option<Quantum<AnyJob>> {
    if quantum.before.is_done() {
        return None;
    }
    let before = quantum.before.copy_of();
    Some(Quantum::new(quantum.number, quantum.slot, quantum.task, before))
}

/// The results of the quanta, run in falling order.
fn run_backwards(alloc: Global, quanta: &[Quantum<AnyJob>]) -> Option<Vec<Done<AnyJob>>> {
    let mut backwards: Vec<Done<AnyJob>> = Vec::new(alloc);
    for quantum in quanta.iter().rev() {
        backwards.push(again(quantum)?.run()).ok()?;
    }
    Some(backwards)
}

/// Whether the results are the same, those in falling order and those in rising order.
fn are_reverse(backwards: &[Done<AnyJob>], dones: &[Done<AnyJob>]) -> bool {
    for (one, other) in backwards.iter().rev().zip(dones) {
        if one.task != other.task || !are_same(&one.after, &other.after) {
            return false;
        }
    }
    backwards.len() == dones.len()
}

/// A slot, opened, run in both orders and sealed, if both give the same results.
fn slot_in_parts(alloc: Global, state: &mut State<AnyJob>) -> Option<Reply> {
    let Ok((row, quanta)) = state.open_slot(alloc) else {
        return None;
    };
    let backwards = run_backwards(alloc, &quanta)?;
    let Ok(dones) = run_all(alloc, quanta) else {
        return None;
    };
    if !are_reverse(&backwards, &dones) {
        return None;
    }
    Some(state.seal(row, dones))
}

/// Whether the three jobs of two states have the same bytes of steps and of counts.
fn have_same_jobs(whole: &State<AnyJob>, parts: &State<AnyJob>) -> bool {
    for task in 0..3 {
        if job_byte(whole, task, 1) != job_byte(parts, task, 1)
            || job_byte(whole, task, 5) != job_byte(parts, task, 5)
        {
            return false;
        }
    }
    true
}

/// Whether a slot as a whole and one in parts have the same reply, and leave the same.
fn slots_are_same(
    alloc: Global,
    whole: &mut State<AnyJob>,
    parts: &mut State<AnyJob>,
) -> Option<bool> {
    let one = whole.apply(Command::Slot).ok()?;
    let other = slot_in_parts(alloc, parts)?;
    Some(
        row_of(&one) == row_of(&other)
            && whole.number() == parts.number()
            && have_same_jobs(whole, parts),
    )
}

/// Three tasks that count.
fn counting_thirds(alloc: Global) -> Option<Held> {
    let mut state = thirds(alloc)?;
    for task in 0..3 {
        state.apply(count(task, 2 + u64::from(task))?).ok()?;
    }
    Some(state)
}

/// How many of nine slots are the same as a whole and in parts, up to the first that isn't.
fn same_slots(alloc: Global) -> Option<u32> {
    let mut whole = counting_thirds(alloc)?;
    let mut parts = Box::new(alloc, whole.copy_of(alloc).ok()?).ok()?;
    for slot in 0..9 {
        if slots_are_same(alloc, &mut whole, &mut parts) != Some(true) {
            return Some(slot);
        }
    }
    if parts.jobs().len() == 3 {
        Some(9)
    } else {
        None
    }
}

#[test]
fn any_order_of_quanta_gives_one_reply(rt: HostRuntime) {
    let same = same_slots(rt.alloc()).unwrap_or(0);
    assert!(rt; same == 9, "{same} slots of 9");
}

/// Whether a count is given to a task.
fn is_given(state: &mut State<AnyJob>, task: u16, steps: u64) -> bool {
    match count(task, steps) {
        Some(command) => state.apply(command).is_ok(),
        None => false,
    }
}

/// The board of the three tasks after a slot, where two of them have jobs of one step.
fn board(alloc: Global) -> Option<Board> {
    let mut state = thirds(alloc)?;
    let given = is_given(&mut state, 0, 1) && is_given(&mut state, 2, 1);
    if !given || state.apply(Command::Slot).is_err() {
        return None;
    }
    state.board(alloc).ok()
}

/// Whether the board's line of a task is this one, over a period of 3.
fn has_line(board: &Board, task: usize, alloc: u64, lag: i32, job: JobStatus) -> bool {
    match board.lines.get(task) {
        Some(line) => {
            line.alloc == alloc && line.lag == lag && line.period == 3 && line.job == job
        }
        None => false,
    }
}

/// Whether the board is as expected.
fn shows_three_lines(alloc: Global) -> bool {
    let Some(board) = board(alloc) else {
        return false;
    };
    board.number == 3
        && board.slot == 1
        && board.lines.len() == 3
        && has_line(&board, 0, 1, -1, JobStatus::Done)
        && has_line(&board, 1, 1, -1, JobStatus::None)
        && has_line(&board, 2, 0, 2, JobStatus::Open)
}

#[test]
fn shows_a_board(rt: HostRuntime) {
    assert!(rt; shows_three_lines(rt.alloc()));
}

/// Six commands, of which two are to be refused.
fn six_commands(alloc: Global) -> Option<Vec<Command<AnyJob>>> {
    let mut commands = Vec::new(alloc);
    commands.push(count(0, 2)?).ok()?;
    commands.push(Command::Slot).ok()?;
    commands.push(count(0, 1)?).ok()?;
    commands.push(Command::Withdraw { task: 1 }).ok()?;
    commands.push(Command::Slot).ok()?;
    commands.push(Command::Withdraw { task: 0 }).ok()?;
    Some(commands)
}

/// Whether this is the answer to the command at a place of the six.
fn is_answer(at: usize, answer: &Answer) -> bool {
    match at {
        0 => matches!(answer, Ok(Reply::Submitted { task: 0 })),
        1 => matches!(answer, Ok(Reply::Ran { slot: 0, .. })),
        2 => matches!(answer, Err(MachineFault::TaskBusy { task: 0 })),
        3 => matches!(answer, Err(MachineFault::NoJob { task: 1 })),
        4 => matches!(answer, Ok(Reply::Ran { slot: 1, .. })),
        5 => matches!(answer, Ok(Reply::Withdrawn { task: 0 })),
        _ => false,
    }
}

/// The first of the six answers that isn't as expected, and 6 where all are.
fn first_wrong_answer(answers: &[Answer]) -> usize {
    for (at, answer) in answers.iter().enumerate() {
        if !is_answer(at, answer) {
            return at;
        }
    }
    answers.len()
}

/// `first_wrong_answer` of the six commands from the start, and 7 if the answers aren't six or the last number after them is
/// wrong.
fn run_six(alloc: Global) -> Option<usize> {
    let mut state = thirds(alloc)?;
    let commands = six_commands(alloc)?;
    let answers = run(alloc, &mut state, commands).ok()?;
    if state.number() != 4 || answers.len() != 6 {
        return Some(7);
    }
    Some(first_wrong_answer(&answers))
}

#[test]
fn runs_a_list(rt: HostRuntime) {
    let right = run_six(rt.alloc()).unwrap_or(0);
    assert!(rt; right == 6, "{right} of 6");
}

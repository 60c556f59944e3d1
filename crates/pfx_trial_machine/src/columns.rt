//! Worked ledgers, and what no clause says: that calls succeed with ample memory.

ghost use Rattle.std.specs.Prelude.{◌≡◌, OnErr};

use crate::records::{self, Record};
use pfx_columns::{Columns, LedgerFault, lag_check};
use pfx_symbols::Class;
use pfx_weights::{Row, TaskSet};
use std::alloc::Global;

/// The ledger of a set before slot 0.
pub fn start(alloc: Global, m: u32, tasks: &[(u32, u32)]) -> Option<Columns> {
    let set = TaskSet::new(alloc, m, tasks).ok()?;
    Columns::zero(alloc, &set).ok()
}

/// The ledger of a set at a slot with these allocations, if there is one for each task.
pub fn ledger_at(
    alloc: Global,
    m: u32,
    tasks: &[(u32, u32)],
    slot: u64,
    allocs: &[u64],
) -> Option<Columns> {
    let set = TaskSet::new(alloc, m, tasks).ok()?;
    if set.total() != allocs.len() || slot >= 1 << 40 {
        return None;
    }
    Columns::from_allocations(alloc, &set, slot, allocs).ok()
}

/// Three tasks of 2/3 on two workers.
fn thirds(alloc: Global) -> Option<Columns> {
    start(alloc, 2, &[(2, 3), (2, 3), (2, 3)])
}

/// Whether a ledger shows its set.
fn shows_thirds(alloc: Global) -> bool {
    match thirds(alloc) {
        Some(ledger) => {
            ledger.workers() == 2
                && ledger.real() == 3
                && ledger.hyper() == 3
                && ledger.total() == 3
        }
        None => false,
    }
}

#[test]
fn shows_its_set(rt: HostRuntime) {
    assert!(rt; shows_thirds(rt.alloc()));
}

/// `advance`, if the row fits the ledger.
fn takes(ledger: &mut Columns, row: &Row) -> Result<(), Option<LedgerFault>>
    ensures err { OnErr result (ledger.new ≡ ledger.old) }
{
    if !ledger.fits(row) || ledger.slot() >= (1 << 40) - 1 {
        return Err(None);
    }
    ledger.advance(row).map_err(Some)
}

/// Whether the tasks' lags are these numerators over 3, one for each task.
fn has_lags(ledger: &Columns, expected: &[i32]) -> bool {
    if ledger.total() != expected.len() {
        return false;
    }
    for x in 0..ledger.total() {
        if ledger.lag(x) != expected[x] || ledger.weight(x).1 != 3 {
            return false;
        }
    }
    true
}

/// Whether the tasks' classes are these, one for each task.
fn has_classes(ledger: &Columns, expected: &[Class]) -> bool {
    if ledger.total() != expected.len() {
        return false;
    }
    for x in 0..ledger.total() {
        if ledger.class(x) != expected[x] {
            return false;
        }
    }
    true
}

/// Whether the ledger takes the row, and has these lags and classes after it.
fn goes_on(ledger: &mut Columns, numbers: [u16; 2], lags: [i32; 3], kinds: [Class; 3]) -> bool {
    let Some(row) = Row::new(&numbers) else {
        return false;
    };
    takes(ledger, &row).is_ok() && has_lags(ledger, &lags) && has_classes(ledger, &kinds)
}

/// Whether the ledger of the three tasks is at the end of its first hyperperiod.
fn is_round(ledger: &Columns) -> bool {
    if ledger.slot() != 3 || ledger.total() != 3 {
        return false;
    }
    let weight = ledger.weight(2);
    let rank = ledger.rank(1);
    ledger.alloc(0) == 2
        && ledger.phase(0) == 0
        && weight.0 == 2
        && weight.1 == 3
        && rank.id() == 1
        && rank.phase() == 0
}

/// Rows, and the lags and the classes behind each of them.
const ROUND: [([u16; 2], [i32; 3], [Class; 3]); 3] = [
    (
        [0, 1],
        [-1, -1, 2],
        [Class::Contending, Class::Contending, Class::Urgent],
    ),
    (
        [0, 2],
        [-2, 1, 1],
        [Class::Tnegru, Class::Urgent, Class::Urgent],
    ),
    (
        [1, 2],
        [0, 0, 0],
        [Class::Contending, Class::Contending, Class::Contending],
    ),
];

/// The first of these rows after which the ledger isn't as expected, or 3 if it isn't after all of them.
fn first_wrong_of(ledger: &mut Columns) -> Option<usize> {
    for (at, (numbers, lags, kinds)) in ROUND.iter().enumerate() {
        if !goes_on(ledger, *numbers, *lags, *kinds) {
            return Some(at);
        }
    }
    if is_round(ledger) { None } else { Some(3) }
}

/// The same from the start of the three tasks.
fn first_wrong_row(alloc: Global) -> Option<usize> {
    match thirds(alloc) {
        Some(mut ledger) => first_wrong_of(&mut ledger),
        None => Some(0),
    }
}

#[test]
fn goes_on_by_rows(rt: HostRuntime) {
    let wrong = first_wrong_row(rt.alloc());
    assert!(rt; wrong.is_none(), "row {wrong:?}");
}

/// Whether the ledger takes the row, and this is the first task that is ahead or behind then.
fn is_first_unlevel(ledger: &mut Columns, numbers: &[u16], first: Option<u16>) -> bool {
    let Some(row) = Row::new(numbers) else {
        return false;
    };
    takes(ledger, &row).is_ok() && ledger.first_unlevel() == first
}

/// Whether a half and two quarters on one worker are level at first and after four slots, and are found not to be between.
fn finds_the_unlevel(alloc: Global) -> bool {
    let Some(mut ledger) = start(alloc, 1, &[(1, 2), (1, 4), (1, 4)]) else {
        return false;
    };
    ledger.first_unlevel().is_none()
        && is_first_unlevel(&mut ledger, &[0], Some(0))
        && is_first_unlevel(&mut ledger, &[1], Some(1))
        && is_first_unlevel(&mut ledger, &[0], Some(0))
        && is_first_unlevel(&mut ledger, &[2], None)
}

#[test]
fn tells_who_is_ahead_or_behind(rt: HostRuntime) {
    assert!(rt; finds_the_unlevel(rt.alloc()));
}

/// Whether a row is refused that would leave task 2 4/3 behind, and nothing changes by that.
fn refuses_a_second_row(ledger: &mut Columns) -> bool {
    let Some(row) = Row::new(&[0, 1]) else {
        return false;
    };
    if takes(ledger, &row).is_err() || !has_lags(ledger, &[-1, -1, 2]) {
        return false;
    }
    match takes(ledger, &row) {
        Err(Some(LedgerFault::OutOfRange { task })) => {
            task == 2 && has_lags(ledger, &[-1, -1, 2]) && ledger.slot() == 1
        }
        _ => false,
    }
}

/// Whether the copy has the lags and the slot of the ledger that it is of.
fn is_copied(alloc: Global, ledger: &Columns) -> bool {
    match ledger.copy_of(alloc) {
        Ok(copy) => has_lags(&copy, &[-1, -1, 2]) && copy.slot() == 1,
        Err(_) => false,
    }
}

/// Whether a ledger that refused a row is as before, and so is its copy.
fn refuses_and_copies(alloc: Global) -> bool {
    match thirds(alloc) {
        Some(mut ledger) => refuses_a_second_row(&mut ledger) && is_copied(alloc, &ledger),
        None => false,
    }
}

#[test]
fn refuses_rows_and_changes_nothing(rt: HostRuntime) {
    assert!(rt; refuses_and_copies(rt.alloc()));
}

static SIXTHS: [(u32, u32); 4] = [(1, 3), (1, 3), (1, 6), (1, 6)];

static THIRDS: [(u32, u32); 4] = [(2, 3), (2, 3), (5, 6), (5, 6)];

/// The fault that a first task out of range is, if there is one.
fn out_of_range(first: Option<u16>) -> Option<LedgerFault> {
    match first {
        Some(task) => Some(LedgerFault::OutOfRange { task }),
        None => None,
    }
}

/// Whether the ledger of four tasks' allocations is made, or refused for this fault, if there is one.
fn are_taken(
    alloc: Global,
    set: &TaskSet,
    slot: u64,
    allocs: &[u64; 4],
    fault: Option<LedgerFault>,
) -> bool {
    if set.total() != 4 || slot >= 1 << 40 {
        return false;
    }
    let first = out_of_range(lag_check(set, slot, allocs));
    let is_told = first == fault || first.is_none() && fault == Some(LedgerFault::WrongSum);
    is_told && Columns::from_allocations(alloc, set, slot, allocs).err() == fault
}

/// The same of the tasks of a set.
fn takes_allocations(alloc: Global, given: &Given) -> bool {
    let (m, tasks, slot, allocs, fault) = given;
    match TaskSet::new(alloc, *m, tasks) {
        Ok(set) => are_taken(alloc, &set, *slot, allocs, *fault),
        Err(_) => false,
    }
}

/// Workers, tasks, a slot, allocations, and what these are refused for, if they are.
type Given = (u32, [(u32, u32); 4], u64, [u64; 4], Option<LedgerFault>);

const LATE: u64 = 1 << 39;

const GIVEN: [Given; 8] = [
    (1, SIXTHS, 2, [0, 0, 1, 1], None),
    (
        1,
        SIXTHS,
        2,
        [0, 0, 2, 0],
        Some(LedgerFault::OutOfRange { task: 2 }),
    ),
    (3, THIRDS, 2, [2, 2, 1, 1], None),
    (1, SIXTHS, 6, [2, 2, 1, 1], None),
    (
        1,
        SIXTHS,
        6,
        [2, 2, 1, u64::MAX],
        Some(LedgerFault::OutOfRange { task: 3 }),
    ),
    (
        1,
        SIXTHS,
        6,
        [0, 4, 1, 1],
        Some(LedgerFault::OutOfRange { task: 0 }),
    ),
    (
        3,
        THIRDS,
        LATE,
        [LATE, 0, 0, 0],
        Some(LedgerFault::OutOfRange { task: 0 }),
    ),
    // A slot short, with each task in range.
    (1, SIXTHS, 2, [0, 0, 1, 0], Some(LedgerFault::WrongSum)),
];

#[test]
fn takes_given_allocations(rt: HostRuntime) {
    for (at, given) in GIVEN.iter().enumerate() {
        assert!(rt; takes_allocations(rt.alloc(), given), "row {at}");
    }
}

/// Whether one task has a class, and all others have another.
fn has_lone(ledger: &Columns, lone: usize, its: Class, others: Class) -> bool {
    for x in 0..ledger.total() {
        let want = if x == lone { its } else { others };
        if ledger.class(x) != want {
            return false;
        }
    }
    lone < ledger.total()
}

/// Whether the ledger takes a row of this one task.
fn takes_one(ledger: &mut Columns, task: u16) -> bool {
    match Row::new(&[task]) {
        Some(row) => takes(ledger, &row).is_ok(),
        None => false,
    }
}

/// Whether of `n` tasks that run in turn the first has run ahead after slot 0, if the others contend, and the last is urgent
/// before slot n - 1, if the others have run ahead.
fn gives_turns(ledger: &mut Columns, n: u16) -> bool {
    let (c, u, t) = (Class::Contending, Class::Urgent, Class::Tnegru);
    if !takes_one(ledger, 0) || !has_lone(ledger, 0, t, c) {
        return false;
    }
    for task in 1..n.saturating_sub(1) {
        if !takes_one(ledger, task) {
            return false;
        }
    }
    has_lone(ledger, n.saturating_sub(1) as usize, u, t)
}

/// The same for tasks of 1/n on one worker.
fn takes_turns(alloc: Global, n: u16) -> bool {
    let mut tasks = Vec::new(alloc);
    if tasks.resize(n as usize, (1, n as u32)).is_err() {
        return false;
    }
    match start(alloc, 1, &tasks) {
        Some(mut ledger) => gives_turns(&mut ledger, n),
        None => false,
    }
}

/// Whether of four tasks on three workers two have run ahead and two are urgent.
fn has_four_on_three(alloc: Global) -> bool {
    let (u, t) = (Class::Urgent, Class::Tnegru);
    match ledger_at(alloc, 3, &THIRDS, 2, &[2, 2, 1, 1]) {
        Some(ledger) => has_classes(&ledger, &[t, t, u, u]),
        None => false,
    }
}

/// Fifteen, sixteen and seventeen tasks lie on both sides of a full vector of lanes.
#[test]
fn classes_of_worked_ledgers(rt: HostRuntime) {
    for n in [15, 16, 17] {
        assert!(rt; takes_turns(rt.alloc(), n), "{n} tasks");
    }
    assert!(rt;
        has_four_on_three(rt.alloc()),
        "four tasks on three workers"
    );
}

/// Whether the two bodies say the same of task `x`.
fn is_as_record(ledger: &Columns, x: usize, record: &Record) -> bool {
    if x >= ledger.total() {
        return false;
    }
    let (e, p) = ledger.weight(x);
    i64::from(e) == record.e
        && i64::from(p) == record.p
        && ledger.alloc(x) == record.alloc
        && i64::from(ledger.lag(x)) == record.lag
        && i64::from(ledger.phase(x)) == record.phase
        && ledger.class(x) == records::class(record)
}

/// Whether the columns as slices hold the numbers of task `x`'s record.
fn holds_record(ledger: &Columns, x: usize, record: &Record) -> bool {
    let (lags, phases) = (ledger.lags(), ledger.phases());
    let (es, ps) = (ledger.es(), ledger.ps());
    if x >= lags.len() || x >= phases.len() || x >= es.len() || x >= ps.len() {
        return false;
    }
    i64::from(lags[x]) == record.lag
        && i64::from(phases[x]) == record.phase
        && i64::from(es[x]) == record.e
        && i64::from(ps[x]) == record.p
}

/// Whether the two bodies say the same of each task, and the columns as slices too, with no number more.
fn agrees(ledger: &Columns, kept: &[Record]) -> bool {
    let n = kept.len();
    if ledger.total() != n
        || ledger.lags().len() != n
        || ledger.phases().len() != n
        || ledger.ps().len() != n
    {
        return false;
    }
    for (x, record) in kept.iter().enumerate() {
        if !is_as_record(ledger, x, record) || !holds_record(ledger, x, record) {
            return false;
        }
    }
    true
}

/// A row of the urgent tasks, and of contending ones from task `from` on, round the end.
fn some_row(alloc: Global, ledger: &Columns, from: usize) -> Option<Row> {
    let mut numbers = Vec::new(alloc);
    let mut left = ledger.workers() as usize;
    for kind in [Class::Urgent, Class::Contending] {
        for k in 0..ledger.total() {
            let x = k.wrapping_add(from) % ledger.total().max(1);
            if left > 0 && x < ledger.total() && ledger.class(x) == kind {
                numbers.push(x as u16).ok()?;
                left -= 1;
            }
        }
    }
    numbers.sort_unstable();
    Row::new(&numbers)
}

/// The row of the first tasks, whatever their classes.
fn first_tasks(alloc: Global, ledger: &Columns) -> Option<Row> {
    let mut numbers = Vec::new(alloc);
    for x in 0..64u16 {
        if u32::from(x) < ledger.workers() {
            numbers.push(x).ok()?;
        }
    }
    Row::new(&numbers)
}

/// Gives both bodies the row, and says how many refused rows that makes, 0 or 1, where both do and say the same.
fn advance_both(ledger: &mut Columns, kept: &mut [Record], row: &Row) -> Option<u32> {
    let got = match takes(ledger, row) {
        Ok(()) => None,
        Err(Some(LedgerFault::OutOfRange { task })) => Some(task),
        Err(_) => return None,
    };
    if got == records::advance(kept, row) && agrees(ledger, kept) {
        Some(u32::from(got.is_some()))
    } else {
        None
    }
}

/// The row of this slot: in every third one that of the first tasks, and else one from another task on.
fn row_at(alloc: Global, ledger: &Columns, slot: usize) -> Option<Row> {
    if slot % 3 == 2 {
        first_tasks(alloc, ledger)
    } else {
        some_row(alloc, ledger, slot.wrapping_mul(7))
    }
}

/// Runs both bodies over some slots, and says how many rows were refused, if the two say the same all along.
fn advance_through(
    alloc: Global,
    ledger: &mut Columns,
    kept: &mut [Record],
    slots: usize,
) -> Option<u32> {
    let mut refused = 0u32;
    for slot in 0..slots {
        let row = row_at(alloc, ledger, slot)?;
        refused = refused.wrapping_add(advance_both(ledger, kept, &row)?);
    }
    Some(refused)
}

/// The same from slot 0 of a set on.
fn run_both(alloc: Global, set: &TaskSet, slots: usize) -> Option<u32> {
    let mut ledger = Columns::zero(alloc, set).ok()?;
    let mut kept = records::start(alloc, set)?;
    advance_through(alloc, &mut ledger, &mut kept, slots)
}

/// `run_both` for a number of tasks of a quarter of a worker each on average.
fn run_quarters(alloc: Global, m: u32, number: usize) -> Option<u32> {
    let mut tasks = Vec::new(alloc);
    for k in 0..number {
        tasks.push([(1, 6), (5, 12), (3, 18)][k % 3]).ok()?;
    }
    let set = TaskSet::new(alloc, m, &tasks).ok()?;
    run_both(alloc, &set, 60)
}

#[test]
fn goes_as_a_list_of_records(rt: HostRuntime) {
    let mut refused = 0u32;
    // Workers and tasks, around the multiples of sixteen.
    let sizes = [
        (1, 2),
        (1, 3),
        (4, 15),
        (4, 16),
        (5, 17),
        (8, 31),
        (9, 32),
        (9, 33),
        (40, 160),
    ];
    for (m, number) in sizes {
        let run = run_quarters(rt.alloc(), m, number);
        assert!(rt; run.is_some(), "{number} tasks");
        refused = refused.wrapping_add(run.unwrap_or(0));
    }
    assert!(rt; refused > 0, "no row was refused");
}

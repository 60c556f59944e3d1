//! Worked rows, and what no clause says: that calls succeed with ample memory.

use pfx_weights::{Row, SetFault, TaskSet, Weights};
use std::alloc::Global;

/// Whether the set has these weights from task `first` on.
fn has_weights(set: &TaskSet, first: usize, expected: &[(u32, u32)]) -> bool {
    let mut x = first;
    for weight in expected {
        if x >= set.total() {
            return false;
        }
        let (e, p) = set.weight(x);
        if e != weight.0 || p != weight.1 {
            return false;
        }
        x = x.wrapping_add(1);
    }
    true
}

/// Whether the set of these tasks has this hyperperiod, and after its tasks these idle ones and no more.
fn fills(alloc: Global, m: u32, tasks: &[(u32, u32)], hyper: u32, idle: &[(u32, u32)]) -> bool {
    let Ok(set) = TaskSet::new(alloc, m, tasks) else {
        return false;
    };
    set.is_of_its_tasks();
    set.workers() == m
        && set.real() == tasks.len()
        && set.hyper() == hyper
        && set.total() == tasks.len().wrapping_add(idle.len())
        && has_weights(&set, 0, tasks)
        && has_weights(&set, tasks.len(), idle)
}

/// Workers, the given weights, the hyperperiod, and the idle tasks.
type Filled = (u32, &'static [(u32, u32)], u32, &'static [(u32, u32)]);

static FILLED: [Filled; 7] = [
    (2, &[(2, 3), (2, 3), (2, 3)], 3, &[]),
    (1, &[(1, 2), (1, 3)], 6, &[(1, 6)]),
    (2, &[(1, 2)], 2, &[(1, 2), (1, 2), (1, 2)]),
    (2, &[(4, 5)], 5, &[(4, 5), (2, 5)]),
    (2, &[(2, 3), (2, 5)], 15, &[(14, 15)]),
    (1, &[(1, 1048576)], 1048576, &[(1048575, 1048576)]),
    (3, &[(5, 12), (7, 18)], 36, &[(35, 36), (35, 36), (9, 36)]),
];

#[test]
fn fills_with_idle_tasks(rt: HostRuntime) {
    for (m, tasks, hyper, idle) in &FILLED {
        assert!(rt;
            fills(rt.alloc(), *m, tasks, *hyper, idle),
            "{m} workers, hyperperiod {hyper}"
        );
    }
}

/// So many tasks of one weight.
fn equal_tasks(alloc: Global, n: usize, weight: (u32, u32)) -> Option<Vec<(u32, u32)>> {
    let mut tasks = Vec::new(alloc);
    for _task in 0..n {
        tasks.push(weight).ok()?;
    }
    Some(tasks)
}

/// Whether one worker has room for `n` tasks of weight 1/n, and no idle one is added.
fn takes_equal_shares(alloc: Global, n: u32) -> bool {
    let Some(tasks) = equal_tasks(alloc, n as usize, (1, n)) else {
        return false;
    };
    match TaskSet::new(alloc, 1, &tasks) {
        Ok(set) => set.total() == n as usize && set.hyper() == n,
        Err(_) => false,
    }
}

#[test]
fn takes_equal_shares_of_one_worker(rt: HostRuntime) {
    for n in [15, 16, 17] {
        assert!(rt; takes_equal_shares(rt.alloc(), n), "{n} tasks");
    }
}

/// Whether the set of these tasks is refused for this fault.
fn is_refused(alloc: Global, m: u32, tasks: &[(u32, u32)], fault: SetFault) -> bool {
    match TaskSet::new(alloc, m, tasks) {
        Ok(_) => false,
        Err(got) => got == fault,
    }
}

/// Workers, the given weights, and what they are refused for.
type Refused = (u32, &'static [(u32, u32)], SetFault);

static REFUSED: [Refused; 12] = [
    (0, &[], SetFault::NoTasks),
    (0, &[(1, 2)], SetFault::BadWorkers),
    (65, &[(1, 2)], SetFault::BadWorkers),
    (65, &[(3, 3)], SetFault::BadWorkers),
    (1, &[(3, 3)], SetFault::BadWeight { task: 0 }),
    (1, &[(0, 3)], SetFault::BadWeight { task: 0 }),
    (1, &[(1, 2), (0, 0)], SetFault::BadWeight { task: 1 }),
    (1, &[(1, 1048576), (4, 3)], SetFault::BadWeight { task: 1 }),
    (
        1,
        &[(1, 1048576), (1, 3)],
        SetFault::HyperperiodTooLarge { task: 1 },
    ),
    (
        1,
        &[(1, 4294967295)],
        SetFault::HyperperiodTooLarge { task: 0 },
    ),
    (1, &[(2, 3), (2, 3)], SetFault::Overload),
    (
        64,
        &[(1, 1048577)],
        SetFault::HyperperiodTooLarge { task: 0 },
    ),
];

#[test]
fn names_the_first_fault(rt: HostRuntime) {
    for (at, (m, tasks, fault)) in REFUSED.iter().enumerate() {
        assert!(rt; is_refused(rt.alloc(), *m, tasks, *fault), "row {at}");
    }
}

/// Whether 1,024 tasks on 64 workers are taken. 63 workers are left, and each idle task takes 1023 of 1024 slots.
fn takes_1024_tasks(alloc: Global) -> bool {
    let Some(tasks) = equal_tasks(alloc, 1024, (1, 1024)) else {
        return false;
    };
    match TaskSet::new(alloc, 64, &tasks) {
        Ok(set) => set.real() == 1024 && set.total() == 1024 + 64 && set.hyper() == 1024,
        Err(_) => false,
    }
}

/// Whether one task more is refused.
fn refuses_1025_tasks(alloc: Global) -> bool {
    let Some(mut tasks) = equal_tasks(alloc, 1024, (1, 1024)) else {
        return false;
    };
    tasks.push((1, 2)).is_ok() && is_refused(alloc, 64, &tasks, SetFault::TooManyTasks)
}

#[test]
fn takes_1024_tasks_and_no_more(rt: HostRuntime) {
    assert!(rt; takes_1024_tasks(rt.alloc()));
    assert!(rt; refuses_1025_tasks(rt.alloc()));
}

/// Whether a row of three tasks shows them in each way.
fn shows_three() -> bool {
    let Some(row) = Row::new(&[0, 3, 1151]) else {
        return false;
    };
    let mut sum = 0u32;
    for x in &row {
        sum = sum.saturating_add(u32::from(*x));
    }
    row.as_slice() == [0, 3, 1151].as_slice()
        && row.len() == 3
        && !row.is_empty()
        && row.holds(3)
        && !row.holds(2)
        && sum == 1154
        && row.iter().count() == 3
}

/// Whether the empty row is made.
fn makes_the_empty_row() -> bool {
    match Row::new(&[]) {
        Some(row) => row.len() == 0 && row.is_empty(),
        None => false,
    }
}

#[test]
fn makes_rows(rt: HostRuntime) {
    assert!(rt; shows_three());
    assert!(rt; makes_the_empty_row());
    assert!(rt; Row::new(&[1, 1]).is_none(), "equal numbers");
    assert!(rt; Row::new(&[2, 1]).is_none(), "falling numbers");
}

/// The numbers of the first `n` tasks.
fn first_numbers(alloc: Global, n: u16) -> Option<Vec<u16>> {
    let mut numbers = Vec::new(alloc);
    for x in 0..n {
        numbers.push(x).ok()?;
    }
    Some(numbers)
}

/// Whether 64 numbers make a row that shows the last one.
fn takes_64_numbers(alloc: Global) -> bool {
    let Some(numbers) = first_numbers(alloc, 64) else {
        return false;
    };
    match Row::new(&numbers) {
        Some(row) => row.len() == 64 && row.get(63) == 63,
        None => false,
    }
}

/// Whether 65 numbers make no row.
fn refuses_65_numbers(alloc: Global) -> bool {
    match first_numbers(alloc, 65) {
        Some(numbers) => Row::new(&numbers).is_none(),
        None => false,
    }
}

#[test]
fn takes_64_numbers_and_no_more(rt: HostRuntime) {
    assert!(rt; takes_64_numbers(rt.alloc()));
    assert!(rt; refuses_65_numbers(rt.alloc()));
}

/// Whether a row takes the marked places in place of what it had, and none if none is marked.
fn takes_marks() -> bool {
    let Some(mut row) = Row::new(&[7, 9]) else {
        return false;
    };
    row.set_marked(&[0, 1, 2, 0, 1]);
    if row.as_slice() != [1, 4].as_slice() {
        return false;
    }
    row.set_marked(&[]);
    row.is_empty()
}

#[test]
fn takes_the_marked_places(rt: HostRuntime) {
    assert!(rt; takes_marks());
}

/// Whether a fault shows these words.
fn says(alloc: Global, fault: SetFault, words: &str) -> bool {
    match format!(in alloc; "{fault}") {
        Ok(text) => text.as_str() == words,
        Err(_) => false,
    }
}

#[test]
fn says_why_in_words(rt: HostRuntime) {
    let fault = SetFault::BadWeight { task: 7 };
    assert!(rt;
        says(
            rt.alloc(),
            fault,
            "task 7: the weight is not between 0 and 1"
        )
    );
}

/// Whether these are the weights.
fn are(weights: &Weights, given: &[(u32, u32)]) -> bool {
    let items = weights.as_slice();
    if items.len() != given.len() {
        return false;
    }
    for x in 0..items.len() {
        if items[x].0 != given[x].0 || items[x].1 != given[x].1 {
            return false;
        }
    }
    true
}

/// Whether weights, and a copy of them, are as they were given.
fn keeps(alloc: Global, given: &[(u32, u32)]) -> bool {
    let Ok(items) = Vec::from_slice(alloc, given) else {
        return false;
    };
    let weights = Weights::new(items);
    match weights.copy_of(alloc) {
        Ok(copy) => are(&weights, given) && are(&copy, given),
        Err(_) => false,
    }
}

#[test]
fn keeps_weights_of_no_set(rt: HostRuntime) {
    assert!(rt; keeps(rt.alloc(), &[]));
    assert!(rt; keeps(rt.alloc(), &[(0, 0), (5, 3), (4_294_967_295, 1)]));
}

//! Whole hyperperiods of sets, and the first rows of one.

use pfx_choice::{Chooser, give};
use pfx_columns::Columns;
use pfx_machine_feasible::{begin, next_row};
use pfx_weights::TaskSet;
use std::alloc::Global;

/// Whether every lag is zero.
fn is_level(ledger: &Columns) -> bool {
    for x in 0..ledger.total() {
        if ledger.lag(x) != 0 {
            return false;
        }
    }
    true
}

/// Gives a hyperperiod of slots to the rows that are chosen, and says whether every lag is zero after it.
fn hyperperiod(chooser: &mut Chooser, ledger: &mut Columns) -> bool {
    for _slot in 0..ledger.hyper() {
        let Ok(row) = chooser.choose(ledger) else {
            return false;
        };
        give(ledger, &row);
    }
    is_level(ledger)
}

/// Whether two hyperperiods of a set have rows, every lag is zero after each, and so many slots are given away.
fn has_two(alloc: Global, m: u32, tasks: &[(u32, u32)], hyper: u64) -> bool {
    let Ok(set) = TaskSet::new(alloc, m, tasks) else {
        return false;
    };
    let Ok(mut ledger) = begin(alloc, &set) else {
        return false;
    };
    let mut chooser = Chooser::new(alloc);
    hyperperiod(&mut chooser, &mut ledger)
        && hyperperiod(&mut chooser, &mut ledger)
        && hyper.checked_mul(2) == Some(ledger.slot())
}

/// The workers of a set, its tasks, and its hyperperiod in slots.
type Case = (u32, &'static [(u32, u32)], u64);

static PLAIN: [Case; 3] = [
    (2, &[(2, 3), (2, 3), (2, 3)], 3),
    (1, &[(1, 2), (1, 3), (1, 6)], 6),
    (2, &[(4, 5)], 5),
];

// The nearest deadline alone, with ties to the lower number or to the higher one, gives some task a slot too late.
static HARD: [Case; 7] = [
    (3, &[(16, 30), (13, 15), (8, 20), (13, 20), (11, 20)], 60),
    (
        4,
        &[(4, 5), (6, 10), (3, 5), (1, 3), (3, 4), (35, 60), (1, 3)],
        60,
    ),
    (
        4,
        &[(40, 90), (4, 6), (87, 90), (2, 6), (4, 6), (83, 90)],
        90,
    ),
    (
        5,
        &[
            (1, 3),
            (4, 9),
            (13, 18),
            (1, 2),
            (1, 3),
            (5, 6),
            (7, 12),
            (6, 12),
            (7, 12),
            (1, 6),
        ],
        36,
    ),
    (
        6,
        &[
            (17, 30),
            (25, 30),
            (12, 20),
            (5, 10),
            (2, 4),
            (2, 4),
            (102, 120),
            (12, 30),
            (3, 10),
            (22, 40),
            (2, 5),
        ],
        120,
    ),
    (
        8,
        &[
            (17, 18),
            (6, 9),
            (5, 9),
            (40, 45),
            (22, 30),
            (5, 6),
            (4, 6),
            (4, 5),
            (9, 10),
            (19, 30),
            (17, 45),
        ],
        90,
    ),
    (
        8,
        &[
            (4, 10),
            (1, 3),
            (78, 120),
            (11, 15),
            (51, 60),
            (4, 8),
            (1, 4),
            (17, 24),
            (3, 4),
            (7, 8),
            (5, 6),
            (5, 6),
            (17, 60),
        ],
        120,
    ),
];

static LONG: [Case; 4] = [
    (
        1,
        &[
            (1, 2),
            (1, 4),
            (1, 8),
            (1, 16),
            (1, 32),
            (1, 64),
            (1, 128),
            (1, 256),
            (1, 512),
            (1, 1024),
            (1, 1024),
        ],
        1024,
    ),
    (
        5,
        &[(1, 2), (2, 3), (3, 5), (5, 7), (9, 11), (10, 13)],
        30030,
    ),
    (2, &[(16383, 16384), (1, 2), (1, 3)], 49_152),
    (
        3,
        &[
            (1, 2),
            (2, 3),
            (3, 4),
            (1, 5),
            (1, 7),
            (1, 8),
            (2, 9),
            (1, 10),
            (1, 12),
            (1, 16),
        ],
        5_040,
    ),
];

#[test]
fn two_hyperperiods_have_rows(rt: HostRuntime) {
    for cases in [PLAIN.as_slice(), HARD.as_slice(), LONG.as_slice()] {
        for (m, tasks, hyper) in cases {
            assert!(rt;
                has_two(rt.alloc(), *m, tasks, *hyper),
                "{m} workers, hyperperiod {hyper}"
            );
        }
    }
}

/// Whether two hyperperiods of 65 tasks of 64/65 on 64 workers have rows.
fn has_two_of_the_most(alloc: Global) -> bool {
    let mut tasks = Vec::new(alloc);
    for _task in 0..65 {
        if tasks.push((64, 65)).is_err() {
            return false;
        }
    }
    has_two(alloc, 64, &tasks, 65)
}

#[test]
fn as_many_as_there_may_be_have_rows(rt: HostRuntime) {
    assert!(rt; has_two_of_the_most(rt.alloc()));
}

/// Whether the first rows of three tasks of 2/3 on two workers are as expected.
fn has_three_rows(alloc: Global) -> bool {
    let Ok(set) = TaskSet::new(alloc, 2, &[(2, 3), (2, 3), (2, 3)]) else {
        return false;
    };
    let Ok(mut ledger) = begin(alloc, &set) else {
        return false;
    };
    let mut chooser = Chooser::new(alloc);
    let Ok(first) = next_row(&mut chooser, &mut ledger) else {
        return false;
    };
    let Ok(second) = next_row(&mut chooser, &mut ledger) else {
        return false;
    };
    let Ok(third) = next_row(&mut chooser, &mut ledger) else {
        return false;
    };
    first.as_slice() == [0, 1].as_slice()
        && second.as_slice() == [0, 2].as_slice()
        && third.as_slice() == [1, 2].as_slice()
}

#[test]
fn gives_three_rows(rt: HostRuntime) {
    assert!(rt; has_three_rows(rt.alloc()));
}

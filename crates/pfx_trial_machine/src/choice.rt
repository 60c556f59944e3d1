//! Worked rows, and the choice beside a plain program.

use crate::columns::{ledger_at, start};
use crate::plain;
use pfx_choice::{ChoiceFault, Chooser, PlanFault, choose, give, plan};
use pfx_columns::Columns;
use pfx_weights::Row;
use std::alloc::Global;

/// Whether these are the rows.
fn are_rows(planned: &[Row], expected: &[&[u16]]) -> bool {
    if planned.len() != expected.len() {
        return false;
    }
    for (row, numbers) in planned.iter().zip(expected) {
        if row.as_slice() != *numbers {
            return false;
        }
    }
    true
}

/// Whether the plan of so many slots has these rows.
fn plans(alloc: Global, m: u32, tasks: &[(u32, u32)], expected: &[&[u16]]) -> bool {
    let Some(ledger) = start(alloc, m, tasks) else {
        return false;
    };
    match plan(alloc, ledger, expected.len() as u64) {
        Ok(planned) => are_rows(&planned, expected),
        Err(_) => false,
    }
}

/// The workers and the weights of a set, and the rows of its first slots.
type Worked = (u32, &'static [(u32, u32)], &'static [&'static [u16]]);

static WORKED: [Worked; 6] = [
    (
        2,
        &[(2, 3), (2, 3), (2, 3)],
        &[&[0, 1], &[0, 2], &[1, 2], &[0, 1]],
    ),
    (1, &[(1, 2), (1, 3)], &[&[0], &[1], &[0], &[1], &[0], &[2]]),
    (2, &[(1, 2)], &[&[0, 1], &[2, 3]]),
    (2, &[(4, 5)], &[&[0, 1], &[0, 1], &[0, 2], &[0, 1], &[1, 2]]),
    (2, &[(2, 3), (2, 5)], &[&[0, 2], &[1, 2], &[0, 2]]),
    (1, &[(1, 2)], &[]),
];

#[test]
fn plans_worked_sets(rt: HostRuntime) {
    for (at, (m, tasks, expected)) in WORKED.iter().enumerate() {
        assert!(rt; plans(rt.alloc(), *m, tasks, expected), "set {at}");
    }
}

/// Whether each row is that of its slot's number alone.
fn take_turns(planned: &[Row]) -> bool {
    let mut slot = 0u16;
    for row in planned {
        if row.as_slice() != [slot].as_slice() {
            return false;
        }
        slot = slot.wrapping_add(1);
    }
    true
}

/// Whether `n` tasks of weight 1/n on one worker run one after the other.
fn shares_take_turns(alloc: Global, n: u16) -> Option<bool> {
    let mut tasks = Vec::new(alloc);
    for _task in 0..n {
        tasks.push((1, u32::from(n))).ok()?;
    }
    let ledger = start(alloc, 1, &tasks)?;
    match plan(alloc, ledger, u64::from(n)) {
        Ok(planned) => Some(take_turns(&planned)),
        Err(_) => None,
    }
}

#[test]
fn equal_shares_take_turns(rt: HostRuntime) {
    for n in [15, 16, 17, 33, 300] {
        assert!(rt; shares_take_turns(rt.alloc(), n) == Some(true), "{n} tasks");
    }
}

/// Whether a plan of three slots ends at the ledger's slot, with no row, for this cause.
fn is_doomed(alloc: Global, ledger: Columns, fault: ChoiceFault) -> bool {
    let at = ledger.slot();
    match plan(alloc, ledger, 3) {
        Err(PlanFault::Doomed { slot, cause, rows }) => {
            slot == at && cause == fault && rows.len() == 0
        }
        _ => false,
    }
}

/// Whether no row is chosen at the ledger of these allocations, for this cause, and no plan begins there.
fn has_no_row(
    alloc: Global,
    m: u32,
    tasks: &[(u32, u32)],
    allocs: [u64; 4],
    fault: ChoiceFault,
) -> bool {
    let Some(ledger) = ledger_at(alloc, m, tasks, 2, &allocs) else {
        return false;
    };
    ledger.slot() == 2
        && choose(alloc, &ledger).err() == Some(fault)
        && is_doomed(alloc, ledger, fault)
}

/// Whether no row is chosen in the last slot of all, if every task of a set with a period of 3 is punctual.
fn ends_at_the_last_slot(alloc: Global) -> bool {
    let last = (1 << 40) - 1;
    match ledger_at(alloc, 2, &[(2, 3); 3], last, &[last / 3 * 2; 3]) {
        Some(ledger) => choose(alloc, &ledger).err() == Some(ChoiceFault::SlotLimit),
        None => false,
    }
}

#[test]
fn says_why_there_is_no_row(rt: HostRuntime) {
    let sixths = [(1, 3), (1, 3), (1, 6), (1, 6)];
    let fault = ChoiceFault::TooManyUrgent { urgent: 2, m: 1 };
    assert!(rt;
        has_no_row(rt.alloc(), 1, &sixths, [0, 0, 1, 1], fault),
        "too many urgent"
    );
    let thirds = [(2, 3), (2, 3), (5, 6), (5, 6)];
    let fault = ChoiceFault::TooFewEligible { eligible: 2, m: 3 };
    assert!(rt;
        has_no_row(rt.alloc(), 3, &thirds, [2, 2, 1, 1], fault),
        "too few eligible"
    );
    assert!(rt; ends_at_the_last_slot(rt.alloc()));
}

/// Gives the ledger the slot that is chosen, and says whether its row is the expected one.
fn gives_expected(
    ledger: &mut Columns,
    chooser: &mut Chooser,
    kept: &mut Row,
    expected: &[u16],
) -> bool {
    let Ok(row) = chooser.choose(ledger) else {
        return false;
    };
    if chooser.choose_into(ledger, kept).is_err() {
        return false;
    }
    give(ledger, &row);
    row.as_slice() == expected && kept.as_slice() == expected
}

/// Gives the ledger a slot, and says whether the choice and the plain program agree on it.
pub fn slot_agrees(
    alloc: Global,
    ledger: &mut Columns,
    chooser: &mut Chooser,
    kept: &mut Row,
) -> bool {
    match plain::plain_row(alloc, ledger) {
        Ok(expected) => gives_expected(ledger, chooser, kept, &expected),
        Err(_) => false,
    }
}

/// Whether the choice and the plain program agree on so many slots from a ledger on.
pub fn slots_agree(alloc: Global, ledger: &mut Columns, slots: u32) -> bool {
    let mut chooser = Chooser::new(alloc);
    let mut kept = Row::empty();
    for _slot in 0..slots {
        if !slot_agrees(alloc, ledger, &mut chooser, &mut kept) {
            return false;
        }
    }
    true
}

/// The same of a set.
fn agrees(alloc: Global, m: u32, tasks: &[(u32, u32)], slots: u32) -> bool {
    match start(alloc, m, tasks) {
        Some(mut ledger) => slots_agree(alloc, &mut ledger, slots),
        None => false,
    }
}

#[test]
fn agrees_with_the_plain_program(rt: HostRuntime) {
    let rows: [(u32, &[(u32, u32)], u32); 5] = [
        (2, &[(2, 3), (2, 3), (2, 3)], 9),
        (1, &[(1, 2), (1, 3)], 12),
        (2, &[(4, 5)], 15),
        (3, &[(5, 12), (7, 18), (1, 9), (11, 12), (1, 2)], 72),
        (2, &[(719, 720), (359, 360), (1, 720)], 200),
    ];
    for (m, tasks, slots) in rows {
        assert!(rt; agrees(rt.alloc(), m, tasks, slots), "{slots} slots");
    }
}

static EIGHT: [(u32, u32); 8] = [
    (1, 7),
    (2, 7),
    (3, 7),
    (4, 7),
    (5, 7),
    (6, 7),
    (1, 14),
    (13, 14),
];

static NINE: [(u32, u32); 9] = [
    (3, 8),
    (5, 8),
    (7, 16),
    (9, 16),
    (31, 32),
    (1, 32),
    (15, 64),
    (49, 64),
    (1, 2),
];

#[test]
fn agrees_on_eight_and_nine_tasks(rt: HostRuntime) {
    assert!(rt; agrees(rt.alloc(), 4, &EIGHT, 56), "eight tasks");
    assert!(rt; agrees(rt.alloc(), 5, &NINE, 128), "nine tasks");
}

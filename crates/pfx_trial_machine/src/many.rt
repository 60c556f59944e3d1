//! The choice of more than 16 tasks, by their places, beside the plain program.

use crate::choice::{slot_agrees, slots_agree};
use crate::columns::{ledger_at, start};
use pfx_choice::{ChoiceFault, Chooser, choose};
use pfx_columns::Columns;
use pfx_weights::Row;
use std::alloc::Global;

/// Tasks of one weight, and how many slots each of them got.
#[derive(Drop)]
struct Part {
    weight: (u32, u32),
    alloc: u64,
    times: usize,
}

fn part_of(weight: (u32, u32), alloc: u64, times: usize) -> Part {
    Part {
        weight,
        alloc,
        times,
    }
}

/// The weight of each task of these parts.
fn weights_of(alloc: Global, parts: &[Part]) -> Option<Vec<(u32, u32)>> {
    let mut weights = Vec::new(alloc);
    for part in parts {
        for _task in 0..part.times {
            weights.push(part.weight).ok()?;
        }
    }
    Some(weights)
}

/// How many slots each task of these parts got.
fn allocs_of(alloc: Global, parts: &[Part]) -> Option<Vec<u64>> {
    let mut allocs = Vec::new(alloc);
    for part in parts {
        for _task in 0..part.times {
            allocs.push(part.alloc).ok()?;
        }
    }
    Some(allocs)
}

/// The ledger at a slot of the tasks of these parts, which leave no worker idle.
fn ledger_of(alloc: Global, m: u32, slot: u64, parts: &[Part]) -> Option<Columns> {
    let weights = weights_of(alloc, parts)?;
    let allocs = allocs_of(alloc, parts)?;
    ledger_at(alloc, m, &weights, slot, &allocs)
}

/// Whether the choice and the plain program agree on so many slots from a ledger of more than 16 tasks on.
fn agrees_from(alloc: Global, ledger: Option<Columns>, slots: u32) -> bool {
    match ledger {
        Some(mut ledger) => ledger.total() > 16 && slots_agree(alloc, &mut ledger, slots),
        None => false,
    }
}

/// Weights from far below to just below 1; the last two have leads of hundreds of slots.
static SPREAD: [(u32, u32); 21] = [
    (1, 7),
    (2, 7),
    (3, 7),
    (1, 14),
    (3, 14),
    (5, 14),
    (1, 2),
    (1, 4),
    (3, 4),
    (1, 8),
    (3, 8),
    (5, 8),
    (7, 8),
    (1, 28),
    (9, 28),
    (27, 28),
    (1, 56),
    (55, 56),
    (13, 56),
    (1, 1008),
    (3, 1008),
];

/// Weights near one half, whose ends tie.
static HALVES: [(u32, u32); 20] = [
    (359, 720),
    (358, 720),
    (357, 720),
    (356, 720),
    (355, 720),
    (354, 720),
    (353, 720),
    (352, 720),
    (351, 720),
    (350, 720),
    (349, 720),
    (348, 720),
    (347, 720),
    (346, 720),
    (345, 720),
    (344, 720),
    (343, 720),
    (342, 720),
    (341, 720),
    (340, 720),
];

#[test]
fn agrees_on_many_tasks(rt: HostRuntime) {
    let alloc = rt.alloc();
    assert!(rt;
        agrees_from(alloc, start(alloc, 8, &SPREAD), 1100),
        "spread"
    );
    assert!(rt;
        agrees_from(alloc, start(alloc, 10, &HALVES), 400),
        "halves"
    );
    assert!(rt;
        agrees_from(alloc, start(alloc, 20, &HALVES), 200),
        "idle workers"
    );
}

#[test]
fn agrees_on_a_ledger_of_its_own(rt: HostRuntime) {
    let alloc = rt.alloc();
    let parts = [part_of((1, 3), 1, 2), part_of((1, 48), 0, 16)];
    let ledger = ledger_of(alloc, 1, 2, &parts);
    assert!(rt; agrees_from(alloc, ledger, 48));
}

/// Tasks of three weights, two of which are one number.
fn of_few_weights(alloc: Global) -> Option<Columns> {
    let parts = [
        part_of((1, 10), 0, 20),
        part_of((1, 20), 0, 20),
        part_of((2, 40), 0, 20),
    ];
    ledger_of(alloc, 4, 0, &parts)
}

/// As many tasks, of one weight.
fn of_one_weight(alloc: Global) -> Option<Columns> {
    ledger_of(alloc, 4, 0, &[part_of((1, 15), 0, 60)])
}

#[test]
fn agrees_on_few_weights(rt: HostRuntime) {
    let alloc = rt.alloc();
    assert!(rt; agrees_from(alloc, of_few_weights(alloc), 120), "three");
    assert!(rt; agrees_from(alloc, of_one_weight(alloc), 60), "one");
    assert!(rt;
        agrees_from(alloc, start(alloc, 3, &[(3, 40); 33]), 120),
        "one, and idle workers"
    );
}

/// Whether one chooser agrees with the plain program on two ledgers in turn.
fn serves_two(alloc: Global, one: Option<Columns>, other: Option<Columns>) -> bool {
    let (Some(mut one), Some(mut other)) = (one, other) else {
        return false;
    };
    let mut chooser = Chooser::new(alloc);
    let mut kept = Row::empty();
    for _slot in 0..200 {
        if !slot_agrees(alloc, &mut one, &mut chooser, &mut kept)
            || !slot_agrees(alloc, &mut other, &mut chooser, &mut kept)
        {
            return false;
        }
    }
    true
}

#[test]
fn one_chooser_serves_two_ledgers(rt: HostRuntime) {
    let alloc = rt.alloc();
    let (one, other) = (start(alloc, 8, &SPREAD), start(alloc, 10, &HALVES));
    assert!(rt; serves_two(alloc, one, other), "of many weights");
    let (one, other) = (of_few_weights(alloc), of_one_weight(alloc));
    assert!(rt; serves_two(alloc, one, other), "of few");
}

/// Whether no row is chosen at the ledger of more than 16 tasks, for this cause.
fn has_no_row(alloc: Global, ledger: Option<Columns>, fault: ChoiceFault) -> bool {
    match ledger {
        Some(ledger) => ledger.total() > 16 && choose(alloc, &ledger).err() == Some(fault),
        None => false,
    }
}

#[test]
fn says_why_many_have_no_row(rt: HostRuntime) {
    let alloc = rt.alloc();
    let parts = [
        part_of((1, 3), 0, 2),
        part_of((1, 48), 1, 2),
        part_of((1, 48), 0, 14),
    ];
    let fault = ChoiceFault::TooManyUrgent { urgent: 2, m: 1 };
    assert!(rt;
        has_no_row(alloc, ledger_of(alloc, 1, 2, &parts), fault),
        "too many urgent"
    );
    let parts = [part_of((2, 3), 2, 10), part_of((5, 6), 1, 10)];
    let fault = ChoiceFault::TooFewEligible {
        eligible: 10,
        m: 15,
    };
    assert!(rt;
        has_no_row(alloc, ledger_of(alloc, 15, 2, &parts), fault),
        "too few eligible"
    );
}

use super::{endings, thirds, weight};
use crate::checks::pfx_check;
use crate::nexts::pfx_next;
use crate::plans::pfx_plan;
use crate::sets::{PfxSet, pfx_set, pfx_total};
use crate::weights::PfxWeight;
use std::alloc::Global;

/// Whether a set is shown with this hyperperiod, so many idle tasks and this load, and has so many tasks in all.
fn is_shown(alloc: Global, workers: u32, e: u32, p: u32, wanted: (u32, u32, u64)) -> bool {
    let weights = [weight(e, p)];
    let mut shown = PfxSet {
        hyper: 7,
        idle: 7,
        load: 7,
    };
    let (mut task, mut total) = (7, 7);
    pfx_set(alloc, workers, &weights, &mut shown, &mut task) == 0
        && pfx_total(alloc, workers, &weights, &mut total) == 0
        && (shown.hyper, shown.idle, shown.load) == wanted
        && total == 1 + wanted.1 as usize
        && task == 7
}

/// Whether three tasks of 2/3 run in this order: the row at each ledger, and that the ledger after it is one.
fn goes_round(alloc: Global) -> bool {
    let rows: [([u16; 2], [u64; 3]); 4] = [
        ([0, 1], [0, 0, 0]),
        ([0, 2], [1, 1, 0]),
        ([1, 2], [2, 1, 1]),
        ([0, 1], [2, 2, 2]),
    ];
    for (slot, (wanted, allocs)) in rows.into_iter().enumerate() {
        let mut row = [9, 9, 9];
        let mut task = 9;
        let checked = pfx_check(alloc, 2, &thirds(), slot as u64, &allocs, &mut task);
        let number = pfx_next(alloc, 2, &thirds(), slot as u64, &allocs, &mut row);
        if checked != 0 || number != 0 || task != 9 || row != [wanted[0], wanted[1], 9] {
            return false;
        }
    }
    true
}

/// A slot and the allocations of the slots before it.
type At<const TASKS: usize> = (u64, [u64; TASKS]);

/// What is answered when so many slots are planned from there: the number and how many rows were made, the ledger after them, and
/// the places, each of which was 9.
fn plan<const TASKS: usize, const PLACES: usize>(
    alloc: Global,
    workers: u32,
    weights: &[PfxWeight; TASKS],
    slots: usize,
    at: At<TASKS>,
) -> ((u32, usize), At<TASKS>, [u16; PLACES]) {
    let (mut slot, mut allocs) = at;
    let (mut rows, mut made) = ([9; PLACES], 9);
    let number = pfx_plan(
        alloc,
        workers,
        weights,
        slots,
        &mut slot,
        &mut allocs,
        &mut rows,
        &mut made,
    );
    ((number, made), (slot, allocs), rows)
}

/// Whether four rows of them are laid one behind the other, with the place behind them left, and the ledger is taken along.
fn plans_four(alloc: Global) -> bool {
    let (answer, (slot, allocs), rows) = plan::<3, 9>(alloc, 2, &thirds(), 4, (0, [0; 3]));
    let is_after = slot == 4 && allocs == [3, 3, 2];
    answer == (0, 4) && is_after && rows == [0, 1, 0, 2, 1, 2, 0, 1, 9]
}

/// Whether no rows at all are planned if none are asked for.
fn plans_none(alloc: Global) -> bool {
    let (answer, (slot, allocs), _rows) = plan::<3, 0>(alloc, 2, &thirds(), 0, (1, [1, 1, 0]));
    answer == (0, 0) && slot == 1 && allocs == [1, 1, 0]
}

/// Whether a plan that ends early has its first row, and the ledger after it.
fn ends_behind_one_row(alloc: Global) -> bool {
    let begun = (2, [0, 0, 0, 1, 1]);
    let (answer, (slot, allocs), rows) = plan::<5, 6>(alloc, 1, &endings(), 6, begun);
    let is_after = slot == 3 && allocs == [1, 0, 0, 1, 1];
    answer == (21, 1) && is_after && rows == [0, 9, 9, 9, 9, 9]
}

#[test]
fn shows_sets(rt: HostRuntime) {
    assert!(rt; is_shown(rt.alloc(), 1, 1, 3, (3, 1, 1)), "a third of one");
    assert!(rt; is_shown(rt.alloc(), 2, 1, 2, (2, 3, 1)), "a half of two");
    assert!(rt; is_shown(rt.alloc(), 64, 1, 2, (2, 127, 1)), "a half of 64");
}

#[test]
fn chooses_and_plans(rt: HostRuntime) {
    assert!(rt; goes_round(rt.alloc()), "a row");
    assert!(rt; plans_four(rt.alloc()), "four rows");
    assert!(rt; plans_none(rt.alloc()), "no rows");
    assert!(rt; ends_behind_one_row(rt.alloc()), "an early end");
}

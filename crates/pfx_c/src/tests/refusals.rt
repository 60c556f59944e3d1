use super::{endings, thirds, weight};
use crate::checks::pfx_check;
use crate::nexts::pfx_next;
use crate::plans::pfx_plan;
use crate::sets::{PfxSet, pfx_set, pfx_total};
use crate::weights::PfxWeight;
use std::alloc::Global;

/// Whether a set is refused by this number by each call, with nothing changed but the task, which becomes this one.
fn refuses_set(
    alloc: Global,
    workers: u32,
    weights: &[PfxWeight],
    number: u32,
    wanted: u16,
) -> bool {
    let mut shown = PfxSet {
        hyper: 7,
        idle: 8,
        load: 9,
    };
    let (mut task, mut checked, mut total) = (77, 77, 7);
    let mut row = [7; 64];
    pfx_set(alloc, workers, weights, &mut shown, &mut task) == number
        && pfx_total(alloc, workers, weights, &mut total) == number
        && pfx_check(alloc, workers, weights, 0, &[], &mut checked) == number
        && pfx_next(alloc, workers, weights, 0, &[], &mut row) == number
        && (shown.hyper, shown.idle, shown.load) == (7, 8, 9)
        && (task, checked, total) == (wanted, wanted, 7)
        && row == [7; 64]
}

/// Whether a ledger has no row by this number, from `pfx_next` and from `pfx_plan`, with nothing changed.
fn has_no_row(
    alloc: Global,
    workers: u32,
    weights: &[PfxWeight],
    at: (u64, [u64; 4]),
    number: u32,
) -> bool {
    let (mut slot, mut made) = (at.0, 7);
    let mut allocs = at.1;
    let mut row = [7; 3];
    pfx_next(alloc, workers, weights, at.0, &at.1, &mut row) == number
        && pfx_plan(
            alloc,
            workers,
            weights,
            1,
            &mut slot,
            &mut allocs,
            &mut row,
            &mut made,
        ) == number
        && (slot, made) == (at.0, 0)
        && allocs == at.1
        && row == [7; 3]
}

/// Whether numbers are refused as a ledger of three tasks of 2/3 on two workers, with the task becoming this one.
fn refuses_ledger(alloc: Global, slot: u64, allocs: &[u64], number: u32, wanted: u16) -> bool {
    let mut task = 77;
    let mut row = [7; 2];
    pfx_check(alloc, 2, &thirds(), slot, allocs, &mut task) == number
        && task == wanted
        && pfx_next(alloc, 2, &thirds(), slot, allocs, &mut row) == number
        && row == [7; 2]
}

/// Whether a plan into too few places is refused with nothing changed but the number of rows.
fn refuses_places(alloc: Global, slots: usize, places: &mut [u16]) -> bool {
    let (mut slot, mut made) = (2, 7);
    let mut allocs = [0, 0, 0, 1, 1];
    pfx_plan(
        alloc,
        1,
        &endings(),
        slots,
        &mut slot,
        &mut allocs,
        places,
        &mut made,
    ) == 57
        && (slot, made) == (2, 0)
        && allocs == [0, 0, 0, 1, 1]
}

#[test]
fn refuses_sets(rt: HostRuntime) {
    let large = [weight(1, 2); 1025];
    let rows: [(u32, &[PfxWeight], u32, u16); 8] = [
        (1, &[], 11, 77),
        (1, &large, 12, 77),
        (0, &[weight(1, 2)], 13, 77),
        (65, &[weight(1, 2)], 13, 77),
        (1, &[weight(1, 2), weight(3, 3)], 14, 1),
        (1, &[weight(0, 4294967295)], 14, 0),
        (1, &[weight(1, 1048576), weight(1, 3)], 16, 1),
        (1, &[weight(2, 3), weight(2, 3)], 17, 77),
    ];
    for (at, (workers, weights, number, task)) in rows.into_iter().enumerate() {
        assert!(rt;
            refuses_set(rt.alloc(), workers, weights, number, task),
            "row {at}"
        );
    }
}

#[test]
fn refuses_ledgers(rt: HostRuntime) {
    let rows: [(u64, &[u64], u32, u16); 7] = [
        (0, &[], 26, 77),
        (0, &[0, 0, 0, 0], 26, 77),
        (1099511627776, &[0, 0, 0], 26, 77),
        (1, &[1, 0, 2], 24, 2),
        (3, &[2, 3, 1], 24, 1),
        (0, &[18446744073709551615, 0, 0], 24, 0),
        (1, &[1, 1, 1], 25, 77),
    ];
    for (at, (slot, allocs, number, task)) in rows.into_iter().enumerate() {
        assert!(rt;
            refuses_ledger(rt.alloc(), slot, allocs, number, task),
            "row {at}"
        );
    }
}

#[test]
fn has_no_rows(rt: HostRuntime) {
    let sixths = [weight(1, 3), weight(1, 3), weight(1, 6), weight(1, 6)];
    let heavy = [weight(2, 3), weight(2, 3), weight(5, 6), weight(5, 6)];
    let quarters = [weight(1, 4), weight(1, 4), weight(1, 4), weight(1, 4)];
    let last = [274877906944, 274877906944, 274877906944, 274877906943];
    assert!(rt;
        has_no_row(rt.alloc(), 1, &sixths, (2, [0, 0, 1, 1]), 21),
        "too many urgent"
    );
    assert!(rt;
        has_no_row(rt.alloc(), 3, &heavy, (2, [2, 2, 1, 1]), 22),
        "too few eligible"
    );
    assert!(rt;
        has_no_row(rt.alloc(), 1, &quarters, (1099511627775, last), 23),
        "the last slot"
    );
}

#[test]
fn wants_places(rt: HostRuntime) {
    let mut row = [7; 1];
    assert!(rt;
        pfx_next(rt.alloc(), 2, &thirds(), 0, &[0, 0, 0], &mut row) == 57,
        "a row"
    );
    assert!(rt; row == [7; 1], "a row that is kept");
    assert!(rt;
        refuses_places(rt.alloc(), 6, &mut [7; 5]),
        "six rows in five places"
    );
    assert!(rt; refuses_places(rt.alloc(), 1, &mut []), "a row in no place");
    assert!(rt;
        refuses_places(rt.alloc(), 18446744073709551615, &mut [7; 5]),
        "all rows that can be counted"
    );
}

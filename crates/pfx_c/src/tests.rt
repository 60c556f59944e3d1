//! What the calls answer to callers' numbers: worked sets, ledgers and rows, and each refusal.

mod refusals;
mod rows;

use crate::weights::PfxWeight;

/// The weight e/p.
fn weight(e: u32, p: u32) -> PfxWeight {
    PfxWeight { e, p }
}

/// Three tasks of 2/3.
fn thirds() -> [PfxWeight; 3] {
    [weight(2, 3), weight(2, 3), weight(2, 3)]
}

/// Three tasks of 1/4 and two of 1/8. On one worker, with the first two slots given to the last two tasks, all fair schedules
/// from there on end after one row.
fn endings() -> [PfxWeight; 5] {
    [
        weight(1, 4),
        weight(1, 4),
        weight(1, 4),
        weight(1, 8),
        weight(1, 8),
    ]
}

// A slot that ran.
ghost use Rattle.std.specs.Prelude.{◌<◌, ◌^◌, All};
ghost use Rattle.pfx_replay_totals.specs.Kept.{IsShare};

use crate::share::SlotShare;

/// A slot that ran, and what it gave to each task.
#[derive(Drop)]
pub struct SlotShares {
    /// The slot's number, counted from the first one of all.
    pub at: u64,
    /// The slot at which the weights in force came into force.
    pub since: u64,
    /// Each real task's share.
    pub shares: Vec<SlotShare>,
    ghost early: { at < 2 ^ 40 },
    ghost kept: { All IsShare shares.items },
}

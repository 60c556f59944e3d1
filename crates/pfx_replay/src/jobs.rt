// The numbers and jobs of a state.
ghost use Rattle.pfx_machine.specs.Plain.{IsState};
ghost use Rattle.pfx_replay.specs.Numbers.{numbers_ledger};
ghost use Rattle.pfx_replay.specs.Shown.{ledger_of};

use crate::numbers::PlainLedger;

/// A state: the number of the last command, the slot at which the set came into force, the ledger since then, each real task's
/// job, if it has one, and how many bytes a segment of the store has.
#[derive(Drop)]
pub struct PlainState<J> {
    /// The number of the last command.
    pub number: u64,
    /// The slot at which the set came into force.
    pub from: u64,
    /// The ledger, its slot counted from there.
    pub ledger: PlainLedger,
    /// Each real task's job, as it is now.
    pub jobs: Vec<Option<J>>,
    /// How many bytes a segment of the store has.
    pub segment: u32,
    ghost kept: { IsState (record { number = number; from = from; ledger = ledger_of ledger; jobs = jobs.items; segment = segment }) },
}

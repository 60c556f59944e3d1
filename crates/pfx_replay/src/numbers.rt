// The numbers of a ledger.
ghost use Rattle.pfx_columns.specs.Ledgers.{IsLedger};
ghost use Rattle.pfx_replay.specs.Numbers.{numbers_ledger};

/// A ledger: who shares the slots, the slot to come, and how many of the slots before it each task got.
#[derive(Drop)]
pub struct PlainLedger {
    /// How many tasks run in a slot.
    pub workers: u32,
    /// How many tasks are real: those with the numbers below this one.
    pub real: usize,
    /// The hyperperiod in slots.
    pub hyper: u32,
    /// The weight (e, p) of each task, idle ones too.
    pub weights: Vec<(u32, u32)>,
    /// The slot to come.
    pub slot: u64,
    /// How many slots each task got.
    pub allocations: Vec<u64>,
    ghost kept: { IsLedger (numbers_ledger workers real hyper weights.items slot allocations.items) },
}

// What a task was due and got in a window of slots.
ghost use Rattle.std.specs.Prelude.{◌<◌, ◌≤◌, ◌+◌, ◌^◌};

/// What one task was due and got in one window of slots, all of the same weights.
#[derive(Clone, Copy, Debug)]
pub struct Total {
    /// The first slot of the window.
    pub from: u64,
    /// The slot behind its last one.
    pub to: u64,
    /// The task's number.
    pub task: usize,
    /// The numerator of its weight.
    pub e: u32,
    /// The period: the denominator of its weight, of what it was due and of its lags.
    pub p: u32,
    /// How many of the slots it got.
    pub got: u64,
    /// In how many of those it had an open job at the slot's beginning.
    pub used: u64,
    /// In how many of those it hadn't.
    pub wasted: u64,
    /// The numerator of the least of its lags at the slots' ends.
    pub lag_least: i64,
    /// That of the greatest.
    pub lag_greatest: i64,
    /// That at the window's end.
    pub lag_end: i64,
    ghost below: { e < p },
    ghost limit: { p ≤ 2 ^ 20 },
    ghost length: { from < to },
    ghost early: { to ≤ 2 ^ 40 },
    ghost got_few: { from + got ≤ to },
    ghost used_few: { from + used ≤ to },
    ghost wasted_few: { from + wasted ≤ to },
}

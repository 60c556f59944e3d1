// What a slot gave a task.

/// What one slot gave one task.
#[derive(Clone, Copy, Debug, PartialEq, Eq)]
pub struct SlotShare {
    /// The numerator of its weight.
    pub e: u32,
    /// The period, the weight's denominator.
    pub p: u32,
    /// Whether the task is in the slot's row.
    pub got: bool,
    /// Whether it had an open job at the slot's beginning.
    pub busy: bool,
    /// The numerator of its lag, over the period, at the slot's end.
    pub lag: i64,
}

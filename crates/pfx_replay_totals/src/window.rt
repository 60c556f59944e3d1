// A window that isn't closed yet.
ghost use Rattle.std.specs.Prelude.{◌≡◌, ◌<◌, ◌≤◌, ◌^◌, All};

use crate::total::Total;

/// The totals of the slots of a window so far.
#[derive(Drop)]
pub struct Window {
    /// The first slot.
    pub from: u64,
    /// The slot behind the last one.
    pub to: u64,
    /// The slot at which its weights came into force.
    pub since: u64,
    /// Each real task's totals.
    pub totals: Vec<Total>,
    ghost some: { from < to },
    ghost ends: { All (λ t. t.to ≡ to) totals.items },
}

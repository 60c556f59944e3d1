//! What a real task has.

ghost use Rattle.std.specs.Prelude.{◌<◌};

/// What a real task has.
#[derive(Drop)]
pub struct RealTask<J> {
    /// The slot at which its weights came into force, below 2^40.
    pub from: u64,
    /// How many slots it got since then.
    pub allocation: u64,
    /// Its job, as it is now.
    pub job: Option<J>,
    ghost early: { from < 1099511627776 },
}

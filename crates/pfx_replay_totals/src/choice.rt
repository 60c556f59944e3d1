// Which slots are asked for.
ghost use Rattle.std.specs.Prelude.{◌≡◌};
ghost use Rattle.pfx_replay_totals.specs.Choices.{is_below};

/// Which slots are asked for, and how long their windows are.
#[derive(Clone, Copy, Debug, PartialEq, Eq)]
pub struct Choice {
    /// The first slot: none before it counts.
    pub from: u64,
    /// The slot behind the last one, if there is a last one.
    pub to: Option<u64>,
    /// How many slots a window has at the most, if there is a limit. Zero counts as one.
    pub every: Option<u64>,
}

/// Whether a number is below a limit, if there is one.
pub(crate) fn is_below(number: u64, limit: Option<u64>) -> bool
    ensures { result ≡ is_below number limit }
{
    match limit {
        None => true,
        Some(limit) => number < limit,
    }
}

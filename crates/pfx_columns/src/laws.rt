//! What holds of every task of a ledger, the contract of a function without a body.

ghost use Rattle.std.specs.Prelude.{◌≡◌, ◌↔◌, ℕ, ◌+◌, Bool, pos, None};
ghost use Rattle.pfx_lanes.specs.Steps.{lag_next};
ghost use Rattle.pfx_weights.specs.Rows.{one};
ghost use Rattle.pfx_columns.specs.Lags.{lag_of};
ghost use Rattle.pfx_columns.specs.Ledgers.{Ledger};
ghost use Rattle.pfx_columns.specs.Levels.{IsLevel, unlevel};

/// A lag's step is the lag one slot on: from the lag before slot `t` of a task that got `a` slots, the step that adds `e`,
/// and takes away `p` if the task runs, gives the lag before slot `t + 1` with the slots that it got by then.
pub fn steps_are_lags()
    ensures { (e p a t : ℕ) (runs : Bool) → lag_next (lag_of e p a t) (pos e) (pos p) (one runs) ≡ lag_of e p (a + one runs) (t + 1) }
{}

/// No task is found exactly where every lag is zero.
pub fn levels_are_found()
    ensures { (g : Ledger) → (unlevel g ≡ None) ↔ IsLevel g }
{}

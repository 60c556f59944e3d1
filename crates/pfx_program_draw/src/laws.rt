//! What holds of every picture, each the contract of a function without a body.

ghost use Rattle.std.specs.Prelude.{ℕ, ◌<◌, ◌≤◌, length, take};
ghost use Rattle.pfx_weights.specs.Rows.{Schedule};
ghost use Rattle.pfx_columns.specs.Ledgers.{Ledger, IsLedger, total};
ghost use Rattle.pfx_choice.specs.Plans.{past};
ghost use Rattle.pfx_program_draw.specs.Laws.{DrawsLagOf};

/// The lag that is drawn after the first i slots is that of the ledger after their rows: what the task is due there, less
/// what it got.
pub fn lags_are_ledgers()
    ensures { (g : Ledger) (rows : Schedule) (x i : ℕ) → x < total g → IsLedger g → i ≤ length rows → DrawsLagOf g rows x i (past g (take i rows)) }
{}

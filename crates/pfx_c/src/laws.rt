//! What holds of every caller's numbers, each the contract of a function without a body: so what a call answers is determined by
//! its arguments, but for 90.

ghost use Rattle.std.specs.Prelude.{ℕ, List};
ghost use Rattle.pfx_columns.specs.Ledgers.{Ledger};
ghost use Rattle.pfx_c.specs.Faults.{HasOneFault, HasNoFault};
ghost use Rattle.pfx_c.specs.Weights.{SetFails};
ghost use Rattle.pfx_c.specs.Sets.{HasTotal};
ghost use Rattle.pfx_c.specs.Checks.{CheckFails, IsGiven};
ghost use Rattle.pfx_c.specs.Nexts.{IsNext, NextFails};
ghost use Rattle.pfx_c.specs.Plans.{Kept, IsTaken, PlanFails};
ghost use Rattle.pfx_c.specs.declared.weights.PfxWeight.{PfxWeight};

/// No two refusals of a call hold together.
pub fn one_refusal()
    ensures set { (m : ℕ) (weights : List PfxWeight) → HasOneFault (SetFails m weights) }
    ensures check { (m slot : ℕ) (weights : List PfxWeight) (allocs : List ℕ) → HasOneFault (CheckFails m weights slot allocs) }
    ensures next { (m slot : ℕ) (weights : List PfxWeight) (allocs places : List ℕ) → HasOneFault (NextFails m weights slot allocs places) }
    ensures plan { (m slots : ℕ) (weights : List PfxWeight) (kept : Kept) → HasOneFault (PlanFails m weights slots kept) }
{}

/// None holds where a call did what it is for.
pub fn no_refusal()
    ensures set { (m total : ℕ) (weights : List PfxWeight) → HasTotal m weights total → HasNoFault (SetFails m weights) }
    ensures check { (m slot : ℕ) (weights : List PfxWeight) (allocs : List ℕ) → IsGiven m weights slot allocs
        → HasNoFault (CheckFails m weights slot allocs) }
    ensures next { (m slot : ℕ) (weights : List PfxWeight) (allocs old new : List ℕ) → IsNext m weights slot allocs old new
        → HasNoFault (NextFails m weights slot allocs old) }
    ensures plan { (m slots made : ℕ) (weights : List PfxWeight) (old new : Kept) (g next : Ledger) → IsTaken m weights slots old new made g next
        → HasNoFault (PlanFails m weights slots old) }
{}

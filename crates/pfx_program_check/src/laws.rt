//! What holds of all faults of a set, each the contract of a function without a body.

ghost use Rattle.std.specs.Prelude.{◌≡◌, ◌∷◌, [], ℕ, List};
ghost use Rattle.pfx_weights.specs.Sets.{FilledSet, Accepts};
ghost use Rattle.pfx_store_header.specs.Headers.{IsSegmentSize};
ghost use Rattle.pfx_fault.specs.declared.refusals.Fault.{Fault};
ghost use Rattle.pfx_program_check.specs.Faults.{AreAllFaults};
ghost use Rattle.pfx_program_check.specs.Laws.{IsFirst};

/// What is said first is why the set is refused, and if it isn't, that its segment is too small or too large.
pub fn first_is_the_sets()
    ensures { (m : ℕ) (tasks : List (ℕ × ℕ)) (segment : ℕ) (f : Fault) (fs : List Fault)
        → AreAllFaults m tasks segment (f ∷ fs) → IsFirst m tasks segment f fs }
{}

/// A set has one list of faults.
pub fn faults_are_one()
    ensures { (m : ℕ) (tasks : List (ℕ × ℕ)) (segment : ℕ) (fs gs : List Fault)
        → AreAllFaults m tasks segment fs → AreAllFaults m tasks segment gs → fs ≡ gs }
{}

/// It has none exactly if it is accepted and a store of it can have such a segment.
pub fn none_is_a_store()
    ensures none { (m : ℕ) (tasks : List (ℕ × ℕ)) (segment : ℕ)
        → AreAllFaults m tasks segment [] → ((s : FilledSet) × Accepts m tasks s) × IsSegmentSize m segment }
    ensures only { (m : ℕ) (tasks : List (ℕ × ℕ)) (segment : ℕ) (s : FilledSet)
        → Accepts m tasks s → IsSegmentSize m segment → AreAllFaults m tasks segment [] }
{}

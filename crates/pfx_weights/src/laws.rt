//! What holds of every task set, of its refusals and of the bytes of its weights, each the contract of a function without a body.

ghost use Rattle.std.specs.Prelude.{◌≡◌, ◌≢◌, ◌↔◌, ◌*◌, ◌^◌, ◌<◌, ◌≤◌, ◌++◌, ℕ, List, length, drop, All, Some, None};
ghost use Rattle.pfx_weights.specs.Bytes.{weights_bytes, weights_of};
ghost use Rattle.pfx_weights.specs.Sets.{Accepts, FilledSet, Refuses};
ghost use Rattle.pfx_weights.specs.Tests.{set_fault, set_of};
ghost use Rattle.pfx_weights.specs.declared.faults.SetFault.{SetFault};
ghost use Rattle.pfx_weights.specs.declared.faults.SetFault.TheVariants.{NoMemory};

/// No two refusals of a set hold together, and none holds of a set that is accepted, but for want of memory.
pub fn one_refusal()
    ensures one { (m : ℕ) (tasks : List (ℕ × ℕ)) (f g : SetFault) → f ≢ NoMemory → g ≢ NoMemory → Refuses m tasks f → Refuses m tasks g → f ≡ g }
    ensures none { (m : ℕ) (tasks : List (ℕ × ℕ)) (s : FilledSet) (f : SetFault) → Accepts m tasks s → Refuses m tasks f → f ≡ NoMemory }
{}

/// The set that is found by tests is the one that is accepted of its workers and tasks, and there is none if none is.
pub fn sets_are_the_accepted_ones()
    ensures { (m : ℕ) (tasks : List (ℕ × ℕ)) (s : FilledSet) → (set_of m tasks ≡ Some s) ↔ Accepts m tasks s }
{}

/// The fault that is found by tests is the one by which workers and tasks are refused, and there is none exactly if they are
/// accepted.
pub fn faults_are_the_refusals()
    ensures refused { (m : ℕ) (tasks : List (ℕ × ℕ)) (f : SetFault) → f ≢ NoMemory → (set_fault m tasks ≡ Some f) ↔ Refuses m tasks f }
    ensures memory { (m : ℕ) (tasks : List (ℕ × ℕ)) → set_fault m tasks ≢ Some NoMemory }
    ensures accepted { (m : ℕ) (tasks : List (ℕ × ℕ)) → (set_fault m tasks ≡ None) ↔ ((s : FilledSet) × Accepts m tasks s) }
{}

/// Weights of numbers below 2^32 are read from their bytes, eight for each, whatever stands behind them, and the weights of
/// an accepted set are such. The bytes of the weights that are read are the ones that they were read from.
pub fn weights_are_read_as_they_are_written()
    ensures long { (weights : List (ℕ × ℕ)) → length (weights_bytes weights) ≡ 8 * length weights }
    ensures read { (weights : List (ℕ × ℕ)) (rest : List ℕ) → All (λ w. (w.0 < 2 ^ 32) × (w.1 < 2 ^ 32)) weights
        → weights_of (length weights) (weights_bytes weights ++ rest) ≡ weights }
    ensures accepted { (m : ℕ) (tasks : List (ℕ × ℕ)) (s : FilledSet) → Accepts m tasks s → All (λ w. (w.0 < 2 ^ 32) × (w.1 < 2 ^ 32)) tasks }
    ensures written { (n : ℕ) (bytes : List ℕ) → 8 * n ≤ length bytes → All (λ b. b < 256) bytes → bytes ≡ weights_bytes (weights_of n bytes) ++ drop (8 * n) bytes }
{}

//! What holds of histories and their parts, each as the contract of a function that does nothing.
ghost use Rattle.std.specs.Prelude.{◌≡◌, ◌++◌, ℕ, List};
ghost use Rattle.pfx_machine.specs.Plain.{Plain};
ghost use Rattle.pfx_record.specs.Records.{Recorded};
ghost use Rattle.pfx_replay.specs.declared.verdict.Difference.{Difference};
ghost use Rattle.pfx_replay_audit.specs.Marks.{Agree, IsFirst, behind};

use pfx_jobs::job::Job;
use pfx_kinds::units::Units;

/// Parts of a history that agree, the second from the state on that the first led to, agree as one, and lead to the state that the second
/// led to.
pub fn parts_agree<J: Job + Units>()
    ensures { (marks : List (Plain J)) → (s : Plain J) → (xs ys : List (Recorded J)) → Agree J.kind J.unit marks s xs
        → Agree J.kind J.unit marks (behind J.kind s xs) ys
        → Agree J.kind J.unit marks s (xs ++ ys) × (behind J.kind (behind J.kind s xs) ys ≡ behind J.kind s (xs ++ ys)) }
{}

/// What differs first in a part of a history behind one that agrees differs first in both.
pub fn first_of_parts<J: Job + Units>()
    ensures { (marks : List (Plain J)) → (s : Plain J) → (xs ys : List (Recorded J)) → Agree J.kind J.unit marks s xs
        → (what : Difference) → (n : ℕ) → IsFirst J.kind J.unit marks what (behind J.kind s xs) ys n
        → IsFirst J.kind J.unit marks what s (xs ++ ys) n }
{}

/// What differs first in a front of a history differs first in all of it.
pub fn first_of_front<J: Job + Units>()
    ensures { (marks : List (Plain J)) → (s : Plain J) → (xs ys : List (Recorded J)) → (what : Difference) → (n : ℕ)
        → IsFirst J.kind J.unit marks what s xs n → IsFirst J.kind J.unit marks what s (xs ++ ys) n }
{}

/// A history in which something differs first doesn't agree.
pub fn one_verdict<J: Job + Units>()
    ensures { (marks : List (Plain J)) → (s : Plain J) → (xs : List (Recorded J)) → Agree J.kind J.unit marks s xs
        → (what : Difference) → (n : ℕ) → IsFirst J.kind J.unit marks what s xs n → ⊥ }
{}

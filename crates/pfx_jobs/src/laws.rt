ghost use Rattle.std.specs.Prelude.{◌≡◌, ◌+◌, ◌≤◌, ℕ};
ghost use Rattle.pfx_jobs.specs.Steps.{times};

use crate::job::Job;

/// Two states of a kind with the same encoding are the same state.
pub fn encodings_tell_states_apart<J: Job>()
    ensures { (one other : J) → J.kind.spelling one ≡ J.kind.spelling other → one ≡ other }
{}

/// n steps lower the steps left by n.
pub fn steps_count_down<J: Job>()
    ensures { (start : J) (n : ℕ) → n ≤ J.kind.left start → J.kind.left (times n J.kind.stepped start) + n ≡ J.kind.left start }
{}

/// A job is done after as many steps as were left.
pub fn jobs_end<J: Job>()
    ensures { (start : J) → J.kind.left (times (J.kind.left start) J.kind.stepped start) ≡ 0 }
{}

//! What holds of the bytes of states, each the contract of a function without a body.

ghost use Rattle.std.specs.Prelude.{◌≡◌, ℕ, List, length, Some};
ghost use Rattle.pfx_weights.specs.Sets.{FilledSet, IsFilled, IsOfItsTasks};
ghost use Rattle.pfx_machine.specs.Plain.{Plain, IsState};
ghost use Rattle.pfx_checkpoint.specs.Spelling.{state_bytes};
ghost use Rattle.pfx_checkpoint.specs.Found.{read_state};
ghost use Rattle.pfx_checkpoint.specs.Whole.{whole_bytes, whole_len, read_whole};

use pfx_jobs::job::Job;

/// The bytes of a state are read as that state.
pub fn frozen_states_are_read<J: Job>()
    ensures { (s : Plain J) → IsState s → read_state J.kind s.from s.segment s.ledger.set (state_bytes J.kind s) ≡ Some s }
{}

/// What is read of a set's bytes is a state of the set, and these are its bytes.
pub fn only_states_are_read<J: Job>()
    ensures { (from segment : ℕ) (set : FilledSet) (bytes : List ℕ) (s : Plain J) → IsOfItsTasks set → IsFilled set → read_state J.kind from segment set bytes ≡ Some s
        → IsState s × (s.ledger.set ≡ set) × (state_bytes J.kind s ≡ bytes) }
{}

/// The bytes of a state with its set are as many as those of each with so many real tasks, and are read as that state.
pub fn whole_states_are_read<J: Job>()
    ensures long { (s : Plain J) → IsState s → length (whole_bytes J.kind s) ≡ whole_len s.ledger.set.real }
    ensures read { (s : Plain J) → IsState s → read_whole J.kind s.ledger.set.real s.segment (whole_bytes J.kind s) ≡ Some s }
{}

/// What is read so is a state of so many real tasks and of this length of segments, and these are its bytes.
pub fn only_whole_states_are_read<J: Job>()
    ensures { (n segment : ℕ) (bytes : List ℕ) (s : Plain J) → read_whole J.kind n segment bytes ≡ Some s
        → IsState s × (s.ledger.set.real ≡ n) × (s.segment ≡ segment) × (whole_bytes J.kind s ≡ bytes) }
{}

//! What holds of every list of commands, each the contract of a function without a body.

ghost use Rattle.std.specs.Prelude.{◌≡◌, ℕ, List, ◌++◌, ◌+◌, length, map, Option, Ok, true};
ghost use Rattle.pfx_weights.specs.Sets.{IsFilled, IsOfItsTasks};
ghost use Rattle.pfx_machine.specs.Fitting.{fits};
ghost use Rattle.pfx_machine.specs.Plain.{Plain, whole, IsState};
ghost use Rattle.pfx_machine.specs.Last.{last_that, behind_last};
ghost use Rattle.pfx_choice.specs.Plans.{IsPlan};
ghost use Rattle.pfx_machine.specs.Happenings.{happenings, rows_of, begun, is_new};
ghost use Rattle.pfx_machine.specs.Outcome.{outcome, quanta_of};
ghost use Rattle.pfx_machine.specs.Rising.{RisesFrom};
ghost use Rattle.pfx_machine.specs.Sessions.{IsAcceptable, replies};
ghost use Rattle.pfx_machine.specs.Runs.{accepted, answers};
ghost use Rattle.pfx_machine.specs.declared.command.Command.{Command};

use pfx_jobs::job::Job;

/// Commands from the outcome of earlier ones give the outcome of all of them.
pub fn outcomes_compose<J: Job>()
    ensures { (B : Plain J) (H G : List (Command J)) → outcome J.kind (outcome J.kind B H) G ≡ outcome J.kind B (H ++ G) }
{}

/// At every prefix of an acceptable list from a state, the outcome is a state: above all every lag lies strictly between
/// minus one and one. (That each job is its start stepped once for each of its quanta is how the outcome is said.)
pub fn prefixes_are_states<J: Job>()
    ensures { (B : Plain J) → IsState B → (H G : List (Command J)) → IsAcceptable J.kind B (H ++ G) → IsState (outcome J.kind B H) }
{}

/// What `run` accepts of a list is acceptable.
pub fn accepted_is_acceptable<J: Job>()
    ensures { (B : Plain J) (H : List (Command J)) → IsAcceptable J.kind B (accepted J.kind B H) }
{}

/// An acceptable list is accepted whole, and each of its commands is answered by its reply: what `run` answers is then the
/// outcome and the replies of the whole list.
pub fn acceptable_lists_are_accepted<J: Job>()
    ensures accepted { (B : Plain J) (H : List (Command J)) → IsAcceptable J.kind B H → accepted J.kind B H ≡ H }
    ensures answers { (B : Plain J) (H : List (Command J)) → IsAcceptable J.kind B H → answers J.kind B H ≡ map Ok (replies J.kind B H) }
{}

/// The rows of an acceptable list since its last new set are a plan from that set's start, or from the list's: each is the one
/// that is chosen at the ledger that the rows before it leave.
pub fn rows_are_chosen<J: Job>()
    ensures { (B : Plain J) (H : List (Command J)) → IsAcceptable J.kind B H → IsPlan (begun B.ledger (last_that is_new (happenings B H))) (rows_of (behind_last is_new (happenings B H))) }
{}

/// The quanta of a job are different slots, none before the start: no slot steps a job twice.
pub fn quanta_are_apart<J: Job>()
    ensures { (B : Plain J) (H : List (Command J)) (task : ℕ) (before : Option J) → RisesFrom (whole B) (quanta_of J.kind task before (happenings B H)) }
{}

/// Slots are counted over all sets: one for each row.
pub fn slots_are_counted<J: Job>()
    ensures { (B : Plain J) (H : List (Command J)) → whole (outcome J.kind B H) ≡ whole B + length (rows_of (happenings B H)) }
{}

/// The tests of a state, of its numbers and of each lag, are passed exactly by states, if its set is filled, and there is a
/// number of allocations for each task and a place for a job for each real one.
pub fn tests_tell_states<J: Job>()
    ensures passed { (s : Plain J) → IsState s → fits s ≡ true }
    ensures states { (s : Plain J) → IsOfItsTasks s.ledger.set → IsFilled s.ledger.set → length s.ledger.allocs ≡ length s.ledger.set.weights
        → length s.jobs ≡ s.ledger.set.real → fits s ≡ true → IsState s }
{}

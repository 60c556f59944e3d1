//! What holds of all lists of commands, each the contract of a function that does nothing.
//!
//! Why it is so:
//! - **Sessions are chained by what they leave** (`AreSessions`), not by what their engines did: so one law holds of runs on one thread
//!   and through a front, for any number of stops between them.

ghost use Rattle.std.specs.Prelude.{◌≡◌, ℕ, List, Ok};
ghost use Rattle.pfx_machine_feasible.specs.Endless.{IsEndless};
ghost use Rattle.pfx_store_format.specs.Format.{format};
ghost use Rattle.pfx_machine.specs.Outcome.{outcome};
ghost use Rattle.pfx_machine.specs.Plain.{Plain, IsState, empty};
ghost use Rattle.pfx_machine.specs.Sessions.{IsAcceptable};
ghost use Rattle.pfx_machine.specs.declared.command.Command.{Command};
ghost use Rattle.pfx_store_image.specs.Recovery.{recovered};
ghost use Rattle.pfx_store_image.specs.Store.{Replays};
ghost use Rattle.pfx_weights.specs.Sets.{FilledSet, IsFilled};
ghost use Rattle.pfx_store_engine.specs.Sessions.{Session, AreSessions, AreHeld};
ghost use Rattle.pfx_store_engine.specs.Surviving.{Survives, frames_of};

use pfx_jobs::job::Job;

/// The frames that an acceptable list of commands leaves, each command in a batch of its own, lead from the state before them to the
/// list's outcome.
pub fn frames_lead_to_outcomes<J: Job>()
    ensures { (start : Plain J) → (H : List (Command J)) → IsState start → IsAcceptable J.kind start H
        → Replays (format J.kind) start (frames_of J.kind start H) (outcome J.kind start H) }
{}

/// Fair schedules of every length go on from the empty state of each filled set, and from each state that an image is recovered
/// to in which commands from there survive.
pub fn stores_are_endless<J: Job>()
    ensures made { (set : FilledSet) (segment : ℕ) → IsFilled set → (s : Plain J) → s ≡ empty set segment → IsEndless s.ledger }
    ensures survived { (set : FilledSet) (segment : ℕ) → IsFilled set → (H : List (Command J)) → IsAcceptable J.kind (empty set segment) H
        → (n : ℕ) → (image : List ℕ) → Survives J.kind (empty set segment) H n image
        → (s : Plain J) → recovered (format J.kind) image ≡ Ok s → IsEndless s.ledger }
{}

/// Over any number of sessions on one store, each of which began with what a stop had left of the one before it, nothing that was answered
/// is lost or done twice: the last state is the outcome of a beginning of each session's commands, the answered ones in it, one behind
/// the other, and these were accepted so from the first session's start on.
pub fn sessions_go_on<J: Job>()
    ensures { (start : Plain J) (sessions : List (Session J)) (last : Plain J) → AreSessions J.kind start sessions last
        → (H : List (Command J)) × AreHeld sessions H × IsAcceptable J.kind start H × (last ≡ outcome J.kind start H) }
{}

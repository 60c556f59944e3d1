//! What holds of each store beside its log, as the contract of a function that does nothing.
ghost use Rattle.std.specs.Prelude.{◌≡◌, ◌≤◌, ℕ, List, [], length, take, Ok};
ghost use Rattle.pfx_store_format.specs.Format.{format};
ghost use Rattle.pfx_log.specs.Holding.{Holds};
ghost use Rattle.pfx_log.specs.Logs.{Log, new_log, number_of};
ghost use Rattle.pfx_machine.specs.Plain.{Plain};
ghost use Rattle.pfx_store_image.specs.Recovery.{recovered};
ghost use Rattle.pfx_log_store.specs.Covering.{AreCovered};
ghost use Rattle.pfx_log_store.specs.Opening.{GoOn};

use pfx_jobs::job::Job;

/// What a stop left of the two goes on together, with every frame that was accepted, and the one that was being appended or not.
pub fn stopped_go_on<J: Job>()
    ensures { (start : Plain J) → (all : List (List ℕ)) → (n : ℕ) → (logged filed : List ℕ) → AreCovered J.kind start all n logged filed
        → (held : Log) → Holds logged held
        → (count : ℕ) × (n ≤ count) × (count ≤ length all) × GoOn J.kind start (take count all) held filed }
{}

/// A new log goes on with each file that is recovered to a state with the number of the log's: it has none of its frames yet.
pub fn new_logs_go_on<J: Job>()
    ensures { (s : Plain J) → (filed : List ℕ) → recovered (format J.kind) filed ≡ Ok s
        → (version : ℕ) → (state before : List ℕ) → number_of state ≡ s.number → GoOn J.kind s [] (new_log version state before) filed }
{}

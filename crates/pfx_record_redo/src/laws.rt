//! What holds of all records, each the contract of a function without a body.
ghost use Rattle.std.specs.Prelude.{◌≡◌, ◌+◌, ◌∷◌, [], List, length, All, IsTrue, Some, None};
ghost use Rattle.pfx_record.specs.Records.{Recorded};
ghost use Rattle.pfx_machine.specs.Plain.{Plain, IsState};
ghost use Rattle.pfx_machine.specs.Outcome.{outcome};
ghost use Rattle.pfx_machine.specs.Refusals.{refusal};
ghost use Rattle.pfx_machine.specs.Sessions.{IsAcceptable};
ghost use Rattle.pfx_machine.specs.declared.command.Command.{Command};
ghost use Rattle.pfx_record_redo.specs.Applying.{after_record, applied, is_common, is_right};
ghost use Rattle.pfx_record_redo.specs.Recording.{record_of, records_of};

use pfx_jobs::job::Job;

/// The record of an accepted command is right if the command was accepted, and the state after it is the command's
/// outcome: what was recorded is what was done.
pub fn records_are_outcomes<J: Job>()
    ensures right { (s : Plain J) (c : Command J) → IsState s → refusal J.kind s c ≡ None → IsTrue (is_right J.kind s (record_of J.kind s c)) }
    ensures outcome { (s : Plain J) (c : Command J) → IsState s → refusal J.kind s c ≡ None
        → after_record s (record_of J.kind s c) ≡ outcome J.kind s (c ∷ []) }
{}

/// So the records of an acceptable list, taken over one after the other, lead to the outcome of the list.
pub fn records_of_lists_are_outcomes<J: Job>()
    ensures { (s : Plain J) (H : List (Command J)) → IsState s → IsAcceptable J.kind s H
        → applied J.kind s (records_of J.kind s H) ≡ Some (outcome J.kind s H) }
{}

/// Records that are right lead from a state to a state of as many real tasks and the same store, each by one number. The set
/// stays, and the slot at which it came into force, if none of them is of new weights.
pub fn records_lead_to_states<J: Job>()
    ensures states { (s t : Plain J) (records : List (Recorded J)) → IsState s → applied J.kind s records ≡ Some t
        → IsState t × (t.ledger.set.real ≡ s.ledger.set.real) × (t.segment ≡ s.segment) × (t.number ≡ s.number + length records) }
    ensures common { (s t : Plain J) (records : List (Recorded J)) → All (λ done. IsTrue (is_common done)) records → applied J.kind s records ≡ Some t
        → (t.ledger.set ≡ s.ledger.set) × (t.from ≡ s.from) }
{}

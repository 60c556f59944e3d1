// Batches of groups of commands.
ghost use Rattle.std.specs.Prelude.{◌≡◌, ◌+◌, ◌<◌, ◌≤◌, ◌∷◌, [], ℕ, List, length, map, Some};
ghost use Rattle.pfx_record_redo.specs.Applying.{applied};
ghost use Rattle.pfx_machine.specs.Outcome.{outcome};
ghost use Rattle.pfx_machine.specs.Plain.{Plain, IsState};
ghost use Rattle.pfx_machine.specs.Reweighing.{new_set};
ghost use Rattle.pfx_machine.specs.declared.command.Command.{Command};
ghost use Rattle.pfx_record.specs.Batches.{batch_bytes};
ghost use Rattle.pfx_record.specs.Batches as batches;
ghost use Rattle.pfx_record.specs.Records.{plain};
ghost use Rattle.pfx_store.specs.Groups.{AreKeptAs, AreRecordsOf, frame_of};
ghost use Rattle.pfx_store.specs.Working.{IsNext, IsRenewal};

use pfx_jobs::job::Job;
use pfx_machine::State;
use pfx_record::{Batch, Record};

/// The batch of these records, which are those of 1 to 16 commands that the state accepts one after the other: it comes next
/// in the state, and `Store::append` takes it there.
pub fn batch_of<J: Job>(state: &State<J>, records: Vec<Record<J>>) -> Batch<J>
    requires count { (0 < length records.items) × (length records.items ≤ 16) }
    requires right { (H : List (Command J)) × AreRecordsOf J.kind state.now H (map plain records.items) }
    ensures next { IsNext J.kind state.now result.workers result.real result.first (map plain result.records.items) }
    ensures records { result.records ≡ records }
    ensures state { IsState state.now }

    // It leads to the outcome of the commands, and is their frame.
    ensures leads { (H : List (Command J)) → AreRecordsOf J.kind state.now H (map plain records.items)
        → applied J.kind state.now (map plain result.records.items) ≡ Some (outcome J.kind state.now H) }
    ensures frame { (H : List (Command J)) → AreRecordsOf J.kind state.now H (map plain records.items)
        → batch_bytes J.kind (batches.batch_of result.first result.records.items) ≡ frame_of J.kind state.now H }
{
    let workers = state.columns().workers();
    let first = state.number() + 1;
    Batch::new(workers, 0, first, records)
}

/// The batch of this one record, which is that of new weights that the state accepts: it comes next in the state, and
/// `Store::append_reweigh` takes it there with their set.
pub fn reweigh_of<J: Job>(state: &State<J>, records: Vec<Record<J>>) -> Batch<J>
    requires right { (m : ℕ) × (weights : List (ℕ × ℕ))
        × AreKeptAs J.kind state.now (Command.Reweigh m weights ∷ []) (map plain records.items) }
    ensures next { (m : ℕ) (weights : List (ℕ × ℕ)) → AreKeptAs J.kind state.now (Command.Reweigh m weights ∷ []) (map plain records.items)
        → IsRenewal J.kind state.now result.workers result.real result.first (map plain result.records.items)
        (new_set state.now.ledger.set m weights) }
    ensures records { result.records ≡ records }
    ensures state { IsState state.now }

    // It leads to the outcome of the Reweigh, and is its frame.
    ensures leads { (H : List (Command J)) → AreKeptAs J.kind state.now H (map plain records.items)
        → applied J.kind state.now (map plain result.records.items) ≡ Some (outcome J.kind state.now H) }
    ensures frame { (H : List (Command J)) → AreKeptAs J.kind state.now H (map plain records.items)
        → batch_bytes J.kind (batches.batch_of result.first result.records.items) ≡ frame_of J.kind state.now H }
{
    let workers = state.columns().workers();
    let _total = state.columns().total();
    let real = state.columns().real() as u32;
    let next = state.number() + 1;
    Batch::new(workers, real, next, records)
}

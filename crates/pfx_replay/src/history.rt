// A history against what its commands do.
ghost use Rattle.std.specs.Prelude.{◌≡◌, ◌↔◌, ◌<◌, ℕ, List, length, map, IsTrue, IfOk, MatchOption, Some};
ghost use Rattle.pfx_record_redo.specs.Applying.{applied};
ghost use Rattle.pfx_machine.specs.Plain.{Plain};
ghost use Rattle.pfx_record.specs.Records.{Recorded, plain};
ghost use Rattle.pfx_replay.specs.Shown.{ledger_of};
ghost use Rattle.pfx_replay.specs.Stated.{plain_of};
ghost use Rattle.pfx_replay.specs.Verdicts.{History, IsVerdict, Leads};

use crate::jobs::PlainState;
use crate::judged::Judged;
use crate::judging::{is_same, judge_all};
use crate::numbers::PlainLedger;
use crate::verdict::{Difference, Verdict};
use pfx_jobs::job::Job;
use pfx_kinds::units::Units;
use pfx_record::Record;
use std::alloc::{AllocError, Global};

// Whether two lists have the same numbers.
fn are_numbers(one: &[u64], other: &[u64]) -> bool
    ensures { IsTrue result ↔ (one.now ≡ other.now) }
{
    one == other
}

// Whether two lists have the same jobs.
fn are_jobs<J: Job>(one: &[Option<J>], other: &[Option<J>]) -> bool
    ensures { IsTrue result ↔ (one.now ≡ other.now) }
{
    if one.len() != other.len() {
        return false;
    }
    for i in 0..one.len() {
        if !is_same(&one[i], &other[i]) {
            return false;
        }
    }
    true
}

// Whether two weights are the same.
fn is_weight(one: (u32, u32), other: (u32, u32)) -> bool
    ensures { IsTrue result ↔ (one ≡ other) }
{
    one.0 == other.0 && one.1 == other.1
}

// Whether two lists have the same weights.
fn are_weights(one: &[(u32, u32)], other: &[(u32, u32)]) -> bool
    ensures { IsTrue result ↔ (one.now ≡ other.now) }
{
    if one.len() != other.len() {
        return false;
    }
    for i in 0..one.len() {
        if !is_weight(one[i], other[i]) {
            return false;
        }
    }
    true
}

// Whether two ledgers are of the same set.
fn are_sets(one: &PlainLedger, other: &PlainLedger) -> bool
    ensures { IsTrue result ↔ ((ledger_of one.now).set ≡ (ledger_of other.now).set) }
{
    if one.workers != other.workers || one.real != other.real || one.hyper != other.hyper {
        return false;
    }
    are_weights(&one.weights, &other.weights)
}

/// Whether two states are the same.
pub fn are_states<J: Job>(one: &PlainState<J>, other: &PlainState<J>) -> bool
    ensures { IsTrue result ↔ (plain_of one.now ≡ plain_of other.now) }
{
    if !are_sets(&one.ledger, &other.ledger) {
        return false;
    }
    if one.number != other.number {
        return false;
    }
    if one.from != other.from || one.segment != other.segment {
        return false;
    }
    if one.ledger.slot != other.ledger.slot {
        return false;
    }
    if !are_numbers(&one.ledger.allocations, &other.ledger.allocations) {
        return false;
    }
    are_jobs(&one.jobs, &other.jobs)
}

// The verdict on records that lead from a start to a checkpoint, or `None` if they agree and lead to what it holds.
fn judge_before<J: Job + Units>(
    alloc: Global,
    start: PlainState<J>,
    before: &[Record<J>],
    checkpoint: &PlainState<J>,
) -> Result<Option<Verdict>, AllocError>
    requires { (t : Plain J) × (applied J.kind (plain_of start) (map plain before.now) ≡ Some t) }
    ensures { let history : List (Recorded J) → History J = λ behind. record {
      start = plain_of start;
      before = map plain before.now;
      checkpoint = plain_of checkpoint.now;
      behind = behind;
    } in
        IfOk result (λ found. (behind : List (Recorded J))
        → MatchOption found (Leads J.kind J.unit (history behind)) (IsVerdict J.kind J.unit (history behind))) }
{
    match judge_all(alloc, start, before)? {
        Judged::Differs { number, what } => Ok(Some(Verdict::Differs { number, what })),
        Judged::Agrees(reached) => {
            if are_states(&reached, checkpoint) {
                return Ok(None);
            }
            Ok(Some(Verdict::Differs {
                number: checkpoint.number,
                what: Difference::Checkpoint,
            }))
        }
    }
}

/// The verdict on records that lead from a start to a checkpoint, and on from there.
pub(crate) fn judge_history<J: Job + Units>(
    alloc: Global,
    start: PlainState<J>,
    before: &[Record<J>],
    checkpoint: PlainState<J>,
    behind: &[Record<J>],
) -> Result<Verdict, AllocError>
    requires before { (t : Plain J) × (applied J.kind (plain_of start) (map plain before.now) ≡ Some t) }
    requires behind { (t : Plain J) × (applied J.kind (plain_of checkpoint) (map plain behind.now) ≡ Some t) }
    ensures { IfOk result (IsVerdict J.kind J.unit (record {
      start = plain_of start;
      before = map plain before.now;
      checkpoint = plain_of checkpoint;
      behind = map plain behind.now;
    })) }
{
    if let Some(verdict) = judge_before(alloc, start, before, &checkpoint)? {
        return Ok(verdict);
    }
    match judge_all(alloc, checkpoint, behind)? {
        Judged::Agrees(last) => Ok(Verdict::Agrees {
            number: last.number,
        }),
        Judged::Differs { number, what } => Ok(Verdict::Differs { number, what }),
    }
}

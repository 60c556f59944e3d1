// What a slot gave to each task, from the state before it and its row.
ghost use Rattle.std.specs.Prelude.{◌≡◌, ◌<◌, ◌≤◌, ◌+◌, ◌*◌, ◌^◌, slice_get, IfOk};
ghost use Rattle.pfx_columns.specs.Lags.{lag_of};
ghost use Rattle.pfx_machine.specs.Jobs.{is_busy};
ghost use Rattle.pfx_record.specs.Records.{tasks_of};
ghost use Rattle.pfx_replay.specs.Stated.{plain_of};
ghost use Rattle.pfx_weights.specs.Rows.{is_in};
ghost use Rattle.pfx_replay_totals.specs.Kept.{IsShare};
ghost use Rattle.pfx_replay_totals.specs.Slots.{slot_of};
ghost use Rattle.pfx_replay_totals.specs.States.{share_in, slot_in};

use crate::adding::one;
use crate::share::SlotShare;
use crate::slot::SlotShares;
use pfx_jobs::job::Job;
use pfx_record::Place;
use pfx_replay::PlainState;
use std::alloc::{AllocError, Global};

// Whether a row has a task.
fn is_in<J>(row: &[Place<J>], task: usize) -> bool
    ensures { result ≡ is_in (tasks_of row.now) task }
{
    for place in row {
        if usize::from(place.task) == task {
            return true;
        }
    }
    false
}

// Whether a task has an open job.
fn is_busy<J: Job>(jobs: &[Option<J>], task: usize) -> bool
    ensures { result ≡ is_busy J.kind (slice_get jobs.now task) }
{
    match jobs.get(task) {
        None => false,
        Some(None) => false,
        Some(Some(job)) => !job.is_done(),
    }
}

// The numerator of a lag.
fn lag_of(e: u32, p: u32, got: u64, slot: u64) -> i64
    requires weight { (e ≤ 2 ^ 20) × (p ≤ 2 ^ 20) }
    requires got { got ≤ 2 ^ 41 }
    requires slot { slot ≤ 2 ^ 40 }
    ensures { result ≡ lag_of e p got slot }
{
    (u64::from(e) * slot) as i64 - (u64::from(p) * got) as i64
}

// A real task's share of a slot with this row.
fn share_in<J: Job>(state: &PlainState<J>, row: &[Place<J>], task: usize) -> SlotShare
    requires { task < state.now.ledger.real }
    ensures share { result ≡ share_in J.kind (plain_of state.now) (tasks_of row.now) task }
    ensures kept { IsShare result }
{
    let (e, p) = state.ledger.weights[task];
    let got = is_in(row, task);
    SlotShare {
        e,
        p,
        got,
        busy: is_busy(&state.jobs, task),
        lag: lag_of(
            e,
            p,
            state.ledger.allocations[task] + one(got),
            state.ledger.slot + 1,
        ),
    }
}

/// What the slot to come gives each real task, if this is its row. An error comes only if an allocation failed.
pub(crate) fn slot_in<J: Job>(
    alloc: Global,
    state: &PlainState<J>,
    row: &[Place<J>],
) -> Result<SlotShares, AllocError>
    ensures { IfOk result (λ s. slot_of s ≡ slot_in J.kind (plain_of state.now) (tasks_of row.now)) }
{
    let mut shares = Vec::with_capacity(alloc, state.ledger.real)?;
    for task in 0..state.ledger.real {
        shares.push(share_in(state, row, task))?;
    }
    Ok(SlotShares {
        at: state.from + state.ledger.slot,
        since: state.from,
        shares,
    })
}

//! The state that a store begins with.

ghost use Rattle.std.specs.Prelude.{◌≡◌, IfOk, IfErr, None, option_map, replicate};
ghost use Rattle.pfx_program.specs.Beginning.{IsFirstState};
ghost use Rattle.pfx_program.specs.Ledger.{BeginFails};

use crate::ledger::begin;
use pfx_fault::Fault;
use pfx_kinds::any::AnyJob;
use pfx_machine::State;
use pfx_weights::TaskSet;
use std::alloc::{AllocError, Global};

// No job for each of so many tasks.
fn no_jobs(alloc: Global, number: usize) -> Result<Vec<Option<AnyJob>>, AllocError>
    ensures { IfOk result (λ jobs. jobs.items ≡ replicate number None) }
{
    let mut jobs = Vec::with_capacity(alloc, number)?;
    for _task in 0..number {
        jobs.push(None)?;
    }
    Ok(jobs)
}

/// The state of a set before its first command, in a store whose segments have so many bytes: number 0 and no jobs, at slot 0
/// with no allocations, or with the ledger that `at` gives as `T:A,A,..`. The refusals are those of `run_plan` of a ledger.
pub fn first_state(
    alloc: Global,
    set: &TaskSet,
    segment: u32,
    at: Option<&str>,
) -> Result<State<AnyJob>, Fault>
    ensures ok { IfOk result (IsFirstState set.now segment (option_map (λ s. s.now) at.entry)) }
    ensures err { IfErr result (BeginFails set.now (option_map (λ s. s.now) at.entry)) }
{
    set.is_of_its_tasks();
    let _total = set.total();
    let ledger = begin(alloc, set, at)?;
    let _total = ledger.total();
    let Ok(jobs) = no_jobs(alloc, set.real()) else {
        return Err(Fault::NoMemory);
    };
    Ok(State::from_parts(alloc, 0, 0, ledger, jobs, segment))
}

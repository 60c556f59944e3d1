//! Ledgers and states from their numbers.

ghost use Rattle.std.specs.Prelude.{◌≡◌, IfSome};

use pfx_columns::Columns;
use pfx_kinds::any::AnyJob;
use pfx_machine::State;
use pfx_weights::TaskSet;
use std::alloc::Global;

/// How many bytes a segment has, by a state that is of no store: as many as one may have.
pub const SEGMENT: u32 = 16_777_216;

/// The ledger of a set with these allocations at the beginning of a slot. `None` if no ledger of the set has them or an
/// allocation fails.
pub fn ledger_at(alloc: Global, set: &TaskSet, slot: u64, allocs: &[u64]) -> Option<Columns>
    ensures { IfSome result (λ g. g.set ≡ set.now) }
{
    if allocs.len() != set.total() || slot >= 1 << 40 {
        return None;
    }
    Columns::from_allocations(alloc, set, slot, allocs).ok()
}

/// The state of such a ledger, whose set is in force since the first slot, behind the command of this number, in which only
/// task 0 may have a job. `None` if there is no such ledger, the number is 2^48 or more, or an allocation fails.
pub fn state_at(
    alloc: Global,
    number: u64,
    set: &TaskSet,
    slot: u64,
    allocs: &[u64],
    first: Option<AnyJob>,
) -> Option<State<AnyJob>> {
    let ledger = ledger_at(alloc, set, slot, allocs)?;
    let mut jobs = Vec::new(alloc);
    jobs.push(first).ok()?;
    for _task in 1..ledger.real() {
        jobs.push(None).ok()?;
    }
    if number >= 1 << 48 || jobs.len() != ledger.real() {
        return None;
    }
    let _total = ledger.total();
    set.is_of_its_tasks();
    Some(State::from_parts(alloc, number, 0, ledger, jobs, SEGMENT))
}

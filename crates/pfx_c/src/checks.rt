//! Whether numbers are a ledger.

ghost use Rattle.std.specs.Prelude.{◌≡◌, ◌≢◌, IfOk, IfErr};
ghost use Rattle.pfx_columns.specs.Ledgers.{IsLedger, ledger_at};
ghost use Rattle.pfx_c.specs.Faults.{IsNamed};
ghost use Rattle.pfx_c.specs.Checks.{LedgerFails, CheckFails, IsLedgerOf, IsGiven};

use crate::faults::{name_task, number_of};
use crate::weights::{PfxWeight, set_of};
use pfx_choice_refusals::ledger_fault;
use pfx_columns::Columns;
use pfx_fault::Fault;
use pfx_weights::TaskSet;
use std::alloc::Global;

/// The slots that can be numbered are those below this one.
const SLOTS: u64 = 1 << 40;

/// The ledger of a set at a slot with these allocations.
pub fn ledger_of(alloc: Global, set: &TaskSet, slot: u64, allocs: &[u64]) -> Result<Columns, Fault>
    ensures ok { IfOk result (λ g. (g ≡ ledger_at set.now slot allocs.now) × IsLedger g) }
    ensures why { IfErr result (LedgerFails set.now slot allocs.now) }
{
    if allocs.len() != set.total() {
        return Err(Fault::BadLedger);
    }
    if slot >= SLOTS {
        return Err(Fault::BadLedger);
    }
    match Columns::from_allocations(alloc, set, slot, allocs) {
        Ok(columns) => Ok(columns),
        Err(fault) => Err(ledger_fault(fault)),
    }
}

/// The ledger of these numbers.
pub fn given_ledger(
    alloc: Global,
    workers: u32,
    weights: &[PfxWeight],
    slot: u64,
    allocs: &[u64],
) -> Result<Columns, Fault>
    ensures ok { IfOk result (λ g. IsLedgerOf workers weights.now slot allocs.now g) }
    ensures why { IfErr result (CheckFails workers weights.now slot allocs.now) }
{
    let set = set_of(alloc, workers, weights)?;
    ledger_of(alloc, &set, slot, allocs)
}

/// Whether a slot and allocations are a ledger of the set.
///
/// They are one if the slot is below 2^40, there is an allocation for each task (idle ones too), every task's lag is strictly
/// between minus one and one, and the allocations sum to the workers times the slot. The answer is 0 then, or else the number of
/// the refusal: the set's (11 to 17), 26 if the slot or the number of allocations is out of range, 24 where a task's lag is,
/// 25 if the sum is another, or 90. `task` is as it was, unless the refusal names a task (14, 16, 24): the first such one.
#[unsafe(no_mangle)]
pub extern "C" fn pfx_check(
    alloc: Global,
    workers: u32,
    weights: &[PfxWeight],
    slot: u64,
    allocs: &[u64],
    task: &mut u16,
) -> u32
    ensures ok { result ≡ 0 → IsGiven workers weights.now slot allocs.now × (task.new ≡ task.old) }
    ensures why { result ≢ 0 → IsNamed result task.old task.new (CheckFails workers weights.now slot allocs.now) }
{
    match given_ledger(alloc, workers, weights, slot, allocs) {
        Ok(_ledger) => 0,
        Err(fault) => {
            name_task(fault, task);
            number_of(fault)
        }
    }
}

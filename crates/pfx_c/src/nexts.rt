//! The next row of a ledger.

ghost use Rattle.std.specs.Prelude.{◌≡◌, ◌≢◌, IfErr, OnOk, OnErr};
ghost use Rattle.pfx_c.specs.Faults.{IsRefused};
ghost use Rattle.pfx_c.specs.Nexts.{IsNext, NextFails};

use crate::checks::given_ledger;
use crate::faults::number_of;
use crate::places::put_row;
use crate::weights::PfxWeight;
use pfx_choice::choose;
use pfx_choice_refusals::choice_fault;
use pfx_fault::Fault;
use std::alloc::Global;

/// Puts PF's row at the ledger into the first places of `row`, one task for each worker, rising.
fn put_next(
    alloc: Global,
    workers: u32,
    weights: &[PfxWeight],
    slot: u64,
    allocs: &[u64],
    row: &mut [u16],
) -> Result<(), Fault>
    ensures ok { OnOk result (IsNext workers weights.now slot allocs.now row.old row.new) }
    ensures why { IfErr result (NextFails workers weights.now slot allocs.now row.old) }
    ensures kept { OnErr result (row.new ≡ row.old) }
{
    let ledger = given_ledger(alloc, workers, weights, slot, allocs)?;
    if row.len() < workers as usize {
        return Err(Fault::NoRoom);
    }
    match choose(alloc, &ledger) {
        Ok(chosen) => {
            let _total = ledger.total();
            put_row(&chosen, 0, row);
            Ok(())
        }
        Err(fault) => Err(choice_fault(fault)),
    }
}

/// Puts PF's row at a ledger into the first places of `row`: the numbers of the tasks that run in the slot, one for each worker,
/// rising. A number that isn't below the number of weights is that of an idle task. What stands behind stays as it is.
///
/// The answer is 0, or the number of the refusal, and then `row` is as it was: one of `pfx_check`'s; 57 if `row` has fewer
/// places than there are workers; and if no row is chosen at the ledger 21 (more tasks have to run than there are workers),
/// 22 (fewer may run), 23 (the slot is 2^40 - 1, the last one), or 90.
#[unsafe(no_mangle)]
pub extern "C" fn pfx_next(
    alloc: Global,
    workers: u32,
    weights: &[PfxWeight],
    slot: u64,
    allocs: &[u64],
    row: &mut [u16],
) -> u32
    ensures ok { result ≡ 0 → IsNext workers weights.now slot allocs.now row.old row.new }
    ensures why { result ≢ 0 → IsRefused result (NextFails workers weights.now slot allocs.now row.old) }
    ensures kept { result ≢ 0 → row.new ≡ row.old }
{
    match put_next(alloc, workers, weights, slot, allocs, row) {
        Ok(()) => 0,
        Err(fault) => number_of(fault),
    }
}

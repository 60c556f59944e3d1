//! Slots that only a failed allocation can leave without a row.

ghost use Rattle.std.specs.Prelude.{◌≡◌, ◌+◌, ◌<◌, ◌^◌, IfOk, OnErr};
ghost use Rattle.pfx_columns.specs.Ledgers.{start};
ghost use Rattle.pfx_machine_feasible.specs.Endless.{IsEndless, IsNextOf};

use pfx_choice::{Chooser, give};
use pfx_columns::Columns;
use pfx_weights::{Row, TaskSet};
use std::alloc::{AllocError, Global};

/// The ledger of a set before slot 0, from which there is a fair schedule of every length.
///
/// An error comes only if an allocation failed.
pub fn begin(alloc: Global, set: &TaskSet) -> Result<Columns, AllocError>
    ensures { IfOk result (λ g. (g ≡ start set.now) × IsEndless g) }
{
    let _total = set.total();
    Columns::zero(alloc, set)
}

/// Gives the next slot of a ledger to PF's row, and goes on to the slot after it. The ledger stays endless, so this can go on
/// up to the last slot.
///
/// An error comes only if an allocation failed, and then nothing changes.
pub fn next_row(chooser: &mut Chooser, ledger: &mut Columns) -> Result<Row, AllocError>
    requires endless { IsEndless ledger.old }
    requires before { ledger.old.slot + 1 < 2 ^ 40 }
    ensures row { IfOk result (λ row. IsNextOf ledger.old row ledger.new) }
    ensures kept { OnErr result (ledger.new ≡ ledger.old) }
{
    let _total = ledger.total();
    match chooser.choose(ledger) {
        Ok(row) => {
            give(ledger, &row);
            Ok(row)
        }
        Err(fault) => {
            let refused = fault.is_memory();
            prove!(refused);
            Err(AllocError)
        }
    }
}

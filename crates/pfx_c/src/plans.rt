//! Rows of many slots.

ghost use Rattle.std.specs.Prelude.{◌≡◌, ◌≢◌, ◌*◌, ◌≤◌, length, MatchResult, IfOk, IfErr, OnOk};
ghost use Rattle.pfx_c.specs.Checks.{IsLedgerOf};
ghost use Rattle.pfx_c.specs.Plans.{IsPlanned, EndsEarly, PlanFails, IsWhole, IsCut, kept};

use crate::checks::given_ledger;
use crate::faults::number_of;
use crate::places::put_row;
use crate::weights::PfxWeight;
use pfx_choice::{ChoiceFault, Chooser, give};
use pfx_choice_refusals::choice_fault;
use pfx_columns::Columns;
use pfx_fault::Fault;
use pfx_weights::Row;
use std::alloc::Global;

/// Plans a ledger's next slots, takes it along, and lays their rows into the first places. How many rows were made, and why not
/// all.
fn lay_rows(
    alloc: Global,
    ledger: &mut Columns,
    slots: usize,
    places: &mut [u16],
) -> (usize, Result<(), ChoiceFault>)
    requires { slots * ledger.old.set.workers ≤ length places.old }
    ensures planned { IsPlanned ledger.old ledger.new result.0 places.old places.new }
    ensures end { MatchResult result.1 (λ _. result.0 ≡ slots) (λ f. EndsEarly ledger.old ledger.new slots result.0 f) }
{
    let _total = ledger.total();
    let m = ledger.workers() as usize;
    let mut chooser = Chooser::new(alloc);
    let mut row = Row::empty();
    let mut at = 0;
    for made in 0..slots {
        let _all = ledger.total();
        if let Err(fault) = chooser.choose_into(ledger, &mut row) {
            return (made, Err(fault));
        }
        give(ledger, &row);
        put_row(&row, at, places);
        at += m;
    }
    (slots, Ok(()))
}

/// The ledger of these numbers, if the caller has the places for its next slots.
fn ledger_with_room(
    alloc: Global,
    workers: u32,
    weights: &[PfxWeight],
    slots: usize,
    slot: u64,
    allocs: &[u64],
    places: &[u16],
) -> Result<Columns, Fault>
    ensures ok { IfOk result (λ g. IsLedgerOf workers weights.now slot allocs.now g) }
    ensures room { OnOk result (slots * workers ≤ length places.now) }
    ensures why { IfErr result (PlanFails workers weights.now slots (kept slot allocs.now places.now)) }
{
    let ledger = given_ledger(alloc, workers, weights, slot, allocs)?;
    match slots.checked_mul(workers as usize) {
        Some(wanted) if wanted <= places.len() => Ok(ledger),
        _ => Err(Fault::NoRoom),
    }
}

/// Puts a ledger's slot and allocations into the caller's places.
fn put_ledger(ledger: &Columns, slot: &mut u64, allocs: &mut [u64])
    requires { length allocs.old ≡ length ledger.now.allocs }
    ensures slot { slot.new ≡ ledger.now.slot }
    ensures allocs { allocs.new ≡ ledger.now.allocs }
{
    let _total = ledger.total();
    *slot = ledger.slot();
    for (x, place) in allocs.iter_mut().enumerate() {
        *place = ledger.alloc(x);
    }
}

/// Plans the next `slots` slots of a ledger, lays PF's rows into `rows` from the front on, one number for each worker and slot,
/// and takes the ledger along: `slot` and `allocs` become those after the rows. How many rows there are goes to `made`.
///
/// The answer is 0 if all were made. If nothing can be made it is the number of the refusal, `made` becomes 0 and all else
/// is as it was: one of `pfx_check`'s, or 57 if `rows` has fewer than `slots * workers` places. If no row is chosen at one
/// of the slots, it is that refusal's number (21, 22, 23 or 90), and the rows before that slot are made and the ledger is taken
/// there: after 21 and 22 no schedule that is fair and gives each worker a task in every slot is any longer.
#[unsafe(no_mangle)]
pub extern "C" fn pfx_plan(
    alloc: Global,
    workers: u32,
    weights: &[PfxWeight],
    slots: usize,
    slot: &mut u64,
    allocs: &mut [u64],
    rows: &mut [u16],
    made: &mut usize,
) -> u32
    ensures ok { result ≡ 0 → IsWhole workers weights.now slots (kept slot.old allocs.old rows.old) (kept slot.new allocs.new rows.new) made.new }
    ensures why { result ≢ 0 → IsCut workers weights.now slots result (kept slot.old allocs.old rows.old) (kept slot.new allocs.new rows.new) made.new }
{
    *made = 0;
    let mut ledger = match ledger_with_room(alloc, workers, weights, slots, *slot, allocs, rows) {
        Ok(ledger) => ledger,
        Err(fault) => return number_of(fault),
    };
    let (number, end) = lay_rows(alloc, &mut ledger, slots, rows);
    put_ledger(&ledger, slot, allocs);
    *made = number;
    match end {
        Ok(()) => 0,
        Err(fault) => number_of(choice_fault(fault)),
    }
}

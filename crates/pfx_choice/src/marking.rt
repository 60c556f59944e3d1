//! The tasks of a row, marked by their places, and at the place where the workers run out by their keys.
//!
//! Why it is so:
//! - **The classes are the marks of the choice**: 1 stands for urgent, and then for each task that runs, so the row is read off one
//!   column (`Row::set_marked`), with no list of numbers between. Only contending tasks get a rank.

ghost use Rattle.std.specs.Prelude.{◌≡◌, ℕ, ◌<◌, ◌==◌, nat_lt, length, slice_index_or, IfSome, IfOk, OnOk, IsTrue};
ghost use Rattle.pfx_weights.specs.Rows.{marked_in};
ghost use Rattle.pfx_columns.specs.Ledgers.{total};
ghost use Rattle.pfx_choice.specs.Cuts.{IsCut};
ghost use Rattle.pfx_choice.specs.Picks.{ranks_if, IsReady};
ghost use Rattle.pfx_choice.specs.Places.{place, ArePlacesIn};
ghost use Rattle.pfx_choice.specs.Refined.{AreSplit};

use crate::counts::count_below;
use crate::cuts::Cut;
use crate::keys::Keys;
use pfx_columns::Columns;
use pfx_symbols::{Key, Rank};
use pfx_weights::first_from;
use std::alloc::AllocError;

/// How many tasks are few: for so many at a place keys cost more than they spare.
const FEW: usize = 8;

/// Marks the tasks before the cut in place of all places, and of those at it such as the keys tell, and gathers those that are to be
/// compared, if workers are left for some. It says for how many, or `None` if the keys don't tell. These tell so many rounds.
pub fn mark_before(
    places: &mut [u8],
    found: &mut Vec<Rank>,
    keys: &mut Keys,
    ledger: &Columns,
    cut: Cut,
    rounds: u32,
) -> Option<usize>
    requires places { ArePlacesIn ledger.now places.old }
    requires cut { IsCut places.old ledger.now.set.workers cut }
    ensures { IfSome result (λ k. IsReady ledger.now k places.new found.new.items) }
{
    if cut.left > 0 && cut.tasks > FEW {
        return mark_by_keys(places, found, keys, ledger, cut, rounds);
    }
    let _total = ledger.total();
    found.clear();
    if cut.left > 0 {
        let Ok(()) = gather_at(found, ledger, places, cut.place) else {
            return None;
        };
    }
    mark_below(places, cut.place);
    Some(cut.left)
}

/// Marks the tasks before the cut, and of those at it such as have lesser keys than the last ones that run, and gathers these.
fn mark_by_keys(
    places: &mut [u8],
    found: &mut Vec<Rank>,
    keys: &mut Keys,
    ledger: &Columns,
    cut: Cut,
    rounds: u32,
) -> Option<usize>
    requires places { ArePlacesIn ledger.now places.old }
    requires cut { IsCut places.old ledger.now.set.workers cut }
    ensures { IfSome result (λ k. IsReady ledger.now k places.new found.new.items) }
{
    let m = ledger.workers() as usize;
    let _total = ledger.total();
    let Ok(()) = keys.take(ledger, places, cut.place, rounds) else {
        return None;
    };
    let (key, end) = keys.guess_cut(places, cut.place, cut.left);
    let Ok(true) = split(
        places,
        found,
        &keys.of_tasks,
        ledger,
        cut.place,
        key.number,
        end,
    ) else {
        return None;
    };
    let marked = count_below(places, cut.place);
    mark_below(places, cut.place);
    if marked <= m && m - marked <= found.len() {
        Some(m - marked)
    } else {
        None
    }
}

/// Puts the tasks at place `d` that have a lesser key than this number at the first place, and of those that have it the ones before `end`,
/// or gathers these if `end` is 0. It says whether that can be told.
fn split(
    places: &mut [u8],
    found: &mut Vec<Rank>,
    keys: &[Key],
    ledger: &Columns,
    d: u8,
    number: u64,
    end: usize,
) -> Result<bool, AllocError>
    requires places { ArePlacesIn ledger.now places.old }
    requires keys { length keys.now ≡ total ledger.now }
    requires d { 0 < d }
    ensures { IfOk result (λ told. IsTrue told → AreSplit ledger.now keys.now d number end places.new found.new.items) }
{
    let _total = ledger.total();
    found.clear();
    let mut x = first_from(places, d, 0);
    'tasks: while x < places.len() {
        let key = keys[x];
        if key.number < number {
            places[x] = 0;
        } else if key.number == number {
            if end == 0 {
                found.push(ledger.rank(x))?;
            } else if !key.whole {
                return Ok(false);
            } else if x < end {
                places[x] = 0;
            }
        }
        x = first_from(places, d, x + 1);
    }
    Ok(true)
}

/// Gathers the ranks of the tasks at a place.
fn gather_at(
    found: &mut Vec<Rank>,
    ledger: &Columns,
    places: &[u8],
    d: u8,
) -> Result<(), AllocError>
    requires places { ArePlacesIn ledger.now places.now }
    ensures { OnOk result (found.new.items ≡ ranks_if (λ x. place ledger.now x == d) (total ledger.now) ledger.now) }
{
    let _total = ledger.total();
    found.clear();
    let mut x = first_from(places, d, 0);
    'gathered: while x < places.len() {
        found.push(ledger.rank(x))?;
        x = first_from(places, d, x + 1);
    }
    Ok(())
}

/// Marks the tasks whose place is below one, in place of the places.
fn mark_below(places: &mut [u8], d: u8)
    ensures { (x : ℕ) → x < length places.old → marked_in places.new x ≡ nat_lt (slice_index_or places.old x 0) d }
{
    for x in 0..places.len() {
        places[x] = u8::from(places[x] < d);
    }
}

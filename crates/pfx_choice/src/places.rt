//! Each task's place in the order so far, by its lead.

ghost use Rattle.std.specs.Prelude.{◌≡◌, ◌<◌, length, OnOk};
ghost use Rattle.pfx_columns.specs.Columns.{lag_in, e_in};
ghost use Rattle.pfx_columns.specs.Ledgers.{total};
ghost use Rattle.pfx_choice.specs.Places.{near, place, AreLeadsIn, ArePlacesIn};

use pfx_columns::Columns;
use std::alloc::AllocError;

/// Takes the place of each task: 0 urgent, 255 tnegru, else its lead, or 254 if that is more.
pub fn take_places(places: &mut Vec<u8>, leads: &[u8], ledger: &Columns) -> Result<(), AllocError>
    requires { AreLeadsIn ledger.now leads.now }
    ensures { OnOk result (ArePlacesIn ledger.now places.new.items) }
{
    let total = ledger.total();
    if places.len() != total {
        places.resize(total, 0)?;
    }
    put_places(places, leads, ledger);
    Ok(())
}

/// The place of each task.
fn put_places(places: &mut [u8], leads: &[u8], ledger: &Columns)
    requires long { length places.old ≡ total ledger.now }
    requires leads { AreLeadsIn ledger.now leads.now }
    ensures { ArePlacesIn ledger.now places.new }
{
    let _total = ledger.total();
    let (lags, es) = (ledger.lags(), ledger.es());
    for x in 0..places.len() {
        places[x] = place_by(ledger, x, lags[x], es[x], leads[x]);
    }
}

/// The place of a task: its lead if it may run.
fn place_by(ledger: &Columns, x: usize, lag: i32, e: i32, lead: u8) -> u8
    requires within { x < total ledger.now }
    requires lag { lag ≡ lag_in ledger.now x }
    requires e { e ≡ e_in ledger.now x }
    requires lead { lead ≡ near ledger.now x }
    ensures { result ≡ place ledger.now x }
{
    let _total = ledger.total();
    if lag + e > 0 { lead } else { 255 }
}

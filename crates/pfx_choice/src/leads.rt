//! Each task's lead: the slots before the one at whose end its next subtask ends.
//!
//! It is guessed by that of the slot before, which was one more if the task rested, and tested by a product. Only if the
//! guess is wrong, as for the tasks that ran, a division gives it. So no answer rests on what was kept.
//!
//! Why it is so:
//! - **Leads are guessed and tested, and are no column of the ledger.** A lead falls by one if the task rests, so one product and two
//!   comparisons tell whether the guess is right, several tasks at a time, and a division computes those of the tasks that ran. The
//!   guesses are the chooser's, any of them will do, and so the ledger, recovery and a ledger that is given need nothing new.
//! - **What is searched isn't written meanwhile.** Leads that a slot guesses stand in a vector of their own, which the search for unknown
//!   ones reads, while their quotients go elsewhere: a vector that was just written in part is read only once the byte is there, and so
//!   each division would wait for the one before.

ghost use Rattle.std.specs.Prelude.{◌≡◌, ◌≢◌, ℕ, ◌-◌, ◌/◌, ◌<◌, ◌≤◌, ◌^◌, min, pos, neg_ℤ, ◌≤ℤ◌, ◌-ℤ◌, length, slice_index_or, OnOk};
ghost use Rattle.pfx_columns.specs.Columns.{lag_in, e_in, p_in};
ghost use Rattle.pfx_columns.specs.Ledgers.{total};
ghost use Rattle.pfx_choice.specs.Places.{near, AreLeadsIn, AreNear};

use pfx_columns::Columns;
use pfx_weights::first_from;
use std::alloc::AllocError;

/// What stands for each greater lead too.
const FAR: u8 = 254;

/// What stands for no lead.
const UNKNOWN: u8 = 255;

/// Takes the lead of each task, or 254 if it is more, guessed by what stands there. `guesses` is room for what is guessed: where it is
/// searched nothing is written, so that a search needn't wait for a division.
pub fn take_leads(
    leads: &mut Vec<u8>,
    guesses: &mut Vec<u8>,
    ledger: &Columns,
) -> Result<(), AllocError>
    ensures { OnOk result (AreLeadsIn ledger.now leads.new.items) }
{
    let total = ledger.total();
    if leads.len() != total {
        leads.resize(total, 0)?;
    }
    if guesses.len() != total {
        guesses.resize(total, 0)?;
    }
    guess_leads(guesses, leads, ledger);
    leads.copy_from_slice(guesses);
    divide_leads(leads, guesses, ledger);
    Ok(())
}

/// Guesses each lead by the last one; 255 stands if the guess is wrong.
fn guess_leads(guesses: &mut [u8], last: &[u8], ledger: &Columns)
    requires guesses { length guesses.old ≡ total ledger.now }
    requires last { length last.now ≡ total ledger.now }
    ensures { AreNear ledger.now guesses.new }
{
    let _total = ledger.total();
    let (lags, es, ps) = (ledger.lags(), ledger.es(), ledger.ps());
    for x in 0..guesses.len() {
        guesses[x] = guessed(ledger, x, lags[x], es[x], ps[x], last[x]);
    }
}

/// Divides out the leads that weren't guessed.
fn divide_leads(leads: &mut [u8], guesses: &[u8], ledger: &Columns)
    requires guesses { AreNear ledger.now guesses.now }
    requires leads { leads.old ≡ guesses.now }
    ensures { AreLeadsIn ledger.now leads.new }
{
    let _total = ledger.total();
    let (lags, es, ps) = (ledger.lags(), ledger.es(), ledger.ps());
    let mut x = first_from(guesses, UNKNOWN, 0);
    'unknown: while x < guesses.len() {
        leads[x] = divided(ledger, x, lags[x], es[x], ps[x]);
        x = first_from(guesses, UNKNOWN, x + 1);
    }
}

/// A task's lead, where it is what the last one leads one to guess, and else 255.
fn guessed(ledger: &Columns, x: usize, lag: i32, e: i32, p: i32, last: u8) -> u8
    requires within { x < total ledger.now }
    requires lag { lag ≡ lag_in ledger.now x }
    requires e { e ≡ e_in ledger.now x }
    requires p { p ≡ p_in ledger.now x }
    ensures { result ≢ 255 → result ≡ near ledger.now x }
{
    let _total = ledger.total();
    tested(guess_by(last), natural(e), left_of(p, lag))
}

/// The lead to try where the last one was this: that of a task that rested.
fn guess_by(last: u8) -> u8 {
    if last == FAR {
        FAR
    } else if last == 0 {
        UNKNOWN
    } else {
        last - 1
    }
}

/// The guess if it is right, and else 255.
fn tested(guess: u8, e: u32, left: u32) -> u8
    requires weight { (1 ≤ e) × (e ≤ 2 ^ 20) }
    requires left { 1 ≤ left }
    ensures { result ≢ 255 → result ≡ min ((left - 1) / e) 254 }
{
    let start = e * u32::from(guess);
    if start < left && (guess == FAR || left <= start + e) {
        guess
    } else {
        UNKNOWN
    }
}

/// A task's lead, or 254 if it is more.
fn divided(ledger: &Columns, x: usize, lag: i32, e: i32, p: i32) -> u8
    requires within { x < total ledger.now }
    requires lag { lag ≡ lag_in ledger.now x }
    requires e { e ≡ e_in ledger.now x }
    requires p { p ≡ p_in ledger.now x }
    ensures { result ≡ near ledger.now x }
{
    let _total = ledger.total();
    quotient(natural(e), left_of(p, lag))
}

/// The quotient, or 254 if it is more.
fn quotient(e: u32, left: u32) -> u8
    requires { (1 ≤ e) × (1 ≤ left) }
    ensures { result ≡ min ((left - 1) / e) 254 }
{
    let lead = (left - 1) / e;
    if lead < 254 { lead as u8 } else { FAR }
}

/// A number that isn't below 0.
fn natural(x: i32) -> u32
    requires { pos 0 ≤ℤ x }
    ensures { pos result ≡ x }
{
    x as u32
}

/// What is left to the end of a task's next subtask, in e-ths of a slot: its period less its lag.
fn left_of(p: i32, lag: i32) -> u32
    requires limit { p ≤ℤ pos 1048576 }
    requires low { neg_ℤ p ≤ℤ lag }
    requires high { lag ≤ℤ p }
    ensures { pos result ≡ p -ℤ lag }
{
    (p - lag) as u32
}

//! The choice by counting, as the function behind it is defined: slow, and proved to be it.

ghost use Rattle.std.specs.Prelude.{◌≡◌, ◌-◌, ◌<◌, IfOk};
ghost use Rattle.pfx_symbols.specs.Ranks.{rank_cmp};
ghost use Rattle.pfx_weights.specs.Rows.{members};
ghost use Rattle.pfx_columns.specs.Ledgers.{total};
ghost use Rattle.pfx_choice.specs.Choices.{urgent};
ghost use Rattle.pfx_choice.specs.PfRows.{is_greater, rival, rivals, pf_set};

use pfx_columns::Columns;
use pfx_symbols::{Class, Rank, compare};
use std::alloc::{AllocError, Global};
use std::cmp::Ordering;

/// Whether a rank is above another.
fn is_above(a: &Rank, b: &Rank) -> bool
    ensures { result ≡ is_greater (rank_cmp a.now b.now) }
{
    match compare(a, b) {
        Ordering::Greater => true,
        Ordering::Equal | Ordering::Less => false,
    }
}

/// Whether `y` contends and beats `x`.
fn beats(ledger: &Columns, y: usize, x: usize) -> bool
    requires y_within { y < total ledger.now }
    requires x_within { x < total ledger.now }
    ensures { result ≡ rival ledger.now x y }
{
    let _total = ledger.total();
    match ledger.class(y) {
        Class::Contending => is_above(&ledger.rank(y), &ledger.rank(x)),
        _ => false,
    }
}

/// How many contending tasks beat `x`.
fn beaten_by(ledger: &Columns, x: usize) -> usize
    requires { x < total ledger.now }
    ensures { result ≡ rivals ledger.now x }
{
    let mut number = 0;
    for y in 0..ledger.total() {
        if beats(ledger, y, x) {
            number += 1;
        }
    }
    number
}

/// How many tasks are urgent.
pub fn urgent_tasks(ledger: &Columns) -> usize
    ensures { result ≡ urgent ledger.now }
{
    let mut number = 0;
    for x in 0..ledger.total() {
        if matches!(ledger.class(x), Class::Urgent) {
            number += 1;
        }
    }
    number
}

/// Whether a task runs, if that many places are left for contending tasks.
fn runs(ledger: &Columns, x: usize, places: usize) -> bool
    requires within { x < total ledger.now }
    requires places { places ≡ ledger.now.set.workers - urgent ledger.now }
    ensures { result ≡ pf_set ledger.now x }
{
    match ledger.class(x) {
        Class::Urgent => true,
        Class::Contending => beaten_by(ledger, x) < places,
        Class::Tnegru => false,
    }
}

/// The tasks that run, if the urgent ones have places and the contending ones fill the rest.
pub fn plain_row(alloc: Global, ledger: &Columns) -> Result<Vec<u16>, AllocError>
    ensures { IfOk result (λ row. row.items ≡ members (total ledger.now) (pf_set ledger.now)) }
{
    let places = (ledger.workers() as usize).saturating_sub(urgent_tasks(ledger));
    let mut row = Vec::new(alloc);
    for x in 0..ledger.total() {
        if runs(ledger, x, places) {
            row.push(x as u16)?;
        }
    }
    Ok(row)
}

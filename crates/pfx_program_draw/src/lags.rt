//! Lags along the slots that are drawn.
//!
//! Why it is so:
//! - **A lag stands as a fraction over its own period and as a decimal number beside it**: fractions are exact, decimals can be compared
//!   down a column. One denominator for all would be the hyperperiod, of up to seven digits.

ghost use Rattle.std.specs.Prelude.{◌≡◌, ◌++◌, ◌≤◌, ◌<◌, ◌+◌, ◌*◌, ◌^◌, OnOk, IfOk, length, max};
ghost use Rattle.pfx_weights.specs.Rows.{one};
ghost use Rattle.pfx_program_draw.specs.Bars.{has};
ghost use Rattle.pfx_program_draw.specs.Lags.{behind_by, ahead_by, signed, lag_text, hundredths, point_text, point_lag, level_by, level, levels, summed, IsCourse};

use crate::bars::has;
use crate::text::{put_bytes, put_number, put_with_number};
use std::alloc::{AllocError, Global};

/// A task of weight e/p, which got `alloc` of the slots before the first that is drawn.
#[derive(Clone, Copy)]
pub struct Course {
    /// How many slots it is due,
    pub e: u64,
    /// of so many.
    pub p: u64,
    /// The first slot that is drawn.
    pub slot: u64,
    /// How many of the slots before that it got.
    pub alloc: u64,
}

/// What is said of all slots that are drawn.
#[derive(Clone, Copy)]
pub struct Summary {
    /// In how many of them the task runs.
    pub runs: u64,
    /// The greatest lag behind one of them, in p-ths of a slot, if the task is behind,
    pub behind: u64,
    /// and if it is ahead.
    pub ahead: u64,
}

/// What a task is due after `i` slots, in p-ths of a slot.
#[tactic(auto, using(crate::proofs::Bounds::product_within))]
fn due(c: Course, i: u64) -> u64
    requires course { IsCourse c }
    requires within { i ≤ 1440 }
    ensures due { result ≡ c.e * (c.slot + i) }
    ensures small { result ≤ 2 ^ 20 * (2 ^ 40 + 1440) }
{
    c.e * (c.slot + i)
}

/// What it got, if it got `k` of them.
#[tactic(auto, using(crate::proofs::Bounds::product_within))]
fn got(c: Course, k: u64) -> u64
    requires course { IsCourse c }
    requires within { k ≤ 1440 }
    ensures got { result ≡ c.p * (c.alloc + k) }
    ensures small { result ≤ 2 ^ 20 * (2 ^ 40 + 1440) }
{
    c.p * (c.alloc + k)
}

/// By how much a task is behind.
pub(crate) fn behind_by(c: Course, i: u64, k: u64) -> u64
    requires course { IsCourse c }
    requires slots { i ≤ 1440 }
    requires runs { k ≤ 1440 }
    ensures by { result ≡ behind_by c i k }
    ensures small { result ≤ 2 ^ 20 * (2 ^ 40 + 1440) }
{
    due(c, i).saturating_sub(got(c, k))
}

/// By how much it is ahead.
pub(crate) fn ahead_by(c: Course, i: u64, k: u64) -> u64
    requires course { IsCourse c }
    requires slots { i ≤ 1440 }
    requires runs { k ≤ 1440 }
    ensures by { result ≡ ahead_by c i k }
    ensures small { result ≤ 2 ^ 20 * (2 ^ 40 + 1440) }
{
    got(c, k).saturating_sub(due(c, i))
}

fn put_signed(alloc: Global, text: &mut Vec<u8>, behind: u64, ahead: u64) -> Result<(), AllocError>
    ensures { OnOk result (text.new.items ≡ text.old.items ++ signed behind ahead) }
{
    if ahead > 0 {
        put_with_number(alloc, text, "-", ahead)
    } else {
        put_number(alloc, text, behind)
    }
}

/// Puts the lag after `i` slots, of which the task got `k`, as `-1/3`.
pub(crate) fn put_lag(
    alloc: Global,
    text: &mut Vec<u8>,
    c: Course,
    i: u64,
    k: u64,
) -> Result<(), AllocError>
    requires course { IsCourse c }
    requires slots { i ≤ 1440 }
    requires runs { k ≤ 1440 }
    ensures { OnOk result (text.new.items ≡ text.old.items ++ lag_text c i k) }
{
    put_signed(alloc, text, behind_by(c, i, k), ahead_by(c, i, k))?;
    put_with_number(alloc, text, "/", c.p)
}

fn hundredths(n: u64, p: u64) -> u64
    requires some { 1 ≤ p }
    requires small { p ≤ 2 ^ 20 }
    ensures { result ≡ hundredths n p }
{
    n % p * 100 / p
}

fn put_point(alloc: Global, text: &mut Vec<u8>, n: u64, p: u64) -> Result<(), AllocError>
    requires some { 1 ≤ p }
    requires small { p ≤ 2 ^ 20 }
    ensures { OnOk result (text.new.items ≡ text.old.items ++ point_text n p) }
{
    let behind = hundredths(n, p);
    put_number(alloc, text, n / p)?;
    put_with_number(alloc, text, ".", behind / 10)?;
    put_number(alloc, text, behind % 10)
}

/// Puts the lag after `i` slots, of which the task got `k`, as `-0.33`.
pub(crate) fn put_point_lag(
    alloc: Global,
    text: &mut Vec<u8>,
    c: Course,
    i: u64,
    k: u64,
) -> Result<(), AllocError>
    requires course { IsCourse c }
    requires slots { i ≤ 1440 }
    requires runs { k ≤ 1440 }
    ensures { OnOk result (text.new.items ≡ text.old.items ++ point_lag c i k) }
{
    let ahead = ahead_by(c, i, k);
    if ahead > 0 {
        put_bytes(text, "-".as_bytes())?;
        put_point(alloc, text, ahead, c.p)
    } else {
        put_point(alloc, text, behind_by(c, i, k), c.p)
    }
}

fn level_by(behind: u64, ahead: u64) -> u64
    requires { ahead ≤ 2 ^ 63 }
    ensures { result ≡ level_by behind ahead }
{
    if behind > 0 {
        behind
    } else if ahead > 0 {
        3 + ahead
    } else {
        0
    }
}

fn level(c: Course, i: u64, k: u64) -> u64
    requires course { IsCourse c }
    requires slots { i ≤ 1440 }
    requires runs { k ≤ 1440 }
    ensures { result ≡ level c i k }
{
    let behind = 4 * behind_by(c, i, k) / c.p;
    let ahead = 4 * ahead_by(c, i, k) / c.p;
    level_by(behind, ahead)
}

/// How many slots a task got with the `i`-th, if it got `k` of those before.
pub(crate) fn counted(k: u64, marks: &[u64], i: usize) -> u64
    requires { k ≤ 1440 }
    ensures { result ≡ k + one (has marks.now 1 i) }
{
    if has(marks, 1, i) { k + 1 } else { k }
}

/// The levels before each slot.
#[tactic(auto, using(crate::proofs::Pieces::each_one, crate::proofs::Pieces::each_none, crate::proofs::Pieces::count_more, crate::proofs::Pieces::no_count))]
pub(crate) fn levels(alloc: Global, c: Course, marks: &[u64]) -> Result<Vec<u64>, AllocError>
    requires course { IsCourse c }
    requires limit { length marks.now ≤ 1440 }
    ensures levels { IfOk result (λ v. v.items ≡ levels c marks.now) }
    ensures count { IfOk result (λ v. length v.items ≡ length marks.now) }
{
    let mut found = Vec::new(alloc);
    let mut k = 0;
    for i in 0..marks.len() {
        found.push(level(c, i as u64, k))?;
        k = counted(k, marks, i);
    }
    Ok(found)
}

/// What is said of all slots.
#[tactic(auto, using(crate::proofs::Pieces::most_more, crate::proofs::Pieces::most_none, crate::proofs::Pieces::count_more, crate::proofs::Pieces::no_count))]
pub(crate) fn summed(c: Course, marks: &[u64]) -> Summary
    requires course { IsCourse c }
    requires limit { length marks.now ≤ 1440 }
    ensures is { result ≡ summed c marks.now }
    ensures few { result.runs ≤ 1440 }
{
    let mut k = 0;
    let mut behind = 0;
    let mut ahead = 0;
    for i in 0..marks.len() {
        k = counted(k, marks, i);
        behind = greater(behind, behind_by(c, i as u64 + 1, k));
        ahead = greater(ahead, ahead_by(c, i as u64 + 1, k));
    }
    Summary {
        runs: k,
        behind,
        ahead,
    }
}

/// The greater of two numbers.
pub(crate) fn greater(a: u64, b: u64) -> u64
    ensures { result ≡ max a b }
{
    if a < b { b } else { a }
}

//! The tasks of a row, marked by what their strings are to that of one task.
//!
//! A level is 1 for a task that runs, 2 for one that rests, and 0 for one whose string is that of the one task: of those the first ones
//! run. So if all tasks have one weight, their classes are their levels.

ghost use Rattle.std.specs.Prelude.{◌≡◌, ◌≢◌, ℕ, ◌<◌, ◌≤◌, ◌||◌, ◌&&◌, ◌==◌, nat_lt, if◌then◌else◌, length, pos, slice_index_or, IsTrue};
ghost use Rattle.std.specs.Cmp.Lexicographic.{slice_cmp};
ghost use Rattle.pfx_weights.specs.Rows.{marked_in};
ghost use Rattle.pfx_symbols.specs.Ranks.{substring};
ghost use Rattle.pfx_symbols.specs.Symbols.{symbol_cmp};
ghost use Rattle.pfx_columns.specs.Ledgers.{rank, total};
ghost use Rattle.pfx_choice.specs.Kinds.{IsOf};
ghost use Rattle.pfx_choice.specs.Levels.{level_number, string_level, AreLevels, AreShared, AreTold};
ghost use Rattle.pfx_choice.specs.Picks.{AreClasses, AreMarks};
ghost use Rattle.pfx_choice.specs.Renewed.{AreRenewed};

use crate::counts::count_marked;
use crate::kind::Kind;
use pfx_columns::Columns;
use pfx_symbols::{Rank, compare};
use pfx_weights::first_from;
use std::cmp::Ordering;

/// Takes the level of each kind's string to that of the kind `pivot`.
pub fn tell_levels(
    levels: &mut [u8],
    kinds: &[Kind],
    firsts: &[u16],
    ledger: &Columns,
    pivot: usize,
)
    requires levels { length levels.old ≡ length firsts.now }
    requires kinds { AreRenewed ledger.now firsts.now kinds.now }
    requires firsts { (k : ℕ) → k < length firsts.now → slice_index_or firsts.now k 0 < total ledger.now }
    requires pivot { pivot < length firsts.now }
    ensures { AreTold ledger.now (slice_index_or firsts.now pivot 0) firsts.now levels.new }
{
    let q = usize::from(firsts[pivot]);
    for k in 0..levels.len() {
        levels[k] = if k == pivot {
            0
        } else {
            level_of(&kinds[k], &kinds[pivot], ledger, usize::from(firsts[k]), q)
        };
    }
}

/// The level of task x's string to that of task q, by their kinds.
#[inline(always)]
fn level_of(kind: &Kind, other: &Kind, ledger: &Columns, x: usize, q: usize) -> u8
    requires tasks { (x < total ledger.now) × (q < total ledger.now) }
    requires kind { IsOf (rank ledger.now x) kind.now.gap kind.now.key }
    requires other { IsOf (rank ledger.now q) other.now.gap other.now.key }
    ensures { result ≡ string_level ledger.now q x }
{
    let _total = ledger.total();
    if kind.gap != other.gap {
        return if kind.gap < other.gap { 1 } else { 2 };
    }
    if kind.key.number != other.key.number {
        return if kind.key.number < other.key.number {
            1
        } else {
            2
        };
    }
    if kind.key.whole && other.key.whole {
        return 0;
    }
    level_by_strings(&ledger.rank(x), &ledger.rank(q))
}

/// The same without keys.
#[inline(never)]
fn level_by_strings(a: &Rank, b: &Rank) -> u8
    ensures { result ≡ level_number (slice_cmp symbol_cmp (substring a.now) (substring b.now)) }
{
    let (a_phase, b_phase) = (a.phase(), b.phase());
    let ((e, p), (f, q)) = (a.weight(), b.weight());
    if let Ordering::Greater = compare(&Rank::new(a_phase, e, p, 1), &Rank::new(b_phase, f, q, 0)) {
        return 1;
    }
    if let Ordering::Less = compare(&Rank::new(a_phase, e, p, 0), &Rank::new(b_phase, f, q, 1)) {
        return 2;
    }
    0
}

/// Puts the level of its kind in place of each contending task's class.
pub fn level_classes(
    classes: &mut [u8],
    levels: &[u8],
    of_tasks: &[u16],
    ledger: &Columns,
    q: usize,
)
    requires classes { AreClasses ledger.now classes.old }
    requires levels { AreShared ledger.now q of_tasks.now levels.now }
    ensures { AreLevels ledger.now q classes.new }
{
    let _total = ledger.total();
    for x in 0..classes.len() {
        classes[x] = level_by(classes[x], levels[usize::from(of_tasks[x])]);
    }
}

/// The level of a task of this class, whose string has this level.
#[inline(always)]
fn level_by(class: u8, level: u8) -> u8
    ensures { result ≡ (if class == 0 then level else class) }
{
    if class == 0 { level } else { class }
}

/// Marks the tasks of PF's row, if there are as many at level 1, and the first ones at level 0, as workers.
pub fn mark_by_levels(levels: &mut [u8], ledger: &Columns, q: usize) -> bool
    requires levels { AreLevels ledger.now q levels.old }
    requires pivot { q < total ledger.now }
    ensures { IsTrue result → AreMarks ledger.now levels.new }
{
    let m = ledger.workers() as usize;
    let _total = ledger.total();
    let over = count_marked(levels);
    if over > m {
        return false;
    }
    mark_first(levels, m - over);
    count_marked(levels) == m
}

/// Puts 1 in the first `k` places that are 0.
fn mark_first(levels: &mut [u8], k: usize)
    ensures { (end : ℕ) × ((x : ℕ) → x < length levels.old → marked_in levels.new x ≡ (marked_in levels.old x || ((slice_index_or levels.old x 0 == 0) && nat_lt x end))) }
{
    let mut left = k;
    let mut x = first_from(levels, 0, 0);
    'first: while left > 0 && x < levels.len() {
        levels[x] = 1;
        left -= 1;
        x = first_from(levels, 0, x + 1);
    }
}

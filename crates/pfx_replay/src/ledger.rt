// A ledger as plain numbers, and PF's row by counting who beats whom.
//
// Why it is so:
// - **PF's row is counted, not chosen**: each task's class and its rivals are found from weights, slot and allocations, and two tasks'
//   symbols are worked out anew for each comparison. That is slow, and shares no code with the chooser or the lanes.
ghost use Rattle.std.specs.Prelude.{◌≡◌, ◌≢◌, ◌↔◌, ◌≤◌, ◌<◌, ◌+◌, ◌-◌, ◌^◌, ℕ, List, length, slice_index, IsTrue, IfOk, Ok, MatchOption};
ghost use Rattle.pfx_weights.specs.Rows.{is_in, one};
ghost use Rattle.pfx_columns.specs.Ledgers.{add, after, class, start, task};
ghost use Rattle.pfx_columns.specs.Levels.{IsLevel};
ghost use Rattle.pfx_choice.specs.Choices.{contending, is_contending, is_urgent, order, urgent};
ghost use Rattle.pfx_choice.specs.PfRows.{chosen, is_greater, pf_set, rival, rivals};
ghost use Rattle.pfx_replay.specs.Shown.{ledger_of};

use crate::numbers::PlainLedger;
use crate::symbols::{class_at, compare, is_even};
use pfx_columns::Columns;
use pfx_symbols::Class;
use pfx_weights::TaskSet;
use std::alloc::{AllocError, Global};
use std::cmp::Ordering;

// Whether a row holds a task.
pub(crate) fn holds(row: &[u16], task: usize) -> bool
    ensures { result ≡ is_in row.now task }
{
    for x in row {
        if usize::from(*x) == task {
            return true;
        }
    }
    false
}

// The number one for what holds, else none.
fn one(holds: bool) -> u64
    ensures count { result ≡ one holds }
    ensures few { result ≤ 1 }
{
    if holds { 1 } else { 0 }
}

// Gives each task of the row a slot.
fn add_all(allocations: &mut Vec<u64>, row: &[u16])
    requires { (x : ℕ) → x < length allocations.old.items → slice_index allocations.old.items x < 2 ^ 41 }
    ensures { allocations.new.items ≡ add (is_in row.now) 0 allocations.old.items }
{
    for x in 0..allocations.len() {
        allocations[x] += one(holds(row, x));
    }
}

impl PlainLedger {
    /// The numbers of a ledger that is kept in columns.
    pub(crate) fn of(alloc: Global, columns: &Columns) -> Result<PlainLedger, AllocError>
        ensures { IfOk result (λ l. ledger_of l ≡ columns.now) }
    {
        let total = columns.total();
        let mut weights = Vec::with_capacity(alloc, total)?;
        let mut allocations = Vec::with_capacity(alloc, total)?;
        for x in 0..total {
            weights.push(columns.weight(x))?;
            allocations.push(columns.alloc(x))?;
        }
        Ok(PlainLedger {
            workers: columns.workers(),
            real: columns.real(),
            hyper: columns.hyper(),
            weights,
            slot: columns.slot(),
            allocations,
        })
    }

    /// The ledger that a set begins with.
    pub(crate) fn begin(alloc: Global, set: &TaskSet) -> Result<PlainLedger, AllocError>
        ensures { IfOk result (λ l. ledger_of l ≡ start set.now) }
    {
        let total = set.total();
        let mut weights = Vec::with_capacity(alloc, total)?;
        let mut allocations = Vec::with_capacity(alloc, total)?;
        for x in 0..total {
            weights.push(set.weight(x))?;
            allocations.push(0)?;
        }
        Ok(PlainLedger {
            workers: set.workers(),
            real: set.real(),
            hyper: set.hyper(),
            weights,
            slot: 0,
            allocations,
        })
    }

    // The weight (e, p) of a task.
    fn weight(&self, x: usize) -> (u64, u64)
        requires { x < length self.now.weights.items }
        ensures e { result.0 ≡ (task (ledger_of self.now) x).e }
        ensures p { result.1 ≡ (task (ledger_of self.now) x).p }
        ensures below { result.0 < result.1 }
        ensures limit { result.1 ≤ 2 ^ 20 }
    {
        let (e, p) = self.weights[x];
        (u64::from(e), u64::from(p))
    }

    // How many slots a task got.
    fn got(&self, x: usize) -> u64
        requires { x < length self.now.weights.items }
        ensures got { result ≡ (task (ledger_of self.now) x).alloc }
        ensures limit { result < 2 ^ 41 }
    {
        self.allocations[x]
    }

    /// Whether each task got just what it was due.
    pub(crate) fn is_level(&self) -> bool
        ensures { IsTrue result ↔ IsLevel (ledger_of self.now) }
    {
        for x in 0..self.weights.len() {
            let (e, p) = self.weight(x);
            if !is_even(e, p, self.got(x), self.slot) {
                return false;
            }
        }
        true
    }

    /// The class of a task at the slot to come.
    pub(crate) fn class(&self, x: usize) -> Class
        requires { x < length self.now.weights.items }
        ensures { result ≡ class (ledger_of self.now) x }
    {
        let (e, p) = self.weight(x);
        class_at(e, p, self.got(x), self.slot)
    }

    // Whether task x goes before task y.
    fn beats(&self, x: usize, y: usize) -> bool
        requires first { x < length self.now.weights.items }
        requires second { y < length self.now.weights.items }
        ensures { result ≡ is_greater (order (ledger_of self.now) x y) }
    {
        let (e, p) = self.weight(x);
        let (f, q) = self.weight(y);
        match compare(e, p, f, q, self.slot) {
            Ordering::Greater => true,
            Ordering::Less => false,
            Ordering::Equal => x < y,
        }
    }

    // Whether a task has to run.
    fn is_urgent(&self, x: usize) -> bool
        requires { x < length self.now.weights.items }
        ensures { result ≡ is_urgent (class (ledger_of self.now) x) }
    {
        matches!(self.class(x), Class::Urgent)
    }

    // Whether a task may run or rest.
    fn is_contending(&self, x: usize) -> bool
        requires { x < length self.now.weights.items }
        ensures { result ≡ is_contending (class (ledger_of self.now) x) }
    {
        matches!(self.class(x), Class::Contending)
    }

    // Whether task y contends and goes before task x.
    fn is_rival(&self, x: usize, y: usize) -> bool
        requires first { x < length self.now.weights.items }
        requires second { y < length self.now.weights.items }
        ensures { result ≡ rival (ledger_of self.now) x y }
    {
        self.is_contending(y) && self.beats(y, x)
    }

    // How many contending tasks go before this one.
    fn rivals(&self, x: usize) -> usize
        requires { x < length self.now.weights.items }
        ensures count { result ≡ rivals (ledger_of self.now) x }
        ensures few { result ≤ length self.now.weights.items }
    {
        let mut number = 0;
        for y in 0..self.weights.len() {
            number += usize::from(self.is_rival(x, y));
        }
        number
    }

    // How many tasks are urgent.
    fn urgent(&self) -> usize
        ensures count { result ≡ urgent (ledger_of self.now) }
        ensures few { result ≤ length self.now.weights.items }
    {
        let mut number = 0;
        for x in 0..self.weights.len() {
            number += usize::from(self.is_urgent(x));
        }
        number
    }

    // How many tasks contend.
    fn contending(&self) -> usize
        ensures count { result ≡ contending (ledger_of self.now) }
        ensures few { result ≤ length self.now.weights.items }
    {
        let mut number = 0;
        for x in 0..self.weights.len() {
            number += usize::from(self.is_contending(x));
        }
        number
    }

    // Whether a task runs, if the urgent ones leave so many places.
    fn runs(&self, x: usize, places: usize) -> bool
        requires within { x < length self.now.weights.items }
        requires places { places ≡ self.now.workers - urgent (ledger_of self.now) }
        ensures { result ≡ pf_set (ledger_of self.now) x }
    {
        match self.class(x) {
            Class::Urgent => true,
            Class::Tnegru => false,
            Class::Contending => self.rivals(x) < places,
        }
    }

    /// PF's row, or `None` if there is none: too many tasks are urgent, too few may run, or the slot is the last of
    /// all. An error comes only if an allocation failed.
    pub(crate) fn row(&self, alloc: Global) -> Result<Option<Vec<u16>>, AllocError>
        ensures { IfOk result (λ found. MatchOption found
            ((row : List ℕ) → chosen (ledger_of self.now) ≢ Ok row)
            (λ row. chosen (ledger_of self.now) ≡ Ok row.items)) }
    {
        let workers = self.workers as usize;
        let urgent = self.urgent();
        if self.slot + 1 >= 1 << 40 {
            return Ok(None);
        }
        if workers < urgent {
            return Ok(None);
        }
        if urgent + self.contending() < workers {
            return Ok(None);
        }
        let mut row = Vec::with_capacity(alloc, workers)?;
        for x in 0..self.weights.len() {
            if self.runs(x, workers - urgent) {
                row.push(x as u16)?;
            }
        }
        Ok(Some(row))
    }

    /// The ledger after this row, which is PF's, ran in the slot to come.
    pub(crate) fn after(self, row: &[u16]) -> PlainLedger
        requires { chosen (ledger_of self) ≡ Ok row.now }
        ensures { ledger_of result ≡ after (ledger_of self) (is_in row.now) }
    {
        let PlainLedger {
            workers,
            real,
            hyper,
            weights,
            slot,
            allocations,
        } = self;
        let mut allocations = allocations;
        add_all(&mut allocations, row);
        PlainLedger {
            workers,
            real,
            hyper,
            weights,
            slot: slot + 1,
            allocations,
        }
    }
}

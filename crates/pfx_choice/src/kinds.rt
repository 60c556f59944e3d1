//! The choice by kinds of tasks: those whose weights are one fraction.
//!
//! Of two contending tasks of one weight the one with the lower number goes first, at every slot. So where there are few kinds, these
//! are ordered and not the tasks.
//!
//! Why it is so:
//! - **Kinds stand beside the weights that they were found by**, which are compared with the ledger's at each choice. So kinds of another
//!   ledger are never used, and which kind a task is of needn't be tested task by task. It is tested that tasks of one kind have one
//!   fraction where kinds are found; `Fractions` keeps that as a fact.
//! - **The order of kinds and where the workers run out among them are guessed.** Tested is, at each slot, what each kind's string is to
//!   the one guessed, and that as many tasks are marked as there are workers. What fails goes the way of all other sets. So a chooser
//!   that comes to another ledger loses time alone, and kinds of equal strings, as 1/3 and 2/5 now and then, share their places by number
//!   as they must. If there is one kind, the tasks' classes are their levels.
//! - **Kinds are put in order by insertion**, since they mostly stand in it; std's sort would add 3 KB to the library.

ghost use Rattle.std.specs.Prelude.{◌≡◌, ℕ, ◌<◌, length, slice_index_or, IfSome};
ghost use Rattle.pfx_columns.specs.Ledgers.{total};
ghost use Rattle.pfx_choice.specs.Levels.{AreLevels};
ghost use Rattle.pfx_choice.specs.Picks.{AreClasses};
ghost use Rattle.pfx_choice.specs.Renewed.{AreRenewed};

use crate::counts::count_marked;
use crate::fractions::Fractions;
use crate::kind::Kind;
use crate::levels::{level_classes, tell_levels};
use pfx_columns::Columns;
use pfx_symbols::KeptKey;
use std::alloc::{AllocError, Global};

/// For how many choices kinds aren't tried where there were too many.
const LONG: u16 = 4000;

/// For how many they aren't tried where they didn't serve.
const SHORT: u16 = 16;

/// The kinds of the tasks of the last ledger. Whatever they say, the choice is tested.
#[derive(Drop)]
pub struct Kinds {
    fractions: Fractions,
    /// The string of each kind.
    kinds: Vec<Kind>,
    /// How many tasks of each kind contend.
    counts: Vec<u16>,
    /// What each kind's string is to that of the kind at which the workers run out.
    levels: Vec<u8>,
    /// The kinds in the order of the last choice.
    order: Vec<u16>,
    /// How many choices to come are made without kinds.
    rest: u16,
}

impl Kinds {
    /// No kinds, and no room yet.
    pub fn new(alloc: Global) -> Kinds {
        Kinds {
            fractions: Fractions::new(alloc),
            kinds: Vec::new(alloc),
            counts: Vec::new(alloc),
            levels: Vec::new(alloc),
            order: Vec::new(alloc),
            rest: 0,
        }
    }

    /// Whether there are few kinds, so that they are tried.
    pub fn are_few(&mut self, ledger: &Columns) -> bool {
        if self.rest > 0 {
            self.rest -= 1;
            return false;
        }
        if self.fractions.of_tasks.len() == ledger.total() {
            return true;
        }
        if let Ok(true) = self.find(ledger) {
            return true;
        }
        self.fractions.clear();
        self.rest = LONG;
        false
    }

    /// The kinds are found anew at the next choice but so many.
    pub fn forget(&mut self) {
        self.fractions.clear();
        self.rest = SHORT;
    }

    /// Finds the kinds of the tasks, or says that they are many.
    fn find(&mut self, ledger: &Columns) -> Result<bool, AllocError> {
        if !self.fractions.find(ledger)? {
            return Ok(false);
        }
        self.kinds.clear();
        self.counts.clear();
        self.levels.clear();
        self.order.clear();
        let n = self.fractions.firsts.len();
        for k in 0..n {
            self.kinds.push(Kind::none())?;
            self.counts.push(0)?;
            self.levels.push(0)?;
            self.order.push(k as u16)?;
        }
        Ok(true)
    }

    /// Puts the level of each task in place of its class, to the string of some task.
    pub fn put_levels(
        &mut self,
        classes: &mut [u8],
        kept: &mut [KeptKey],
        ledger: &Columns,
    ) -> Option<usize>
        requires { AreClasses ledger.now classes.old }
        ensures { IfSome result (λ q. (q < total ledger.now) × AreLevels ledger.now q classes.new) }
    {
        let _total = ledger.total();
        let fractions = &self.fractions;
        let n = fractions.firsts.len();
        if !fractions.are_of(ledger)
            || self.levels.len() != n
            || self.counts.len() != n
            || self.kinds.len() != n
        {
            return None;
        }
        if n == 1 {
            return Some(usize::from(fractions.firsts[0]));
        }
        count_kinds(&mut self.counts, &fractions.of_tasks, classes);
        renew(&mut self.kinds, &fractions.firsts, ledger, kept);
        let places = (ledger.workers() as usize).saturating_sub(count_marked(classes));
        let pivot = guess(&mut self.order, &mut self.counts, &self.kinds, places);
        if pivot >= n {
            return None;
        }
        tell_levels(
            &mut self.levels,
            &self.kinds,
            &fractions.firsts,
            ledger,
            pivot,
        );
        let q = usize::from(fractions.firsts[pivot]);
        level_classes(classes, &self.levels, &fractions.of_tasks, ledger, q);
        Some(q)
    }
}

/// Counts how many tasks of each kind contend.
fn count_kinds(counts: &mut [u16], of_tasks: &[u16], classes: &[u8])
    requires kinds { (x : ℕ) → x < length of_tasks.now → slice_index_or of_tasks.now x 0 < length counts.old }
    requires classes { length of_tasks.now ≡ length classes.now }
{
    for x in 0..of_tasks.len() {
        let k = usize::from(of_tasks[x]);
        counts[k] = counts[k].wrapping_add(u16::from(classes[x] == 0));
    }
}

/// Renews each kind.
fn renew(kinds: &mut [Kind], firsts: &[u16], ledger: &Columns, kept: &mut [KeptKey])
    requires kinds { length kinds.old ≡ length firsts.now }
    requires firsts { (k : ℕ) → k < length firsts.now → slice_index_or firsts.now k 0 < total ledger.now }
    ensures { AreRenewed ledger.now firsts.now kinds.new }
{
    for k in 0..kinds.len() {
        kinds[k].renew(ledger, usize::from(firsts[k]), kept);
    }
}

/// The kind at which so many workers run out, if it is found, and no task is counted any more.
fn guess(order: &mut [u16], counts: &mut [u16], kinds: &[Kind], workers: usize) -> usize {
    for i in 1..order.len() {
        sink(order, kinds, i);
    }
    let mut pivot = 0;
    let mut left = workers;
    let mut is_found = false;
    for i in 0..order.len() {
        let k = usize::from(order[i]);
        if k < counts.len() {
            let tasks = usize::from(counts[k]);
            counts[k] = 0;
            if !is_found && tasks > 0 {
                pivot = k;
                is_found = left <= tasks;
                left = left.saturating_sub(tasks);
            }
        }
    }
    pivot
}

/// Puts the `i`-th kind before those behind which it doesn't belong, if these are in order. Mostly it belongs where it is.
fn sink(order: &mut [u16], kinds: &[Kind], i: usize) {
    let mut j = i;
    'down: while j > 0 && j < order.len() && goes_before(kinds, order[j], order[j - 1]) {
        order.swap(j - 1, j);
        j -= 1;
    }
}

/// Whether the one kind's string is greater than the other's, as far as gaps and keys tell.
#[inline(always)]
fn goes_before(kinds: &[Kind], a: u16, b: u16) -> bool {
    match (kinds.get(usize::from(a)), kinds.get(usize::from(b))) {
        (Some(a), Some(b)) => a.gap < b.gap || (a.gap == b.gap && a.key.number < b.key.number),
        _ => false,
    }
}

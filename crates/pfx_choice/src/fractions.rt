//! The kinds of tasks: the tasks whose weights are one fraction.
//!
//! Why it is so:
//! - **All weights are compared with those kept**, and not up to the first that differs, so that several are compared at a time.

ghost use Rattle.std.specs.Prelude.{◌≡◌, ℕ, ◌<◌, ◌≤◌, pos, length, slice_index_or, IsTrue, IfOk, OnOk};
ghost use Rattle.pfx_columns.specs.Ledgers.{total};
ghost use Rattle.pfx_choice.specs.Kinds.{AreKinds, AreKindsIn, HaveOneWeight};

use pfx_columns::Columns;
use std::alloc::{AllocError, Global};

/// How many tasks a kind has at least, on average, where kinds are few; of the first 32 it is two.
const PART: usize = 16;

/// The kinds of the tasks with these weights.
#[derive(Drop)]
pub struct Fractions {
    /// Each task's kind, or nothing if they weren't found.
    pub of_tasks: Vec<u16>,
    /// The first task of each kind.
    pub firsts: Vec<u16>,
    es: Vec<i32>,
    ps: Vec<i32>,
    ghost kinds: { AreKinds es.items ps.items firsts.items of_tasks.items },
}

impl Fractions {
    /// Those of no tasks.
    pub fn new(alloc: Global) -> Fractions {
        Fractions {
            of_tasks: Vec::new(alloc),
            firsts: Vec::new(alloc),
            es: Vec::new(alloc),
            ps: Vec::new(alloc),
        }
    }

    /// Forgets them.
    pub fn clear(&mut self) {
        self.of_tasks.clear();
        self.firsts.clear();
    }

    /// Finds those of the ledger's tasks, or says that they are many.
    pub fn find(&mut self, ledger: &Columns) -> Result<bool, AllocError>
        ensures { length self.new.firsts.items ≤ 1152 }
    {
        let total = ledger.total();
        self.of_tasks.clear();
        self.firsts.clear();
        copy(&mut self.es, ledger.es())?;
        copy(&mut self.ps, ledger.ps())?;
        let most = total / PART + total.min(2 * PART) / 2;
        let found = sort(&mut self.of_tasks, &mut self.firsts, ledger, most);
        if let Ok(true) = found {
            return found;
        }
        self.of_tasks.clear();
        self.firsts.clear();
        found
    }

    /// Whether they are those of the ledger's tasks.
    pub fn are_of(&self, ledger: &Columns) -> bool
        ensures { IsTrue result → AreKindsIn ledger.now self.now.firsts.items self.now.of_tasks.items }
    {
        if self.of_tasks.len() != ledger.total() {
            return false;
        }
        are_same(&self.es, &self.ps, ledger.es(), ledger.ps())
    }
}

/// Puts these numbers in place of those that are there.
fn copy(to: &mut Vec<i32>, numbers: &[i32]) -> Result<(), AllocError>
    ensures { OnOk result (to.new.items ≡ numbers.now) }
{
    to.clear();
    to.extend_from_slice(numbers)
}

/// Whether the first two columns are the last two. It looks at each number, so that several are compared at a time.
#[inline(never)]
fn are_same(es: &[i32], ps: &[i32], us: &[i32], vs: &[i32]) -> bool
    ensures es_long { IsTrue result → length es.now ≡ length us.now }
    ensures ps_long { IsTrue result → length ps.now ≡ length vs.now }
    ensures es { IsTrue result → (x : ℕ) → x < length es.now → slice_index_or es.now x (pos 0) ≡ slice_index_or us.now x (pos 0) }
    ensures ps { IsTrue result → (x : ℕ) → x < length ps.now → slice_index_or ps.now x (pos 0) ≡ slice_index_or vs.now x (pos 0) }
{
    let n = es.len();
    if ps.len() != n || us.len() != n || vs.len() != n {
        return false;
    }
    let mut same = true;
    for x in 0..n {
        same = same & (es[x] == us[x]) & (ps[x] == vs[x]);
    }
    same
}

/// Takes the kind of each task, and the first task of each kind, or says that there are more than so many.
fn sort(
    of_tasks: &mut Vec<u16>,
    firsts: &mut Vec<u16>,
    ledger: &Columns,
    most: usize,
) -> Result<bool, AllocError>
    ensures few { OnOk result (length firsts.new.items ≤ total ledger.now) }
    ensures kinds { IfOk result (λ are_few. IsTrue are_few → AreKindsIn ledger.now firsts.new.items of_tasks.new.items) }
{
    let total = ledger.total();
    of_tasks.clear();
    firsts.clear();
    for x in 0..total {
        let k = kind_of(firsts, ledger, x);
        if k == firsts.len() {
            if k >= most {
                return Ok(false);
            }
            firsts.push(x as u16)?;
        }
        of_tasks.push(k as u16)?;
    }
    Ok(true)
}

/// The kind whose first task has the weight of this one, or the next kind if there is none.
fn kind_of(firsts: &[u16], ledger: &Columns, x: usize) -> usize
    requires task { x < total ledger.now }
    requires firsts { (k : ℕ) → k < length firsts.now → slice_index_or firsts.now k 0 < total ledger.now }
    ensures most { result ≤ length firsts.now }
    ensures same { result < length firsts.now → HaveOneWeight ledger.now x (slice_index_or firsts.now result 0) }
{
    for k in 0..firsts.len() {
        if have_one_weight(ledger, x, usize::from(firsts[k])) {
            return k;
        }
    }
    firsts.len()
}

/// Whether the weights of two tasks are one fraction.
#[inline(always)]
fn have_one_weight(ledger: &Columns, x: usize, y: usize) -> bool
    requires { (x < total ledger.now) × (y < total ledger.now) }
    ensures { IsTrue result → HaveOneWeight ledger.now x y }
{
    let _total = ledger.total();
    let ((e, p), (f, q)) = (ledger.weight(x), ledger.weight(y));
    u64::from(e) * u64::from(q) == u64::from(f) * u64::from(p)
}

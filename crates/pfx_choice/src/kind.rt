//! The string of one kind of tasks, as far as it is known.
//!
//! Why it is so:
//! - **A kind keeps the key of its string**, with the weight and the phase that it is of. While its tasks rest, the gap before that phase
//!   gets shorter by one a slot and the key stays: one product tells that the phase is the same, and else two divisions and a key are
//!   due.

ghost use Rattle.std.specs.Prelude.{◌≡◌, ◌+◌, ◌%◌, ◌<◌, ◌≤◌, ◌^◌};
ghost use Rattle.pfx_symbols.specs.RankKeys.{next_of};
ghost use Rattle.pfx_columns.specs.Ledgers.{rank, total};
ghost use Rattle.pfx_choice.specs.Kinds.{key_from, IsOf};

use pfx_columns::Columns;
use pfx_symbols::{KeptKey, Key, Rank, rank_key};

/// How many rounds keys of kinds tell.
const ROUNDS: u32 = 24;

/// The weight of a kind, and where the first gap of its string ends. While that is the same end, the key of what is behind it stays.
#[derive(Clone, Copy)]
pub struct Kind {
    e: u32,
    p: u32,
    /// The first gap of the string.
    pub gap: u32,
    /// The phase at the end of the gap.
    v: u32,
    /// The key of the string by its own gap.
    pub key: Key,
    ghost is: { key ≡ key_from e p v },
}

impl Kind {
    /// The one of no tasks.
    pub fn none() -> Kind {
        Kind {
            e: 0,
            p: 0,
            gap: 0,
            v: 0,
            key: Key {
                number: (1 << 62) + 1,
                whole: true,
            },
        }
    }

    /// Makes it that of task x. If it was so at the slot before, its gap is mostly one less now, and its key the same.
    #[inline(always)]
    pub fn renew(&mut self, ledger: &Columns, x: usize, kept: &mut [KeptKey])
        requires { x < total ledger.now }
        ensures { IsOf (rank ledger.now x) self.new.gap self.new.key }
    {
        let _total = ledger.total();
        let (e, p) = ledger.weight(x);
        let r = from_phase(e, p, ledger.phase(x));
        let gap = self.gap.wrapping_sub(1);
        let end = u64::from(r) + u64::from(e) * u64::from(gap);
        if end == u64::from(p) + u64::from(self.v) && self.v < e && self.e == e && self.p == p {
            self.gap = gap;
            return;
        }
        *self = found(&ledger.rank(x), r, kept);
    }
}

/// The phase from which a string is spelled at this one.
#[inline(always)]
fn from_phase(e: u32, p: u32, phase: u32) -> u32
    requires weight { (1 ≤ e) × (e < p) × (p ≤ 2 ^ 20) }
    requires phase { phase < p }
    ensures { result ≡ (phase + e) % p }
{
    let next = phase + e;
    if next < p { next } else { next - p }
}

/// The kind of a rank whose string is spelled from phase r on.
#[inline(never)]
fn found(rank: &Rank, r: u32, kept: &mut [KeptKey]) -> Kind
    requires { r ≡ next_of rank.now }
    ensures { IsOf rank.now result.gap result.key }
{
    let (e, p) = rank.weight();
    let gap = (p - r + e - 1) / e;
    let v = r + e * gap - p;
    let key = rank_key(rank, gap, ROUNDS, kept);
    Kind { e, p, gap, v, key }
}

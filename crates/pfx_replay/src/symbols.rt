// Symbols, substrings and classes, worked out anew from weights, slots and allocations.
ghost use Rattle.std.specs.Prelude.{◌≡◌, ◌≤◌, ◌<◌, ◌+◌, ◌*◌, ◌^◌, ◌↔◌, IsTrue};
ghost use Rattle.std.specs.Cmp.Lexicographic.{slice_cmp};
ghost use Rattle.pfx_columns.specs.Lags.{class_at};
ghost use Rattle.pfx_columns.specs.Levels.{is_even};
ghost use Rattle.pfx_symbols.specs.Symbols.{sign_of, substring_at, symbol_at, symbol_cmp};

use pfx_symbols::{Class, Symbol};
use std::cmp::Ordering;

// The sign of a - b.
fn sign(a: u64, b: u64) -> Symbol
    ensures { result ≡ sign_of a b }
{
    if a < b {
        Symbol::Minus
    } else if a == b {
        Symbol::Zero
    } else {
        Symbol::Plus
    }
}

/// The symbol of weight e/p at slot t.
pub(crate) fn symbol_at(e: u64, p: u64, t: u64) -> Symbol
    requires weight { e < p }
    requires period { p ≤ 2 ^ 20 }
    requires slot { t < 2 ^ 41 }
    ensures { result ≡ symbol_at e p t }
{
    let due = e * t;
    let floor = due / p;
    sign(due + e, p * floor + p)
}

// The order of two symbols.
fn order_of(one: Symbol, other: Symbol) -> Ordering
    ensures { result ≡ symbol_cmp one other }
{
    one.cmp(&other)
}

// Whether a symbol ends a substring.
fn is_zero(symbol: Symbol) -> bool
    ensures { IsTrue result ↔ (symbol ≡ Symbol.Zero) }
{
    matches!(symbol, Symbol::Zero)
}

/// How the substrings of weights e/p and f/q at slot t are ordered, symbol by symbol.
#[tactic(auto, unfolding(pfx_symbols::specs::Symbols::substring_at))]
pub(crate) fn compare(e: u64, p: u64, f: u64, q: u64, t: u64) -> Ordering
    requires first { e < p }
    requires second { f < q }
    requires periods { (p ≤ 2 ^ 20) × (q ≤ 2 ^ 20) }
    requires slot { t < 2 ^ 40 }
    ensures { result ≡ slice_cmp symbol_cmp (substring_at e p t) (substring_at f q t) }
{
    for i in 0..p.min(q) {
        let one = symbol_at(e, p, t + 1 + i);
        let other = symbol_at(f, q, t + 1 + i);
        match order_of(one, other) {
            Ordering::Equal => {
                if is_zero(one) {
                    return Ordering::Equal;
                }
            }
            order => return order,
        }
    }
    if p < q {
        return Ordering::Less;
    }
    if q < p {
        return Ordering::Greater;
    }
    Ordering::Equal
}

/// Whether a task of weight e/p that got a of the slots before slot t got just what it was due.
pub(crate) fn is_even(e: u64, p: u64, a: u64, t: u64) -> bool
    requires weight { e < p }
    requires period { p ≤ 2 ^ 20 }
    requires slot { t < 2 ^ 40 }
    requires got { a < 2 ^ 41 }
    ensures { result ≡ is_even t (record { e = e; p = p; alloc = a }) }
{
    p * a == e * t
}

/// The class at slot t of a task of weight e/p that got a of the slots before.
pub(crate) fn class_at(e: u64, p: u64, a: u64, t: u64) -> Class
    requires weight { e < p }
    requires period { p ≤ 2 ^ 20 }
    requires slot { t < 2 ^ 40 }
    requires got { a < 2 ^ 41 }
    ensures { result ≡ class_at e p a t }
{
    let due = e * t;
    let got = p * a;
    match (sign(due, got), symbol_at(e, p, t)) {
        (Symbol::Zero, _) => Class::Contending,
        (Symbol::Plus, Symbol::Minus) => Class::Contending,
        (Symbol::Plus, _) => Class::Urgent,
        (Symbol::Minus, Symbol::Plus) => Class::Contending,
        (Symbol::Minus, _) => Class::Tnegru,
    }
}

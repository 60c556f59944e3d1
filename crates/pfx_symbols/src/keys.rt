//! Keys of strings: numbers in the order of the strings, so that most pairs of strings are compared as two numbers.
//!
//! Two strings are ordered by their first gaps, then by their greatest gaps, and then as the strings that the further gaps
//! make: what a comparison by gaps finds in its rounds, a key tells in its bits. Each gap narrows the range of the keys to
//! the part of that gap's length, of which the lengths from 2^j to 2^(j+1) - 1 have one 2^(j+1)-th together. The
//! greater string has the lesser key. If the bits are used up before the string ends, strings with the same key may differ.

ghost use Rattle.std.specs.Prelude.{◌≡◌, ℕ, ◌+◌, ◌-◌, ◌*◌, ◌<◌, ◌≤◌, ◌^◌, true, false, zero, nat_lt};
ghost use Rattle.pfx_symbols.specs.Keys.{level, start, width, gap, above, back_from, gaps_key, key_behind};
ghost use Rattle.pfx_symbols.specs.Ranges.{placed, placed_at, IsRange, HasString, HasGaps, IsByGaps, IsByFirst};

use crate::gaps::steps;
use crate::range::Range;

/// How many keys there are but the last one.
pub(crate) const KEYS: u64 = 1 << 62;

/// The key of a string.
#[derive(Clone, Copy)]
pub struct Key {
    /// The number, up to 2^62.
    pub number: u64,
    /// Whether strings with the same key, of which this is told too, are the same.
    pub whole: bool,
}

/// The exponent of the greatest power of 2 up to `n`, and what `n` is above that power.
#[inline(always)]
fn level_of(n: u32) -> (u32, u32)
    requires { (1 ≤ n) × (n ≤ 2 ^ 20) }
    ensures level { result.0 ≡ level n }
    ensures rest { result.1 ≡ n - 2 ^ level n }
    ensures few { result.0 ≤ 20 }
{
    let level = n.ilog2();
    (level, n - (1 << level))
}

/// Where the keys of the number `n` begin in a range of so many, and how many they are.
#[inline(always)]
fn split(n: u32, size: u64) -> (u64, u64)
    requires number { (1 ≤ n) × (n ≤ 2 ^ 20) }
    requires size { size ≤ 2 ^ 62 }
    ensures start { result.0 ≡ start n size }
    ensures width { result.1 ≡ width n size }
    ensures within { result.0 + result.1 ≤ size }
{
    let (level, rest) = level_of(n);
    let width = size >> (2 * level + 1);
    (size - (size >> level) + u64::from(rest) * width, width)
}

impl Range {
    /// The part of the number `n`.
    #[inline(always)]
    fn part(self, n: u32) -> Range
        requires { (1 ≤ n) × (n ≤ 2 ^ 20) }
        ensures size { result.size ≡ width n self.size }
        ensures same { (key : Key) → placed self (above (start n self.size) key) ≡ placed result key }
    {
        let (start, size) = split(n, self.size);
        let low = if self.turned {
            self.low - start
        } else {
            self.low + start
        };
        Range {
            low,
            size,
            turned: self.turned,
        }
    }

    /// All of it but the last key.
    #[inline(always)]
    fn shorter(self) -> Range
        ensures size { result.size ≡ self.size - 1 }
        ensures same { (key : Key) → placed self key ≡ placed result key }
    {
        Range {
            low: self.low,
            size: self.size.saturating_sub(1),
            turned: self.turned,
        }
    }

    /// The same range from the other end.
    #[inline(always)]
    fn turned(self) -> Range
        ensures size { result.size ≡ self.size }
        ensures same { (key : Key) → key.number ≤ self.size → placed self (back_from self.size key) ≡ placed result key }
    {
        let low = if self.turned {
            self.low - self.size
        } else {
            self.low + self.size
        };
        Range {
            low,
            size: self.size,
            turned: !self.turned,
        }
    }

    /// The key at the end of it.
    #[inline(always)]
    fn last(self, whole: bool) -> Key
        ensures { result ≡ placed self (record { number = self.size; whole = whole }) }
    {
        let number = if self.turned {
            self.low - self.size
        } else {
            self.low + self.size
        };
        Key { number, whole }
    }
}

/// What is behind the first gap of a string.
pub enum First {
    /// Nothing: this is the string's key.
    Ends(Key),
    /// The string from phase `v` on, whose key is in the range.
    GoesOn(Range, u32),
}

/// The part of the range for the greatest gap of e/p, and the weight and the phase of the string that is left.
#[inline(always)]
fn by_gaps(range: Range, e: u32, p: u32, v: u32) -> (Range, u32, u32, u32)
    requires { HasGaps e p v }
    ensures { IsByGaps range e p v result.0 result.1 result.2 result.3 }
{
    let a = steps(e, p);
    let part = range.part(a - 1);
    if a == 2 {
        (part.shorter().turned(), p - e, p, p - v)
    } else {
        (part, e * a - p, e, v)
    }
}

/// The part of the range for the first gap of the string of e/p from phase r on, and what is behind it.
#[inline(always)]
fn by_first(range: Range, e: u32, p: u32, r: u32) -> First
    requires { HasString e p r }
    ensures { IsByFirst range e p r result }
{
    let i = steps(e, p - r);
    let part = range.part(i);
    let v = r + e * i - p;
    if v == 0 {
        First::Ends(part.shorter().last(part.size > 0))
    } else {
        First::GoesOn(part.shorter(), v)
    }
}

/// The key of the string of e/p from phase v on, behind a gap, by `k` rounds at the most.
pub(crate) fn key_of_gaps(e: u32, p: u32, v: u32, k: u32) -> Key
    requires { HasGaps e p v }
    ensures { result ≡ key_behind k e p v }
{
    let (mut e, mut p, mut v) = (e, p, v);
    let mut low: u64 = 0;
    let mut size = KEYS;
    let mut turned = false;
    'rounds: for _i in 0..k {
        if size == 0 {
            return Key {
                number: low,
                whole: false,
            };
        }
        let range = Range { low, size, turned };
        let (part, d, q, r) = by_gaps(range, e, p, v);
        match by_first(part, d, q, r) {
            First::Ends(key) => return key,
            First::GoesOn(rest, w) => {
                (low, size, turned) = (rest.low, rest.size, rest.turned);
                (e, p, v) = (d, q, w);
            }
        }
    }
    Key {
        number: low,
        whole: false,
    }
}

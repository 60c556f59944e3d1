//! Keys of ranks: numbers in the ranks' order, so that most ranks are compared as two numbers.

ghost use Rattle.std.specs.Prelude.{◌≡◌, ◌+◌, ◌-◌, ◌*◌, ◌<◌, ◌≤◌, ◌^◌};
ghost use Rattle.pfx_symbols.specs.Keys.{gap, key_behind};
ghost use Rattle.pfx_symbols.specs.Ranges.{HasGaps};
ghost use Rattle.pfx_symbols.specs.RankKeys.{by_gap, rank_key};

use crate::gaps::steps;
use crate::kept_key::KeptKey;
use crate::keys::{KEYS, Key, key_of_gaps};
use crate::ranks::{Rank, next_phase};

/// The key of a rank's substring, of which the greater one has the lesser key.
///
/// `guess` is the number of slots before the one at whose end the task's next subtask ends, if that is known: keys of one guess and
/// as many rounds of Euclid's algorithm stand in the order of the substrings. Those whose next subtasks end where it was guessed are
/// told best. The more rounds, the longer a key takes to find, and the seldomer two are equal. So keys that were found are kept, each
/// at one of up to 1,024 places, and serve a task as long as it rests, and other tasks of its weight. Whatever is kept, the key is the
/// same.
#[inline(always)]
pub fn rank_key(rank: &Rank, guess: u32, rounds: u32, kept: &mut [KeptKey]) -> Key
    ensures { result ≡ rank_key guess rounds rank.now }
{
    let (e, p) = rank.weight();
    let r = next_phase(e, p, rank.phase());
    let gap = first_gap(e, p, r, guess);
    let v = r + e * gap - p;
    let behind = if v == 0 {
        Key {
            number: KEYS,
            whole: true,
        }
    } else {
        key_at(kept, e, p, v, rounds)
    };
    by_gap(guess, gap, behind)
}

/// The key of a string with this first gap and this key of what is behind it.
#[inline(always)]
fn by_gap(guess: u32, gap: u32, behind: Key) -> Key
    requires gap { gap < 2 ^ 21 }
    requires behind { behind.number ≤ 2 ^ 62 }
    ensures { result ≡ by_gap guess gap behind }
{
    if gap == guess {
        return Key {
            number: behind.number + 1,
            whole: behind.whole,
        };
    }
    let number = if gap < guess {
        0
    } else {
        KEYS + u64::from(gap) * (1 << 40) + behind.number / (1 << 22)
    };
    Key {
        number,
        whole: false,
    }
}

/// How many symbols of e/p there are from phase r on, up to and with the first that isn't minus: `guess`, if that is right.
fn first_gap(e: u32, p: u32, r: u32, guess: u32) -> u32
    requires weight { (1 ≤ e) × (e < p) × (p ≤ 2 ^ 20) }
    requires phase { r < p }
    ensures value { result ≡ gap e (p - r) }
    ensures reach { p ≤ r + e * result }
    ensures least { r + e * result < p + e }
{
    let end = u64::from(r) + u64::from(e) * u64::from(guess);
    if u64::from(p) <= end && end < u64::from(p) + u64::from(e) {
        guess
    } else {
        steps(e, p - r)
    }
}

/// At which of 1,024 places the key of the string of e/p from phase v on is kept.
#[inline(always)]
fn place_of(e: u32, p: u32, v: u32) -> usize {
    let mixed = (v ^ p.wrapping_mul(0x85EB_CA6B) ^ e).wrapping_mul(0x9E37_79B1);
    (mixed >> 22) as usize
}

/// The key of the string of e/p from phase v on, which is kept in place of another one.
fn key_at(kept: &mut [KeptKey], e: u32, p: u32, v: u32, rounds: u32) -> Key
    requires { HasGaps e p v }
    ensures key { result ≡ key_behind rounds e p v }
    ensures most { result.number ≤ 2 ^ 62 }
{
    let at = place_of(e, p, v);
    if at >= kept.len() {
        return key_of_gaps(e, p, v, rounds);
    }
    let last = kept[at];
    if last.v == v && last.e == e && last.p == p && last.rounds == rounds {
        return last.key;
    }
    let key = key_of_gaps(e, p, v, rounds);
    kept[at] = KeptKey {
        e,
        p,
        v,
        rounds,
        key,
    };
    key
}

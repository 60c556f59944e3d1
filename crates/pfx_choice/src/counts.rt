//! How many bytes are below one, or 1, counted sixteen at a time.
//!
//! Why it is so:
//! - **Bytes are searched by the crate's own `first_from`**, sixteen at a time, the last ones with some before them. The kit's `memchr`
//!   goes byte by byte through less than 32, which is where small sets lie.
//! - **Bytes are counted by the bits of a comparison**, sixteen at a time, which takes a third of what sums of two-byte numbers take.

ghost use Rattle.std.specs.Prelude.{◌≡◌, ◌+◌, ◌≤◌, ◌==◌, nat_lt, length, take, drop, count_by};
ghost use Rattle.pfx_weights.specs.Rows.{count, marked_in};
ghost use Rattle.pfx_choice.specs.Cuts.{below};

use std::simd::prelude::*;

/// How many of the sixteen bytes from `at` on are below one.
#[inline(always)]
fn below_in_sixteen(bytes: &[u8], d: u8, at: usize) -> usize
    requires { at + 16 ≤ length bytes.now }
    ensures { result ≡ count_by (λ x. nat_lt x d) (take 16 (drop at bytes.now)) }
{
    let below = u8x16::from_slice(&bytes[at..]).simd_lt(u8x16::splat(d));
    below.to_bitmask().count_ones() as usize
}

/// How many of the sixteen bytes from `at` on are 1.
#[inline(always)]
fn marked_in_sixteen(bytes: &[u8], at: usize) -> usize
    requires { at + 16 ≤ length bytes.now }
    ensures { result ≡ count_by (λ x. x == 1) (take 16 (drop at bytes.now)) }
{
    let marked = u8x16::from_slice(&bytes[at..]).simd_eq(u8x16::splat(1));
    marked.to_bitmask().count_ones() as usize
}

/// How many places are below one.
#[inline(never)]
pub fn count_below(places: &[u8], d: u8) -> usize
    requires { length places.now ≤ 1152 }
    ensures number { result ≡ below places.now d }
    ensures within { result ≤ length places.now }
{
    let count = places.len();
    let mut number = 0;
    let mut at = 0;
    'vectors: while count - at >= 16 {
        number += below_in_sixteen(places, d, at);
        at += 16;
    }
    'tail: while at < count {
        number += usize::from(places[at] < d);
        at += 1;
    }
    number
}

/// How many places are 1.
pub fn count_marked(marks: &[u8]) -> usize
    requires { length marks.now ≤ 1152 }
    ensures { result ≡ count (length marks.now) (marked_in marks.now) }
{
    let count = marks.len();
    let mut number = 0;
    let mut at = 0;
    'vectors: while count - at >= 16 {
        number += marked_in_sixteen(marks, at);
        at += 16;
    }
    'tail: while at < count {
        number += usize::from(marks[at] == 1);
        at += 1;
    }
    number
}

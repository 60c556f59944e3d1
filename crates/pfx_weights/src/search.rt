//! The places of a byte, found sixteen at a time.

ghost use Rattle.std.specs.Prelude.{◌≡◌, ◌+◌, ◌<◌, ◌≤◌, length};
ghost use Rattle.pfx_weights.specs.Search.{IsFirstFrom, IsFirstOf, IsMaskOf, first_set};

use std::simd::prelude::*;

/// The place of the lowest bit that is set, or 16 if there is none.
#[inline(always)]
fn first_set(mask: u64) -> usize
    ensures { result ≡ first_set mask }
{
    if mask == 0 {
        16
    } else {
        mask.trailing_zeros() as usize
    }
}

/// A bit for each of the sixteen places from `at` on, set where the byte stands.
#[inline(always)]
fn mask_of(bytes: &[u8], byte: u8, at: usize) -> u64
    requires { at + 16 ≤ length bytes.now }
    ensures { IsMaskOf bytes.now byte at result }
{
    let same = u8x16::from_slice(&bytes[at..]).simd_eq(u8x16::splat(byte));
    same.to_bitmask()
}

/// At which of the sixteen places from `at` on the byte stands first, or 16.
#[inline(always)]
fn first_of_sixteen(bytes: &[u8], byte: u8, at: usize) -> usize
    requires { at + 16 ≤ length bytes.now }
    ensures { IsFirstOf bytes.now byte at 16 result }
{
    first_set(mask_of(bytes, byte, at))
}

/// At which of the places from `at` on, all among the last sixteen, the byte stands first, or the number of all places.
#[inline(always)]
fn first_of_last(bytes: &[u8], byte: u8, at: usize) -> usize
    requires long { 16 ≤ length bytes.now }
    requires last { length bytes.now ≤ at + 16 }
    requires within { at ≤ length bytes.now }
    ensures { IsFirstFrom bytes.now byte at result }
{
    let count = bytes.len();
    let start = count - 16;
    let mask = mask_of(bytes, byte, start) >> (at - start);
    let found = first_set(mask);
    if found < 16 { at + found } else { count }
}

/// The first place from `at` on at which the byte stands, or the number of all places.
#[inline(always)]
pub fn first_from(bytes: &[u8], byte: u8, at: usize) -> usize
    requires { at ≤ length bytes.now }
    ensures { IsFirstFrom bytes.now byte at result }
{
    let count = bytes.len();
    let mut from = at;
    // Where places stand close together, the next byte is mostly one.
    if from < count && bytes[from] == byte {
        return from;
    }
    'vectors: while count - from >= 16 {
        let found = first_of_sixteen(bytes, byte, from);
        if found < 16 {
            return from + found;
        }
        from += 16;
    }
    if count >= 16 {
        return first_of_last(bytes, byte, from);
    }
    'rest: while from < count && bytes[from] != byte {
        from += 1;
    }
    from
}

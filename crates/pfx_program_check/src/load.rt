//! The load of a set.

ghost use Rattle.std.specs.Prelude.{◌≡◌, ◌<◌, ◌≤◌, ◌^◌, length, All};
ghost use Rattle.std.specs.Int.{IsGcd};
ghost use Rattle.pfx_weights.specs.Sets.{IsWeight, demand};

/// The greatest common divisor.
pub(crate) fn greatest_common_divisor(a: u64, b: u64) -> u64
    requires { 0 < a }
    ensures greatest { IsGcd a b result }
    ensures positive { 0 < result }
{
    let mut large = a;
    let mut small = b;
    'euclid: while small > 0 {
        let rest = large % small;
        large = small;
        small = rest;
    }
    large
}

/// How many of `hyper` slots, over all workers, the tasks take.
pub(crate) fn demand(tasks: &[(u32, u32)], hyper: u32) -> u64
    requires count { length tasks.now ≤ 1024 }
    requires weights { All IsWeight tasks.now }
    requires within { hyper ≤ 2 ^ 20 }
    ensures { result ≡ demand hyper tasks.now }
{
    let mut sum: u64 = 0;
    for w in tasks {
        sum += u64::from(w.0) * u64::from(hyper / w.1);
    }
    sum
}

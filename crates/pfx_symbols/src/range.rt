//! A range of keys.

ghost use Rattle.std.specs.Prelude.{◌≡◌, ◌+◌, ◌≤◌, ◌^◌, true, false};

/// A range of keys within all of them, upwards from `low`, or downwards from it if it is turned.
#[derive(Clone, Copy)]
pub struct Range {
    pub low: u64,
    pub size: u64,
    pub turned: bool,
    ghost up: { turned ≡ false → low + size ≤ 2 ^ 62 },
    ghost down: { turned ≡ true → size ≤ low },
    ghost top: { low ≤ 2 ^ 62 },
}

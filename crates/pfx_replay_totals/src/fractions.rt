// Numbers of parts of a period, and decimals.
ghost use Rattle.std.specs.Prelude.{◌≡◌, ◌<◌, Some};
ghost use Rattle.pfx_replay_totals.specs.Lines.{decimal_text, ratio_text, sign_text, six_digits};

use std::fmt;
use std::fmt::{Display, Formatter};

/// So many parts of a period, as `-1/3`.
#[derive(Clone, Copy)]
pub(crate) struct Ratio {
    pub(crate) parts: i64,
    pub(crate) period: u32,
}

impl Ratio {
    /// So many parts of the period.
    pub(crate) fn of(parts: i64, period: u32) -> Ratio
        ensures parts { result.parts ≡ parts }
        ensures period { result.period ≡ period }
    {
        Ratio { parts, period }
    }
}

#[tactic(auto, unfolding(crate::specs::Lines::ratio_text))]
impl Display for Ratio {
    ghost output = { λ ratio. Some (ratio_text ratio.parts ratio.period) };

    fn fmt<W: fmt::Write>(&self, f: &mut Formatter<W>) -> fmt::Result {
        write!(f, "{}/{}", self.parts, self.period)
    }
}

// A minus before a negative number.
#[derive(Clone, Copy)]
struct Sign(i64);

impl Display for Sign {
    ghost output = { λ sign. Some (sign_text sign.0) };

    fn fmt<W: fmt::Write>(&self, f: &mut Formatter<W>) -> fmt::Result {
        f.write_str(if self.0 < 0 { "-" } else { "" })
    }
}

// Six digits.
#[derive(Clone, Copy)]
struct SixDigits(u64);

#[tactic(auto, unfolding(crate::specs::Lines::six_digits))]
impl Display for SixDigits {
    ghost output = { λ digits. Some (six_digits digits.0) };

    fn fmt<W: fmt::Write>(&self, f: &mut Formatter<W>) -> fmt::Result {
        let n = self.0;
        write!(
            f,
            "{}{}{}{}{}{}",
            n / 100000,
            n / 10000 % 10,
            n / 1000 % 10,
            n / 100 % 10,
            n / 10 % 10,
            n % 10
        )
    }
}

/// So many parts of a period with six decimals, cut towards zero, as `-0.333333`.
#[derive(Clone, Copy)]
pub(crate) struct Decimal {
    pub(crate) parts: i64,
    pub(crate) period: u32,
    ghost some: { 0 < period },
}

impl Decimal {
    /// The same number with decimals.
    pub(crate) fn of(ratio: Ratio) -> Decimal
        requires { 0 < ratio.period }
        ensures parts { result.parts ≡ ratio.parts }
        ensures period { result.period ≡ ratio.period }
    {
        Decimal {
            parts: ratio.parts,
            period: ratio.period,
        }
    }
}

#[tactic(auto, unfolding(crate::specs::Lines::decimal_text))]
impl Display for Decimal {
    ghost output = { λ d. Some (decimal_text d.parts d.period) };

    fn fmt<W: fmt::Write>(&self, f: &mut Formatter<W>) -> fmt::Result {
        let decimal = *self;
        let size = decimal.parts.unsigned_abs();
        let period = u64::from(decimal.period);
        write!(
            f,
            "{}{}.{}",
            Sign(decimal.parts),
            size / period,
            SixDigits(size % period * 1000000 / period)
        )
    }
}

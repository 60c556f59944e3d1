//! Sums of weights, as fractions.

use pfx_program_set::NamedTask;

/// The greatest common divisor; of 0 and a number that number.
fn greatest_common_divisor(a: u64, b: u64) -> u64 {
    let mut large = a;
    let mut small = b;
    'euclid: while small > 0 {
        let rest = large % small;
        large = small;
        small = rest;
    }
    large
}

/// The least common multiple of two numbers, if it fits 64 bits.
pub(crate) fn common_multiple(a: u64, b: u64) -> Option<u64> {
    let divisor = greatest_common_divisor(a, b);
    if divisor == 0 {
        return None;
    }
    (a / divisor).checked_mul(b)
}

/// A number of parts, and how many make a whole.
#[derive(Clone, Copy)]
pub(crate) struct Fraction {
    pub(crate) parts: u64,
    pub(crate) whole: u64,
}

impl Fraction {
    // The sum of it and another one.
    fn plus(self, parts: u64, whole: u64) -> Option<Fraction> {
        let both = common_multiple(self.whole, whole)?;
        let own = self.parts.checked_mul(both.checked_div(self.whole)?)?;
        let other = parts.checked_mul(both.checked_div(whole)?)?;
        Some(Fraction {
            parts: own.checked_add(other)?,
            whole: both,
        })
    }

    /// The same number in the smallest parts.
    pub(crate) fn reduced(self) -> Fraction {
        let divisor = greatest_common_divisor(self.parts, self.whole);
        if divisor == 0 {
            return self;
        }
        Fraction {
            parts: self.parts / divisor,
            whole: self.whole / divisor,
        }
    }
}

/// Whether a task is one of those that are left out.
pub(crate) fn is_out(task: usize, out: &[u16]) -> bool {
    out.iter().any(|other| usize::from(*other) == task)
}

/// The sum of the tasks' weights but for those left out, if their common multiple and it fit 64 bits.
pub(crate) fn sum_of(tasks: &[NamedTask], out: &[u16]) -> Option<Fraction> {
    let mut sum = Fraction { parts: 0, whole: 1 };
    for (x, task) in tasks.iter().enumerate() {
        if !is_out(x, out) {
            sum = sum.plus(u64::from(task.e), u64::from(task.p))?;
        }
    }
    Some(sum)
}

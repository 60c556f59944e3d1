//! The tests' one way to fail.

use std::process::Abort;

/// Ends a test whose case doesn't hold, and names the case.
pub fn check(rt: &impl Abort, holds: bool, case: &str) {
    assert!(rt; holds, "{case}");
}

/// Ends a test whose case doesn't hold in a row of cases, and names the row and the case.
pub fn check_at(rt: &impl Abort, holds: bool, row: &str, at: usize) {
    assert!(rt; holds, "{row}: {at}");
}

/// Ends a test whose case doesn't hold in rows of cases, and names the row's kind, the row and the case.
pub fn check_pair(rt: &impl Abort, holds: bool, row: &str, at: usize, case: usize) {
    assert!(rt; holds, "{row}: {at}, {case}");
}

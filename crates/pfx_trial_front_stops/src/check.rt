//! The tests' one way to fail.

use std::process::Abort;

/// Ends a test whose case doesn't hold, and names the case.
pub fn check(rt: &impl Abort, holds: bool, case: &str) {
    assert!(rt; holds, "{case}");
}

/// Ends a test whose case doesn't hold in a row of cases, and names the row and the case.
pub fn check_at(rt: &impl Abort, holds: bool, row: &str, at: u64) {
    assert!(rt; holds, "{row}: {at}");
}

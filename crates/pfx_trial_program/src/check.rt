//! The tests' one way to fail.

use std::process::Abort;

/// Ends a test whose case doesn't hold, and names the case.
pub fn check(rt: &impl Abort, holds: bool, case: &str) {
    assert!(rt; holds, "{case}");
}

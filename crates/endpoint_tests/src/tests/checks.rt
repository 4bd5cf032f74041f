//! What a test asks of a case.
use std::process::Abort;

/// Ends the test where a case doesn't hold.
pub(crate) fn check(rt: &impl Abort, holds: bool, case: &str) {
    assert!(rt; holds, "{case}");
}

/// The same for a case that has a number.
pub(crate) fn check_at(rt: &impl Abort, holds: bool, case: &str, number: usize) {
    assert!(rt; holds, "{case} {number}");
}

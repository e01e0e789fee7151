//! Ends a test if something does not hold, and names the case.

use std::fmt::Debug;
use std::process::Abort;

/// Ends the test if something does not hold of a case.
pub(crate) fn holds<R: Abort, C: Debug + Drop>(rt: &R, case: C, right: bool) {
    assert!(rt; right, "{case:?}");
}

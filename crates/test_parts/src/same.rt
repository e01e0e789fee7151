//! Ends a test if a case does not give the value that is due, and names the case.

use std::fmt::Debug;
use std::process::Abort;

/// Ends the test if a value of a case is not the one that is due.
pub(crate) fn same<R: Abort, C: Debug + Drop, T: PartialEq + Debug + Drop>(
    rt: &R,
    case: C,
    have: T,
    due: T,
) {
    if have != due {
        panic!(rt; "{case:?}: {have:?} and not {due:?}");
    }
}

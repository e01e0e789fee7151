//! The test that limits may be shared by threads.

use crate::shared::may_be_shared;
use pm_base::Limits;

/// Limits may be sent to threads and shared by them: it is proved here.
#[test]
fn limits_may_be_shared() {
    may_be_shared::<Limits>();
}

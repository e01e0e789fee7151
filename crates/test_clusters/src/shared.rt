//! The test function whose call proves that a type may be shared by threads.

/// Types that it is called with may be sent to threads and shared by them: that is proved at each call.
pub(crate) fn may_be_shared<T: Send + Sync>() {}

//! A source or a sink that counts its calls.

use pm_io::{Failed, Sink, Source};

/// A source or a sink whose calls are counted.
#[derive(Drop)]
pub(super) struct Counted<T> {
    pub(super) inner: T,
    pub(super) calls: u64,
}

impl<T> Counted<T> {
    /// No call was made so far.
    pub(super) fn new(inner: T) -> Counted<T> {
        Counted { inner, calls: 0 }
    }
}

impl<S: Source> Source for Counted<S> {
    ghost left = { λ s. S.left s.inner };

    ghost faults = { λ s. S.faults s.inner };

    fn read(&mut self, buf: &mut [u8]) -> Result<usize, Failed> {
        self.calls = self.calls.saturating_add(1);
        self.inner.read(buf)
    }
}

impl<K: Sink> Sink for Counted<K> {
    ghost held = { λ s. K.held s.inner };

    ghost faults = { λ s. K.faults s.inner };

    fn write(&mut self, bytes: &[u8]) -> Result<usize, Failed> {
        self.calls = self.calls.saturating_add(1);
        self.inner.write(bytes)
    }
}

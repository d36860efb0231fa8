//! Counters of their own: atomics.

use std::sync::atomic::{AtomicU64, Ordering};

/// Adds to a counter.
pub(crate) fn add(counter: &AtomicU64, number: u64) {
    counter.fetch_add(number, Ordering::SeqCst);
}

/// What stands in a counter.
pub(crate) fn read(counter: &AtomicU64) -> u64 {
    counter.load(Ordering::SeqCst)
}

/// A counter at 0.
pub(crate) fn zero() -> AtomicU64 {
    AtomicU64::new(0)
}

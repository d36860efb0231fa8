//! Bells that end a wait.

use mio::Waker;
use wl_edge::Bell;

/// A bell that ends the wait of its watcher, which is made with it.
#[derive(Drop)]
pub struct RealBell {
    waker: Waker,
}

impl RealBell {
    pub(crate) fn start(waker: Waker) -> RealBell {
        RealBell { waker }
    }
}

impl Bell for RealBell {
    fn ring(&self) {
        // A waker that fails rings no more; the watcher then waits for its short while.
        let _ = self.waker.wake();
    }
}

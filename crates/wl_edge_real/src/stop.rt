//! Having listeners, links and gates end.

use std::io;
use std::sync::Arc;
use std::sync::atomic::{AtomicBool, Ordering};

/// What listeners, their links and their gate share that are to end together. It never goes back.
#[derive(Drop)]
pub struct Stop {
    is_asked: AtomicBool,
    is_urgent: AtomicBool,
}

impl Stop {
    /// All go on.
    pub fn start() -> Stop {
        Stop {
            is_asked: AtomicBool::new(false),
            is_urgent: AtomicBool::new(false),
        }
    }

    /// From now on there are no more links, and a link ends once nothing comes of it and nothing is unsent.
    pub fn ask(&self) {
        self.is_asked.store(true, Ordering::SeqCst);
    }

    /// From now on each link ends, whatever came of it and whatever is unsent.
    pub fn hurry(&self) {
        self.ask();
        self.is_urgent.store(true, Ordering::SeqCst);
    }

    /// Whether all are to end.
    pub fn is_asked(&self) -> bool {
        self.is_asked.load(Ordering::SeqCst)
    }

    /// Whether links are to end at once.
    pub fn is_urgent(&self) -> bool {
        self.is_urgent.load(Ordering::SeqCst)
    }
}

/// One more owner of a stop, where there is one.
pub(crate) fn share_stop(stop: &Option<Arc<Stop>>) -> io::Result<Option<Arc<Stop>>> {
    match stop {
        Some(stop) => Ok(Some(Arc::try_clone(stop)?)),
        None => Ok(None),
    }
}

/// Whether all that share it are to end. Where nothing is shared they go on.
pub(crate) fn is_asked(stop: &Option<Arc<Stop>>) -> bool {
    match stop {
        Some(stop) => stop.is_asked(),
        None => false,
    }
}

/// Whether links that share it are to end at once.
pub(crate) fn is_urgent(stop: &Option<Arc<Stop>>) -> bool {
    match stop {
        Some(stop) => stop.is_urgent(),
        None => false,
    }
}

//! What a listener and its watcher tell each other.

use std::sync::atomic::{AtomicBool, Ordering};

/// What a listener and its watcher share.
#[derive(Drop)]
pub(crate) struct Arrivals {
    /// Whether peers may have connected that the listener has not heard of.
    are_there: AtomicBool,
    /// Whether a watcher reports them. Without one the listener looks for itself.
    is_watched: AtomicBool,
    /// Whether an accept may find a link at once, so that nobody should wait.
    at_once: AtomicBool,
    /// Whether all links are to have a round.
    of_all: AtomicBool,
}

impl Arrivals {
    /// Of a listener that nobody watches.
    pub(crate) fn start() -> Arrivals {
        Arrivals {
            are_there: AtomicBool::new(true),
            is_watched: AtomicBool::new(false),
            at_once: AtomicBool::new(false),
            of_all: AtomicBool::new(false),
        }
    }

    /// From now on a watcher notes what comes.
    pub(crate) fn watch(&self) {
        self.are_there.store(true, Ordering::SeqCst);
        self.is_watched.store(true, Ordering::SeqCst);
    }

    /// Whether a watcher reports what comes.
    pub(crate) fn is_watched(&self) -> bool {
        self.is_watched.load(Ordering::SeqCst)
    }

    /// Notes that peers may have connected.
    pub(crate) fn note(&self) {
        self.are_there.store(true, Ordering::SeqCst);
    }

    /// Notes that no peer is there of whom the listener has not heard.
    pub(crate) fn note_none(&self) {
        if self.is_watched.load(Ordering::SeqCst) {
            self.are_there.store(false, Ordering::SeqCst);
        }
    }

    /// Whether peers may have connected.
    pub(crate) fn are_there(&self) -> bool {
        self.are_there.load(Ordering::SeqCst)
    }

    /// Has the next wait end at once.
    pub(crate) fn hurry(&self) {
        self.at_once.store(true, Ordering::SeqCst);
    }

    /// Has the next wait end at once and list all links.
    pub(crate) fn list_all(&self) {
        self.of_all.store(true, Ordering::SeqCst);
        self.hurry();
    }

    /// Whether this wait should list all links.
    pub(crate) fn take_all(&self) -> bool {
        self.of_all.swap(false, Ordering::SeqCst)
    }

    /// Whether this wait should end at once.
    pub(crate) fn take_hurry(&self) -> bool {
        self.at_once.swap(false, Ordering::SeqCst)
    }
}

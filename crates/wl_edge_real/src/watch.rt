//! What a link and its watcher tell each other.

use std::sync::atomic::{AtomicBool, Ordering};

/// Why a link was given up.
#[derive(Clone, Copy, Debug, Drop, PartialEq, Eq)]
pub enum Lateness {
    /// Its peer took none of the bytes that waited for it.
    Stalled,
    /// No call of it was attested.
    Silent,
}

/// What a link and one who watches it share.
#[derive(Drop)]
pub(crate) struct Watch {
    /// Whether a receive may find something that the poll does not report.
    more: AtomicBool,
    /// Whether the last sending stalled.
    stalled: AtomicBool,
    /// Whether bytes were taken since the watcher looked last.
    took: AtomicBool,
    /// Whether the poll reported that the peer sends no more. Its last bytes and its end may come with one event.
    closing: AtomicBool,
    /// Whether a call was attested.
    has_call: AtomicBool,
    /// Whether it stood with unsent bytes for too long: its next call fails.
    has_stood: AtomicBool,
    /// Whether it had no call for too long: its next call fails.
    was_silent: AtomicBool,
}

impl Watch {
    /// Of a link of which nobody knows yet whether it is idle.
    pub(crate) fn start() -> Watch {
        Watch {
            more: AtomicBool::new(true),
            stalled: AtomicBool::new(false),
            took: AtomicBool::new(false),
            closing: AtomicBool::new(false),
            has_call: AtomicBool::new(false),
            has_stood: AtomicBool::new(false),
            was_silent: AtomicBool::new(false),
        }
    }

    /// Notes that a receive gave so many bytes of those that it was lent. One that gave fewer has found all that was there,
    /// and the poll reports what comes later; but the end may have come already.
    pub(crate) fn note_received(&self, count: usize, lent: usize) {
        let more = count == lent || self.closing.load(Ordering::SeqCst);
        self.more.store(more, Ordering::SeqCst);
    }

    /// Notes that a receive gave nothing.
    pub(crate) fn note_nothing(&self) {
        self.more.store(false, Ordering::SeqCst);
    }

    /// Notes that a sending took bytes.
    pub(crate) fn note_taken(&self) {
        self.stalled.store(false, Ordering::SeqCst);
        self.took.store(true, Ordering::SeqCst);
    }

    /// Notes that a sending stalled. What is unsent goes first, so then nothing is received until the poll reports that
    /// the peer has read.
    pub(crate) fn note_stalled(&self) {
        self.stalled.store(true, Ordering::SeqCst);
        self.more.store(false, Ordering::SeqCst);
    }

    /// Notes that a call was attested.
    pub(crate) fn note_call(&self) {
        self.has_call.store(true, Ordering::SeqCst);
    }

    /// Why it was given up, where it was.
    pub(crate) fn lateness(&self) -> Option<Lateness> {
        if self.has_stood.load(Ordering::SeqCst) {
            Some(Lateness::Stalled)
        } else if self.was_silent.load(Ordering::SeqCst) {
            Some(Lateness::Silent)
        } else {
            None
        }
    }

    /// Has its next call fail.
    pub(crate) fn give_up(&self, lateness: Lateness) {
        match lateness {
            Lateness::Stalled => self.has_stood.store(true, Ordering::SeqCst),
            Lateness::Silent => self.was_silent.store(true, Ordering::SeqCst),
        }
    }

    /// Whether a call was attested.
    pub(crate) fn has_call(&self) -> bool {
        self.has_call.load(Ordering::SeqCst)
    }

    /// Notes that its peer sends no more.
    pub(crate) fn note_closing(&self) {
        self.closing.store(true, Ordering::SeqCst);
    }

    /// Whether a receive may find something that the poll does not report.
    pub(crate) fn has_more(&self) -> bool {
        self.more.load(Ordering::SeqCst)
    }

    /// Whether the last sending stalled.
    pub(crate) fn is_stalled(&self) -> bool {
        self.stalled.load(Ordering::SeqCst)
    }

    /// Whether bytes were taken since this was asked last.
    pub(crate) fn take_progress(&self) -> bool {
        self.took.swap(false, Ordering::SeqCst)
    }
}

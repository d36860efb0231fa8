//! How many links are open.

use std::alloc::{AllocError, Global};
use std::sync::Arc;
use std::sync::atomic::{AtomicU32, AtomicU64, Ordering};

/// How many links an agent has open at most, over all its listeners.
pub const MAX_OPEN_LINKS: u32 = 65_536;

/// How many links are open, of a number that may be. Several listeners may share one.
#[derive(Drop)]
pub struct OpenLinks {
    open: AtomicU32,
    most: u32,
    refused: AtomicU64,
}

impl OpenLinks {
    /// No link is open, and so many may be.
    pub fn start(most: u32) -> OpenLinks {
        OpenLinks {
            open: AtomicU32::new(0),
            most,
            refused: AtomicU64::new(0),
        }
    }

    /// One that listeners may share, for so many links.
    pub fn share(alloc: Global, most: u32) -> Result<Arc<OpenLinks>, AllocError> {
        Ok(Arc::new(alloc, OpenLinks::start(most))?)
    }

    /// How many links are open.
    pub fn open(&self) -> u32 {
        self.open.load(Ordering::SeqCst)
    }

    /// How many connections were closed at once, since so many links were open as may be.
    pub fn refused(&self) -> u64 {
        self.refused.load(Ordering::SeqCst)
    }

    /// Counts a connection that was closed at once.
    pub(crate) fn note_refused(&self) {
        self.refused.fetch_add(1, Ordering::SeqCst);
    }

    /// One more link is open, until what it gives is dropped. None where so many are open as may be.
    pub(crate) fn enter(links: &Arc<OpenLinks>) -> Option<Counted> {
        let counted = Counted {
            links: Arc::try_clone(links).ok()?,
        };
        if links.open.fetch_add(1, Ordering::SeqCst) < links.most {
            Some(counted)
        } else {
            None
        }
    }
}

/// A link that is counted among those that are open, until it is dropped.
pub(crate) struct Counted {
    links: Arc<OpenLinks>,
}

impl Drop for Counted {
    fn drop(self) {
        self.links.open.fetch_sub(1, Ordering::SeqCst);
        let Counted { links: _ } = self;
    }
}

//! What a later configuration changes while the agent runs: where documents come from, who signs, and how often documents are pulled.

use crate::documents::Source;
use std::alloc::Global;
use std::sync::atomic::{AtomicU64, Ordering};
use std::sync::{Arc, Mutex};
use wl_edge_real::Pace;
use wl_octets::{Memory, Octets};

/// Where the next document is to come from, where that is another place than before.
#[derive(Drop)]
pub struct NextSource<R> {
    waiting: Mutex<Option<Source<R>>>,
}

impl<R: Drop> NextSource<R> {
    /// The same place as before.
    fn start() -> NextSource<R> {
        NextSource {
            waiting: Mutex::new(None),
        }
    }

    /// The next document is to come from there. False where another thread holds it.
    pub(crate) fn put(&self, source: Source<R>) -> bool {
        match self.waiting.try_lock() {
            Some(mut waiting) => {
                *waiting = Some(source);
                true
            }
            None => false,
        }
    }

    /// Whether it is known to come from the same place as before.
    pub(crate) fn is_empty(&self) -> bool {
        match self.waiting.try_lock() {
            Some(waiting) => waiting.is_none(),
            None => false,
        }
    }

    /// Where it is to come from, once.
    pub(crate) fn take(&self) -> Option<Source<R>> {
        self.waiting.try_lock()?.take()
    }
}

/// The path of the signer's socket, where that is another than before.
#[derive(Drop)]
pub struct NextSigner {
    path: Mutex<Option<Octets>>,
    /// How often it changed.
    changes: AtomicU64,
}

impl NextSigner {
    /// The same socket as before.
    fn start() -> NextSigner {
        NextSigner {
            path: Mutex::new(None),
            changes: AtomicU64::new(0),
        }
    }

    /// The signer is at this path from now on. False where another thread holds it.
    pub(crate) fn put(&self, path: Octets) -> bool {
        match self.path.try_lock() {
            Some(mut known) => {
                *known = Some(path);
                self.changes.fetch_add(1, Ordering::SeqCst);
                true
            }
            None => false,
        }
    }

    /// The path for one who knows of so many changes, and how many there are, where there are more.
    pub(crate) fn after(&self, alloc: Global, known: u64) -> Option<(Octets, u64)> {
        let changes = self.changes.load(Ordering::SeqCst);
        if changes == known {
            return None;
        }
        let path = self.path.try_lock()?;
        match &*path {
            Some(path) => Some((path.copy(alloc).ok()?, changes)),
            None => None,
        }
    }
}

/// What a later configuration changes.
#[derive(Drop)]
pub struct Targets<R> {
    pub(crate) source: Arc<NextSource<R>>,
    pub(crate) signer: Arc<NextSigner>,
    pub(crate) pace: Arc<Pace>,
}

impl<R: Drop> Targets<R> {
    /// Of a configuration by which documents are pulled at this pace.
    pub(crate) fn start(alloc: Global, poll_seconds: u32) -> Result<Targets<R>, Memory> {
        let (Ok(source), Ok(signer), Ok(pace)) = (
            Arc::new(alloc, NextSource::start()),
            Arc::new(alloc, NextSigner::start()),
            Arc::new(alloc, Pace::start(poll_seconds)),
        ) else {
            return Err(Memory);
        };
        Ok(Targets {
            source,
            signer,
            pace,
        })
    }
}

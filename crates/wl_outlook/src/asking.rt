//! Asks of signers that are under way.

use std::alloc::Global;
use std::sync::Arc;
use std::sync::atomic::{AtomicU64, Ordering};
use wl_octets::Memory;

/// How many signers are asked now for the identity of one ask. Its shares have one count.
#[derive(Drop)]
pub(crate) struct Asking {
    count: Arc<AtomicU64>,
}

/// An ask of a signer that is under way. One for which no entry is known counts nowhere.
#[derive(Drop)]
pub struct UnderWay {
    asking: Option<Asking>,
}

impl Asking {
    /// No signer is asked.
    pub(crate) fn start(alloc: Global) -> Result<Asking, Memory> {
        match Arc::new(alloc, AtomicU64::new(0)) {
            Ok(count) => Ok(Asking { count }),
            Err(_) => Err(Memory),
        }
    }

    /// One more share of it.
    pub(crate) fn share(&self) -> Result<Asking, Memory> {
        match Arc::try_clone(&self.count) {
            Ok(count) => Ok(Asking { count }),
            Err(_) => Err(Memory),
        }
    }

    /// Whether a signer is asked.
    pub(crate) fn is_under_way(&self) -> bool {
        self.count.load(Ordering::SeqCst) > 0
    }
}

impl UnderWay {
    /// An ask begins, which counts there.
    pub(crate) fn begin(asking: Asking) -> UnderWay {
        asking.count.fetch_add(1, Ordering::SeqCst);
        UnderWay {
            asking: Some(asking),
        }
    }

    /// An ask that counts nowhere.
    pub(crate) fn uncounted() -> UnderWay {
        UnderWay { asking: None }
    }

    /// The signer answered, or the ask failed. Entries that a document replaced meanwhile have counts of their own.
    pub fn end(self) {
        let UnderWay { asking } = self;
        if let Some(asking) = asking {
            asking.count.fetch_sub(1, Ordering::SeqCst);
        }
    }
}

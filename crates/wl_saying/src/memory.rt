//! That memory ran out.

use event_log::{Event, Slot};
use log_output::Log;

/// Says once a minute that memory ran out.
#[derive(Drop)]
pub(crate) struct MemorySaid {
    slot: Slot,
}

impl MemorySaid {
    /// Nothing was said.
    pub(crate) fn start() -> MemorySaid {
        MemorySaid {
            slot: Slot::empty(),
        }
    }

    /// Says it, or holds it back.
    pub(crate) fn say(&mut self, log: &Log) {
        let now = log.now();
        if let Some(held) = self.slot.admit(now) {
            log.say_after(now, &Event::OutOfMemory, held);
        }
    }
}

//! A gate by which it is known that sockets are served, that the keeper goes on, and that all is to end.

use event_log::Event;
use std::sync::Arc;
use std::sync::atomic::{AtomicBool, AtomicU32, Ordering};
use wl_edge::{BEFORE_KEEPING, Gate};
use wl_edge_real::Stop;
use wl_outlook::Outlook;

/// Point 5 is passed once by a seat that ended with a fault (`wl_serve`).
const AFTER_FAILED_SEAT: u32 = 5;

/// How many looks of the keeper links may take to end. One comes a second.
const LOOKS: u32 = 5;

/// A gate that holds whom another holds. At the keeper's first look the log says that the sockets are served: the first document
/// was taken then. Each time that the keeper comes to it, a step of the keeper has ended. A seat that ended with a fault has all stop.
#[derive(Drop)]
pub struct SayingGate<G> {
    inner: G,
    outlook: Arc<Outlook>,
    /// How many sockets are served.
    sockets: u32,
    /// Whether that was said.
    was_said: AtomicBool,
    stop: Arc<Stop>,
    /// How often the keeper came since it was to stop.
    looks: AtomicU32,
}

impl<G: Gate + Drop> SayingGate<G> {
    /// The gate of a host that serves so many sockets, which end with this stop.
    pub fn start(inner: G, outlook: Arc<Outlook>, sockets: u32, stop: Arc<Stop>) -> SayingGate<G> {
        SayingGate {
            inner,
            outlook,
            sockets,
            was_said: AtomicBool::new(false),
            stop,
            looks: AtomicU32::new(0),
        }
    }

    /// The keeper came to the gate.
    fn note_keeper(&self) {
        self.outlook.note_step();
        if !self.was_said.swap(true, Ordering::SeqCst) {
            self.outlook.log().say(&Event::Serving(self.sockets));
        }
        if self.stop.is_asked() && self.looks.fetch_add(1, Ordering::SeqCst) >= LOOKS {
            self.stop.hurry();
        }
    }
}

impl<G: Gate + Drop> Gate for SayingGate<G> {
    fn pass(&self, point: u32) {
        match point {
            BEFORE_KEEPING => self.note_keeper(),
            AFTER_FAILED_SEAT => self.stop.ask(),
            _ => {}
        }
        self.inner.pass(point);
    }

    fn note_publication(&self, number: u64) {
        self.outlook.note_publication(number);
        self.inner.note_publication(number);
    }
}

//! The gate that paces upkeep.

use crate::stop::Stop;
use std::sync::Arc;
use std::sync::atomic::{AtomicBool, AtomicU32, Ordering};
use std::thread;
use std::time::Duration;
use wl_edge::{BEFORE_KEEPING, BEFORE_UPKEEP, Gate};

/// How many seconds the keeper waits between two looks.
const KEEPER_SECONDS: u32 = 1;

/// How many seconds lie between two pulls. Threads may share it.
#[derive(Drop)]
pub struct Pace {
    seconds: AtomicU32,
}

impl Pace {
    /// So many seconds.
    pub fn start(seconds: u32) -> Pace {
        Pace {
            seconds: AtomicU32::new(seconds),
        }
    }

    /// From the next pull on so many seconds.
    pub fn set(&self, seconds: u32) {
        self.seconds.store(seconds, Ordering::SeqCst);
    }

    /// How many seconds.
    fn seconds(&self) -> u32 {
        self.seconds.load(Ordering::SeqCst)
    }
}

/// A gate that holds the puller for some seconds before each pull but the first, the keeper for a second before each look
/// but the first, and nothing else. Once a stop is asked for it holds each for a second at most.
#[derive(Drop)]
pub struct RealGate<R> {
    rt: R,
    pace: Arc<Pace>,
    /// Whether a pull was begun.
    pulled: AtomicBool,
    /// Whether the keeper has looked.
    kept: AtomicBool,
    stop: Arc<Stop>,
}

impl<R: std::rt::Clock + Drop> RealGate<R> {
    /// A gate that holds the puller at this pace, until this stop is asked for.
    pub fn start(rt: R, pace: Arc<Pace>, stop: Arc<Stop>) -> RealGate<R> {
        RealGate {
            rt,
            pace,
            pulled: AtomicBool::new(false),
            kept: AtomicBool::new(false),
            stop,
        }
    }
}

impl<R: std::rt::Clock + Drop> Gate for RealGate<R> {
    fn pass(&self, point: u32) {
        let seconds = match point {
            BEFORE_UPKEEP if self.pulled.swap(true, Ordering::SeqCst) => self.pace.seconds(),
            BEFORE_KEEPING if self.kept.swap(true, Ordering::SeqCst) => KEEPER_SECONDS,
            _ => return,
        };
        for _ in 0..seconds {
            thread::sleep(&self.rt, Duration::from_secs(1));
            if self.stop.is_asked() {
                return;
            }
        }
    }
}

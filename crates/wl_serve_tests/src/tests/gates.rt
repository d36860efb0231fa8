//! Gates that hold turns.

use std::rt::Clock;
use std::sync::atomic::{AtomicU64, Ordering};
use std::thread;
use std::time::Duration;
use wl_edge::{BEFORE_SIGNING, BEFORE_TURN, Gate};

/// How many times a held turn looks at most, a thousandth of a second apart.
const LOOKS: u64 = 10_000;

/// Whether a count comes to this.
pub fn comes_to<R: Clock>(rt: &R, count: &AtomicU64, wanted: u64) -> bool {
    for _ in 0..LOOKS {
        if count.load(Ordering::SeqCst) >= wanted {
            return true;
        }
        thread::sleep(rt, Duration::from_millis(1));
    }
    false
}

/// Holds each turn until a point was passed so often, whoever passed it.
#[derive(Drop)]
pub struct Holding<'a, R> {
    pub rt: &'a R,
    pub point: u32,
    pub wanted: u64,
    pub passed: AtomicU64,
    /// How many turns were let go although the point was not passed so often.
    pub given_up: AtomicU64,
}

impl<'a, R: Clock> Holding<'a, R> {
    pub fn start(rt: &'a R, point: u32, wanted: u64) -> Holding<'a, R> {
        Holding {
            rt,
            point,
            wanted,
            passed: AtomicU64::new(0),
            given_up: AtomicU64::new(0),
        }
    }

    fn hold(&self) {
        if !comes_to(self.rt, &self.passed, self.wanted) {
            self.given_up.fetch_add(1, Ordering::SeqCst);
        }
    }
}

impl<'a, R: Clock> Gate for Holding<'a, R> {
    fn pass(&self, point: u32) {
        if point == self.point {
            self.passed.fetch_add(1, Ordering::SeqCst);
        }
        if point == BEFORE_TURN {
            self.hold();
        }
    }
}

/// Holds each turn until the signer waits for a second ask, so that the identity is signed, and the first turn until so
/// many turns were due, its own among them.
#[derive(Drop)]
pub struct HoldingFirst<'a, R> {
    pub rt: &'a R,
    pub wanted: u64,
    pub asks: AtomicU64,
    pub turns: AtomicU64,
    /// Whether the first turn was let go although no other had come.
    pub given_up: AtomicU64,
}

impl<'a, R: Clock> HoldingFirst<'a, R> {
    pub fn start(rt: &'a R, wanted: u64) -> HoldingFirst<'a, R> {
        HoldingFirst {
            rt,
            wanted,
            asks: AtomicU64::new(0),
            turns: AtomicU64::new(0),
            given_up: AtomicU64::new(0),
        }
    }
}

impl<'a, R: Clock> Gate for HoldingFirst<'a, R> {
    fn pass(&self, point: u32) {
        if point == BEFORE_SIGNING {
            self.asks.fetch_add(1, Ordering::SeqCst);
        }
        if point != BEFORE_TURN {
            return;
        }
        let signed = comes_to(self.rt, &self.asks, 2);
        let first = self.turns.fetch_add(1, Ordering::SeqCst) == 0;
        if !signed || first && !comes_to(self.rt, &self.turns, self.wanted) {
            self.given_up.fetch_add(1, Ordering::SeqCst);
        }
    }
}

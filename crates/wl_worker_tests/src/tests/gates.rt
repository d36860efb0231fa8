//! A gate that ends the seat of a desk, and a signer that has no memory.

ghost use Rattle.std.specs.Prelude.{None};

use std::sync::atomic::{AtomicU64, Ordering};
use std::sync::{Mutex, Wait};
use wl_desk::Desk;
use wl_edge::{BEFORE_KEEPING, BEFORE_SIGNING, BEFORE_UPKEEP, EdgeFault, Gate, Signer};
use wl_entry::{Ask, Free, JwtToken, Signed};
use wl_octets::Octets;

/// Ends one seat of the desk at a point: at the pass of this number of the point before a pull; or, at the point before a
/// look but the first, once the signer has waited so often.
#[derive(Drop)]
pub struct Closing<'a, R: Wait> {
    rt: &'a R,
    desk: &'a Mutex<Desk<Free>>,
    point: u32,
    wanted: u64,
    passes: AtomicU64,
    asks: AtomicU64,
    /// 1 where the seat was ended as was meant.
    pub came: AtomicU64,
}

impl<'a, R: Wait> Closing<'a, R> {
    pub fn start(
        rt: &'a R,
        desk: &'a Mutex<Desk<Free>>,
        point: u32,
        wanted: u64,
    ) -> Closing<'a, R> {
        Closing {
            rt,
            desk,
            point,
            wanted,
            passes: AtomicU64::new(0),
            asks: AtomicU64::new(0),
            came: AtomicU64::new(0),
        }
    }

    fn close(&self) {
        self.came.store(1, Ordering::SeqCst);
        self.desk.lock(self.rt).seat_ended();
    }
}

/// How many looks there are until a seat is ended in any case.
const LOOKS: u64 = 10_000_000;

impl<'a, R: Wait> Gate for Closing<'a, R> {
    fn pass(&self, point: u32) {
        if point == BEFORE_SIGNING {
            self.asks.fetch_add(1, Ordering::SeqCst);
        }
        if point != self.point {
            return;
        }
        let passes = self.passes.fetch_add(1, Ordering::SeqCst).saturating_add(1);
        if point == BEFORE_UPKEEP && passes == self.wanted {
            self.close();
        }
        if point == BEFORE_KEEPING && self.asks.load(Ordering::SeqCst) >= self.wanted {
            self.close();
        }
        if passes == LOOKS {
            self.desk.lock(self.rt).seat_ended();
        }
    }
}

/// A signer that never has memory.
#[derive(Drop)]
pub struct Starved;

impl Signer for Starved {
    type V = Free;

    ghost calls = { λ s. None };

    ghost faults = { λ s. 0 };

    fn sign_x509(&mut self, _ask: &Ask) -> Result<Signed, EdgeFault> {
        Err(EdgeFault::Memory)
    }

    fn sign_jwt(&mut self, _ask: &Ask, _audience: &[Octets]) -> Result<JwtToken, EdgeFault> {
        Err(EdgeFault::Memory)
    }
}

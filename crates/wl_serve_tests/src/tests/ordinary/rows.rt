//! Turns of several links, row by row.

use super::super::gates::comes_to;
use super::bytes::{ENTRIES, ROTATION, SOCKETS};
use std::rt::Clock;
use std::sync::atomic::{AtomicU64, Ordering};
use wl_edge::{BEFORE_KEEPING, BEFORE_SIGNING, BEFORE_TURN, Gate};

/// Holds turns until there is one of each link, and until every identity is signed; the second look of the keeper until
/// the turns of one row are due, and those until all identities are signed anew.
#[derive(Drop)]
pub struct Rows<'a, R> {
    rt: &'a R,
    looks: AtomicU64,
    asks: AtomicU64,
    turns: AtomicU64,
    /// How many were let go although what they waited for had not come.
    pub given_up: AtomicU64,
}

impl<'a, R: Clock> Rows<'a, R> {
    pub fn start(rt: &'a R) -> Rows<'a, R> {
        Rows {
            rt,
            looks: AtomicU64::new(0),
            asks: AtomicU64::new(0),
            turns: AtomicU64::new(0),
            given_up: AtomicU64::new(0),
        }
    }

    /// Whether a row of turns is due.
    fn is_due(&self, row: u64) -> bool {
        let links = SOCKETS as u64;
        comes_to(
            self.rt,
            &self.turns,
            row.saturating_add(1).saturating_mul(links),
        )
    }

    /// Whether the turn may be taken: the signer waits for an ask after so many.
    fn hold_turn(&self) -> bool {
        let row = self.turns.fetch_add(1, Ordering::SeqCst) / SOCKETS as u64;
        let rounds = if row < ROTATION { 1 } else { 2 };
        let asks = (ENTRIES as u64).saturating_mul(rounds).saturating_add(1);
        self.is_due(row) && comes_to(self.rt, &self.asks, asks)
    }

    /// Whether the keeper may look.
    fn hold_look(&self) -> bool {
        let before = self.looks.fetch_add(1, Ordering::SeqCst);
        before != 1 || self.is_due(ROTATION)
    }
}

impl<'a, R: Clock> Gate for Rows<'a, R> {
    fn pass(&self, point: u32) {
        let came = match point {
            BEFORE_TURN => self.hold_turn(),
            BEFORE_KEEPING => self.hold_look(),
            BEFORE_SIGNING => {
                self.asks.fetch_add(1, Ordering::SeqCst);
                true
            }
            _ => true,
        };
        if !came {
            self.given_up.fetch_add(1, Ordering::SeqCst);
        }
    }
}

//! The point before a turn.

use super::frames::{EMPTY, HEAD, OPENING};
use super::outside::{memory_outside, plan};
use super::serve;
use std::alloc::{AllocGlobal, Global};
use std::process::Abort;
use std::sync::Wait;
use std::sync::atomic::{AtomicU64, Ordering};
use wl_edge::{BEFORE_TURN, Gate};

/// Counts how often the point before a turn was passed, and how often another.
#[derive(Drop)]
struct Counting {
    turns: AtomicU64,
    others: AtomicU64,
}

impl Gate for Counting {
    fn pass(&self, point: u32) {
        if point == BEFORE_TURN {
            self.turns.fetch_add(1, Ordering::SeqCst);
        } else {
            self.others.fetch_add(1, Ordering::SeqCst);
        }
    }
}

/// What a link gives, and how many turns are due: one for each piece, except the one that is a fault.
const TURNS: [(&[&[&[u8]]], u64); 4] = [
    (&[], 0),
    (&[&[OPENING], &[HEAD], &[EMPTY]], 3),
    (&[&[OPENING, HEAD, EMPTY], &[], &[]], 3),
    (&[&[OPENING], &[b"\0\0\0\x09\0\0\0\0\0"]], 1),
];

/// Asserts how often the point before a turn was passed, and that no other was.
fn pass_turns<R: Wait + Abort>(rt: &R, alloc: Global, pieces: &[&[&[u8]]], turns: u64) {
    let gate = Counting {
        turns: AtomicU64::new(0),
        others: AtomicU64::new(0),
    };
    let plan = plan(alloc, pieces).expect(rt, "memory");
    let mut outside = memory_outside(alloc, 100, &[], &[]).expect(rt, "an outside");
    serve(rt, alloc, plan, &mut outside, &gate);
    drop(outside);
    assert_eq!(rt; gate.turns.load(Ordering::SeqCst), turns);
    assert_eq!(rt; gate.others.load(Ordering::SeqCst), 0);
}

#[test]
fn the_point_before_a_turn_is_passed(rt: HostRuntime) {
    for (pieces, turns) in TURNS {
        pass_turns(&rt, rt.alloc(), pieces, turns);
    }
}

//! A served connection beside a desk that signs anew.

use super::desks::{open, sign};
use super::frames::{EMPTY, GREETING, HEAD, OPENING, RESPONSE, ROTATED};
use super::outside::{Outside, are_parts, memory_outside, plan};
use std::alloc::{AllocGlobal, Global};
use std::process::Abort;
use std::sync::atomic::{AtomicU64, Ordering};
use std::sync::{Barrier, Mutex, Wait};
use std::thread::{Threads, join};
use wl_desk::Desk;
use wl_edge::{BEFORE_TURN, Gate, MemoryLink};
use wl_entry::Free;
use wl_worker::{Ended, SeatPass, serve_connection};

/// A gate that meets another thread when the second turn is due, and again before it is let go on.
#[derive(Drop)]
struct Meeting<'a, R: Wait> {
    rt: &'a R,
    barrier: &'a Barrier,
    turns: AtomicU64,
}

impl<'a, R: Wait> Gate for Meeting<'a, R> {
    fn pass(&self, point: u32) {
        if point == BEFORE_TURN && self.turns.fetch_add(1, Ordering::SeqCst) == 1 {
            let _ = self.barrier.wait(self.rt);
            let _ = self.barrier.wait(self.rt);
        }
    }
}

/// Signs the identity anew at 150, between the two meetings.
fn sign_between<R: Wait>(
    rt: &R,
    alloc: Global,
    desk: &Mutex<Desk<Free>>,
    barrier: &Barrier,
) -> bool {
    let _ = barrier.wait(rt);
    let signed = sign(rt, alloc, desk, 150, 3).is_ok();
    let _ = barrier.wait(rt);
    signed
}

/// Serves a link beside this desk.
fn serve_beside<R: Wait>(
    rt: &R,
    alloc: Global,
    desk: &Mutex<Desk<Free>>,
    barrier: &Barrier,
    pass: &mut SeatPass<Free>,
    link: &mut MemoryLink,
    outside: &mut Outside,
) -> Ended {
    let gate = Meeting {
        rt,
        barrier,
        turns: AtomicU64::new(0),
    };
    serve_connection(
        rt,
        alloc,
        desk,
        pass,
        link,
        &mut outside.attestor,
        0,
        &mut outside.asks,
        &mut outside.clock,
        &gate,
    )
}

/// Serves a link at 150 beside a desk of its own, and another thread that signs: whether it did, and the end.
fn rotate<R: Threads + Wait + Sync + Abort>(
    rt: &R,
    alloc: Global,
    link: &mut MemoryLink,
) -> (bool, Ended) {
    let mut outside = memory_outside(alloc, 150, &[], &[]).expect(rt, "an outside");
    let (desk, pass) = open(rt, alloc, 1).expect(rt, "a desk");
    let mut pass = SeatPass::new(alloc, pass);
    let barrier = Barrier::new(2);
    let both = join(
        rt,
        || sign_between(rt, alloc, &desk, &barrier),
        || serve_beside(rt, alloc, &desk, &barrier, &mut pass, link, &mut outside),
    );
    desk.into_inner().end(rt);
    drop(outside);
    both
}

/// A link of one caller, which goes on after its call.
#[test]
fn a_rotation_is_sent_once(rt: HostRuntime) {
    let plan = plan(rt.alloc(), &[&[OPENING, HEAD, EMPTY], &[], &[]]).expect(&rt, "memory");
    let mut link = MemoryLink::start(rt.alloc(), plan).expect(&rt, "memory");
    assert!(rt; rotate(&rt, rt.alloc(), &mut link) == (true, Ended::Closed));
    assert!(rt; are_parts(link.took(), &[GREETING, RESPONSE, ROTATED]));
}

//! A link that fails once.

use super::frames::{EMPTY, GREETING, HEAD, OPENING, RESPONSE};
use super::outside::{joined, numbers, plan};
use super::serve_well;
use std::alloc::{AllocGlobal, Global};
use std::process::Abort;
use std::sync::Wait;
use wl_edge::LinkPlan;
use wl_worker::Ended;

/// A link that gives a caller's bytes in three pieces and takes 20 bytes at most.
fn slow(rt: &impl Abort, alloc: Global) -> LinkPlan {
    let mut plan = plan(alloc, &[&[OPENING], &[HEAD], &[EMPTY], &[]]).expect(rt, "memory");
    plan.piece = 20;
    plan
}

/// Asserts that a connection ends so, and its link took a prefix of what was due.
fn ends<R: Wait + Abort>(rt: &R, alloc: Global, plan: LinkPlan, end: Ended) {
    let due = joined(alloc, &[GREETING, RESPONSE]).expect(rt, "memory");
    let (came, link) = serve_well(rt, alloc, plan);
    assert!(rt; came == end && due.as_slice().starts_with(link.took()));
}

#[test]
fn a_receive_that_fails_ends_its_connection(rt: HostRuntime) {
    for number in 0..5 {
        let mut plan = slow(&rt, rt.alloc());
        plan.failing_receives = numbers(rt.alloc(), &[number]).expect(&rt, "memory");
        ends(&rt, rt.alloc(), plan, Ended::ReadFault);
    }
}

#[test]
fn a_sending_that_fails_ends_its_connection(rt: HostRuntime) {
    for number in 0..5 {
        let mut plan = slow(&rt, rt.alloc());
        plan.failing_sends = numbers(rt.alloc(), &[number]).expect(&rt, "memory");
        ends(&rt, rt.alloc(), plan, Ended::WriteFault);
    }
}

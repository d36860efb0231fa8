//! The links of a seat hold no more than its budget.

use super::outside::seat;
use super::{are_due, serve};
use crate::connection_tests::outside::numbers;
use std::alloc::{AllocGlobal, Global};
use std::process::Abort;
use std::sync::Wait;
use wl_edge::MemoryReady;
use wl_worker::SeatEnd;

/// How many bytes links may hold together here: more than the messages of two calls, and fewer than these and one response that is
/// unsent.
const BUDGET: u64 = 150;

/// For each link how many of its first sendings are put off, and, as they were finished, whether it took its whole talk,
/// else nothing, and how many sendings were put off.
const CASES: [(&[u64], &[(bool, u64)]); 3] = [
    (&[1_000, 0, 0], &[(false, 1), (true, 0), (true, 0)]),
    (&[0, 1_000, 0], &[(false, 1), (true, 0), (true, 0)]),
    (&[0, 0, 1_000], &[(false, 1), (true, 0), (true, 0)]),
];

/// Asserts that the link that lets nothing be sent ends alone, and is counted.
fn pass_budget<R: Wait + Abort>(rt: &R, alloc: Global, links: &[u64], due: &[(bool, u64)]) {
    let ready = MemoryReady::start(alloc, numbers(alloc, &[]).expect(rt, "memory"));
    let mut seat = seat(alloc, 3, links, &[], &[], ready).expect(rt, "a seat");
    seat.budget = BUDGET;
    let came = serve(rt, alloc, &mut seat);
    assert!(rt; came == (SeatEnd::End, 2) && seat.starved == 1);
    assert!(rt; are_due(seat.listener.finished(), due));
    drop(seat);
}

#[test]
fn a_link_that_passes_the_budget_ends_alone(rt: HostRuntime) {
    for (links, due) in CASES {
        pass_budget(&rt, rt.alloc(), links, due);
    }
}

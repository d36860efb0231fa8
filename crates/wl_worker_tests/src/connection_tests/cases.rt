//! Whole connections by their bytes.

use super::frames::{
    ACK, CREDIT_8, EMPTY, GREETING, HEAD, OPENING, RESPONSE, RESPONSE_HEAD, RESPONSE_HEAD_3,
    SERVER_SETTINGS, TOKEN, TOKEN_3, TOKEN_CALL, TOKEN_CALL_3, UNATTESTED_ONLY, UNSIGNED_ONLY,
};
use super::outside::{are_parts, memory_outside, numbers, plan};
use super::serve;
use std::alloc::{AllocGlobal, Global};
use std::process::Abort;
use std::sync::Wait;
use wl_edge::{LinkPlan, OpenGate};
use wl_worker::Ended;

/// What a link gives, what fails, and what is due. Each connection closes.
#[derive(Clone, Copy)]
struct Case {
    name: &'static str,
    pieces: &'static [&'static [&'static [u8]]],
    /// The sendings that are put off; if there are any, each other one takes 20 bytes at most.
    stalling: &'static [u64],
    /// The calls of the attestor and of the signer that fail.
    unattested: &'static [u64],
    unsigned: &'static [u64],
    took: &'static [&'static [u8]],
    /// How often the signer is asked.
    asked: usize,
}

const CASES: [Case; 4] = [
    Case {
        name: "each second sending is put off",
        pieces: &[&[OPENING, HEAD, EMPTY], &[], &[]],
        stalling: &[1, 3, 5, 7, 9, 11, 13, 15],
        unattested: &[],
        unsigned: &[],
        took: &[GREETING, RESPONSE],
        asked: 0,
    },
    Case {
        name: "a token is kept for the next call",
        pieces: &[&[OPENING, TOKEN_CALL], &[TOKEN_CALL_3]],
        stalling: &[],
        unattested: &[],
        unsigned: &[],
        took: &[
            SERVER_SETTINGS,
            ACK,
            CREDIT_8,
            RESPONSE_HEAD,
            TOKEN,
            CREDIT_8,
            RESPONSE_HEAD_3,
            TOKEN_3,
        ],
        asked: 1,
    },
    Case {
        name: "an attestor that fails ends one call",
        pieces: &[&[OPENING, HEAD, EMPTY]],
        stalling: &[],
        unattested: &[0],
        unsigned: &[],
        took: &[GREETING, UNATTESTED_ONLY],
        asked: 0,
    },
    Case {
        name: "a signer that fails ends one call",
        pieces: &[&[OPENING, TOKEN_CALL]],
        stalling: &[],
        unattested: &[],
        unsigned: &[0],
        took: &[SERVER_SETTINGS, ACK, CREDIT_8, UNSIGNED_ONLY],
        asked: 1,
    },
];

fn link(rt: &impl Abort, alloc: Global, case: &Case) -> LinkPlan {
    let mut plan = plan(alloc, case.pieces).expect(rt, "memory");
    if !case.stalling.is_empty() {
        plan.piece = 20;
    }
    plan.stalling = numbers(alloc, case.stalling).expect(rt, "memory");
    plan
}

/// Asserts that a connection closes, what its link took, and how often the signer was asked.
fn close<R: Wait + Abort>(rt: &R, alloc: Global, case: &Case) {
    let plan = link(rt, alloc, case);
    let outside = memory_outside(alloc, 100, case.unattested, case.unsigned);
    let mut outside = outside.expect(rt, "an outside");
    let (end, link) = serve(rt, alloc, plan, &mut outside, &OpenGate);
    assert!(rt;
        end == Ended::Closed && are_parts(link.took(), case.took),
        "{}",
        case.name
    );
    assert_eq!(rt;
        outside.asks.signer.calls().len(),
        case.asked,
        "{}",
        case.name
    );
    drop(outside);
}

#[test]
fn whole_connections(rt: HostRuntime) {
    for case in &CASES {
        close(&rt, rt.alloc(), case);
    }
}

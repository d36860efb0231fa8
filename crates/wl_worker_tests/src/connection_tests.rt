//! Connections over memory: rotation, tokens, stalls, cut and changed input, and calls that fail.

mod cases;
mod clients;
pub mod desks;
mod failing;
pub mod frames;
mod gates;
mod input;
pub mod outside;
mod rotation;

use desks::open;
use outside::{Outside, memory_outside};
use std::alloc::Global;
use std::process::Abort;
use std::sync::Wait;
use wl_edge::{Gate, LinkPlan, MemoryLink, OpenGate};
use wl_worker::{Ended, SeatPass, serve_connection};

/// Serves a link that follows this plan, on a desk of its own: its end, and the link.
fn serve<G: Gate, R: Wait + Abort>(
    rt: &R,
    alloc: Global,
    plan: LinkPlan,
    outside: &mut Outside,
    gate: &G,
) -> (Ended, MemoryLink) {
    let mut link = MemoryLink::start(alloc, plan).expect(rt, "memory");
    let (desk, pass) = open(rt, alloc, 1).expect(rt, "a desk");
    let mut pass = SeatPass::new(alloc, pass);
    let end = serve_connection(
        rt,
        alloc,
        &desk,
        &mut pass,
        &mut link,
        &mut outside.attestor,
        0,
        &mut outside.asks,
        &mut outside.clock,
        gate,
    );
    desk.into_inner().end(rt);
    (end, link)
}

/// The same at 100, with an attestor and a signer that never fail.
fn serve_well<R: Wait + Abort>(rt: &R, alloc: Global, plan: LinkPlan) -> (Ended, MemoryLink) {
    let mut outside = memory_outside(alloc, 100, &[], &[]).expect(rt, "an outside");
    let served = serve(rt, alloc, plan, &mut outside, &OpenGate);
    drop(outside);
    served
}

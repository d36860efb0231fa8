//! A seat in memory.

use crate::connection_tests::frames::{EMPTY, GREETING, HEAD, OPENING, RESPONSE};
use crate::connection_tests::outside::{Stop, memory_outside, numbers, plan};
use ask_mail::DirectAsks;
use std::alloc::Global;
use wl_edge::{
    LinkPlan, ListenerPlan, MemoryAttestor, MemoryClock, MemoryLink, MemoryListener, MemorySigner,
};
use wl_octets::{Memory, Row};
use wl_worker::Seat;

/// A seat whose calls are attested and whose links are watched by these.
pub type SeatWith<A, P> = Seat<MemoryListener, DirectAsks<MemorySigner>, A, MemoryClock, P>;

/// A seat whose links are watched by this.
pub type MemorySeat<P> = SeatWith<MemoryAttestor, P>;

/// Whether a link took its whole talk, or else nothing.
pub fn took(link: &MemoryLink, whole: bool) -> bool {
    match link.took().strip_prefix(GREETING) {
        Some(rest) => whole && rest == RESPONSE,
        None => !whole && link.took().is_empty(),
    }
}

/// A link from the socket of this number that gives a call and then its end, and puts off so many sendings.
fn link(alloc: Global, socket: u32, stalls: u64) -> Result<LinkPlan, Memory> {
    let mut plan = plan(alloc, &[&[OPENING, HEAD, EMPTY]])?;
    plan.origin.socket = socket;
    for number in 0..stalls {
        plan.stalling.push(number)?;
    }
    Ok(plan)
}

/// Such links, each from a socket of its own, numbered from 0.
fn links(alloc: Global, stalls: &[u64]) -> Result<Row<LinkPlan>, Memory> {
    let mut plans = Row::empty(alloc);
    let mut socket: u32 = 0;
    for number in stalls {
        plans.push(link(alloc, socket, *number)?)?;
        socket = socket.saturating_add(1);
    }
    Ok(plans)
}

/// A listener that gives such links.
fn listener(
    alloc: Global,
    stalls: &[u64],
    idle: &[u64],
    failing: &[u64],
) -> Result<MemoryListener, Memory> {
    let plan = ListenerPlan {
        links: links(alloc, stalls)?,
        idle: numbers(alloc, idle)?,
        failing: numbers(alloc, failing)?,
        answers: 64,
    };
    MemoryListener::start(alloc, plan)
}

/// A seat without a pass.
pub fn seat<P: Drop>(
    alloc: Global,
    room: u32,
    stalls: &[u64],
    idle: &[u64],
    failing: &[u64],
    ready: P,
) -> Result<MemorySeat<P>, Stop> {
    let listener = listener(alloc, stalls, idle, failing)?;
    let outside = memory_outside(alloc, 100, &[], &[])?;
    Ok(Seat {
        listener,
        asks: outside.asks,
        connections: 0,
        attestor: outside.attestor,
        clock: outside.clock,
        pass: None,
        end: None,
        ready,
        room,
        budget: u64::MAX,
        starved: 0,
    })
}

//! A desk of one entry.

use super::outside::Stop;
use std::alloc::Global;
use std::sync::{Mutex, Wait};
use wl_desk::{Desk, last_snapshot};
use wl_entry::{Free, Signed};
use wl_manager::Manager;
use wl_octets::{Memory, Octets, Row};
use wl_publish::{Pass, start};
use wl_store::{Ticket, abandon_all};

const DOCUMENT: &[u8] =
    b"{\"version\":1,\"trust_domain\":\"a.b\",\"bundles\":[{\"trust_domain\":\"a.b\",\"x509\":\"Aw==\"}],\"entries\":[{\"id\":\"e1\",\"spiffe_id\":\"spiffe://a.b/w\",\"selectors\":[\"unix:uid:1\"]}]}";

/// The last ticket; the others are given up.
fn last_ticket(tickets: Row<Ticket>) -> Result<Ticket, Stop> {
    let mut items = tickets.into_vec();
    let last = items.pop();
    abandon_all(Row::from_vec(items));
    match last {
        Some(ticket) => Ok(ticket),
        None => Err(Stop::NoTicket),
    }
}

/// An identity for a hundred seconds from then on, with this chain, and the next byte as its key.
fn identity(alloc: Global, now: u64, chain: u8) -> Result<Signed, Memory> {
    let key = Octets::from_slice(alloc, &[chain.wrapping_add(1)])?;
    let chain = Octets::from_slice(alloc, &[chain])?;
    Ok(Signed {
        chain,
        key,
        not_before: now,
        not_after: now.saturating_add(100),
    })
}

/// Hands a ticket back with an identity.
fn sign_ticket<R: Wait>(
    rt: &R,
    alloc: Global,
    desk: &Mutex<Desk<Free>>,
    ticket: Ticket,
    now: u64,
    chain: u8,
) -> Result<(), Stop> {
    match identity(alloc, now, chain) {
        Ok(signed) => {
            desk.lock(rt).signed(rt, alloc, ticket, signed, now)?;
            Ok(())
        }
        Err(Memory) => {
            desk.lock(rt).failed(ticket);
            Err(Stop::Memory)
        }
    }
}

/// Signs the one ask that is due then.
pub fn sign<R: Wait>(
    rt: &R,
    alloc: Global,
    desk: &Mutex<Desk<Free>>,
    now: u64,
    chain: u8,
) -> Result<(), Stop> {
    let (tickets, _) = desk.lock(rt).claim(rt, alloc, now)?;
    let ticket = last_ticket(tickets)?;
    sign_ticket(rt, alloc, desk, ticket, now, chain)
}

fn manager(alloc: Global) -> Result<Manager<Free>, Stop> {
    match Manager::start(alloc, DOCUMENT) {
        Ok(manager) => Ok(manager),
        Err(_) => Err(Stop::Document),
    }
}

/// How many passes a desk has.
const PASSES: u32 = 3;

/// A desk of the document for so many seats, and passes of its publications.
fn unsigned<R: Wait>(
    rt: &R,
    alloc: Global,
    seats: u32,
) -> Result<(Desk<Free>, Vec<Pass<Free>>), Stop> {
    let manager = manager(alloc)?;
    let first = last_snapshot(alloc, &manager)?;
    let (publisher, passes) = start(rt, alloc, first, PASSES)?;
    Ok((Desk::start(manager, publisher, seats), passes.into_vec()))
}

/// The same where the entry's identity was signed at 100.
pub fn open_all<R: Wait>(
    rt: &R,
    alloc: Global,
    seats: u32,
) -> Result<(Mutex<Desk<Free>>, Vec<Pass<Free>>), Stop> {
    let (desk, passes) = unsigned(rt, alloc, seats)?;
    let desk = Mutex::new(desk);
    match sign(rt, alloc, &desk, 100, 1) {
        Ok(()) => Ok((desk, passes)),
        Err(stop) => {
            desk.into_inner().end(rt);
            Err(stop)
        }
    }
}

/// The same with one pass.
pub fn open<R: Wait>(
    rt: &R,
    alloc: Global,
    seats: u32,
) -> Result<(Mutex<Desk<Free>>, Pass<Free>), Stop> {
    let (desk, mut passes) = open_all(rt, alloc, seats)?;
    match passes.pop() {
        Some(pass) => Ok((desk, pass)),
        None => {
            desk.into_inner().end(rt);
            Err(Stop::NoPass)
        }
    }
}

//! The desk's calls on a small document, and readers beside a desk that changes.

ghost use Rattle.std.specs.Prelude.{◌<◌, ◌≤◌};

mod calls;
mod readers;

use std::alloc::{AllocError, Global};
use std::sync::Wait;
use wl_desk::{Desk, last_snapshot};
use wl_entry::{Free, Signed};
use wl_manager::Manager;
use wl_octets::{Memory, Octets, Row};
use wl_publish::{Note, Pass, start};
use wl_store::{Ticket, abandon_all};

/// Why a test cannot go on.
#[derive(Drop)]
enum Stop {
    Memory,
    Document,
    NoTicket,
}

impl From<Memory> for Stop {
    fn from(_: Memory) -> Stop {
        Stop::Memory
    }
}

impl From<AllocError> for Stop {
    fn from(_: AllocError) -> Stop {
        Stop::Memory
    }
}

/// A document of one entry with this id and this hint.
fn document(alloc: Global, id: &str, hint: u64) -> Result<String, AllocError> {
    format!(in alloc;
        "{{\"version\":2,\"trust_domain\":\"a.b\",\"bundles\":[{{\"trust_domain\":\"a.b\",\"x509\":\"Aw==\"}}],\"entries\":[{{\"id\":\"e1\",\"spiffe_id\":\"spiffe://a.b/{id}\",\"selectors\":[\"unix:uid:1\"],\"hint\":\"{hint}\"}}]}}"
    )
}

/// A desk of this document, and a pass for each of so many readers.
fn open<R: Wait>(rt: &R, alloc: Global, places: u32) -> Result<(Desk<Free>, Row<Pass<Free>>), Stop>
    requires { (0 < places) × (places ≤ 64) }
{
    let document = document(alloc, "w", 0)?;
    let manager: Manager<Free> = match Manager::start(alloc, document.as_bytes()) {
        Ok(manager) => manager,
        Err(_) => return Err(Stop::Document),
    };
    let first = last_snapshot(alloc, &manager)?;
    let (publisher, passes) = start(rt, alloc, first, places)?;
    Ok((Desk::start(manager, publisher, places), passes))
}

/// The number of a note's last publication.
fn number_in(note: Option<Note<Free>>) -> Option<u64> {
    match note {
        Some(note) => Some(note.number()),
        None => None,
    }
}

/// The last ticket; the others are given up.
fn last_ticket(tickets: Row<Ticket>) -> Result<Ticket, Stop> {
    let mut items = tickets.into_vec();
    let last = items.pop();
    abandon_all(Row::from_vec(items));
    match last {
        Some(ticket) => Ok(ticket),
        None => Err(Stop::NoTicket),
    }
}

/// An identity whose chain is this number's digits.
fn identity(alloc: Global, chain: u64, not_before: u64, not_after: u64) -> Result<Signed, Stop> {
    let chain = format!(in alloc; "{chain}")?;
    Ok(Signed {
        chain: Octets::from_slice(alloc, chain.as_bytes())?,
        key: Octets::from_slice(alloc, b"k")?,
        not_before,
        not_after,
    })
}

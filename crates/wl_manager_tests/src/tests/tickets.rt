//! Tickets are noted down and let go, which leaves them in flight, and are made again when they come back.

use std::alloc::Global;
use std::process::Abort;
use wl_entry::Ask;
use wl_manager::{Ticket, abandon_all};
use wl_octets::Row;

/// The number of a ticket and its ask.
#[derive(Drop)]
pub struct Slip {
    pub number: u64,
    pub ask: Ask,
}

/// Notes the tickets down.
pub fn note(rt: &impl Abort, alloc: Global, slips: &mut Vec<Slip>, tickets: Row<Ticket>) {
    for ticket in tickets.as_slice() {
        let slip = Slip {
            number: ticket.number,
            ask: ticket.ask.copy(alloc).expect(rt, "memory"),
        };
        slips.push(slip).expect(rt, "memory");
    }
    abandon_all(tickets);
}

/// The ask of the ticket of this number, which is noted.
pub fn ask_of(rt: &impl Abort, alloc: Global, slips: &[Slip], number: u64) -> Ask {
    let slip = slips
        .iter()
        .find(|slip| slip.number == number)
        .expect(rt, "such a ticket");
    slip.ask.copy(alloc).expect(rt, "memory")
}

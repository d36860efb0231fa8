//! Tickets that are issued.

ghost use Rattle.std.specs.Prelude.{◌≡◌, ◌+◌, ◌<◌, ◌^◌, ◌++◌, not, filter, length, IfOk, OnOk, ◌∷◌, []};
ghost use Rattle.wl_store.specs.Stores.{is_in_flight, flights_from};
ghost use Rattle.wl_store.specs.Flights.{flights_of};

use crate::groups::{group_all, has_flight};
use crate::tickets::{Flight, Ticket, abandon_all};
use std::alloc::Global;
use wl_entry::Ask;
use wl_octets::{Memory, Row, Shared};

/// The asks that have no ticket in flight. The flights are grouped by entry first, so that no ask is looked for among
/// all of them.
pub(crate) fn without_in_flight(
    alloc: Global,
    asks: &[Ask],
    in_flight: &[Flight],
) -> Result<Row<Ask>, Memory>
    ensures { IfOk result (λ r. r ≡ filter (λ a. not (is_in_flight in_flight.now a)) asks.now) }
{
    let groups = group_all(alloc, in_flight)?;
    let mut left = Vec::new(alloc);
    for ask in asks {
        if !has_flight(&groups, ask) {
            left.push(ask.copy(alloc)?)?;
        }
    }
    Ok(Row::from_vec(left))
}

/// Adds one flight for each ask, numbered from the last number on.
pub(crate) fn add_flights(
    alloc: Global,
    in_flight: &mut Vec<Flight>,
    asks: &[Ask],
    last_ticket: u64,
) -> Result<(), Memory>
    requires { last_ticket + length asks.now < 2 ^ 64 }
    ensures { OnOk result (in_flight.new.items ≡ in_flight.old.items ++ flights_from last_ticket asks.now) }
{
    let mut number = last_ticket;
    for ask in asks {
        number += 1;
        let ask = Shared::new(alloc, ask.copy(alloc)?)?;
        in_flight.push(Flight { number, ask })?;
    }
    Ok(())
}

/// Tickets for these asks, numbered from the last number on.
pub(crate) fn issue(alloc: Global, asks: &[Ask], last_ticket: u64) -> Result<Row<Ticket>, Memory>
    requires { last_ticket + length asks.now < 2 ^ 64 }
    ensures { IfOk result (λ r. flights_of r ≡ flights_from last_ticket asks.now) }
{
    let mut tickets = Row::empty(alloc);
    let mut number = last_ticket;
    for ask in asks {
        number += 1;
        match push_ticket(alloc, &mut tickets, number, ask) {
            Ok(()) => {}
            Err(Memory) => {
                abandon_all(tickets);
                return Err(Memory);
            }
        }
    }
    Ok(tickets)
}

/// Puts a ticket at the end.
fn push_ticket(
    alloc: Global,
    tickets: &mut Row<Ticket>,
    number: u64,
    ask: &Ask,
) -> Result<(), Memory>
    ensures { OnOk result
        (flights_of tickets.new ≡ flights_of tickets.old ++ record { number = number; ask = ask.now } ∷ []) }
{
    let ask = ask.copy(alloc)?;
    match tickets.push(Ticket { number, ask }) {
        Ok(()) => Ok(()),
        Err((ticket, memory)) => {
            ticket.abandon();
            Err(memory)
        }
    }
}

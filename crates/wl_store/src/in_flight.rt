//! The tickets in flight, as a store holds them.

ghost use Rattle.std.specs.Prelude.{◌≡◌, ◌==◌, find, length, option_map, IfOk};
ghost use Rattle.wl_store.specs.Flights.{unmarked};
ghost use Rattle.wl_store.specs.Stores.{has_ticket, without_flight};

use crate::tickets::{Flight, Ticket};
use std::alloc::Global;
use std::marker::Model;
use wl_octets::{Memory, Row, Shared};

/// The tickets in flight, in the order of their numbers. Copies share the list, and mark for themselves what came back.
#[derive(Drop)]
pub(crate) struct InFlight {
    all: Shared<Row<Flight>>,
    /// Which of them came back.
    marks: Vec<bool>,
}

impl Model for InFlight {
    ghost use Rattle.std.specs.Prelude.{◌≡◌, List, length};
    ghost use Rattle.wl_store.specs.declared.tickets.Flight.{Flight};
    ghost use Rattle.wl_store.specs.Flights.{unmarked};

    ghost Value = { List Flight };

    ghost view = { λ f. unmarked f.all f.marks.items };

    ghost invariant = { λ f. length f.marks.items ≡ length f.all };
}

impl InFlight {
    /// These, of which none has come back.
    pub(crate) fn from_vec(alloc: Global, flights: Vec<Flight>) -> Result<InFlight, Memory>
        ensures { IfOk result (λ f. f ≡ flights.items) }
    {
        let flights = Row::from_vec(flights);
        let marks = Vec::from_elem(alloc, false, flights.len())?;
        Ok(InFlight {
            all: Shared::new(alloc, flights)?,
            marks,
        })
    }

    /// A copy, which shares the list.
    pub(crate) fn copy(&self, alloc: Global) -> Result<InFlight, Memory>
        ensures { IfOk result (λ f. f ≡ self.now) }
    {
        Ok(InFlight {
            all: self.all.share()?,
            marks: Vec::from_slice(alloc, self.marks.as_slice())?,
        })
    }

    /// Each of them, in a list of its own.
    pub(crate) fn flights(&self, alloc: Global) -> Result<Vec<Flight>, Memory>
        ensures { IfOk result (λ v. v.items ≡ self.now) }
    {
        share_unmarked(alloc, self.all.part().as_slice(), self.marks.as_slice())
    }

    /// The first of this number. It takes no memory.
    pub(crate) fn find(&self, number: u64) -> Option<&Flight>
        ensures { option_map (λ f. f.now) result ≡ find (λ f. f.number == number) self.now }
    {
        find_unmarked(self.all.part().as_slice(), self.marks.as_slice(), number)
    }

    /// Whether the ticket is among them. It takes no memory.
    pub(crate) fn has_ticket(&self, ticket: &Ticket) -> bool
        ensures { result ≡ has_ticket ticket.now.number ticket.now.ask self.now }
    {
        is_unmarked(self.all.part().as_slice(), self.marks.as_slice(), ticket)
    }

    /// Takes out the first of this number. It takes no memory.
    pub(crate) fn remove(&mut self, number: u64)
        ensures { self.new ≡ without_flight number self.old }
    {
        mark_first(
            self.all.part().as_slice(),
            self.marks.as_mut_slice(),
            number,
        );
    }
}

/// The flights that are not marked.
fn share_unmarked(alloc: Global, all: &[Flight], marks: &[bool]) -> Result<Vec<Flight>, Memory>
    requires { length marks.now ≡ length all.now }
    ensures { IfOk result (λ v. v.items ≡ unmarked all.now marks.now) }
{
    let mut flights = Vec::new(alloc);
    for i in 0..all.len() {
        if !marks[i] {
            flights.push(all[i].share()?)?;
        }
    }
    Ok(flights)
}

/// The first flight of this number that is not marked.
fn find_unmarked<'a>(all: &'a [Flight], marks: &[bool], number: u64) -> Option<&'a Flight>
    requires { length marks.now ≡ length all.now }
    ensures { option_map (λ f. f.now) result ≡ find (λ f. f.number == number) (unmarked all.now marks.now) }
{
    for i in 0..all.len() {
        if !marks[i] && all[i].number == number {
            return Some(&all[i]);
        }
    }
    None
}

/// Whether a flight of the ticket's number and ask is not marked.
fn is_unmarked(all: &[Flight], marks: &[bool], ticket: &Ticket) -> bool
    requires { length marks.now ≡ length all.now }
    ensures { result ≡ has_ticket ticket.now.number ticket.now.ask (unmarked all.now marks.now) }
{
    for i in 0..all.len() {
        if !marks[i] && all[i].is_of(ticket) {
            return true;
        }
    }
    false
}

/// Marks the first flight of this number that is not marked.
fn mark_first(all: &[Flight], marks: &mut [bool], number: u64)
    requires { length marks.old ≡ length all.now }
    ensures length { length marks.new ≡ length all.now }
    ensures left { unmarked all.now marks.new ≡ without_flight number (unmarked all.now marks.old) }
{
    for i in 0..all.len() {
        if !marks[i] && all[i].number == number {
            marks[i] = true;
            return;
        }
    }
}

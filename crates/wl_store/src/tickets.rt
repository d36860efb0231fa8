//! Tickets, and what the calls of a store answer.

ghost use Rattle.std.specs.Prelude.{◌≡◌, ◌==◌, ◌&&◌, IfOk};
ghost use Rattle.wl_entry.specs.Same.{same_ask};

use std::alloc::Global;
use svid_cache::Installed;
use wl_entry::Ask;
use wl_octets::{Memory, Octets, Row, Shared};

/// What the signer is to be asked for. It is spent when it comes back, and can't be dropped.
pub struct Ticket {
    /// Numbers rise from 1 on.
    pub number: u64,
    pub ask: Ask,
}

impl Ticket {
    /// Gives the ticket up; what is in flight stays as it is.
    pub fn abandon(self) {
        let Ticket { number: _, ask: _ } = self;
    }
}

/// Gives tickets up; what is in flight stays as it is.
pub fn abandon_all(tickets: Row<Ticket>) {
    let mut items = tickets.into_vec();
    'rest: while let Some(ticket) = items.pop() {
        ticket.abandon();
    }
    items.destroy_empty();
}

/// A ticket in flight.
#[derive(Drop)]
pub struct Flight {
    pub number: u64,
    pub ask: Shared<Ask>,
}

impl Flight {
    /// The same flight, whose ask has one owner more.
    pub(crate) fn share(&self) -> Result<Flight, Memory>
        ensures { IfOk result (λ f. f ≡ self.now) }
    {
        Ok(Flight {
            number: self.number,
            ask: self.ask.share()?,
        })
    }

    /// Whether it is the ticket's: its number and its ask are equal.
    pub(crate) fn is_of(&self, ticket: &Ticket) -> bool
        ensures { result ≡ ((self.now.number == ticket.now.number) && same_ask self.now.ask ticket.now.ask) }
    {
        self.number == ticket.number && *self.ask.part() == ticket.ask
    }
}

/// Whether there is a new publication.
#[derive(Clone, Copy, Debug, PartialEq, Eq)]
pub enum Change {
    Same,
    New,
}

/// What a claim gave.
pub struct Claim {
    /// New where SVIDs were let go.
    pub swept: Change,
    /// One for each due ask that was not in flight, by ascending entry id.
    pub tickets: Row<Ticket>,
}

/// What a prepared step gave.
pub struct Adopted {
    pub change: Change,
    /// The tickets of a claim.
    pub tickets: Row<Ticket>,
    /// What became of a signed identity.
    pub installed: Option<Installed>,
    /// The ids of the entries of which the entry or the SVID may be another than in the last publication.
    pub touched: Row<Octets>,
}

impl Adopted {
    /// Gives up the answer and its tickets.
    pub fn abandon(self) {
        let Adopted {
            change: _,
            tickets,
            installed: _,
            touched: _,
        } = self;
        abandon_all(tickets);
    }
}

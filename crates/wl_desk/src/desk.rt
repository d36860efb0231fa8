//! The value under the lock.

ghost use Rattle.std.specs.Prelude.{◌≡◌, ◌-◌, List, IfOk, IfErr, OnOk, OnErr, IsOk, IsOkAnd, IsSome, Some, true, false};
ghost use Rattle.wl_document.specs.Documents.{document_state};
ghost use Rattle.wl_document.specs.Checks.{Faults};
ghost use Rattle.jwt_cache.specs.declared.rings.CachedToken.{CachedToken};
ghost use Rattle.jwt_cache.specs.Rings.{StandsFor};
ghost use Rattle.wl_manager.specs.Tokens.{history_after};
ghost use Rattle.wl_store.specs.Steps.{stored_after, after_sync, change_to};
ghost use Rattle.svid_cache.specs.Caches.{is_listed};
ghost use Rattle.wl_store.specs.Stores.{after_claim, after_signed, asks_of, asks_to_claim, flights_from, has_ticket, install};
ghost use Rattle.wl_store.specs.Flights.{flights_of};
ghost use Rattle.svid_cache.specs.declared.install.Installed.TheVariants as Installed;
ghost use Rattle.wl_publish.specs.Lists.{IsLast};
ghost use Rattle.wl_publish.specs.Listings.{listing};
ghost use Rattle.wl_desk.specs.Desks.{grown, noted, SpentIn};

use spiffe_id::TrustDomain;
use std::alloc::Global;
use std::marker::Model;
use std::sync::Wait;
use svid_cache::Installed;
use wl_document::{AuthorityState, DocFault};
use wl_entry::{Ask, Signed, Voucher};
use wl_manager::Manager;
use wl_octets::{Memory, Row};
use wl_publish::{Note, Publisher};
use wl_store::{Adopted, Ticket, abandon_all};

/// A manager, a publisher whose last publication is the manager's, and how many seats still serve. It is ended by `end`.
pub struct Desk<V: Voucher> {
    pub(crate) manager: Manager<V>,
    pub(crate) publisher: Publisher<V>,
    seats: u32,
}

impl<V: Voucher> Model for Desk<V> {
    ghost use Rattle.wl_publish.specs.Lists.{IsLast};
    ghost use Rattle.wl_desk.specs.Desks.{DeskState};

    ghost Value = { DeskState };

    ghost view = { λ d. record { store = d.publisher.store; list = d.publisher.list; managed = d.manager; seats = d.seats } };

    ghost invariant = { λ d. IsLast d.publisher.list d.manager.stored.published };
}

impl<V: Voucher> Desk<V> {
    /// A desk of a manager and a publisher whose last publication is the manager's, and so many seats.
    pub fn start(manager: Manager<V>, publisher: Publisher<V>, seats: u32) -> Desk<V>
        requires { IsLast publisher.list manager.stored.published }
        ensures { result
            ≡ record { store = publisher.store; list = publisher.list; managed = manager; seats = seats } }
    {
        Desk {
            manager,
            publisher,
            seats,
        }
    }

    /// The own trust domain, which a document has to have: that of the publications. It takes no memory.
    pub fn domain(&self) -> &TrustDomain
        ensures { result.now ≡ self.now.managed.stored.published.domain }
    {
        &self.manager.snapshot().part().domain
    }

    /// Takes what a document says, as `sync` takes the document. So it can be read by `wl_document::read_state`, with
    /// `domain` as the own one, while the desk is free. The state's own domain is not looked at: the publications' stays.
    /// There is a note exactly where there is a new publication; out of memory nothing changes.
    pub fn sync_state<R: Wait>(
        &mut self,
        rt: &R,
        alloc: Global,
        state: AuthorityState,
    ) -> Result<Option<Note<V>>, Memory>
        ensures stored { OnOk result
            (self.new.managed.stored
            ≡ stored_after (after_sync state self.old.managed.stored) self.old.managed.stored) }
        ensures list { OnOk result (self.new.list ≡ grown self.old.list (change_to (after_sync state self.old.managed.stored) self.old.managed.stored) self.new.managed.stored.published) }
        ensures note { IfOk result
            (λ note. note
            ≡ noted (change_to (after_sync state self.old.managed.stored) self.old.managed.stored)
            (listing self.new.store self.new.list)) }
        ensures history { (history : List CachedToken) → StandsFor self.old.managed.tokens history
            → OnOk result (StandsFor self.new.managed.tokens (history_after self.old.managed.stored.store.entries self.new.managed.stored.store.entries history)) }
        ensures rest { (self.new.store ≡ self.old.store) × (self.new.seats ≡ self.old.seats) }
        ensures err { OnErr result (self.new ≡ self.old) }
    {
        let prepared = self.manager.prepare_state(alloc, state)?;
        let (adopted, note) = self.settle(rt, alloc, prepared)?;
        adopted.abandon();
        Ok(note)
    }

    /// Takes a document, as `Manager::sync` does. There is a note exactly where there is a new publication; at a fault
    /// nothing changes.
    pub fn sync<R: Wait>(
        &mut self,
        rt: &R,
        alloc: Global,
        document: &[u8],
    ) -> Result<Option<Note<V>>, DocFault>
        ensures stored { OnOk result
            (IsOkAnd (document_state (Some self.old.managed.stored.published.domain) document.now)
            (λ d. self.new.managed.stored ≡ stored_after (after_sync d self.old.managed.stored) self.old.managed.stored)) }
        ensures list { OnOk result
            (IsOkAnd (document_state (Some self.old.managed.stored.published.domain) document.now)
            (λ d. self.new.list ≡ grown self.old.list (change_to (after_sync d self.old.managed.stored) self.old.managed.stored) self.new.managed.stored.published)) }
        ensures note { IfOk result
            (λ note. IsOkAnd (document_state (Some self.old.managed.stored.published.domain) document.now)
            (λ d. note ≡ noted (change_to (after_sync d self.old.managed.stored) self.old.managed.stored) (listing self.new.store self.new.list))) }
        ensures history { (history : List CachedToken) → StandsFor self.old.managed.tokens history
            → OnOk result (StandsFor self.new.managed.tokens (history_after self.old.managed.stored.store.entries self.new.managed.stored.store.entries history)) }
        ensures rest { (self.new.store ≡ self.old.store) × (self.new.seats ≡ self.old.seats) }
        ensures fault { IfErr result
            (λ e. Faults e (document_state (Some self.old.managed.stored.published.domain) document.now)) }
        ensures err { OnErr result (self.new ≡ self.old) }
    {
        let prepared = self.manager.prepare_sync(alloc, document)?;
        match self.settle(rt, alloc, prepared) {
            Ok((adopted, note)) => {
                adopted.abandon();
                Ok(note)
            }
            Err(Memory) => Err(DocFault::Memory),
        }
    }

    /// Lets go of what has expired, and gives a ticket for each ask that is due then and has none in flight. There is a note
    /// exactly where there is a new publication; out of memory nothing changes.
    pub fn claim<R: Wait>(
        &mut self,
        rt: &R,
        alloc: Global,
        now: u64,
    ) -> Result<(Row<Ticket>, Option<Note<V>>), Memory>
        ensures stored { OnOk result
            (self.new.managed.stored
            ≡ stored_after (after_claim now self.old.managed.stored.store) self.old.managed.stored) }
        ensures tickets { IfOk result
            (λ r. flights_of r.0
            ≡ flights_from self.old.managed.stored.store.last_ticket
            (asks_to_claim now self.old.managed.stored.store)) }
        ensures list { OnOk result (self.new.list ≡ grown self.old.list (change_to (after_claim now self.old.managed.stored.store) self.old.managed.stored) self.new.managed.stored.published) }
        ensures note { IfOk result
            (λ r. r.1
            ≡ noted (change_to (after_claim now self.old.managed.stored.store) self.old.managed.stored)
            (listing self.new.store self.new.list)) }
        ensures tokens { self.new.managed.tokens ≡ self.old.managed.tokens }
        ensures rest { (self.new.store ≡ self.old.store) × (self.new.seats ≡ self.old.seats) }
        ensures err { OnErr result (self.new ≡ self.old) }
    {
        let prepared = self.manager.prepare_claim(alloc, now)?;
        let (adopted, note) = self.settle(rt, alloc, prepared)?;
        let Adopted {
            change: _,
            tickets,
            installed: _,
            touched: _,
        } = adopted;
        Ok((tickets, note))
    }

    /// Takes a ticket back with a signed identity, which has to be vouched for its ask. The ticket is spent in each case; out
    /// of memory nothing else changes. There is a note exactly where there is a new publication.
    pub fn signed<R: Wait>(
        &mut self,
        rt: &R,
        alloc: Global,
        ticket: Ticket,
        signed: Signed,
        now: u64,
    ) -> Result<(Installed, Option<Note<V>>), Memory>
        requires { V.signed ticket.ask signed }
        // A ticket that is not in flight changes nothing.
        ensures spent { has_ticket ticket.number ticket.ask self.old.managed.stored.store.in_flight ≡ false
            → IfOk result (λ r. (r.0 ≡ Installed.Spent) × (self.new ≡ self.old)) }
        // The ticket leaves, and the answer is that of Install.
        ensures stored { has_ticket ticket.number ticket.ask self.old.managed.stored.store.in_flight ≡ true
            → OnOk result (self.new.managed.stored ≡ stored_after (after_signed now ticket.number ticket.ask signed self.old.managed.stored.store) self.old.managed.stored) }
        ensures installed { has_ticket ticket.number ticket.ask self.old.managed.stored.store.in_flight ≡ true
            → IfOk result (λ r. r.0 ≡ install now ticket.ask signed self.old.managed.stored.store) }
        ensures list { has_ticket ticket.number ticket.ask self.old.managed.stored.store.in_flight ≡ true
            → OnOk result (self.new.list ≡ grown self.old.list (change_to (after_signed now ticket.number ticket.ask signed self.old.managed.stored.store) self.old.managed.stored) self.new.managed.stored.published) }
        ensures note { has_ticket ticket.number ticket.ask self.old.managed.stored.store.in_flight ≡ true
            → IfOk result (λ r. r.1 ≡ noted (change_to (after_signed now ticket.number ticket.ask signed self.old.managed.stored.store) self.old.managed.stored) (listing self.new.store self.new.list)) }
        ensures tokens { self.new.managed.tokens ≡ self.old.managed.tokens }
        ensures rest { (self.new.store ≡ self.old.store) × (self.new.seats ≡ self.old.seats) }
        ensures err { OnErr result (self.new.list ≡ self.old.list) }
        ensures err_spent { OnErr result
            (SpentIn ticket.number ticket.ask self.old.managed.stored self.new.managed.stored) }
    {
        let prepared = match self.manager.prepare_signed(alloc, &ticket, &signed, now) {
            Ok(prepared) => prepared,
            Err(Memory) => {
                self.manager.failed(ticket);
                return Err(Memory);
            }
        };
        match self.settle(rt, alloc, prepared) {
            Ok((adopted, note)) => {
                ticket.abandon();
                Ok((installed_of(adopted), note))
            }
            Err(Memory) => {
                self.manager.failed(ticket);
                Err(Memory)
            }
        }
    }

    /// Whether an entry has this ask.
    pub fn lists(&self, ask: &Ask) -> bool
        ensures { result ≡ is_listed (asks_of self.now.managed.stored.store.entries) ask.now }
    {
        self.manager.lists(ask)
    }

    /// The second, in Unix time, since which identities and tokens have to be signed: that of the last document. It takes
    /// no memory.
    pub fn renew_before(&self) -> u64
        ensures { result ≡ self.now.managed.stored.store.renew_before }
    {
        self.manager.renew_before()
    }

    /// Takes back a ticket without an identity. Nothing changes where it was not in flight. It takes no memory.
    pub fn failed(&mut self, ticket: Ticket)
        ensures stored { SpentIn ticket.number ticket.ask self.old.managed.stored self.new.managed.stored }
        ensures tokens { self.new.managed.tokens ≡ self.old.managed.tokens }
        ensures rest { (self.new.store ≡ self.old.store) × (self.new.list ≡ self.old.list)
            × (self.new.seats ≡ self.old.seats) }
    {
        self.manager.failed(ticket);
    }

    /// A note of all publications so far, whose last is the manager's. Nothing changes, and it always succeeds, as
    /// `Publisher::note`.
    pub fn note<R: Wait>(&mut self, rt: &R) -> Result<Note<V>, Memory>
        ensures note { IfOk result (λ note. note ≡ listing self.old.store self.old.list) }
        ensures last { IfOk result (λ note. IsLast note.list self.old.managed.stored.published) }
        ensures always { IsOk result }
        ensures same { self.new ≡ self.old }
    {
        self.publisher.note(rt)
    }

    /// One seat fewer serves; at 0 nothing changes.
    pub fn seat_ended(&mut self)
        ensures { self.new ≡ record self.old { seats = self.old.seats - 1 } }
    {
        self.seats = self.seats.saturating_sub(1);
    }

    /// How many seats still serve.
    pub fn seats(&self) -> u32
        ensures { result ≡ self.now.seats }
    {
        self.seats
    }

    /// Ends the publisher, which waits for those that are reading.
    pub fn end<R: Wait>(self, rt: &R) {
        let Desk {
            manager: _,
            publisher,
            seats: _,
        } = self;
        publisher.end(rt);
    }
}

/// What was installed, by a step that a ticket made.
fn installed_of(adopted: Adopted) -> Installed
    requires { IsSome adopted.installed }
    ensures { Some result ≡ adopted.installed }
{
    let Adopted {
        change: _,
        tickets,
        installed,
        touched: _,
    } = adopted;
    abandon_all(tickets);
    match installed {
        Some(installed) => installed,
        None => unreachable!(),
    }
}

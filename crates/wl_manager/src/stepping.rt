//! Steps of the store, and what they make of the tokens.

ghost use Rattle.std.specs.Prelude.{◌≡◌, [], List, true, false, Ok, None, Some, option_map, IfOk, IfErr, IsOkAnd, OnOk, OnErr};
ghost use Rattle.wl_document.specs.Checks.{Faults};
ghost use Rattle.wl_document.specs.Documents.{document_state};
ghost use Rattle.jwt_cache.specs.Rings.{StandsFor};
ghost use Rattle.jwt_cache.specs.declared.rings.CachedToken.{CachedToken};
ghost use Rattle.wl_store.specs.Flights.{flights_of};
ghost use Rattle.wl_store.specs.Steps.{stored_after, change_to, after_sync, news, after_failed, AllTrusted};
ghost use Rattle.wl_store.specs.Stores.{asks_of, after_claim, asks_to_claim, flights_from, has_ticket, install, after_signed};
ghost use Rattle.wl_snapshot.specs.Untouched.{SameBut};
ghost use Rattle.wl_manager.specs.Tokens.{changed_ids, without_all, history_after};

use crate::dropping::{changed_ids, forget_all};
use crate::manager::Manager;
use std::alloc::Global;
use svid_cache::Installed;
use wl_document::{AuthorityState, DocFault};
use wl_entry::{Signed, Voucher};
use wl_octets::{Memory, Octets, Row, Shared};
use wl_snapshot::Snapshot;
use wl_store::{Adopted, Change, Claim, Ticket};

/// A step that can be adopted: the store after it, what it answers, and the entries whose tokens it drops.
pub struct Prepared<V: Voucher> {
    pub step: wl_store::Prepared<V>,
    pub dropped: Row<Octets>,
}

impl<V: Voucher> Prepared<V> {
    /// The new publication, where there is one. It takes no memory.
    pub fn snapshot(&self) -> Option<&Shared<Snapshot>>
        ensures value { option_map (λ p. p.now) result
            ≡ news self.now.step.answer.change self.now.step.next.published }
        ensures trusted { AllTrusted V.signed self.now.step.next.store.strict self.now.step.next.published.svids }
    {
        self.step.snapshot()
    }

    /// Gives up the step and its tickets.
    pub fn abandon(self) {
        let Prepared { step, dropped: _ } = self;
        step.abandon();
    }
}

impl<V: Voucher> Manager<V> {
    /// The ids of the entries whose ask the step changes or removes.
    fn dropped_by(&self, alloc: Global, step: &wl_store::Prepared<V>) -> Result<Row<Octets>, Memory>
        ensures { IfOk result
            (λ ids. ids
            ≡ changed_ids (asks_of self.now.stored.store.entries) (asks_of step.now.next.store.entries)) }
    {
        changed_ids(alloc, self.store.asks(), &step.next)
    }

    /// The step with the entries whose tokens it drops: those whose ask it changes or removes.
    fn with_dropped(
        &self,
        alloc: Global,
        step: wl_store::Prepared<V>,
    ) -> Result<Prepared<V>, Memory>
        ensures step { IfOk result (λ p. p.step ≡ step) }
        ensures dropped { IfOk result
            (λ p. p.dropped
            ≡ changed_ids (asks_of self.now.stored.store.entries) (asks_of step.next.store.entries)) }
    {
        match self.dropped_by(alloc, &step) {
            Ok(dropped) => Ok(Prepared { step, dropped }),
            Err(Memory) => {
                step.abandon();
                Err(Memory)
            }
        }
    }

    /// Prepares the step of a document that says this, as `prepare_sync` does. The state's own domain is not
    /// looked at: the publications' stays.
    pub fn prepare_state(&self, alloc: Global, state: AuthorityState) -> Result<Prepared<V>, Memory>
        ensures next { IfOk result
            (λ p. p.step.next ≡ stored_after (after_sync state self.now.stored) self.now.stored) }
        ensures change { IfOk result
            (λ p. p.step.answer.change ≡ change_to (after_sync state self.now.stored) self.now.stored) }
        ensures tickets { IfOk result (λ p. p.step.answer.tickets ≡ []) }
        ensures installed { IfOk result (λ p. p.step.answer.installed ≡ None) }
        ensures touched { IfOk result
            (λ p. SameBut p.step.answer.touched self.now.stored.published p.step.next.published) }
        ensures dropped { IfOk result
            (λ p. p.dropped
            ≡ changed_ids (asks_of self.now.stored.store.entries) (asks_of p.step.next.store.entries)) }
    {
        let step = self.store.prepare_state(alloc, state)?;
        self.with_dropped(alloc, step)
    }

    /// Prepares the step that a document is read. Its own domain has to be the manager's. The tokens are to be dropped
    /// of each entry whose ask it changes or removes.
    pub fn prepare_sync(&self, alloc: Global, document: &[u8]) -> Result<Prepared<V>, DocFault>
        ensures next { IfOk result
            (λ p. IsOkAnd (document_state (Some self.now.stored.published.domain) document.now)
            (λ d. p.step.next ≡ stored_after (after_sync d self.now.stored) self.now.stored)) }
        ensures change { IfOk result
            (λ p. IsOkAnd (document_state (Some self.now.stored.published.domain) document.now)
            (λ d. p.step.answer.change ≡ change_to (after_sync d self.now.stored) self.now.stored)) }
        ensures tickets { IfOk result (λ p. p.step.answer.tickets ≡ []) }
        ensures installed { IfOk result (λ p. p.step.answer.installed ≡ None) }
        ensures touched { IfOk result
            (λ p. SameBut p.step.answer.touched self.now.stored.published p.step.next.published) }
        ensures dropped { IfOk result
            (λ p. p.dropped
            ≡ changed_ids (asks_of self.now.stored.store.entries) (asks_of p.step.next.store.entries)) }
        ensures fault { IfErr result
            (λ e. Faults e (document_state (Some self.now.stored.published.domain) document.now)) }
    {
        let step = self.store.prepare_sync(alloc, document)?;
        match self.with_dropped(alloc, step) {
            Ok(prepared) => Ok(prepared),
            Err(Memory) => Err(DocFault::Memory),
        }
    }

    /// Prepares a claim: what has expired is let go, and there is one ticket, by ascending entry id, for each ask that is
    /// due then and has none in flight.
    pub fn prepare_claim(&self, alloc: Global, now: u64) -> Result<Prepared<V>, Memory>
        ensures next { IfOk result
            (λ p. p.step.next ≡ stored_after (after_claim now self.now.stored.store) self.now.stored) }
        ensures change { IfOk result
            (λ p. p.step.answer.change ≡ change_to (after_claim now self.now.stored.store) self.now.stored) }
        ensures tickets { IfOk result
            (λ p. flights_of p.step.answer.tickets
            ≡ flights_from self.now.stored.store.last_ticket (asks_to_claim now self.now.stored.store)) }
        ensures installed { IfOk result (λ p. p.step.answer.installed ≡ None) }
        ensures touched { IfOk result
            (λ p. SameBut p.step.answer.touched self.now.stored.published p.step.next.published) }
        ensures dropped { IfOk result (λ p. p.dropped ≡ []) }
    {
        let step = self.store.prepare_claim(alloc, now)?;
        Ok(Prepared {
            step,
            dropped: Row::empty(alloc),
        })
    }

    /// Prepares that a ticket comes back with a signed identity, which has to be vouched for the ticket's ask.
    pub fn prepare_signed(
        &self,
        alloc: Global,
        ticket: &Ticket,
        signed: &Signed,
        now: u64,
    ) -> Result<Prepared<V>, Memory>
        requires { V.signed ticket.now.ask signed.now }

        // A ticket that is not in flight changes nothing.
        ensures spent { has_ticket ticket.now.number ticket.now.ask self.now.stored.store.in_flight ≡ false →
            IfOk result (λ p. (p.step.next ≡ self.now.stored) × (p.step.answer.change ≡ Change.Same) × (p.step.answer.installed ≡ Some Installed.Spent)) }

        // The ticket leaves, and the answer is that of Install.
        ensures next { has_ticket ticket.now.number ticket.now.ask self.now.stored.store.in_flight ≡ true →
            IfOk result (λ p. p.step.next ≡ stored_after (after_signed now ticket.now.number ticket.now.ask signed.now self.now.stored.store) self.now.stored) }
        ensures change { has_ticket ticket.now.number ticket.now.ask self.now.stored.store.in_flight ≡ true →
            IfOk result (λ p. p.step.answer.change ≡ change_to (after_signed now ticket.now.number ticket.now.ask signed.now self.now.stored.store) self.now.stored) }
        ensures installed { has_ticket ticket.now.number ticket.now.ask self.now.stored.store.in_flight
            ≡ true →
            IfOk result (λ p. p.step.answer.installed ≡ Some (install now ticket.now.ask signed.now self.now.stored.store)) }
        ensures tickets { IfOk result (λ p. p.step.answer.tickets ≡ []) }
        ensures touched { IfOk result
            (λ p. SameBut p.step.answer.touched self.now.stored.published p.step.next.published) }
        ensures dropped { IfOk result (λ p. p.dropped ≡ []) }
    {
        let step = self.store.prepare_signed(alloc, ticket, signed, now)?;
        Ok(Prepared {
            step,
            dropped: Row::empty(alloc),
        })
    }

    /// Takes a prepared step: the store's whole state, whatever it is now, and the tokens without those of the entries that
    /// the step drops. So a caller prepares a step and adopts it with no other step between. It takes no memory.
    pub fn adopt(&mut self, prepared: Prepared<V>) -> Adopted
        ensures stored { self.new.stored ≡ prepared.step.next }
        ensures history { (history : List CachedToken) → StandsFor self.old.tokens history
            → StandsFor self.new.tokens (without_all prepared.dropped history) }
        ensures tokens { prepared.dropped ≡ [] → self.new.tokens ≡ self.old.tokens }
        ensures answer { result ≡ prepared.step.answer }
    {
        let Prepared { step, dropped } = prepared;
        forget_all(&mut self.tokens, dropped.as_slice());
        self.store.adopt(step)
    }

    /// Takes the entries and bundles of a document, and drops the tokens of each entry whose ask was changed or
    /// removed. Its own domain has to be the manager's. The first check that fails is the fault, and nothing changes
    /// then.
    pub fn sync(&mut self, alloc: Global, document: &[u8]) -> Result<Change, DocFault>
        ensures ok { OnOk result
            (IsOkAnd (document_state (Some self.old.stored.published.domain) document.now)
            (λ d. self.new.stored ≡ stored_after (after_sync d self.old.stored) self.old.stored)) }
        ensures history { (history : List CachedToken) → StandsFor self.old.tokens history
            → OnOk result
            (StandsFor self.new.tokens
            (history_after self.old.stored.store.entries self.new.stored.store.entries history)) }
        ensures change { IfOk result
            (λ c. IsOkAnd (document_state (Some self.old.stored.published.domain) document.now)
            (λ d. c ≡ change_to (after_sync d self.old.stored) self.old.stored)) }
        ensures fault { IfErr result
            (λ e. Faults e (document_state (Some self.old.stored.published.domain) document.now)) }
        ensures err { OnErr result (self.new ≡ self.old) }
    {
        match self.prepare_sync(alloc, document) {
            Ok(prepared) => {
                let answer = self.adopt(prepared);
                let change = answer.change;
                answer.abandon();
                Ok(change)
            }
            Err(fault) => Err(fault),
        }
    }

    /// Lets go of what has expired, and gives one ticket, by ascending entry id, for each ask that is due then and has none
    /// in flight.
    pub fn claim(&mut self, alloc: Global, now: u64) -> Result<Claim, Memory>
        ensures ok { OnOk result
            (self.new.stored ≡ stored_after (after_claim now self.old.stored.store) self.old.stored) }
        ensures swept { IfOk result
            (λ c. c.swept ≡ change_to (after_claim now self.old.stored.store) self.old.stored) }
        ensures tickets { IfOk result
            (λ c. flights_of c.tickets
            ≡ flights_from self.old.stored.store.last_ticket (asks_to_claim now self.old.stored.store)) }
        ensures tokens { self.new.tokens ≡ self.old.tokens }
        ensures err { OnErr result (self.new ≡ self.old) }
    {
        self.store.claim(alloc, now)
    }

    /// Takes a ticket back with a signed identity, which has to be vouched for the ticket's ask, and tells what became
    /// of it. The ticket is spent in each case; if memory runs out nothing else changes.
    pub fn signed(
        &mut self,
        alloc: Global,
        ticket: Ticket,
        signed: Signed,
        now: u64,
    ) -> Result<Installed, Memory>
        requires { V.signed ticket.ask signed }

        // A ticket that is not in flight changes nothing.
        ensures spent { has_ticket ticket.number ticket.ask self.old.stored.store.in_flight ≡ false
            → (result ≡ Ok Installed.Spent) × (self.new ≡ self.old) }

        // The ticket leaves, and the answer is that of Install.
        ensures ok { has_ticket ticket.number ticket.ask self.old.stored.store.in_flight ≡ true →
            OnOk result (self.new.stored ≡ stored_after (after_signed now ticket.number ticket.ask signed self.old.stored.store) self.old.stored) }
        ensures installed { has_ticket ticket.number ticket.ask self.old.stored.store.in_flight ≡ true →
            IfOk result (λ i. i ≡ install now ticket.ask signed self.old.stored.store) }
        ensures tokens { self.new.tokens ≡ self.old.tokens }
        ensures err { OnErr result (self.new.stored ≡ after_failed ticket.number self.old.stored) }
    {
        self.store.signed(alloc, ticket, signed, now)
    }
}

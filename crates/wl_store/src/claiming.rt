//! Claiming tickets.

ghost use Rattle.std.specs.Prelude.{◌≡◌, ◌+◌, ◌<◌, ◌^◌, ◌++◌, is_none, length, None, IfOk, OnOk, OnErr};
ghost use Rattle.std.specs.Cmp.Lexicographic.{pointwise};
ghost use Rattle.wl_entry.specs.Same.{same_svid};
ghost use Rattle.svid_cache.specs.Caches.{due_asks, without_ended};
ghost use Rattle.wl_store.specs.Flights.{flights_of};
ghost use Rattle.wl_store.specs.Steps.{stored_after, change_to, with_parts, kept_after, AllTrusted};
ghost use Rattle.wl_store.specs.Stores.{asks_of, cached_of, after_claim, asks_to_claim, flights_from};
ghost use Rattle.wl_snapshot.specs.Untouched.{SameBut};
ghost use Rattle.wl_store.specs.Touched.{ids_ended};

use crate::flights::{add_flights, issue, without_in_flight};
use crate::in_flight::InFlight;
use crate::preparing::Prepared;
use crate::store::Store;
use crate::tickets::{Adopted, Claim};
use crate::touched::ids_ended;
use std::alloc::Global;
use svid_cache::KeptSvids;
use wl_entry::{Ask, Voucher};
use wl_octets::{Memory, Octets, Row};

impl<V: Voucher> Store<V> {
    /// The asks and SVIDs without what has expired, where something has.
    fn swept(&self, alloc: Global, now: u64) -> Result<Option<KeptSvids>, Memory>
        ensures value { IfOk result
            (λ c. kept_after c self.now.store ≡ without_ended now (cached_of self.now.store)) }
        ensures trusted { IfOk result
            (λ c. AllTrusted V.signed self.now.store.strict (kept_after c self.now.store).svids) }
        ensures same { IfOk result
            (λ c. is_none c ≡ pointwise same_svid self.now.store.svids (kept_after c self.now.store).svids) }
    {
        let svids = self.svids();
        if self.table().has_ended(svids, now) {
            let cache = self.table().prepare_sweep(alloc, svids, now)?;
            return Ok(Some(cache));
        }
        Ok(None)
    }

    /// The entry ids of the SVIDs that have expired. No SVID is looked at where none has.
    fn ids_swept(&self, alloc: Global, now: u64) -> Result<Row<Octets>, Memory>
        ensures { IfOk result (λ ids. ids ≡ ids_ended now self.now.store.svids) }
    {
        let svids = self.svids();
        if self.table().has_ended(svids, now) {
            let all = svids.to_row(alloc)?;
            return ids_ended(alloc, all.as_slice(), now);
        }
        Ok(Row::empty(alloc))
    }

    /// The asks that are due among these, or else among those that are kept now.
    fn due(&self, alloc: Global, cache: &Option<KeptSvids>, now: u64) -> Result<Row<Ask>, Memory>
        ensures { IfOk result (λ r. r ≡ due_asks now (kept_after cache.now self.now.store)) }
    {
        match cache {
            Some(cache) => cache.due(alloc, now),
            None => self.table().due(alloc, self.svids(), now),
        }
    }

    /// The asks that are due and have no ticket in flight. No ticket is looked at where none is due.
    #[tactic(auto, unfolding(crate::specs::Stores::asks_to_claim))]
    fn asks_to_claim(
        &self,
        alloc: Global,
        cache: &Option<KeptSvids>,
        now: u64,
    ) -> Result<Row<Ask>, Memory>
        requires { kept_after cache.now self.now.store ≡ without_ended now (cached_of self.now.store) }
        ensures { IfOk result (λ r. r ≡ asks_to_claim now self.now.store) }
    {
        let due = self.due(alloc, cache, now)?;
        if due.len() == 0 {
            return Ok(due);
        }
        let in_flight = self.in_flight.flights(alloc)?;
        without_in_flight(alloc, due.as_slice(), in_flight.as_slice())
    }

    /// The tickets in flight with one for each of these asks, numbered from the last one on.
    fn more_flights(&self, alloc: Global, asks: &[Ask]) -> Result<InFlight, Memory>
        requires { self.now.store.last_ticket + length asks.now < 2 ^ 64 }
        ensures { IfOk result
            (λ f. f ≡ self.now.store.in_flight ++ flights_from self.now.store.last_ticket asks.now) }
    {
        if asks.is_empty() {
            return self.copy_flights(alloc);
        }
        let mut in_flight = self.in_flight.flights(alloc)?;
        add_flights(alloc, &mut in_flight, asks, self.last_ticket)?;
        InFlight::from_vec(alloc, in_flight)
    }

    /// The number of the last ticket, with one for each of these asks.
    fn last_after(&self, asks: &[Ask]) -> Result<u64, Memory>
        ensures last { IfOk result (λ n. n ≡ self.now.store.last_ticket + length asks.now) }
        ensures fits { OnOk result (self.now.store.last_ticket + length asks.now < 2 ^ 64) }
    {
        match self.last_ticket.checked_add(asks.len() as u64) {
            Some(last) => Ok(last),
            None => Err(Memory),
        }
    }

    /// The step of a claim of these asks.
    fn claim_asks(
        &self,
        alloc: Global,
        cache: Option<KeptSvids>,
        asks: &[Ask],
        touched: Row<Octets>,
    ) -> Result<Prepared<V>, Memory>
        requires cached { (kept_after cache self.now.store).asks ≡ asks_of self.now.store.entries }
        requires trusted { AllTrusted V.signed self.now.store.strict (kept_after cache self.now.store).svids }
        requires same { is_none cache ≡ pointwise same_svid self.now.store.svids (kept_after cache self.now.store).svids }
        ensures next { IfOk result
            (λ p. p.next ≡ stored_after (with_parts self.now.store.entries self.now.store.bundles (kept_after cache self.now.store)
            (self.now.store.in_flight ++ flights_from self.now.store.last_ticket asks.now)
            (self.now.store.last_ticket + length asks.now) self.now.store) self.now) }
        ensures change { IfOk result
            (λ p. p.answer.change
            ≡ change_to (with_parts self.now.store.entries self.now.store.bundles (kept_after cache self.now.store)
            (self.now.store.in_flight ++ flights_from self.now.store.last_ticket asks.now)
            (self.now.store.last_ticket + length asks.now) self.now.store) self.now) }
        ensures tickets { IfOk result
            (λ p. flights_of p.answer.tickets ≡ flights_from self.now.store.last_ticket asks.now) }
        ensures installed { IfOk result (λ p. p.answer.installed ≡ None) }
        ensures touched { IfOk result (λ p. p.answer.touched ≡ touched) }
    {
        let last_ticket = self.last_after(asks)?;
        let in_flight = self.more_flights(alloc, asks)?;
        let stock = self.shared_stock()?;
        let (next, change) = self.settle(alloc, stock, cache, in_flight, last_ticket)?;
        match issue(alloc, asks, self.last_number()) {
            Ok(tickets) => Ok(Prepared {
                next,
                answer: Adopted {
                    change,
                    tickets,
                    installed: None,
                    touched,
                },
            }),
            Err(memory) => Err(memory),
        }
    }

    /// Prepares a claim: what has expired is let go, and there is one ticket, by ascending entry id, for each ask that is
    /// due then and has none in flight.
    #[tactic(auto, unfolding(crate::specs::Stores::after_claim))]
    pub fn prepare_claim(&self, alloc: Global, now: u64) -> Result<Prepared<V>, Memory>
        ensures next { IfOk result (λ p. p.next ≡ stored_after (after_claim now self.now.store) self.now) }
        ensures change { IfOk result
            (λ p. p.answer.change ≡ change_to (after_claim now self.now.store) self.now) }
        ensures tickets { IfOk result (λ p. flights_of p.answer.tickets
            ≡ flights_from self.now.store.last_ticket (asks_to_claim now self.now.store)) }
        ensures installed { IfOk result (λ p. p.answer.installed ≡ None) }
        ensures touched { IfOk result (λ p. SameBut p.answer.touched self.now.published p.next.published) }
    {
        // a field that is read tells the proof what the type keeps
        let _ = &self.last_ticket;
        let cache = self.swept(alloc, now)?;
        let asks = self.asks_to_claim(alloc, &cache, now)?;
        let touched = self.ids_swept(alloc, now)?;
        let prepared = self.claim_asks(alloc, cache, asks.as_slice(), touched)?;
        Ok(prepared)
    }

    /// Lets go of what has expired, and gives one ticket, by ascending entry id, for each ask that is due then and has
    /// none in flight.
    pub fn claim(&mut self, alloc: Global, now: u64) -> Result<Claim, Memory>
        ensures ok { OnOk result (self.new ≡ stored_after (after_claim now self.old.store) self.old) }
        ensures swept { IfOk result (λ c. c.swept ≡ change_to (after_claim now self.old.store) self.old) }
        ensures tickets { IfOk result (λ c. flights_of c.tickets
            ≡ flights_from self.old.store.last_ticket (asks_to_claim now self.old.store)) }
        ensures err { OnErr result (self.new ≡ self.old) }
    {
        match self.prepare_claim(alloc, now) {
            Ok(prepared) => {
                let Adopted {
                    change,
                    tickets,
                    installed: _,
                    touched: _,
                } = self.adopt(prepared);
                Ok(Claim {
                    swept: change,
                    tickets,
                })
            }
            Err(memory) => Err(memory),
        }
    }
}

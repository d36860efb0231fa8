//! Steps that are prepared, and adopted.

ghost use Rattle.std.specs.Prelude.{◌≡◌, ◌+◌, is_none, option_map, IfOk};
ghost use Rattle.wl_store.specs.Steps.{stored_after, change_to, news, IsStock, AllTrusted, kept_after, stored_of, with_parts};
ghost use Rattle.wl_store.specs.Stores.{asks_of, publish, shows_parts};

use crate::in_flight::InFlight;
use crate::publishing::publication;
use crate::stock::Stock;
use crate::store::Store;
use crate::tickets::{Adopted, Change};
use std::alloc::Global;
use std::marker::PhantomData;
use svid_cache::KeptSvids;
use wl_entry::Voucher;
use wl_octets::{Memory, Shared};
use wl_snapshot::Snapshot;

/// A step that can be adopted: the store after it, and what it answers.
pub struct Prepared<V: Voucher> {
    pub next: Store<V>,
    pub answer: Adopted,
}

impl<V: Voucher> Prepared<V> {
    /// The new publication, where there is one. It takes no memory.
    pub fn snapshot(&self) -> Option<&Shared<Snapshot>>
        ensures value { option_map (λ p. p.now) result ≡ news self.now.answer.change self.now.next.published }
        ensures trusted { AllTrusted V.signed self.now.next.store.strict self.now.next.published.svids }
    {
        let snapshot = self.next.snapshot();
        match self.answer.change {
            Change::Same => None,
            Change::New => Some(snapshot),
        }
    }

    /// Gives up the step and its tickets.
    pub fn abandon(self) {
        let Prepared { next: _, answer } = self;
        answer.abandon();
    }
}

impl<V: Voucher> Store<V> {
    /// The store with these parts, where the last publication stays.
    pub(crate) fn keep_published(
        &self,
        in_flight: InFlight,
        last_ticket: u64,
    ) -> Result<Store<V>, Memory>
        ensures { IfOk result
            (λ m. m ≡ stored_of self.now.store.strict self.now.published self.now.store.renew_before
            in_flight last_ticket) }
    {
        Ok(Store {
            strict: self.strict,
            published: self.published.share()?,
            index: self.index.share()?,
            table: self.table.share()?,
            in_flight,
            last_ticket,
            of: PhantomData,
        })
    }

    /// The store with the timetable of this cache, where the last publication shows its SVIDs and stays.
    fn retime(
        &self,
        alloc: Global,
        cache: KeptSvids,
        in_flight: InFlight,
        last_ticket: u64,
    ) -> Result<Store<V>, Memory>
        requires asks { cache.asks ≡ asks_of self.now.published.entries }
        requires svids { cache.svids ≡ self.now.published.svids }
        ensures { IfOk result
            (λ m. m ≡ stored_of self.now.store.strict self.now.published cache.renew_before in_flight last_ticket) }
    {
        let (table, _) = cache.into_parts();
        Ok(Store {
            strict: self.strict,
            published: self.published.share()?,
            index: self.index.share()?,
            table: Shared::new(alloc, table)?,
            in_flight,
            last_ticket,
            of: PhantomData,
        })
    }

    /// The store with these parts and a new publication, which takes the list of SVIDs as it lies.
    fn publish_parts(
        &self,
        alloc: Global,
        stock: Stock,
        cache: KeptSvids,
        in_flight: InFlight,
        last_ticket: u64,
    ) -> Result<Store<V>, Memory>
        requires stock { IsStock stock.entries stock.bundles }
        requires indexed { stock.index ≡ stock.entries }
        requires cached { cache.asks ≡ asks_of stock.entries }
        requires trusted { AllTrusted V.signed self.now.store.strict cache.svids }
        ensures { IfOk result (λ m. m ≡ stored_of self.now.store.strict
            (publish (self.now.published.number + 1) self.now.published.domain
            (with_parts stock.entries stock.bundles cache in_flight last_ticket self.now.store))
            cache.renew_before in_flight last_ticket) }
    {
        let old = self.published.part();
        if old.number == u64::MAX {
            return Err(Memory);
        }
        let domain = old.domain.copy(alloc)?;
        let Stock {
            entries,
            index,
            bundles,
        } = stock;
        let (table, svids) = cache.into_parts();
        let published = publication(alloc, old.number + 1, domain, entries, svids, bundles)?;
        Ok(Store {
            strict: self.strict,
            published,
            index,
            table: Shared::new(alloc, table)?,
            in_flight,
            last_ticket,
            of: PhantomData,
        })
    }

    /// The store with these parts, and whether it has a new publication: it has none where the last one shows them, and
    /// no cache is given.
    pub(crate) fn settle(
        &self,
        alloc: Global,
        stock: Stock,
        cache: Option<KeptSvids>,
        in_flight: InFlight,
        last_ticket: u64,
    ) -> Result<(Store<V>, Change), Memory>
        requires stock { IsStock stock.entries stock.bundles }
        requires indexed { stock.index ≡ stock.entries }
        requires cached { (kept_after cache self.now.store).asks ≡ asks_of stock.entries }
        requires trusted { AllTrusted V.signed self.now.store.strict (kept_after cache self.now.store).svids }
        requires same { is_none cache
            ≡ shows_parts self.now.published stock.entries (kept_after cache self.now.store).svids stock.bundles }
        ensures next { IfOk result (λ r. r.0 ≡ stored_after
            (with_parts stock.entries stock.bundles (kept_after cache self.now.store) in_flight last_ticket self.now.store) self.now) }
        ensures change { IfOk result (λ r. r.1 ≡ change_to
            (with_parts stock.entries stock.bundles (kept_after cache self.now.store) in_flight last_ticket self.now.store) self.now) }
    {
        match cache {
            None => {
                let next = self.keep_published(in_flight, last_ticket)?;
                Ok((next, Change::Same))
            }
            Some(cache) => {
                let next = self.publish_parts(alloc, stock, cache, in_flight, last_ticket)?;
                Ok((next, Change::New))
            }
        }
    }

    /// As `settle`, of a cache that another `renew_before` may have made: where the last publication shows it with this
    /// stock, there is no new one.
    pub(crate) fn settle_synced(
        &self,
        alloc: Global,
        stock: Stock,
        cache: KeptSvids,
        is_same: bool,
        in_flight: InFlight,
    ) -> Result<(Store<V>, Change), Memory>
        requires stock { IsStock stock.entries stock.bundles }
        requires indexed { stock.index ≡ stock.entries }
        requires cached { cache.asks ≡ asks_of stock.entries }
        requires trusted { AllTrusted V.signed self.now.store.strict cache.svids }
        requires same { is_same ≡ shows_parts self.now.published stock.entries cache.svids stock.bundles }
        ensures next { IfOk result (λ r. r.0 ≡ stored_after
            (with_parts stock.entries stock.bundles cache in_flight self.now.store.last_ticket self.now.store) self.now) }
        ensures change { IfOk result (λ r. r.1 ≡ change_to
            (with_parts stock.entries stock.bundles cache in_flight self.now.store.last_ticket self.now.store) self.now) }
    {
        if is_same {
            let next = self.retime(alloc, cache, in_flight, self.last_number())?;
            return Ok((next, Change::Same));
        }
        let last_ticket = self.last_number();
        let (next, change) = self.settle(alloc, stock, Some(cache), in_flight, last_ticket)?;
        Ok((next, change))
    }

    /// Takes a prepared step: its whole state, whatever the store is now. So a caller prepares a step and adopts it with
    /// no other step between. It takes no memory.
    pub fn adopt(&mut self, prepared: Prepared<V>) -> Adopted
        ensures new { self.new ≡ prepared.next }
        ensures answer { result ≡ prepared.answer }
    {
        let Prepared { next, answer } = prepared;
        *self = next;
        answer
    }
}

//! Reading documents.

ghost use Rattle.std.specs.Prelude.{◌≡◌, ◌≤◌, ℕ, List, false, [], is_none, map, filter, length, Some, None, IfOk, IfErr, IsOkAnd};
ghost use Rattle.std.specs.Cmp.Lexicographic.{pointwise};
ghost use Rattle.list_laws.specs.Keys.{item_at};
ghost use Rattle.list_laws.specs.Lists.{Rises};
ghost use Rattle.wl_selector.specs.Selectors.{has_text};
ghost use Rattle.wl_entry.specs.Keys.{entry_key, svid_key};
ghost use Rattle.wl_entry.specs.Same.{same_entry, same_svid, same_bundle};
ghost use Rattle.svid_cache.specs.Caches.{with_asks, is_listed};
ghost use Rattle.wl_document.specs.Checks.{Faults};
ghost use Rattle.wl_document.specs.Documents.{document_state};
ghost use Rattle.wl_store.specs.Steps.{stored_after, change_to, after_sync, IsStock, AllTrusted, kept_after};
ghost use Rattle.wl_store.specs.Stores.{asks_of, cached_of, shows_parts, with_entries};
ghost use Rattle.wl_snapshot.specs.Untouched.{SameBut};

use crate::lists::{asks_for, share_bundles, share_entries};
use crate::preparing::Prepared;
use crate::stock::Stock;
use crate::store::Store;
use crate::tickets::Adopted;
use crate::touched::ids_changed;
use std::alloc::Global;
use svid_cache::KeptSvids;
use wl_document::{AuthorityState, DocFault, read_state};
use wl_entry::{Bundle, Entry, Voucher};
use wl_match::Index;
use wl_octets::{Memory, Octets, Row, Shared};

impl<V: Voucher> Store<V> {
    /// The cache with the asks of these entries and this `renew_before`.
    fn cache_for(
        &self,
        alloc: Global,
        entries: &Row<Entry>,
        renew_before: u64,
    ) -> Result<KeptSvids, Memory>
        requires rises { Rises (map entry_key entries.now) }
        requires at_most { length entries.now ≤ 10000 }
        ensures value { IfOk result
            (λ c. c ≡ with_asks (asks_of entries.now) renew_before (cached_of self.now.store)) }
        ensures trusted { IfOk result (λ c. AllTrusted V.signed self.now.store.strict c.svids) }
    {
        let asks = asks_for(alloc, entries.as_slice())?;
        let svids = self.svids();
        let cache = self.table().prepare_sync(alloc, svids, asks, renew_before)?;
        Ok(cache)
    }

    /// The entries, and whether they are those of the last publication. What is known of them from there is shared, the
    /// whole list where they are the same.
    fn known_entries(
        &self,
        alloc: Global,
        entries: Row<Entry>,
    ) -> Result<(Shared<Row<Shared<Entry>>>, bool), Memory>
        ensures entries { IfOk result (λ r. r.0 ≡ entries) }
        ensures same { IfOk result (λ r. r.1 ≡ pointwise same_entry self.now.published.entries entries) }
    {
        let old = self.published.part();
        let entries = share_entries(alloc, old.entries.part().as_slice(), entries)?;
        if old.entries.part().as_slice() == entries.as_slice() {
            return Ok((old.entries.share()?, true));
        }
        Ok((Shared::new(alloc, entries)?, false))
    }

    /// The bundles, and whether they are those of the last publication, as for entries.
    fn known_bundles(
        &self,
        alloc: Global,
        bundles: Row<Bundle>,
    ) -> Result<(Shared<Row<Shared<Bundle>>>, bool), Memory>
        ensures bundles { IfOk result (λ r. r.0 ≡ bundles) }
        ensures same { IfOk result (λ r. r.1 ≡ pointwise same_bundle self.now.published.bundles bundles) }
    {
        let old = self.published.part();
        let bundles = share_bundles(alloc, old.bundles.part().as_slice(), bundles)?;
        if old.bundles.part().as_slice() == bundles.as_slice() {
            return Ok((old.bundles.share()?, true));
        }
        Ok((Shared::new(alloc, bundles)?, false))
    }

    /// The index of these entries: that of the last publication, where they are its entries.
    fn index_for(
        &self,
        alloc: Global,
        entries: &[Shared<Entry>],
        is_same: bool,
    ) -> Result<Shared<Index>, Memory>
        requires rises { Rises (map entry_key entries.now) }
        requires at_most { length entries.now ≤ 10000 }
        requires same { is_same ≡ pointwise same_entry self.now.published.entries entries.now }
        ensures { IfOk result (λ x. x ≡ entries.now) }
    {
        if is_same {
            return self.index.share();
        }
        let index = self.index.part().synced(alloc, entries)?;
        Ok(Shared::new(alloc, index)?)
    }

    /// The ids of the entries that are others than in the last publication.
    fn ids_touched(
        &self,
        alloc: Global,
        entries: &[Shared<Entry>],
        is_same: bool,
    ) -> Result<Row<Octets>, Memory>
        requires rises { Rises (map entry_key entries.now) }
        requires same { is_same ≡ pointwise same_entry self.now.published.entries entries.now }
        ensures entries { IfOk result (λ ids. (id : List ℕ) → has_text ids id ≡ false →
            item_at entry_key entries.now id ≡ item_at entry_key self.now.published.entries id) }
        // The SVIDs of the others stay.
        ensures svids { IfOk result (λ ids. (id : List ℕ) → has_text ids id ≡ false →
            item_at svid_key (filter (λ s. is_listed (asks_of entries.now) s.ask) self.now.published.svids) id
            ≡ item_at svid_key self.now.published.svids id) }
    {
        let old = self.published.part();
        let before = old.entries.part().as_slice();
        if is_same {
            return Ok(Row::empty(alloc));
        }
        let ids = ids_changed(alloc, before, entries)?;
        Ok(ids)
    }

    /// Whether the last publication has the SVIDs of this cache.
    fn has_svids(&self, alloc: Global, cache: &KeptSvids) -> Result<bool, Memory>
        ensures { IfOk result (λ same. same ≡ pointwise same_svid self.now.published.svids cache.now.svids) }
    {
        let old = self.published.part().svids.to_row(alloc)?;
        let new = cache.svids().to_row(alloc)?;
        Ok(old == new)
    }

    /// The step of a document's entries, bundles and `renew_before`.
    fn restock(
        &self,
        alloc: Global,
        entries: Row<Entry>,
        bundles: Row<Bundle>,
        renew_before: u64,
    ) -> Result<Prepared<V>, Memory>
        requires { IsStock entries bundles }
        ensures next { IfOk result
            (λ p. p.next ≡ stored_after (with_entries entries bundles renew_before self.now.store) self.now) }
        ensures change { IfOk result
            (λ p. p.answer.change ≡ change_to (with_entries entries bundles renew_before self.now.store) self.now) }
        ensures tickets { IfOk result (λ p. p.answer.tickets ≡ []) }
        ensures installed { IfOk result (λ p. p.answer.installed ≡ None) }
        ensures touched { IfOk result (λ p. SameBut p.answer.touched self.now.published p.next.published) }
    {
        // a field that is read tells the proof what the type keeps
        let _ = &self.last_ticket;
        let cache = self.cache_for(alloc, &entries, renew_before)?;
        let (entries, same_entries) = self.known_entries(alloc, entries)?;
        let (bundles, same_bundles) = self.known_bundles(alloc, bundles)?;
        let index = self.index_for(alloc, entries.part().as_slice(), same_entries)?;
        let touched = self.ids_touched(alloc, entries.part().as_slice(), same_entries)?;
        let same_svids = self.has_svids(alloc, &cache)?;
        let is_same = same_entries && same_svids && same_bundles;
        let stock = Stock {
            entries,
            index,
            bundles,
        };
        let in_flight = self.copy_flights(alloc)?;
        let (next, change) = self.settle_synced(alloc, stock, cache, is_same, in_flight)?;
        Ok(Prepared {
            next,
            answer: Adopted {
                change,
                tickets: Row::empty(alloc),
                installed: None,
                touched,
            },
        })
    }

    /// Prepares the step of a document that says this. The state's own domain is not looked at: the
    /// publications' stays.
    pub fn prepare_state(&self, alloc: Global, state: AuthorityState) -> Result<Prepared<V>, Memory>
        ensures next { IfOk result (λ p. p.next ≡ stored_after (after_sync state self.now) self.now) }
        ensures change { IfOk result (λ p. p.answer.change ≡ change_to (after_sync state self.now) self.now) }
        ensures tickets { IfOk result (λ p. p.answer.tickets ≡ []) }
        ensures installed { IfOk result (λ p. p.answer.installed ≡ None) }
        ensures touched { IfOk result (λ p. SameBut p.answer.touched self.now.published p.next.published) }
    {
        let AuthorityState {
            domain: _,
            bundles,
            entries,
            svids: _,
            renew_before,
        } = state;
        let prepared = self.restock(alloc, entries, bundles, renew_before)?;
        Ok(prepared)
    }

    /// Prepares the step that a document is read. Its own domain has to be the store's.
    pub fn prepare_sync(&self, alloc: Global, document: &[u8]) -> Result<Prepared<V>, DocFault>
        ensures next { IfOk result
            (λ p. IsOkAnd (document_state (Some self.now.published.domain) document.now)
            (λ d. p.next ≡ stored_after (after_sync d self.now) self.now)) }
        ensures change { IfOk result
            (λ p. IsOkAnd (document_state (Some self.now.published.domain) document.now)
            (λ d. p.answer.change ≡ change_to (after_sync d self.now) self.now)) }
        ensures tickets { IfOk result (λ p. p.answer.tickets ≡ []) }
        ensures installed { IfOk result (λ p. p.answer.installed ≡ None) }
        ensures touched { IfOk result (λ p. SameBut p.answer.touched self.now.published p.next.published) }
        ensures fault { IfErr result
            (λ e. Faults e (document_state (Some self.now.published.domain) document.now)) }
    {
        let state = read_state(alloc, document, Some(&self.published.part().domain))?;
        match self.prepare_state(alloc, state) {
            Ok(prepared) => Ok(prepared),
            Err(Memory) => Err(DocFault::Memory),
        }
    }
}

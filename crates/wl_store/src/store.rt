//! The store.

ghost use Rattle.std.specs.Prelude.{◌≡◌, ◌<◌, ◌==◌, [], true, false, filter, find, length, option_map, None, IfOk, IfErr, IsOkAnd};
ghost use Rattle.std.specs.List.{list_any, All};
ghost use Rattle.std.specs.List.Sorted.{IsStrictlySortedBy};
ghost use Rattle.std.specs.Ordering.{nat_cmp};
ghost use Rattle.wl_entry.specs.Entitled.{is_entitled};
ghost use Rattle.wl_match.specs.Indexes.{entitled_places, items_at};
ghost use Rattle.wl_document.specs.Checks.{Faults};
ghost use Rattle.wl_document.specs.Documents.{document_state};
ghost use Rattle.svid_cache.specs.Caches.{is_listed};
ghost use Rattle.svid_cache.specs.Timetables.{cached_by, IsAbout};
ghost use Rattle.wl_store.specs.Stores.{asks_of, cached_of, has_ticket};
ghost use Rattle.wl_store.specs.Steps.{first_stored, after_failed, AllTrusted, IsStock};

use crate::in_flight::InFlight;
use crate::lists::{index_of, share_bundles, share_entries, table_of};
use crate::publishing::publication;
use crate::tickets::{Flight, Ticket};
use sorted_blocks::SortedBlocks;
use spiffe_id::TrustDomain;
use std::alloc::Global;
use std::marker::{Model, PhantomData};
use svid_cache::Timetable;
use wl_document::{AuthorityState, DocFault, read_state};
use wl_entry::{Ask, Bundle, Entry, Svid, Voucher};
use wl_match::Index;
use wl_octets::{Memory, Row, Shared};
use wl_selector::Selectors;
use wl_snapshot::Snapshot;

/// The store of the agent and its last publication. Times are Unix seconds.
#[derive(Drop)]
pub struct Store<V: Voucher> {
    pub(crate) strict: bool,
    pub(crate) published: Shared<Snapshot>,
    pub(crate) index: Shared<Index>,
    /// It is about the SVIDs of the last publication.
    pub(crate) table: Shared<Timetable>,
    pub(crate) in_flight: InFlight,
    pub(crate) last_ticket: u64,
    pub(crate) of: PhantomData<V>,
}

impl<V: Voucher> Model for Store<V> {
    ghost use Rattle.wl_store.specs.Steps.{Stored, IsKept, stored_of};

    ghost Value = { Stored };

    ghost view = { λ m. stored_of m.strict m.published m.table.renew_before m.in_flight m.last_ticket };

    ghost invariant = { λ m. IsKept V.signed m.strict m.published m.table m.index };
}

impl<V: Voucher> Store<V> {
    /// A store that begins with a document, in which no SVID is kept. Leaves are not judged in it. The first check of
    /// the document that fails is the fault.
    pub fn start(alloc: Global, document: &[u8]) -> Result<Store<V>, DocFault>
        ensures ok { IfOk result
            (λ m. IsOkAnd (document_state None document.now) (λ d. m ≡ first_stored false d)) }
        ensures fault { IfErr result (λ e. Faults e (document_state None document.now)) }
    {
        let state = read_state(alloc, document, None)?;
        match Store::begin(alloc, state, false) {
            Ok(store) => Ok(store),
            Err(Memory) => Err(DocFault::Memory),
        }
    }

    /// As `start`, and the store is strict for good: no SVID is kept whose leaf names another id than its ask's, or has
    /// other times.
    pub fn start_strict(alloc: Global, document: &[u8]) -> Result<Store<V>, DocFault>
        ensures ok { IfOk result
            (λ m. IsOkAnd (document_state None document.now) (λ d. m ≡ first_stored true d)) }
        ensures fault { IfErr result (λ e. Faults e (document_state None document.now)) }
    {
        let state = read_state(alloc, document, None)?;
        match Store::begin(alloc, state, true) {
            Ok(store) => Ok(store),
            Err(Memory) => Err(DocFault::Memory),
        }
    }

    /// A store of a document's state.
    fn begin(alloc: Global, state: AuthorityState, strict: bool) -> Result<Store<V>, Memory>
        ensures { IfOk result (λ m. m ≡ first_stored strict state) }
    {
        let AuthorityState {
            domain,
            bundles,
            entries,
            svids: _,
            renew_before,
        } = state;
        Store::with(alloc, strict, domain, entries, bundles, renew_before)
    }

    /// A store of these parts.
    #[tactic(auto, using(crate::proofs::Publications::none_rises))]
    fn with(
        alloc: Global,
        strict: bool,
        domain: TrustDomain,
        entries: Row<Entry>,
        bundles: Row<Bundle>,
        renew_before: u64,
    ) -> Result<Store<V>, Memory>
        requires { IsStock entries bundles }
        ensures { IfOk result
            (λ m. m
            ≡ first_stored strict
            (record { domain = domain; bundles = bundles; entries = entries; svids = []; renew_before = renew_before })) }
    {
        let table = table_of(alloc, entries.as_slice(), renew_before)?;
        let entries = share_entries(alloc, &[], entries)?;
        let bundles = share_bundles(alloc, &[], bundles)?;
        let index = index_of(alloc, entries.as_slice())?;
        let entries = Shared::new(alloc, entries)?;
        let bundles = Shared::new(alloc, bundles)?;
        let published = publication(
            alloc,
            0,
            domain,
            entries,
            SortedBlocks::empty(alloc),
            bundles,
        )?;
        Ok(Store {
            strict,
            published,
            index,
            table,
            in_flight: InFlight::from_vec(alloc, Vec::new(alloc))?,
            last_ticket: 0,
            of: PhantomData,
        })
    }

    /// The asks, and when they come due and the SVIDs end.
    pub(crate) fn table(&self) -> &Timetable
        ensures value { cached_by result.now self.now.store.svids ≡ cached_of self.now.store }
        ensures about { IsAbout result.now self.now.store.svids }
    {
        self.table.part()
    }

    /// The SVIDs, which are those of the last publication.
    pub(crate) fn svids(&self) -> &SortedBlocks<Svid>
        ensures svids { result.now ≡ self.now.store.svids }
        ensures trusted { AllTrusted V.signed self.now.store.strict self.now.store.svids }
    {
        &self.published.part().svids
    }

    /// The second, in Unix time, since which identities and tokens have to be signed: that of the last document. It takes
    /// no memory.
    pub fn renew_before(&self) -> u64
        ensures { result ≡ self.now.store.renew_before }
    {
        self.table.part().renew_before()
    }

    /// The number of the last ticket.
    pub(crate) fn last_number(&self) -> u64
        ensures { result ≡ self.now.store.last_ticket }
    {
        self.last_ticket
    }

    /// A copy of what is in flight, which shares the list.
    pub(crate) fn copy_flights(&self, alloc: Global) -> Result<InFlight, Memory>
        ensures { IfOk result (λ f. f ≡ self.now.store.in_flight) }
    {
        self.in_flight.copy(alloc)
    }

    /// The last publication. It takes no memory.
    pub fn snapshot(&self) -> &Shared<Snapshot>
        ensures value { result.now ≡ self.now.published }
        ensures trusted { AllTrusted V.signed self.now.store.strict self.now.published.svids }
    {
        &self.published
    }

    /// The index of the entries of the last publication. It takes no memory.
    pub fn index(&self) -> &Shared<Index>
        ensures { result.now ≡ self.now.published.entries }
    {
        &self.index
    }

    /// The places, rising, of exactly the entries of the last publication to which a caller with these selectors is
    /// entitled.
    pub fn entitled(&self, alloc: Global, selectors: &Selectors) -> Result<Row<u32>, Memory>
        ensures value { IfOk result
            (λ places. places ≡ entitled_places selectors.now self.now.published.entries) }
        ensures chosen { IfOk result
            (λ places. items_at self.now.published.entries places
            ≡ filter (is_entitled selectors.now) self.now.published.entries) }
        ensures rising { IfOk result (IsStrictlySortedBy nat_cmp) }
        ensures there { IfOk result (All (λ place. place < length self.now.published.entries)) }
    {
        let places = self.index().part().entitled(alloc, selectors)?;
        Ok(places)
    }

    /// The first ticket in flight of this number. It takes no memory.
    pub fn flight(&self, number: u64) -> Option<&Flight>
        ensures { option_map (λ f. f.now) result ≡ find (λ f. f.number == number) self.now.store.in_flight }
    {
        self.in_flight.find(number)
    }

    /// Whether a ticket of this number is in flight. It takes no memory.
    #[tactic(auto, using(crate::proofs::UnmarkedFlights::any_found))]
    pub fn in_flight(&self, number: u64) -> bool
        ensures { result ≡ list_any (λ f. f.number == number) self.now.store.in_flight }
    {
        self.flight(number).is_some()
    }

    /// The asks of the entries, by ascending entry id. It takes no memory.
    pub fn asks(&self) -> &[Ask]
        ensures { result.now ≡ asks_of self.now.store.entries }
    {
        self.table().asks()
    }

    /// Whether an entry has this ask. It takes no memory.
    pub fn lists(&self, ask: &Ask) -> bool
        ensures { result ≡ is_listed (asks_of self.now.store.entries) ask.now }
    {
        self.table().lists(ask)
    }

    /// Takes back a ticket without an identity: it is in flight no more. Nothing changes where it was not in flight.
    /// It takes no memory.
    #[tactic(auto, unfolding(crate::specs::Stores::without_ticket))]
    pub fn failed(&mut self, ticket: Ticket)
        ensures left { has_ticket ticket.number ticket.ask self.old.store.in_flight ≡ true
            → self.new ≡ after_failed ticket.number self.old }
        ensures other { has_ticket ticket.number ticket.ask self.old.store.in_flight ≡ false
            → self.new ≡ self.old }
    {
        if self.in_flight.has_ticket(&ticket) {
            self.in_flight.remove(ticket.number);
        }
        ticket.abandon();
    }
}

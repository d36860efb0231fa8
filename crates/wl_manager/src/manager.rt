//! The manager.

ghost use Rattle.std.specs.Prelude.{◌≡◌, ◌<◌, ◌==◌, true, false, [], filter, find, length, option_map, None, IfOk, IfErr, IsOkAnd};
ghost use Rattle.std.specs.List.{list_any, All};
ghost use Rattle.std.specs.List.Sorted.{IsStrictlySortedBy};
ghost use Rattle.std.specs.Ordering.{nat_cmp};
ghost use Rattle.wl_entry.specs.Entitled.{is_entitled};
ghost use Rattle.wl_match.specs.Indexes.{entitled_places, items_at};
ghost use Rattle.wl_document.specs.Checks.{Faults};
ghost use Rattle.wl_document.specs.Documents.{document_state};
ghost use Rattle.jwt_cache.specs.Rings.{StandsFor};
ghost use Rattle.svid_cache.specs.Caches.{is_listed};
ghost use Rattle.wl_store.specs.Stores.{asks_of, has_ticket};
ghost use Rattle.wl_store.specs.Steps.{after_failed, AllTrusted};
ghost use Rattle.wl_manager.specs.Managers.{first_managed};

use jwt_cache::Tokens;
use std::alloc::Global;
use std::marker::Model;
use wl_document::DocFault;
use wl_entry::{Ask, Voucher};
use wl_match::Index;
use wl_octets::{Memory, Row, Shared};
use wl_selector::Selectors;
use wl_snapshot::Snapshot;
use wl_store::{Flight, Store, Ticket};

/// The store of the agent, its last publication, and the kept tokens. Times are Unix seconds.
#[derive(Drop)]
pub struct Manager<V: Voucher> {
    pub(crate) store: Store<V>,
    pub(crate) tokens: Tokens,
}

impl<V: Voucher> Model for Manager<V> {
    ghost use Rattle.wl_manager.specs.Managers.{Managed, AllVouched};

    ghost Value = { Managed };

    ghost view = { λ m. record { stored = m.store; tokens = m.tokens } };

    ghost invariant = { λ m. AllVouched V.token m.tokens };
}

impl<V: Voucher> Manager<V> {
    /// A manager that begins with a document, in which neither SVID nor token is kept. Leaves are not judged in it. The
    /// first check of the document that fails is the fault.
    pub fn start(alloc: Global, document: &[u8]) -> Result<Manager<V>, DocFault>
        ensures ok { IfOk result
            (λ m. IsOkAnd (document_state None document.now) (λ d. m ≡ first_managed false d)) }
        ensures tokens { IfOk result (λ m. StandsFor m.tokens []) }
        ensures fault { IfErr result (λ e. Faults e (document_state None document.now)) }
    {
        let store = Store::start(alloc, document)?;
        Ok(Manager {
            store,
            tokens: Tokens::start(alloc),
        })
    }

    /// As `start`, and the store is strict for good: no SVID is kept whose leaf names another id than its ask's, or has
    /// other times.
    pub fn start_strict(alloc: Global, document: &[u8]) -> Result<Manager<V>, DocFault>
        ensures ok { IfOk result
            (λ m. IsOkAnd (document_state None document.now) (λ d. m ≡ first_managed true d)) }
        ensures tokens { IfOk result (λ m. StandsFor m.tokens []) }
        ensures fault { IfErr result (λ e. Faults e (document_state None document.now)) }
    {
        let store = Store::start_strict(alloc, document)?;
        Ok(Manager {
            store,
            tokens: Tokens::start(alloc),
        })
    }

    /// The last publication. It takes no memory.
    pub fn snapshot(&self) -> &Shared<Snapshot>
        ensures value { result.now ≡ self.now.stored.published }
        ensures trusted { AllTrusted V.signed self.now.stored.store.strict self.now.stored.published.svids }
    {
        self.store.snapshot()
    }

    /// The index of the entries of the last publication. It takes no memory.
    pub fn index(&self) -> &Shared<Index>
        ensures { result.now ≡ self.now.stored.published.entries }
    {
        self.store.index()
    }

    /// The places, rising, of exactly the entries of the last publication to which a caller with these selectors is
    /// entitled.
    pub fn entitled(&self, alloc: Global, selectors: &Selectors) -> Result<Row<u32>, Memory>
        ensures value { IfOk result
            (λ places. places ≡ entitled_places selectors.now self.now.stored.published.entries) }
        ensures chosen { IfOk result
            (λ places. items_at self.now.stored.published.entries places
            ≡ filter (is_entitled selectors.now) self.now.stored.published.entries) }
        ensures rising { IfOk result (IsStrictlySortedBy nat_cmp) }
        ensures there { IfOk result (All (λ place. place < length self.now.stored.published.entries)) }
    {
        let places = self.store.entitled(alloc, selectors)?;
        Ok(places)
    }

    /// The first ticket in flight of this number. It takes no memory.
    pub fn flight(&self, number: u64) -> Option<&Flight>
        ensures { option_map (λ f. f.now) result
            ≡ find (λ f. f.number == number) self.now.stored.store.in_flight }
    {
        self.store.flight(number)
    }

    /// Whether a ticket of this number is in flight. It takes no memory.
    pub fn in_flight(&self, number: u64) -> bool
        ensures { result ≡ list_any (λ f. f.number == number) self.now.stored.store.in_flight }
    {
        self.store.in_flight(number)
    }

    /// Whether an entry has this ask.
    pub fn lists(&self, ask: &Ask) -> bool
        ensures { result ≡ is_listed (asks_of self.now.stored.store.entries) ask.now }
    {
        self.store.lists(ask)
    }

    /// The second, in Unix time, since which identities and tokens have to be signed: that of the last document. It takes
    /// no memory.
    pub fn renew_before(&self) -> u64
        ensures { result ≡ self.now.stored.store.renew_before }
    {
        self.store.renew_before()
    }

    /// Takes back a ticket without an identity: it is in flight no more. Nothing changes where it was not in flight.
    /// It takes no memory.
    pub fn failed(&mut self, ticket: Ticket)
        ensures left { has_ticket ticket.number ticket.ask self.old.stored.store.in_flight ≡ true →
            self.new.stored ≡ after_failed ticket.number self.old.stored }
        ensures other { has_ticket ticket.number ticket.ask self.old.stored.store.in_flight ≡ false
            → self.new.stored ≡ self.old.stored }
        ensures tokens { self.new.tokens ≡ self.old.tokens }
    {
        self.store.failed(ticket);
    }
}

//! Registration entries.

ghost use Rattle.std.specs.Prelude.{◌≡◌, IfOk};
ghost use Rattle.wl_entry.specs.Asks.{ask_of, is_ask_of};

use crate::asks::Ask;
use spiffe_id::{SpiffeId, TrustDomain};
use std::alloc::Global;
use wl_octets::{Memory, Octets, Row, TryClone, clone_all};
use wl_selector::Selectors;

/// A registration entry: the identity of the workloads that have all its selectors.
#[derive(PartialEq, Drop)]
pub struct Entry {
    pub id: Octets,
    pub spiffe_id: SpiffeId,
    pub selectors: Selectors,
    /// The domains whose bundles those workloads see beside the own one.
    pub federates_with: Row<TrustDomain>,
    pub dns_names: Row<Octets>,
    /// How long an identity is to last, in seconds.
    pub ttl: u32,
    /// Empty where there is none.
    pub hint: Octets,
}

impl Entry {
    /// What is to be signed for it. The hint isn't part of that.
    pub fn ask(&self, alloc: Global) -> Result<Ask, Memory>
        ensures { IfOk result (λ a. a ≡ ask_of self.now) }
    {
        Ok(Ask {
            entry_id: self.id.copy(alloc)?,
            spiffe_id: self.spiffe_id.copy(alloc)?,
            dns_names: clone_all(alloc, self.dns_names.as_slice())?,
            ttl: self.ttl,
        })
    }

    /// Whether the ask is this entry's.
    pub fn asks(&self, ask: &Ask) -> bool
        ensures { result ≡ is_ask_of self.now ask.now }
    {
        self.id == ask.entry_id
            && self.spiffe_id == ask.spiffe_id
            && self.dns_names == ask.dns_names
            && self.ttl == ask.ttl
    }

    /// A copy of the entry.
    pub fn copy(&self, alloc: Global) -> Result<Entry, Memory>
        ensures { IfOk result (λ e. e ≡ self.now) }
    {
        Ok(Entry {
            id: self.id.copy(alloc)?,
            spiffe_id: self.spiffe_id.copy(alloc)?,
            selectors: self.selectors.copy(alloc)?,
            federates_with: clone_all(alloc, self.federates_with.as_slice())?,
            dns_names: clone_all(alloc, self.dns_names.as_slice())?,
            ttl: self.ttl,
            hint: self.hint.copy(alloc)?,
        })
    }
}

impl TryClone for Entry {
    fn try_clone(&self, alloc: Global) -> Result<Entry, Memory> {
        self.copy(alloc)
    }
}

//! What a document says.

ghost use Rattle.std.specs.Prelude.{◌≡◌, IfOk};

use sorted_lists::Keyed;
use spiffe_id::TrustDomain;
use std::alloc::Global;
use std::marker::Model;
use wl_entry::{Bundle, Entry, Signed};
use wl_octets::{Memory, Octets, Row, TryClone, clone_all};

/// A signed identity that a document gives: that of the entry with this id.
#[derive(PartialEq, Drop)]
pub struct DocSvid {
    pub entry_id: Octets,
    pub signed: Signed,
}

impl DocSvid {
    /// A copy of the signed identity.
    pub fn copy(&self, alloc: Global) -> Result<DocSvid, Memory>
        ensures { IfOk result (λ s. s ≡ self.now) }
    {
        Ok(DocSvid {
            entry_id: self.entry_id.copy(alloc)?,
            signed: self.signed.copy(alloc)?,
        })
    }
}

impl TryClone for DocSvid {
    fn try_clone(&self, alloc: Global) -> Result<DocSvid, Memory> {
        self.copy(alloc)
    }
}

impl Keyed for DocSvid {
    ghost use Rattle.wl_document.specs.Svids.{doc_svid_key};

    ghost key = { doc_svid_key };

    fn key(&self) -> &[u8] {
        self.entry_id.as_slice()
    }
}

/// The state of an authority: its trust domain, the bundles by ascending domain, the entries by ascending id, and
/// the signed identities by ascending id of their entries; each key once, and nothing past the limits.
#[derive(Drop)]
pub struct AuthorityState {
    pub domain: TrustDomain,
    pub bundles: Row<Bundle>,
    pub entries: Row<Entry>,
    pub svids: Row<DocSvid>,
    /// The second, in Unix time, since which identities and tokens have to be signed, or else they are replaced; 0
    /// where the document names none.
    pub renew_before: u64,
}

impl Model for AuthorityState {
    ghost use Rattle.wl_document.specs.States.{State, Within};

    ghost Value = { State };

    ghost view = { λ s. record { domain = s.domain; bundles = s.bundles; entries = s.entries; svids = s.svids; renew_before = s.renew_before } };

    ghost invariant = { λ s. Within (record { domain = s.domain; bundles = s.bundles; entries = s.entries; svids = s.svids; renew_before = s.renew_before }) };
}

impl AuthorityState {
    /// A copy of the state.
    pub fn copy(&self, alloc: Global) -> Result<AuthorityState, Memory>
        ensures { IfOk result (λ s. s ≡ self.now) }
    {
        let domain = self.domain.copy(alloc)?;
        let bundles = clone_all(alloc, self.bundles.as_slice())?;
        let entries = clone_all(alloc, self.entries.as_slice())?;
        let svids = clone_all(alloc, self.svids.as_slice())?;
        Ok(AuthorityState {
            domain,
            bundles,
            entries,
            svids,
            renew_before: self.renew_before,
        })
    }
}

//! Documents whose identities are shared with the signers.

ghost use Rattle.std.specs.Prelude.{◌≡◌};

use crate::identities::{Identities, SharedIdentities};
use std::alloc::Global;
use wl_edge::{EdgeFault, Upstream};
use wl_octets::{Memory, Octets};

/// Another upstream. Where identities are shared, those of each new document take the place of those before, before the document
/// is handed on; a document with a fault changes nothing. Where memory runs out meanwhile, or a signer looks in that very moment,
/// they stay as they were until the next pull.
#[derive(Drop)]
pub struct SharingUpstream<U> {
    inner: U,
    alloc: Global,
    identities: Option<SharedIdentities>,
    /// The document whose identities were shared last.
    last: Octets,
    /// Whether it is the one that was pulled last, or none are shared.
    is_shared: bool,
}

impl<U: Upstream> SharingUpstream<U> {
    /// An upstream over this one, which shares identities or doesn't.
    pub fn start(
        inner: U,
        alloc: Global,
        identities: Option<SharedIdentities>,
    ) -> SharingUpstream<U>
        ensures told { ⟦<SharingUpstream<U> as Upstream>⟧.told result ≡ U.told inner }
        ensures faults { ⟦<SharingUpstream<U> as Upstream>⟧.faults result ≡ U.faults inner }
    {
        SharingUpstream {
            inner,
            alloc,
            identities,
            last: Octets::empty(alloc),
            is_shared: false,
        }
    }

    /// Shares the identities of a document, where it isn't the last one. False where a signer looks at that moment.
    fn share(&mut self, document: &[u8]) -> Result<bool, Memory>
        ensures { self.new.inner ≡ self.old.inner }
    {
        let Some(identities) = &self.identities else {
            return Ok(true);
        };
        if self.last.as_slice() == document {
            return Ok(true);
        }
        let copy = Octets::from_slice(self.alloc, document)?;
        if let Some(read) = Identities::read(self.alloc, document)? {
            let Some(mut held) = identities.try_write() else {
                return Ok(false);
            };
            *held = Some(read);
        }
        self.last = copy;
        Ok(true)
    }
}

impl<U: Upstream> Upstream for SharingUpstream<U> {
    ghost told = { λ u. U.told u.inner };

    ghost faults = { λ u. U.faults u.inner };

    fn pull(&mut self, into: &mut Octets) -> Result<(), EdgeFault> {
        let before = into.len();
        self.inner.pull(into)?;
        let shared = self.share(into.as_slice().split_at(before).1);
        self.is_shared = shared == Ok(true);
        Ok(())
    }

    fn is_unchanged(&self) -> bool {
        self.is_shared && self.inner.is_unchanged()
    }

    fn note_taken(&self, publication: u64) {
        self.inner.note_taken(publication);
    }
}

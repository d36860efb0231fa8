//! What is asked to be signed for an entry.

ghost use Rattle.std.specs.Prelude.{◌≡◌, IfOk};

use spiffe_id::SpiffeId;
use std::alloc::Global;
use wl_octets::{Memory, Octets, Row, clone_all};

/// What a signer is asked for: an identity for an entry, with its DNS names, for so many seconds.
#[derive(PartialEq, Drop)]
pub struct Ask {
    pub entry_id: Octets,
    pub spiffe_id: SpiffeId,
    pub dns_names: Row<Octets>,
    /// How long the identity is to last, in seconds.
    pub ttl: u32,
}

impl Ask {
    /// A copy of the ask.
    pub fn copy(&self, alloc: Global) -> Result<Ask, Memory>
        ensures { IfOk result (λ a. a ≡ self.now) }
    {
        Ok(Ask {
            entry_id: self.entry_id.copy(alloc)?,
            spiffe_id: self.spiffe_id.copy(alloc)?,
            dns_names: clone_all(alloc, self.dns_names.as_slice())?,
            ttl: self.ttl,
        })
    }
}

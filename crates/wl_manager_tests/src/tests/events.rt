//! What happens to a manager.

use std::alloc::Global;
use std::process::Abort;
use wl_entry::Signed;
use wl_octets::Octets;

/// What a signer gives. Times are Unix seconds.
#[derive(Clone, Copy)]
pub struct Identity {
    pub chain: &'static [u8],
    pub key: &'static [u8],
    pub not_before: u64,
    pub not_after: u64,
}

impl Identity {
    pub fn signed(self, rt: &impl Abort, alloc: Global) -> Signed {
        Signed {
            chain: Octets::from_slice(alloc, self.chain).expect(rt, "memory"),
            key: Octets::from_slice(alloc, self.key).expect(rt, "memory"),
            not_before: self.not_before,
            not_after: self.not_after,
        }
    }
}

/// An event. Times are Unix seconds.
#[derive(Clone, Copy)]
pub enum Event {
    /// A document is read.
    Sync(&'static [u8]),
    /// A document is read first, and then what it says is taken.
    SyncState(&'static [u8]),
    /// What is due at this time is claimed.
    Claim(u64),
    /// The ticket of this number comes back with an identity, at this time.
    Signed(u64, Identity, u64),
    /// A ticket of this number, with the ask of the ticket of that number, comes back with an identity, at this time.
    SignedAs(u64, u64, Identity, u64),
    /// The ticket of this number comes back without one.
    Failed(u64),
    /// The caller `unix:uid:1` is answered.
    Answer,
}

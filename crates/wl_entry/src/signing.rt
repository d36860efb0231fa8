//! Signed identities.

ghost use Rattle.std.specs.Prelude.{◌≡◌, IfOk};
ghost use Rattle.wl_entry.specs.Fitness.{signed_unfit, is_half_over, is_wanted};

use crate::asks::Ask;
use crate::limits::MAX_SIGNED_LEN;
use crate::unfit::Unfit;
use std::alloc::Global;
use wl_octets::{Memory, Octets};

/// A signed identity, from its first second on. Times are Unix seconds.
#[derive(PartialEq, Drop)]
pub struct Signed {
    /// Certificates in DER, the leaf first.
    pub chain: Octets,
    /// The private key, in PKCS#8 DER.
    pub key: Octets,
    pub not_before: u64,
    pub not_after: u64,
}

impl Signed {
    /// The first reason for which it is of no use at this time, of those that its times and lengths give.
    #[tactic(auto, unfolding(crate::specs::Fitness::signed_unfit))]
    pub fn unfit(&self, now: u64) -> Option<Unfit>
        ensures { result ≡ signed_unfit now self.now }
    {
        if self.not_after <= self.not_before {
            return Some(Unfit::Times);
        }
        if self.not_after <= now {
            return Some(Unfit::Expired);
        }
        if self.chain.len() == 0 {
            return Some(Unfit::EmptyChain);
        }
        if self.key.len() == 0 {
            return Some(Unfit::EmptyKey);
        }
        let size = self.chain.len() + self.key.len();
        if size > MAX_SIGNED_LEN {
            return Some(Unfit::TooLong(size));
        }
        None
    }

    /// Whether half of its time has passed, so that a new one is due.
    pub fn is_due(&self, now: u64) -> bool
        ensures { result ≡ is_half_over now self.now }
    {
        self.not_before as u128 + self.not_after as u128 <= 2 * now as u128
    }

    /// Whether it was signed since the second `renew_before`, and has begun. An identity that begins after now was
    /// signed while a clock was ahead.
    pub fn is_wanted(&self, renew_before: u64, now: u64) -> bool
        ensures { result ≡ is_wanted renew_before now self.now }
    {
        renew_before <= self.not_before && self.not_before <= now
    }

    /// A copy of the identity.
    pub fn copy(&self, alloc: Global) -> Result<Signed, Memory>
        ensures { IfOk result (λ s. s ≡ self.now) }
    {
        Ok(Signed {
            chain: self.chain.copy(alloc)?,
            key: self.key.copy(alloc)?,
            not_before: self.not_before,
            not_after: self.not_after,
        })
    }
}

/// An identity beside the ask for which it was signed.
#[derive(PartialEq, Drop)]
pub struct Svid {
    pub ask: Ask,
    pub signed: Signed,
}

impl Svid {
    /// A copy of the SVID.
    pub fn copy(&self, alloc: Global) -> Result<Svid, Memory>
        ensures { IfOk result (λ s. s ≡ self.now) }
    {
        Ok(Svid {
            ask: self.ask.copy(alloc)?,
            signed: self.signed.copy(alloc)?,
        })
    }
}

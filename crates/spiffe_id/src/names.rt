//! Trust domain names.

ghost use Rattle.std.specs.Prelude.{◌≡◌, IfOk, IfErr};
ghost use Rattle.spiffe_id.specs.Grammar.{IsDomain};
ghost use Rattle.spiffe_id.specs.Faults.{domain_fault, Reads};

use crate::faults::IdFault;
use crate::finding::fault_of_domain;
use std::alloc::Global;
use std::marker::Model;
use wl_octets::{Memory, Octets, TryClone};

/// The name of a trust domain: 1 to 255 bytes of `a-z 0-9 . - _` (SPIFFE-ID, section 2.1; the upper
/// limit is an own rule). Two are ordered by their bytes.
#[derive(Drop, PartialEq, Eq, PartialOrd, Ord)]
pub struct TrustDomain {
    name: Octets,
}

impl Model for TrustDomain {
    ghost use Rattle.std.specs.Prelude.{◌≡◌, List, ℕ, None};
    ghost use Rattle.spiffe_id.specs.Faults.{domain_fault};

    ghost Value = { List ℕ };

    ghost view = { λ d. d.name };

    ghost invariant = { λ d. domain_fault 0 d.name ≡ None };

    ghost inverse = { λ name. record { name = name } };
}

impl TrustDomain {
    /// Reads a name. A text that is none has its first fault.
    pub fn parse(alloc: Global, text: &[u8]) -> Result<TrustDomain, IdFault>
        ensures reads { Reads text.now (domain_fault 0 text.now) result }
        ensures refused { IfErr result (λ e. IsDomain text.now → e ≡ IdFault.Memory) }
    {
        match fault_of_domain(0, text) {
            Some(fault) => Err(fault),
            None => Ok(TrustDomain {
                name: Octets::from_slice(alloc, text)?,
            }),
        }
    }

    /// The bytes of the name.
    pub fn as_bytes(&self) -> &[u8]
        ensures value { result.now ≡ self.now }
        ensures name { IsDomain self.now }
    {
        self.name.as_slice()
    }

    /// A copy.
    pub fn copy(&self, alloc: Global) -> Result<TrustDomain, Memory>
        ensures { IfOk result (λ d. d ≡ self.now) }
    {
        Ok(TrustDomain {
            name: self.name.copy(alloc)?,
        })
    }
}

impl TryClone for TrustDomain {
    fn try_clone(&self, alloc: Global) -> Result<TrustDomain, Memory> {
        self.copy(alloc)
    }
}
